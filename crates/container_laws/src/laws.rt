//! Laws above the steps of a container. Each function is empty: its contract is the law, which is proved.

ghost use Rattle.container_laws.specs.Laws.{EarlierSessionsAreStale, FreedByHolders, OnlyExpectedMessages};
ghost use Rattle.container_laws.specs.Laws.{OtherAsksAreStale, OtherServersAreRefused, OtherWritesAreStale};
ghost use Rattle.container_laws.specs.Laws.{OthersAreStale, ReapsEndTheirs, ReapsKeepOthers, WritesAreKept};
ghost use Rattle.container_laws.specs.Laws.{MessagesKeepOthers};

/// Only the reply to a pending call moves a record, by its number, or a write under the storage grant that the record
/// holds open, or an ask of whoever holds its frame: by its activation, and on the link of its server.
pub fn only_expected_messages()
    ensures { OnlyExpectedMessages }
{}

/// A reply to another call than the pending one of its activation is stale, and so changes nothing.
pub fn others_are_stale()
    ensures { OthersAreStale }
{}

/// A write under a storage grant that isn't held open is stale, and so changes nothing.
pub fn other_writes_are_stale()
    ensures { OtherWritesAreStale }
{}

/// An ask by an activation that doesn't hold its frame, or under another grant, is stale, and so changes nothing.
pub fn other_asks_are_stale()
    ensures { OtherAsksAreStale }
{}

/// A write that is taken is the work content of its object from then on, and nothing else is changed but the number of
/// the last write.
pub fn writes_are_kept()
    ensures { WritesAreKept }
{}

/// A message on the link of another server is refused, and so changes nothing: of another incarnation, or of another
/// session.
pub fn other_servers_are_refused()
    ensures { OtherServersAreRefused }
{}

/// On the link of a server of another session than the container's, whatever this server says is stale, and so changes
/// nothing.
pub fn earlier_sessions_are_stale()
    ensures { EarlierSessionsAreStale }
{}

/// Where a record is steady, a message leaves the objects as they are that don't have its activation, but for one that
/// waited for its frame, which is told of its grant, and those of a frame that is saved under another name, which are
/// asked for their storages.
pub fn messages_keep_others()
    ensures { MessagesKeepOthers }
{}

/// Where a record is steady, the end of a server leaves the objects of other servers as they are, but for those that
/// waited for their frames, which are told of their grants, and those of frames that are saved under other names, which
/// are asked for their storages.
pub fn reaps_keep_others()
    ensures { ReapsKeepOthers }
{}

/// Where a record is steady, the objects of a server that has ended are passive, with the content that they answered in
/// the present save, if any.
pub fn reaps_end_theirs()
    ensures { ReapsEndTheirs }
{}

/// Where a record is steady, a frame is given up by its holder's own answer alone, once it was told to: no other
/// message changes who has the frame or is to get it.
pub fn freed_by_holders()
    ensures { FreedByHolders }
{}
