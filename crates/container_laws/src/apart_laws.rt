//! What a server can't touch, whatever it sends.

ghost use Rattle.container_laws.specs.Apart.{MessagesStayApart};

/// Where a record is steady, a message on the link of a server, whatever it says, leaves the objects as they are that
/// this server doesn't run, but for what they are asked, and the frames that none of its objects has, is to get or is
/// to give up.
pub fn messages_stay_apart()
    ensures { MessagesStayApart }
{}
