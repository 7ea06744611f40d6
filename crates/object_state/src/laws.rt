//! Laws above the tables. Each function is empty: its contract is the law, which is proved.
ghost use Rattle.object_state.specs.Laws.{NormalAgain, AwayUntilEnded, VerbsLead, ClosesEnd};

/// An object may write again only as its last save is completed or dropped, by its number; or it is
/// given its storage just now, by InitNew or Load.
pub fn normal_again()
    ensures { NormalAgain }
{}

/// From a Save or HandsOff on no write is allowed, whatever operations come, refused ones among them,
/// until the last save is completed or dropped, by its number.
pub fn away_until_ended()
    ensures { AwayUntilEnded }
{}

/// The operations of a verb are taken one after the other, and lead to the state that the verb is for.
pub fn verbs_lead()
    ensures { VerbsLead }
{}

/// The operations of a close are taken one after the other, and leave the object passive.
pub fn closes_end()
    ensures { ClosesEnd }
{}
