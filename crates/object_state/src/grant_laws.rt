//! Laws above the table of a frame's grant. Each function is empty: its contract is the law, which is
//! proved.
ghost use Rattle.object_state.specs.GrantLaws.{FreedByHolder, GivenInTurn, WaitingApart, HeldByAnswer};
ghost use Rattle.object_state.specs.GrantLaws.{ContainersUnlessHeld, BorderLeavesRoom};

/// Whoever has the frame, or is to get it, keeps it until its activation is lost, or until it gives the
/// frame up, having been told to.
pub fn freed_by_holder()
    ensures { FreedByHolder }
{}

/// The frame goes to an object that asks for it while it is free, or that waited for it.
pub fn given_in_turn()
    ensures { GivenInTurn }
{}

/// A frame has one holder at most, and whoever waits is another object, with another activation.
pub fn waiting_apart()
    ensures { WaitingApart }
{}

/// An object comes to hold the frame only as it answers its own grant.
pub fn held_by_answer()
    ensures { HeldByAnswer }
{}

/// After any events menu and border are the container's own unless an object holds the frame.
pub fn containers_unless_held()
    ensures { ContainersUnlessHeld }
{}

/// After any events the border is zero or leaves room in the frame.
pub fn border_leaves_room()
    ensures { BorderLeavesRoom }
{}
