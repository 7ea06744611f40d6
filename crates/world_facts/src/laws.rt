//! Laws: each shape of change keeps the facts. Each function is empty: its contract is the law, which is proved.

ghost use Rattle.world_facts.specs.Laws.{ActingKeeps, ActingKeepsViews, AskingKeeps, BeginningKeeps, CountingKeeps};
ghost use Rattle.world_facts.specs.Laws.{EndingKeeps, LeavingKeepsViews, SendingNextKeeps, SettlingKeeps};
ghost use Rattle.world_facts.specs.Laws.{StartingKeeps, TellingKeeps, TurningHostileKeeps, TurningHostileKeepsViews};

/// The facts stay where the pending operation of an object was answered.
pub fn settling_keeps()
    ensures { SettlingKeeps }
{}

/// The facts stay where the first operation that waits is sent.
pub fn sending_next_keeps()
    ensures { SendingNextKeeps }
{}

/// The facts stay where operations are asked of objects, sent or queued, that tell no end of a save.
pub fn asking_keeps()
    ensures { AskingKeeps }
{}

/// The facts stay where a save is counted and activations are told of it.
pub fn counting_keeps()
    ensures { CountingKeeps }
{}

/// The facts stay where an activation is begun.
pub fn beginning_keeps()
    ensures { BeginningKeeps }
{}

/// The facts stay where links end.
pub fn ending_keeps()
    ensures { EndingKeeps }
{}

/// The facts stay where a server starts or ends.
pub fn starting_keeps()
    ensures { StartingKeeps }
{}

/// The facts stay where a server, honest or not, acts on a call, or answers it again.
pub fn acting_keeps()
    ensures { ActingKeeps }
{}

/// The facts stay where an activation writes or asks.
pub fn telling_keeps()
    ensures { TellingKeeps }
{}

/// What senders saw stays where no close is answered, and each write is sent under its grant.
pub fn leaving_keeps_views()
    ensures { LeavingKeepsViews }
{}

/// What senders saw stays where a server, honest or not, acts on a call, or answers it again.
pub fn acting_keeps_views()
    ensures { ActingKeepsViews }
{}

/// The facts stay where a server is hostile from now on: they then speak of fewer servers.
pub fn turning_hostile_keeps()
    ensures { TurningHostileKeeps }
{}

/// What senders saw stays where a server is hostile from now on.
pub fn turning_hostile_keeps_views()
    ensures { TurningHostileKeepsViews }
{}
