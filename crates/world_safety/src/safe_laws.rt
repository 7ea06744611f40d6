//! The law of worlds.

ghost use Rattle.object_core.specs.Kinds.{Kind};
ghost use Rattle.std.specs.Prelude.{List, ℕ};
ghost use Rattle.world_model.specs.Safe.{Safe};
ghost use Rattle.world_model.specs.World.{Run, World, empty_world};
ghost use Rattle.world_model.specs.declared.event.Event.{Event};

/// Every world that events reach is safe, whatever the events, their number and their order, and whatever messages were
/// forged: no call acts twice, at most one activation of an honest server that runs has a frame's menus and border, and
/// the frame names it, each content that the container took of an honest server was sent under the storage grant that
/// it held open, no save is counted twice, the container counts commit by commit, where a frame's numbers rise and an
/// object is counted for one frame, what an honest server counts stands in one of these commits with the same content,
/// the file of a frame that isn't in doubt has bytes that denote the document of its last one, any file gives the
/// objects of one counted commit where it is opened, every message that was sent and every server is of the container's
/// session, so that there is none before it has one, and every number of a message is at most the limit of the world's
/// numbers.
pub fn every_world_is_safe()
    ensures { (numbers : ℕ) (stock : List Kind) (events : List Event) (w : World)
        → Run (empty_world numbers stock) events w → Safe w }
{}
