//! Worked runs with stops, computed by the definitions. The function is empty: its contract is the law, which is
//! proved.

ghost use Rattle.world_model.specs.StopRuns.{WorkedStops};

/// A note whose save is stopped once its commit is asked: the disk has kept it or hasn't. What the next run may open,
/// which session it raises, and what is stale in it; that the server of the run before goes on; and a stop within the
/// commit that raises the first session.
pub fn worked_stops()
    ensures { WorkedStops }
{}
