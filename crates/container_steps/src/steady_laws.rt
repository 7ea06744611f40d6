//! Laws of a container's steps on a steady record. Each function is empty: its contract is the law, which is proved.

ghost use Rattle.container_steps.specs.Steps.{FittingAnswersTaken, SteadyAfter, SteadyAlways};

/// Whatever a container is given and takes, a command, a message, the end of a server or of a commit, or a file that is
/// opened, leaves a steady record steady.
pub fn steady_after()
    ensures { SteadyAfter }
{}

/// Whatever is done with a container from the start on, its record is steady.
pub fn steady_always()
    ensures { SteadyAlways }
{}

/// Where a record is steady, the tables of states refuse no answer to a pending call that fits it.
pub fn fitting_answers_taken()
    ensures { FittingAnswersTaken }
{}
