//! Laws of a container's frames.

ghost use Rattle.container_frames.specs.Frames.{StepsMoveFrames};

/// Each step that is taken leaves the frames with their names and their documents' sessions, makes or opens one more,
/// or counts the commit of one.
pub fn steps_move_frames()
    ensures { StepsMoveFrames }
{}
