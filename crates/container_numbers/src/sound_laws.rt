//! Laws of a container's numbers: each step leaves its activations room for what they may be asked without a check, and
//! no more frames than there may be; and all of it is in its one session. Each function is empty: its contract is the
//! law, which is proved.
ghost use Rattle.container_numbers.specs.FewFrames.{FewFramesAfter};
ghost use Rattle.container_numbers.specs.Sessions.{CommandsWantSessions, InSessionFromTheStart, SessionsStay};
ghost use Rattle.container_numbers.specs.Sound.{NumbersAfter, SoundAfter};

/// Whatever a container is given and takes, a command, a message, the end of a server or of a commit, leaves a sound
/// record sound.
pub fn sound_after()
    ensures { SoundAfter }
{}

/// Whatever its limit, it leaves a record's numbers within it, and the limit as it is.
pub fn numbers_after()
    ensures { NumbersAfter }
{}

/// It leaves no more than 8 frames where there were no more: one is made only where there are fewer.
pub fn few_frames_after()
    ensures { FewFramesAfter }
{}

/// From the start, each activation of a container is in the container's session: there is none yet, and no server.
pub fn in_session_from_the_start()
    ensures { InSessionFromTheStart }
{}

/// From then on, whatever is given, its session is that which a counted commit raised it to, and stays from then on.
/// Each activation is in it, and so is each message that it sends; where it has none yet, it starts no server and sends
/// nothing.
pub fn sessions_stay()
    ensures { SessionsStay }
{}

/// A server is started, an object run and a frame saved only where there is a session; and no command changes it.
pub fn commands_want_sessions()
    ensures { CommandsWantSessions }
{}
