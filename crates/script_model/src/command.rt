//! The commands of a script.

use container_model::command::Command;
use tree_values::bytes::Bytes;

/// A command of a script.
#[derive(Drop)]
pub enum ScriptCommand {
    /// A command of the container's user.
    Container(Command),
    /// The link to a server is cut while calls are on their way, and made anew.
    Cut(u32),
    /// What comes from a server waits from now on.
    Hold(u32),
    /// What waits of a server is handed over, and nothing waits any more.
    Release(u32),
    /// What a frame shows.
    Screen(u32),
    /// The file of this name is opened as a frame, so many columns wide and so many lines high.
    Open(Bytes, u16, u16),
}
