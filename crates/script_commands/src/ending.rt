//! Servers that are ended.

ghost use Rattle.script_model.specs.Courses.{course};
ghost use Rattle.script_container.specs.Servers.{turned};
ghost use Rattle.script_links.specs.Going.{IsGoingOn, LeavesGoing};
ghost use Rattle.script_links.specs.Links.{HoldFor};
ghost use Rattle.std.specs.Prelude.{◌≡◌, Bool, ℕ};

use crate::placing::place_of;
use container_model::answer::{Action, Answer};
use script_container::fault::ScriptFault;
use script_links::progress::Progress;
use script_links::turns::end_at;
use script_model::host::Host;
use std::alloc::Global;
use store_model::disk::Disk;

/// Ends a server, and tells the container its end.
fn end<H: Host>(
    alloc: Global,
    host: &mut H,
    progress: &mut Progress,
    inc: u32,
) -> Result<(), ScriptFault>
    requires going { IsGoingOn ⟦<H::Disk as Disk>⟧ (H.told host.old) progress.old }
    ensures leaves { LeavesGoing ⟦<H::Disk as Disk>⟧ result (H.told host.new) progress.new }
    ensures turning { turned (H.told host.new) ≡ turned (H.told host.old) }
    ensures ordered { course (H.told host.new) ≡ course (H.told host.old) }
    ensures holding { (f : ℕ → Bool) → HoldFor f progress.old.links.items → HoldFor f progress.new.links.items }
{
    match place_of(&progress.links, inc) {
        Some(place) => end_at(alloc, host, progress, place),
        None => Ok(()),
    }
}

/// Ends the server that an action asks to end, if it asks for that.
fn end_on<H: Host>(
    alloc: Global,
    host: &mut H,
    progress: &mut Progress,
    action: &Action,
) -> Result<(), ScriptFault>
    requires going { IsGoingOn ⟦<H::Disk as Disk>⟧ (H.told host.old) progress.old }
    ensures leaves { LeavesGoing ⟦<H::Disk as Disk>⟧ result (H.told host.new) progress.new }
    ensures turning { turned (H.told host.new) ≡ turned (H.told host.old) }
    ensures ordered { course (H.told host.new) ≡ course (H.told host.old) }
    ensures holding { (f : ℕ → Bool) → HoldFor f progress.old.links.items → HoldFor f progress.new.links.items }
{
    match action {
        Action::End(inc) => end(alloc, host, progress, *inc),
        Action::Start(_) | Action::Send(_) | Action::Commit(_) => Ok(()),
    }
}

/// Ends the servers that an answer of the container asks to end.
pub(crate) fn end_asked<H: Host>(
    alloc: Global,
    host: &mut H,
    progress: &mut Progress,
    answer: &Answer,
) -> Result<(), ScriptFault>
    requires going { IsGoingOn ⟦<H::Disk as Disk>⟧ (H.told host.old) progress.old }
    ensures leaves { LeavesGoing ⟦<H::Disk as Disk>⟧ result (H.told host.new) progress.new }
    ensures turning { turned (H.told host.new) ≡ turned (H.told host.old) }
    ensures ordered { course (H.told host.new) ≡ course (H.told host.old) }
    ensures holding { (f : ℕ → Bool) → HoldFor f progress.old.links.items → HoldFor f progress.new.links.items }
{
    for action in answer.actions.as_slice() {
        end_on(alloc, host, progress, action)?;
    }
    Ok(())
}
