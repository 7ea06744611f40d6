//! Servers that are started.

ghost use Rattle.script_model.specs.Courses.{but_starts, course, starts_in, with_start, without};
ghost use Rattle.script_container.specs.Servers.{turned};
ghost use Rattle.script_links.specs.Going.{IsGoingOn, LeavesGoing};
ghost use Rattle.script_links.specs.Links.{AreHeld};
ghost use Rattle.script_commands.specs.Starts.{AreIn};
ghost use Rattle.std.specs.Prelude.{◌≡◌, ◌≢◌, ◌<◌, ◌++◌, ◌∷◌, Bool, [], List, OnOk, ℕ, vec_capacity, vec_len};

use crate::placing::place_of;
use container_model::answer::{Action, Answer};
use script_container::fault::ScriptFault;
use script_links::links::Link;
use script_links::progress::Progress;
use script_model::host::{Host, HostFault};
use std::alloc::Global;
use store_model::disk::Disk;

/// Starts a server in the container's session, and makes its link. One that has a link runs already. The container
/// stays as it is.
fn start<H: Host>(
    alloc: Global,
    host: &mut H,
    progress: &mut Progress,
    inc: u32,
) -> Result<(), ScriptFault>
    requires going { IsGoingOn ⟦<H::Disk as Disk>⟧ (H.told host.old) progress.old }
    requires session { progress.old.core.session ≢ 0 }
    ensures leaves { LeavesGoing ⟦<H::Disk as Disk>⟧ result (H.told host.new) progress.new }
    ensures same { progress.new.core ≡ progress.old.core }
    ensures turning { turned (H.told host.new) ≡ turned (H.told host.old) }
    ensures ordered { but_starts (course (H.told host.new)) ≡ but_starts (course (H.told host.old)) }
    ensures tried { OnOk result ((course (H.told host.new)).unstarted
        ≡ without inc (course (H.told host.old)).unstarted) }
    ensures holding { (f : ℕ → Bool) → AreHeld f progress.old.links.items → AreHeld f progress.new.links.items }
{
    let session = progress.core.session();
    match place_of(&progress.links, inc) {
        Some(_) => return Ok(()),
        None => {}
    }
    progress.links.reserve(1)?;
    match host.start(session, inc) {
        Ok(()) => {
            add(&mut progress.links, Link::new(alloc, inc));
            Ok(())
        }
        Err(HostFault::NoMemory) => Err(ScriptFault::NoMemory),
        Err(HostFault::Failed) => Err(ScriptFault::Link(inc)),
    }
}

/// Puts a value to the end, into room that is there.
fn add<T: Drop>(list: &mut Vec<T>, value: T)
    requires { vec_len list.old < vec_capacity list.old }
    ensures { list.new.items ≡ list.old.items ++ value ∷ [] }
{
    list.push_reserved(value);
}

/// Starts the server that an action asks to start, if it asks for that.
fn start_on<H: Host>(
    alloc: Global,
    host: &mut H,
    progress: &mut Progress,
    action: &Action,
) -> Result<(), ScriptFault>
    requires going { IsGoingOn ⟦<H::Disk as Disk>⟧ (H.told host.old) progress.old }
    requires session { progress.old.core.session ≢ 0 }
    ensures leaves { LeavesGoing ⟦<H::Disk as Disk>⟧ result (H.told host.new) progress.new }
    ensures same { progress.new.core ≡ progress.old.core }
    ensures turning { turned (H.told host.new) ≡ turned (H.told host.old) }
    ensures ordered { but_starts (course (H.told host.new)) ≡ but_starts (course (H.told host.old)) }
    ensures tried { (incs : List ℕ) → AreIn (course (H.told host.old)).unstarted (with_start action.now incs)
        → OnOk result (AreIn (course (H.told host.new)).unstarted incs) }
    ensures holding { (f : ℕ → Bool) → AreHeld f progress.old.links.items → AreHeld f progress.new.links.items }
{
    match action {
        Action::Start(inc) => start(alloc, host, progress, *inc),
        Action::End(_) | Action::Send(_) | Action::Commit(_) => Ok(()),
    }
}

/// Starts the servers that an answer of the container asks to start. Where it has no session, none is asked for.
pub(crate) fn start_asked<H: Host>(
    alloc: Global,
    host: &mut H,
    progress: &mut Progress,
    answer: &Answer,
) -> Result<(), ScriptFault>
    requires going { IsGoingOn ⟦<H::Disk as Disk>⟧ (H.told host.old) progress.old }
    requires wanted { AreIn (course (H.told host.old)).unstarted (starts_in answer.now.actions) }
    requires raised { progress.old.core.session ≡ 0 → (course (H.told host.old)).unstarted ≡ [] }
    ensures leaves { LeavesGoing ⟦<H::Disk as Disk>⟧ result (H.told host.new) progress.new }
    ensures turning { turned (H.told host.new) ≡ turned (H.told host.old) }
    ensures ordered { but_starts (course (H.told host.new)) ≡ but_starts (course (H.told host.old)) }
    ensures tried { OnOk result ((course (H.told host.new)).unstarted ≡ []) }
    ensures holding { (f : ℕ → Bool) → AreHeld f progress.old.links.items → AreHeld f progress.new.links.items }
{
    if progress.core.session() == 0 {
        return Ok(());
    }
    for action in answer.actions.as_slice() {
        start_on(alloc, host, progress, action)?;
    }
    Ok(())
}
