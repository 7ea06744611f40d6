//! Turns: each link is sent what is pending for its server, and what comes back is carried out.

ghost use Rattle.script_model.specs.Bounds.{pace};
ghost use Rattle.script_model.specs.Courses.{course};
ghost use Rattle.script_model.specs.Errors.{before_ends};
ghost use Rattle.script_model.specs.Events.{running};
ghost use Rattle.script_model.specs.Notices.{Tells, notices};
ghost use Rattle.script_model.specs.Orders.{orders};
ghost use Rattle.script_container.specs.Known.{Leaves};
ghost use Rattle.script_container.specs.Servers.{servers, turned};
ghost use Rattle.script_container.specs.Told.{IsEnded, IsTold};
ghost use Rattle.script_links.specs.Going.{IsGoingOn, IsLawful, KeepsHeld, LeavesGoing};
ghost use Rattle.script_links.specs.Links.{AreLinked, AreServed, HoldFor};
ghost use Rattle.script_links.specs.Ready.{AreDue, AreReady, HaveHad, IsUnderway};
ghost use Rattle.script_links.specs.Shown.{AreQuiet, has_free, is_any_awaited, is_awaited, is_free_of, pending_of};
ghost use Rattle.std.specs.Prelude.{◌≡◌, ◌+◌, ◌<◌, ◌≤◌, Bool, OnOk, length, remove, true, ℕ};

use crate::links::{Link, serve};
use crate::progress::Progress;
use container_core::container::ContainerCore;
use container_model::fault::ContainerFault;
use container_model::record::Object;
use script_container::container::reap;
use script_container::fault::ScriptFault;
use script_container::saves::save_all;
use script_model::answer::Told;
use script_model::host::Host;
use std::alloc::Global;
use store_model::disk::Disk;

/// The most turns of a command.
const MOST_TURNS: u32 = 1_000;

/// Tells the container the end of a server, which the last call ended, and saves what it then asks for.
fn reaped<H: Host>(
    alloc: Global,
    host: &mut H,
    core: &mut ContainerCore,
    inc: u32,
    noticed: &mut Option<Told>,
) -> Result<(), ScriptFault>
    requires ended { IsEnded ⟦<H::Disk as Disk>⟧ inc (H.told host.old) core.old }
    requires seen { Tells (notices (H.told host.old)) noticed.old }
    ensures leaves { Leaves ⟦<H::Disk as Disk>⟧ result (H.told host.new) core.new noticed.new }
    ensures serving { servers (H.told host.new) ≡ servers (H.told host.old) }
    ensures ordered { course (H.told host.new) ≡ course (H.told host.old) }
{
    match reap(alloc, host, core, inc) {
        Ok(answer) => save_all(alloc, host, core, &answer, noticed),
        Err(ContainerFault::NoMemory) => Err(ScriptFault::NoMemory),
        Err(_) => Ok(()),
    }
}

/// Ends the server of the link at a place, and tells the container its end.
pub fn end_at<H: Host>(
    alloc: Global,
    host: &mut H,
    progress: &mut Progress,
    place: usize,
) -> Result<(), ScriptFault>
    requires within { place < length progress.old.links.items }
    requires told { IsTold ⟦<H::Disk as Disk>⟧ (H.told host.old) progress.old.core }
    requires linked { AreLinked (H.told host.old) progress.old.links.items }
    requires served { AreServed (H.told host.old) (remove progress.old.links.items place) }
    requires seen { Tells (notices (H.told host.old)) progress.old.noticed }
    ensures less { length progress.new.links.items + 1 ≡ length progress.old.links.items }
    ensures rest { progress.new.links.items ≡ remove progress.old.links.items place }
    ensures leaves { LeavesGoing ⟦<H::Disk as Disk>⟧ result (H.told host.new) progress.new }
    ensures served { AreServed (H.told host.new) progress.new.links.items }
    ensures turning { turned (H.told host.new) ≡ turned (H.told host.old) }
    ensures ordered { course (H.told host.new) ≡ course (H.told host.old) }
    ensures holding { (f : ℕ → Bool) → HoldFor f progress.old.links.items → HoldFor f progress.new.links.items }
{
    let link = progress.links.remove(place);
    host.end(link.inc);
    reaped(
        alloc,
        host,
        &mut progress.core,
        link.inc,
        &mut progress.noticed,
    )
}

/// Ends the servers of all links.
pub fn end_all<H: Host>(host: &mut H, links: &mut Vec<Link>)
    requires lawful { IsLawful ⟦<H::Disk as Disk>⟧ (H.told host.old) }
    requires linked { AreLinked (H.told host.old) links.old.items }
    ensures lawful { IsLawful ⟦<H::Disk as Disk>⟧ (H.told host.new) }
    ensures ended { (s : ℕ) → running s (H.told host.new) ≡ 0 }
    ensures ordered { orders (H.told host.new) ≡ orders (H.told host.old) }
    ensures ends { before_ends (H.told host.new) ≡ before_ends (H.told host.old) }
{
    while let Some(link) = links.pop() {
        host.end(link.inc);
    }
}

/// The server that an object has a pending call for.
fn pending_server(object: &Object) -> Option<u32>
    ensures { result ≡ pending_of object.now.link }
{
    match &object.link {
        Some(link) => {
            if link.pending.is_some() {
                Some(link.inc)
            } else {
                None
            }
        }
        None => None,
    }
}

/// Whether a link is this server's, and isn't held.
fn is_free_of(link: &Link, inc: u32) -> bool
    ensures { result ≡ is_free_of inc link.now }
{
    link.inc == inc && !link.held
}

/// Whether a link of this server is there, and isn't held.
fn is_free(links: &[Link], inc: u32) -> bool
    ensures { result ≡ has_free inc links.now }
{
    for link in links {
        if is_free_of(link, inc) {
            return true;
        }
    }
    false
}

/// Whether an object has a call pending on a link that isn't held.
fn is_awaited(object: &Object, links: &[Link]) -> bool
    ensures { result ≡ is_awaited links.now object.now }
{
    match pending_server(object) {
        Some(inc) => is_free(links, inc),
        None => false,
    }
}

/// Whether a call is pending on a link that isn't held.
fn is_pending(core: &ContainerCore, links: &[Link]) -> bool
    ensures { result ≡ is_any_awaited links.now core.now.objects }
{
    for object in core.all_objects() {
        if is_awaited(object, links) {
            return true;
        }
    }
    false
}

/// The turn of the link at a place. Gives whether the link stands.
fn serve_at<H: Host>(
    alloc: Global,
    host: &mut H,
    progress: &mut Progress,
    place: usize,
) -> Result<bool, ScriptFault>
    requires within { place < length progress.old.links.items }
    requires going { IsGoingOn ⟦<H::Disk as Disk>⟧ (H.told host.old) progress.old }
    requires ready { IsUnderway 1000 (H.told host.old) progress.old.links.items place }
    ensures leaves { LeavesGoing ⟦<H::Disk as Disk>⟧ result (H.told host.new) progress.new }
    ensures many { length progress.new.links.items ≡ length progress.old.links.items }
    ensures ready { (n : ℕ) → IsUnderway n (H.told host.old) progress.old.links.items place
        → OnOk result (IsUnderway n (H.told host.new) progress.new.links.items (place + 1)) }
    ensures anew { OnOk result ((s : ℕ) → (pace s (H.told host.old)).links ≤ (pace s (H.told host.new)).links) }
    ensures kept { KeepsHeld (H.told host.old) (H.told host.new) progress.old.links.items progress.new.links.items }
    ensures due { (n : ℕ) → HaveHad n (H.told host.old) progress.old.links.items place
        → OnOk result (HaveHad n (H.told host.new) progress.new.links.items (place + 1)) }
{
    serve(
        alloc,
        host,
        &mut progress.core,
        &mut progress.links[place],
        &mut progress.noticed,
        &mut progress.buffer,
    )
}

/// A turn of each link, by rising number. A link that doesn't stand is ended.
fn turn<H: Host>(alloc: Global, host: &mut H, progress: &mut Progress) -> Result<(), ScriptFault>
    requires going { IsGoingOn ⟦<H::Disk as Disk>⟧ (H.told host.old) progress.old }
    requires ready { AreReady 1000 (H.told host.old) progress.old.links.items }
    ensures leaves { LeavesGoing ⟦<H::Disk as Disk>⟧ result (H.told host.new) progress.new }
    ensures ready { (n : ℕ) → AreReady n (H.told host.old) progress.old.links.items
        → OnOk result (AreReady (n + 1) (H.told host.new) progress.new.links.items) }
    ensures anew { OnOk result ((s : ℕ) → (pace s (H.told host.old)).links ≤ (pace s (H.told host.new)).links) }
    ensures kept { KeepsHeld (H.told host.old) (H.told host.new) progress.old.links.items progress.new.links.items }
    ensures due { (n : ℕ) → AreDue n (H.told host.old) progress.old.links.items
        → OnOk result (AreDue (n + 1) (H.told host.new) progress.new.links.items) }
{
    let mut place = 0;
    while place < progress.links.len() {
        if serve_at(alloc, host, progress, place)? {
            place += 1;
        } else {
            end_at(alloc, host, progress, place)?;
        }
    }
    Ok(())
}

/// Turns, until nothing is pending on a link that isn't held.
///
/// Refused: `Stalled` where something is pending after 1,000 turns.
pub fn turns<H: Host>(
    alloc: Global,
    host: &mut H,
    progress: &mut Progress,
) -> Result<(), ScriptFault>
    requires going { IsGoingOn ⟦<H::Disk as Disk>⟧ (H.told host.old) progress.old }
    requires ready { AreReady 1 (H.told host.old) progress.old.links.items }
    ensures quiet { OnOk result (AreQuiet progress.new.core.objects progress.new.links.items) }
    ensures leaves { LeavesGoing ⟦<H::Disk as Disk>⟧ result (H.told host.new) progress.new }
    ensures anew { OnOk result ((s : ℕ) → (pace s (H.told host.old)).links ≤ (pace s (H.told host.new)).links) }
    ensures kept { KeepsHeld (H.told host.old) (H.told host.new) progress.old.links.items progress.new.links.items }
{
    for done in 0..MOST_TURNS {
        if !is_pending(&progress.core, &progress.links) {
            return Ok(());
        }
        turn(alloc, host, progress)?;
    }
    if is_pending(&progress.core, &progress.links) {
        return Err(ScriptFault::Stalled);
    }
    Ok(())
}
