//! Links that hold what comes, and what waits of them.

ghost use Rattle.script_model.specs.Bounds.{pace, resting};
ghost use Rattle.script_model.specs.Courses.{course};
ghost use Rattle.script_model.specs.Errors.{behind_hold};
ghost use Rattle.script_model.specs.Events.{running};
ghost use Rattle.script_model.specs.Origins.{AreNext, Passed, giving, passed};
ghost use Rattle.script_model.specs.declared.command.ScriptCommand.TheVariants as script;
ghost use Rattle.script_links.specs.Apart.{others};
ghost use Rattle.script_links.specs.Going.{IsGoingOn, LeavesGoing};
ghost use Rattle.script_links.specs.Links.{EachServed, HoldFor, IsLinkAt, links_of};
ghost use Rattle.script_links.specs.Ready.{AreReady};
ghost use Rattle.script_commands.specs.Lines.{told_of_server};
ghost use Rattle.script_container.specs.Handed.{handed};
ghost use Rattle.script_container.specs.Known.{IsKnown, Leaves};
ghost use Rattle.script_links.specs.declared.links.Link.{Link};
ghost use Rattle.std.specs.Prelude.{◌≡◌, ◌≤◌, ◌<◌, Bool, [], false, true, IfOk, OnOk, length, ℕ, slice_index_or};
ghost use Rattle.std.specs.Prelude.{slice_set};

use crate::placing::place_of;
use container_core::container::ContainerCore;
use container_model::fault::ContainerFault;
use script_container::fault::ScriptFault;
use script_links::links::{Link, hand_over};
use script_links::progress::Progress;
use script_links::turns::end_at;
use script_links::waiting::Waiting;
use script_model::answer::Told;
use script_model::host::Host;
use std::alloc::Global;
use store_model::disk::Disk;

/// Hands all messages over that wait of a server. Gives whether each is one that a server may send.
fn hand_all<H: Host>(
    alloc: Global,
    host: &mut H,
    core: &mut ContainerCore,
    inc: u32,
    waiting: Waiting,
    noticed: &mut Option<Told>,
) -> Result<bool, ScriptFault>
    requires known { IsKnown ⟦<H::Disk as Disk>⟧ (H.told host.old) core.old noticed.old }
    requires next { AreNext (passed inc (H.told host.old)) waiting }
    ensures leaves { Leaves ⟦<H::Disk as Disk>⟧ result (H.told host.new) core.new noticed.new }
    ensures given { IfOk result (λ all. all ≡ true → passed inc (H.told host.new)
        ≡ giving waiting (passed inc (H.told host.old))) }
    ensures paced { (s : ℕ) → pace s (H.told host.new) ≡ pace s (H.told host.old) }
    ensures apart { others inc false (H.told host.new) ≡ others inc false (H.told host.old) }
    ensures ordered { course (H.told host.new) ≡ course (H.told host.old) }
{
    for taken in waiting.into_vec() {
        if !hand_over(alloc, host, core, inc, taken, noticed)? {
            return Ok(false);
        }
    }
    Ok(true)
}

/// What waits of the link at a place, which holds nothing any more.
fn let_go(alloc: Global, links: &mut Vec<Link>, place: usize) -> Waiting
    requires { place < length links.old.items }
    ensures same { (s : ℕ) → links_of s links.new.items ≡ links_of s links.old.items }
    ensures changed { (d : Link) → links.new.items ≡ slice_set links.old.items place
        (record (slice_index_or links.old.items place d) { held = false; waiting = [] }) }
    ensures waited { (d : Link) → result ≡ (slice_index_or links.old.items place d).waiting }
    ensures many { length links.new.items ≡ length links.old.items }
{
    let link = &mut links[place];
    link.held = false;
    std::mem::replace(&mut link.waiting, Waiting::new(alloc))
}

/// Hands over what waits of the link at a place, which holds nothing any more.
fn release<H: Host>(
    alloc: Global,
    host: &mut H,
    progress: &mut Progress,
    place: usize,
) -> Result<(), ScriptFault>
    requires within { place < length progress.old.links.items }
    requires going { IsGoingOn ⟦<H::Disk as Disk>⟧ (H.told host.old) progress.old }
    ensures leaves { LeavesGoing ⟦<H::Disk as Disk>⟧ result (H.told host.new) progress.new }
    ensures paced { (s : ℕ) → pace s (H.told host.new) ≡ pace s (H.told host.old) }
    ensures handing { (f : ℕ → Bool) (inc : ℕ) → IsLinkAt progress.old.links.items place inc → f inc ≡ false
        → handed f (H.told host.new) ≡ handed f (H.told host.old) }
    ensures ordered { course (H.told host.new) ≡ course (H.told host.old) }
    ensures holding { (f : ℕ → Bool) (inc : ℕ) → IsLinkAt progress.old.links.items place inc
        → HoldFor f progress.old.links.items
        → HoldFor (λ s. behind_hold (script.Release inc) s (f s)) progress.new.links.items }
{
    let inc = progress.links[place].inc;
    let waiting = let_go(alloc, &mut progress.links, place);
    if hand_all(
        alloc,
        host,
        &mut progress.core,
        inc,
        waiting,
        &mut progress.noticed,
    )? {
        return Ok(());
    }
    end_at(alloc, host, progress, place)
}

/// What comes on the link at a place waits from now on.
fn hold(links: &mut Vec<Link>, place: usize)
    requires { place < length links.old.items }
    ensures same { (s : ℕ) → links_of s links.new.items ≡ links_of s links.old.items }
    ensures served { (f : ℕ → Passed) → EachServed f links.old.items → EachServed f links.new.items }
    ensures holding { (f : ℕ → Bool) (inc : ℕ) → IsLinkAt links.old.items place inc
        → links_of inc links.old.items ≤ 1 → HoldFor f links.old.items
        → HoldFor (λ s. behind_hold (script.Hold inc) s (f s)) links.new.items }
{
    links[place].held = true;
}

/// Releases the link of a server, if it has one.
pub(crate) fn release_link<H: Host>(
    alloc: Global,
    host: &mut H,
    progress: &mut Progress,
    inc: u32,
) -> Result<Told, ScriptFault>
    requires going { IsGoingOn ⟦<H::Disk as Disk>⟧ (H.told host.old) progress.old }
    requires rested { (s : ℕ) → pace s (H.told host.old) ≡ resting }
    ensures leaves { LeavesGoing ⟦<H::Disk as Disk>⟧ result (H.told host.new) progress.new }
    ensures ready { OnOk result (AreReady 1 (H.told host.new) progress.new.links.items) }
    ensures ordered { course (H.told host.new) ≡ course (H.told host.old) }
    ensures first { IfOk result (λ t. t ≡ told_of_server (running inc (H.told host.old))) }
    ensures holding { (f : ℕ → Bool) → HoldFor f progress.old.links.items
        → HoldFor (λ s. behind_hold (script.Release inc) s (f s)) progress.new.links.items }
    ensures handing { (f : ℕ → Bool) → f inc ≡ false → handed f (H.told host.new) ≡ handed f (H.told host.old) }
{
    let Some(place) = place_of(&progress.links, inc) else {
        return Ok(Told::Fault(ContainerFault::NoSuch));
    };
    release(alloc, host, progress, place)?;
    Ok(Told::Done)
}

/// Holds the link of a server, if it has one.
pub(crate) fn hold_link(links: &mut Vec<Link>, inc: u32) -> Told
    ensures first { (n : ℕ) → n ≡ links_of inc links.old.items → result ≡ told_of_server n }
    ensures same { (s : ℕ) → links_of s links.new.items ≡ links_of s links.old.items }
    ensures served { (f : ℕ → Passed) → EachServed f links.old.items → EachServed f links.new.items }
    ensures holding { (f : ℕ → Bool) → links_of inc links.old.items ≤ 1 → HoldFor f links.old.items
        → HoldFor (λ s. behind_hold (script.Hold inc) s (f s)) links.new.items }
{
    let Some(place) = place_of(links, inc) else {
        return Told::Fault(ContainerFault::NoSuch);
    };
    hold(links, place);
    Told::Done
}
