//! Links that are cut.

ghost use Rattle.script_model.specs.Bounds.{linking, pace, resting};
ghost use Rattle.script_model.specs.Courses.{course};
ghost use Rattle.script_model.specs.Events.{running};
ghost use Rattle.script_links.specs.Going.{IsGoingOn, LeavesGoing};
ghost use Rattle.script_links.specs.Links.{HoldFor};
ghost use Rattle.script_links.specs.Ready.{AreReady, MayLink, pace_beside};
ghost use Rattle.script_commands.specs.Lines.{IsCut, told_of_server};
ghost use Rattle.script_container.specs.Handed.{handed};
ghost use Rattle.script_links.specs.declared.links.Link.{Link};
ghost use Rattle.std.specs.Prelude.{◌≡◌, ◌≤◌, ◌<◌, Bool, false, IfOk, MatchResult, OnOk, length, ℕ, slice_index_or};

use crate::placing::place_of;
use container_model::fault::ContainerFault;
use script_container::fault::ScriptFault;
use script_links::links::{reconnect, send_turn};
use script_links::progress::Progress;
use script_links::turns::end_at;
use script_model::answer::Told;
use script_model::host::Host;
use std::alloc::Global;
use store_model::disk::Disk;

/// Connects the link at a place again. Gives whether it was made.
///
/// Refused for want of memory alone.
fn reconnect_at<H: Host>(
    alloc: Global,
    host: &mut H,
    progress: &mut Progress,
    place: usize,
) -> Result<bool, ScriptFault>
    requires within { place < length progress.old.links.items }
    requires going { IsGoingOn ⟦<H::Disk as Disk>⟧ (H.told host.old) progress.old }
    requires may { (d : Link) → MayLink (pace (slice_index_or progress.old.links.items place d).inc (H.told host.old)) }
    ensures leaves { LeavesGoing ⟦<H::Disk as Disk>⟧ result (H.told host.new) progress.new }
    ensures many { length progress.new.links.items ≡ length progress.old.links.items }
    ensures same { (d : Link) → (slice_index_or progress.new.links.items place d).inc
        ≡ (slice_index_or progress.old.links.items place d).inc }
    ensures aside { (d : Link) (s : ℕ) → pace_beside (slice_index_or progress.old.links.items place d).inc s
        (H.told host.new) ≡ pace_beside (slice_index_or progress.old.links.items place d).inc s (H.told host.old) }
    ensures made { (d : Link)
        → MatchResult result (λ made. pace (slice_index_or progress.old.links.items place d).inc (H.told host.new)
        ≡ linking made (pace (slice_index_or progress.old.links.items place d).inc (H.told host.old)))
        (λ _. pace (slice_index_or progress.old.links.items place d).inc (H.told host.new)
        ≡ linking false (pace (slice_index_or progress.old.links.items place d).inc (H.told host.old))) }
    ensures ordered { course (H.told host.new) ≡ course (H.told host.old) }
    ensures holding { (f : ℕ → Bool) → HoldFor f progress.old.links.items → HoldFor f progress.new.links.items }
    ensures handing { (f : ℕ → Bool) → handed f (H.told host.new) ≡ handed f (H.told host.old) }
{
    reconnect(alloc, host, &mut progress.links[place])
}

/// Sends a link its turn, and makes it anew without reading what comes. A link that can't be made is ended.
fn cut<H: Host>(
    alloc: Global,
    host: &mut H,
    progress: &mut Progress,
    place: usize,
) -> Result<(), ScriptFault>
    requires within { place < length progress.old.links.items }
    requires going { IsGoingOn ⟦<H::Disk as Disk>⟧ (H.told host.old) progress.old }
    requires rested { (s : ℕ) → pace s (H.told host.old) ≡ resting }
    ensures leaves { LeavesGoing ⟦<H::Disk as Disk>⟧ result (H.told host.new) progress.new }
    ensures ready { OnOk result (AreReady 1 (H.told host.new) progress.new.links.items) }
    ensures ordered { course (H.told host.new) ≡ course (H.told host.old) }
    ensures anew { (d : Link)
        → OnOk result (1 ≤ (pace (slice_index_or progress.old.links.items place d).inc (H.told host.new)).links) }
    ensures holding { (f : ℕ → Bool) → HoldFor f progress.old.links.items → HoldFor f progress.new.links.items }
    ensures handing { (f : ℕ → Bool) → handed f (H.told host.new) ≡ handed f (H.told host.old) }
{
    let inc = progress.links[place].inc;
    send_turn(alloc, host, &progress.core, inc)?;
    let made = reconnect_at(alloc, host, progress, place)?;
    if made {
        return Ok(());
    }
    end_at(alloc, host, progress, place)
}

/// Cuts the link of a server, if it has one.
pub(crate) fn cut_link<H: Host>(
    alloc: Global,
    host: &mut H,
    progress: &mut Progress,
    inc: u32,
) -> Result<Told, ScriptFault>
    requires going { IsGoingOn ⟦<H::Disk as Disk>⟧ (H.told host.old) progress.old }
    requires rested { (s : ℕ) → pace s (H.told host.old) ≡ resting }
    ensures leaves { LeavesGoing ⟦<H::Disk as Disk>⟧ result (H.told host.new) progress.new }
    ensures ready { OnOk result (AreReady 1 (H.told host.new) progress.new.links.items) }
    ensures ordered { course (H.told host.new) ≡ course (H.told host.old) }
    ensures first { IfOk result (λ t. (t ≡ told_of_server (running inc (H.told host.old)))
        × IsCut (running inc (H.told host.old)) (pace inc (H.told host.new)).links) }
    ensures holding { (f : ℕ → Bool) → HoldFor f progress.old.links.items → HoldFor f progress.new.links.items }
    ensures handing { (f : ℕ → Bool) → handed f (H.told host.new) ≡ handed f (H.told host.old) }
{
    let Some(place) = place_of(&progress.links, inc) else {
        return Ok(Told::Fault(ContainerFault::NoSuch));
    };
    cut(alloc, host, progress, place)?;
    Ok(Told::Done)
}
