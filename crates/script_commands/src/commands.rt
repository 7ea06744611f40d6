//! What a command of a script does, and what is printed of it.

ghost use Rattle.container_core.specs.Screen.{shown};
ghost use Rattle.script_model.specs.Bounds.{pace, resting};
ghost use Rattle.script_model.specs.Courses.{course};
ghost use Rattle.script_model.specs.Errors.{behind_hold};
ghost use Rattle.script_model.specs.Orders.{IsBegun, behind_command, orders};
ghost use Rattle.script_model.specs.Saved.{is_any_unsaved};
ghost use Rattle.script_links.specs.Going.{IsGoingOn, LeavesGoing};
ghost use Rattle.script_links.specs.Links.{AreHeld, AreLinked, AreServed, HoldFor};
ghost use Rattle.script_links.specs.Ready.{AreReady};
ghost use Rattle.script_links.specs.Shown.{AreQuiet};
ghost use Rattle.script_container.specs.Told.{IsTold};
ghost use Rattle.script_commands.specs.Lines.{HasLine, IsBeginning, IsBegunWith, IsShown};
ghost use Rattle.script_container.specs.Handed.{handed};
ghost use Rattle.script_container.specs.declared.fault.ScriptFault.TheVariants.{NoMemory, Unwritable};
ghost use Rattle.std.specs.Prelude.{◌≡◌, ◌≢◌, ◌++◌, Bool, false, IfErr, IfOk, List, OnOk, ℕ};

use crate::cutting::cut_link;
use crate::holding::{hold_link, release_link};
use crate::ordering::order;
use crate::unsaved::is_any_unsaved;
use container_core::container::ContainerCore;
use script_container::fault::ScriptFault;
use script_links::progress::Progress;
use script_links::turns::turns;
use script_model::answer::Told;
use script_model::command::ScriptCommand;
use script_model::host::Host;
use script_opens::opens::open;
use script_opens::refusals::refusal;
use script_texts::answers::{further, push_told};
use std::alloc::Global;
use std::io::Write;
use store_model::disk::Disk;
use text_io::output::write_all;

/// Shows a frame.
fn show(
    alloc: Global,
    core: &ContainerCore,
    frame: u32,
    text: &mut Vec<u8>,
) -> Result<Told, ScriptFault>
    ensures lacking { IfErr result (λ fault. fault ≡ NoMemory) }
    ensures first { IfOk result (λ t. (lines : List ℕ) × (text.new.items ≡ text.old.items ++ lines)
        × IsShown (shown core.now frame) lines t) }
{
    match core.screen(alloc, frame) {
        Ok(lines) => {
            text.extend_from_slice(&lines)?;
            Ok(Told::Done)
        }
        Err(fault) => refusal(fault),
    }
}

/// Does what a command asks, before any turn.
fn begin<H: Host>(
    alloc: Global,
    host: &mut H,
    progress: &mut Progress,
    command: ScriptCommand,
    text: &mut Vec<u8>,
) -> Result<Told, ScriptFault>
    requires going { IsGoingOn ⟦<H::Disk as Disk>⟧ (H.told host.old) progress.old }
    requires rested { (s : ℕ) → pace s (H.told host.old) ≡ resting }
    requires begins { IsBeginning (H.told host.old) }
    ensures leaves { LeavesGoing ⟦<H::Disk as Disk>⟧ result (H.told host.new) progress.new }
    ensures ready { OnOk result (AreReady 1 (H.told host.new) progress.new.links.items) }
    ensures ordered { OnOk result (orders (H.told host.new) ≡ behind_command command (orders (H.told host.old))) }
    ensures begun { IsBegun command (orders (H.told host.old)) (orders (H.told host.new)) }
    ensures standing { (course (H.told host.new)).begun ≡ (course (H.told host.old)).begun }
    ensures first { IfOk result (λ t. IsBegunWith ⟦<H::Disk as Disk>⟧ command (H.told host.new) text.old.items
        text.new.items t) }
    ensures holding { (f : ℕ → Bool) → AreHeld f progress.old.links.items
        → HoldFor (λ s. behind_hold command s (f s)) progress.new.links.items }
    ensures handing { (f : ℕ → Bool) → handed (λ s. behind_hold command s (f s)) (H.told host.new) ≡ 0 }
{
    match command {
        ScriptCommand::Container(ordered) => order(alloc, host, progress, ordered),
        ScriptCommand::Open(name, width, height) => open(
            alloc,
            host,
            &mut progress.core,
            name,
            width,
            height,
        ),
        ScriptCommand::Screen(frame) => show(alloc, &progress.core, frame, text),
        ScriptCommand::Cut(inc) => cut_link(alloc, host, progress, inc),
        ScriptCommand::Hold(inc) => Ok(hold_link(&mut progress.links, inc)),
        ScriptCommand::Release(inc) => release_link(alloc, host, progress, inc),
    }
}

/// Carries a command out, with the turns that it leads to, and writes what is told of it.
///
/// Refused: as its parts, and `Stalled` too where a frame's file is still to be committed.
pub fn carry_out<H: Host, W: Write>(
    alloc: Global,
    host: &mut H,
    progress: &mut Progress,
    command: ScriptCommand,
    writer: &mut W,
) -> Result<(), ScriptFault>
    requires told { IsTold ⟦<H::Disk as Disk>⟧ (H.told host.old) progress.old.core }
    requires linked { AreLinked (H.told host.old) progress.old.links.items }
    requires served { AreServed (H.told host.old) progress.old.links.items }
    requires rested { (s : ℕ) → pace s (H.told host.old) ≡ resting }
    requires begins { IsBeginning (H.told host.old) }
    ensures leaves { LeavesGoing ⟦<H::Disk as Disk>⟧ result (H.told host.new) progress.new }
    ensures quiet { OnOk result (AreQuiet progress.new.core.objects progress.new.links.items) }
    ensures saved { OnOk result (is_any_unsaved progress.new.core.frames ≡ false) }
    ensures ordered { OnOk result (orders (H.told host.new) ≡ behind_command command (orders (H.told host.old))) }
    ensures begun { IsBegun command (orders (H.told host.old)) (orders (H.told host.new)) }
    ensures standing { (course (H.told host.new)).begun ≡ (course (H.told host.old)).begun }
    ensures printed { OnOk result (HasLine ⟦<H::Disk as Disk>⟧ command (H.told host.new) (W.contents writer.old)
        (W.contents writer.new)) }
    ensures unwritten { IfErr result (λ fault. fault ≢ Unwritable → W.contents writer.new ≡ W.contents writer.old) }
    ensures holding { (f : ℕ → Bool) → AreHeld f progress.old.links.items
        → HoldFor (λ s. behind_hold command s (f s)) progress.new.links.items }
    ensures handing { (f : ℕ → Bool) → AreHeld f progress.old.links.items
        → handed (λ s. behind_hold command s (f s)) (H.told host.new) ≡ 0 }
{
    progress.noticed = None;
    let mut text = Vec::new(alloc);
    let told = begin(alloc, host, progress, command, &mut text)?;
    turns(alloc, host, progress)?;
    if is_any_unsaved(&progress.core) {
        return Err(ScriptFault::Stalled);
    }
    push_told(alloc, &mut text, further(told, progress.noticed))?;
    match write_all(writer, &text) {
        Ok(()) => Ok(()),
        Err(_) => Err(ScriptFault::Unwritable),
    }
}
