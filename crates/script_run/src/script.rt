//! Scripts, from their texts to their ends.

ghost use Rattle.container_model.specs.Record.{Record};
ghost use Rattle.script_model.specs.Bounds.{AreBounded, pace, resting};
ghost use Rattle.script_model.specs.Containers.{AreStarted};
ghost use Rattle.script_model.specs.Errors.{before_ends};
ghost use Rattle.script_model.specs.Events.{Stepped, running};
ghost use Rattle.script_model.specs.Orders.{HaveBegun, behind_command, behind_commands, orders};
ghost use Rattle.script_model.specs.Origins.{AreHeard, BeginsSaved, passed};
ghost use Rattle.script_model.specs.Saved.{AreOpened, AreSaved, is_any_unsaved};
ghost use Rattle.script_model.specs.Settled.{IsSettled};
ghost use Rattle.script_model.specs.Turns.{AreTurns};
ghost use Rattle.script_run.specs.Carried.{AreCarriedOut, MayHaveBegun};
ghost use Rattle.script_run.specs.Faulted.{IsFaultOf, RefusesScript, ShowsOf};
ghost use Rattle.script_run.specs.HeldBack.{AreHeldBack, AreHeldBackOf};
ghost use Rattle.script_run.specs.Holding.{AreReleased, AreReleasedOf};
ghost use Rattle.script_run.specs.Printed.{HasAll, HasLines, HasSome, HasSomeOf};
ghost use Rattle.script_texts.specs.Commands.{commands_read};
ghost use Rattle.script_links.specs.Links.{AreHeld, AreLinked, AreServed, is_any_held};
ghost use Rattle.script_links.specs.Shown.{AreQuiet};
ghost use Rattle.script_container.specs.Told.{IsTold};
ghost use Rattle.std.specs.Prelude.{◌≡◌, ◌∷◌, ℕ, [], false, IfErr, IfOk, IfSome, Ok, OnOk, length, vec_len};

use container_core::container::{ContainerCore, Limits};
use script_commands::commands::carry_out;
use script_container::fault::ScriptFault;
use script_links::links::{Link, PIECE};
use script_links::progress::Progress;
use script_links::turns::end_all;
use script_model::command::ScriptCommand;
use script_model::host::Host;
use script_model::step::Step;
use script_texts::commands::Commands;
use std::alloc::{AllocError, Global};
use std::io::{Read, Write};
use store_model::disk::Disk;
use text_io::input::read_all;
use text_io::lines::parse_lines;

/// The greatest number that a script's container draws.
const MOST_NUMBERS: u32 = 1_000_000;

/// The commands that a text spells.
fn read_script<R: Read>(alloc: Global, reader: &mut R) -> Result<Vec<ScriptCommand>, ScriptFault>
    ensures read { IfOk result (λ commands. IfSome (R.remaining reader.old)
        (λ text. commands_read text ≡ Ok commands.items)) }
    ensures refused { IfErr result (λ fault. RefusesScript (R.remaining reader.old) fault) }
{
    let text = match read_all(alloc, reader) {
        Ok(text) => text,
        Err(fault) => return Err(ScriptFault::Input(fault)),
    };
    match parse_lines::<Commands>(alloc, &text) {
        Ok(commands) => Ok(commands),
        Err((line, fault)) => Err(ScriptFault::Line(line, fault)),
    }
}

/// Room for what is read of a link at once.
///
/// Refused for want of memory alone.
fn take_buffer(alloc: Global) -> Result<Vec<u8>, AllocError>
    ensures { IfOk result (λ buffer. vec_len buffer ≡ PIECE) }
{
    vec![in alloc; 0; PIECE]
}

/// Notes that the command of this place begins.
fn begins<H: Host>(host: &mut H, place: usize)
    requires { BeginsSaved (H.told host.old) }
    ensures told { (r : Record) → IsTold ⟦<H::Disk as Disk>⟧ (H.told host.old) r
        → IsTold ⟦<H::Disk as Disk>⟧ (H.told host.new) r }
    ensures still { (s : ℕ) → running s (H.told host.new) ≡ running s (H.told host.old) }
    ensures quiet { (s : ℕ) → passed s (H.told host.new) ≡ passed s (H.told host.old) }
    ensures rested { (s : ℕ) → pace s (H.told host.new) ≡ resting }
    ensures ordered { orders (H.told host.new) ≡ Step.Begins place ∷ orders (H.told host.old) }
    ensures noted { H.told host.new ≡ Stepped (Step.Begins place) ∷ H.told host.old }
{
    host.note(&Step::Begins(place));
}

/// Whether a link is held.
fn is_any_held(links: &[Link]) -> bool
    ensures { result ≡ is_any_held links.now }
{
    for link in links {
        if link.held {
            return true;
        }
    }
    false
}

/// Carries out commands, one after another.
fn carry_out_all<H: Host, W: Write>(
    alloc: Global,
    host: &mut H,
    progress: &mut Progress,
    commands: Vec<ScriptCommand>,
    writer: &mut W,
) -> Result<(), ScriptFault>
    requires told { IsTold ⟦<H::Disk as Disk>⟧ (H.told host.old) progress.old.core }
    requires linked { AreLinked (H.told host.old) progress.old.links.items }
    requires served { AreServed (H.told host.old) progress.old.links.items }
    requires none { H.told host.old ≡ [] }
    requires free { AreHeld (λ _. false) progress.old.links.items }
    requires quiet { AreQuiet progress.old.core.objects progress.old.links.items }
    requires saved { is_any_unsaved progress.old.core.frames ≡ false }
    ensures told { IsTold ⟦<H::Disk as Disk>⟧ (H.told host.new) progress.new.core }
    ensures linked { AreLinked (H.told host.new) progress.new.links.items }
    ensures ordered { OnOk result (orders (H.told host.new) ≡ behind_commands 0 commands.items []) }
    ensures begun { HaveBegun (H.told host.new) commands.items }
    ensures settled { OnOk result (IsSettled (H.told host.new)) }
    ensures released { OnOk result (AreReleased (H.told host.new) commands.items) }
    ensures held_back { AreHeldBack commands.items (H.told host.new) }
    ensures printed { OnOk result (HasLines ⟦<H::Disk as Disk>⟧ commands.items (length commands.items)
        (H.told host.new) (W.contents writer.old) (W.contents writer.new)) }
    ensures begun_printed { IfErr result (HasSome ⟦<H::Disk as Disk>⟧ commands.items (H.told host.new)
        (W.contents writer.old) (W.contents writer.new)) }
    ensures shown { IfErr result (λ fault. ShowsOf ⟦<H::Disk as Disk>⟧ commands.items (H.told host.new) fault) }
{
    for (place, command) in commands.into_iter().enumerate() {
        begins(host, place);
        carry_out(alloc, host, progress, command, writer)?;
    }
    if is_any_held(&progress.links) {
        return Err(ScriptFault::Stalled);
    }
    Ok(())
}

/// Carries out the commands of a text over a host, with a container of its own, and writes what is told of each as it
/// is carried out. However this ends, each server that was started is ended and awaited. A command sends no server more
/// than 1,000 turns; a turn makes a link anew once at most, and reads it 1,000,000 times at most. A save is lost for a
/// cause alone: the file is too large, a call of its disk failed, or the disk wasn't given at first. Before the first
/// `start` the file of frame 1 is saved with the next session, in which each server is started.
///
/// What is written of a command that ended is what the history makes of it (`printed`, where it ends well, and
/// `begun_printed`, where it doesn't): what the container answered, what a frame shows, what was found of a file, or
/// that no server of this number runs. `ok` is told only where meanwhile no object refused a call, no save was lost,
/// and each server that was asked for was tried to be started. Else the first of these is told.
///
/// Where it ends well, what was asked for is done (`settled`): no call is pending of a server that ran to the end, and
/// no frame's file is to be committed, or in doubt. Of frames this holds where each command begins, too (`heard`). And
/// no server that ran to the end is held (`released`); one that is held ends the script by `Stalled`. However it ends,
/// no message of a server is given to the container while the server is held (`held_back`): it waits until the command
/// that releases the server, or is dropped with the server's end.
///
/// Refused: an input that isn't read or has more than 134,217,728 bytes; the first line that spells no command; and
/// then, as commands are carried out: a server that isn't started (`Link`); what isn't answered in 1,000 turns, a file
/// that is still to be committed behind a command, or a link that is held at the end (`Stalled`); a file that can't be
/// opened or read, so that it isn't known what became of its save (`File`); no memory; a write that fails. Which of
/// these it is, the host's history shows (`faulted`), but for the last two.
///
/// No clause says that each server that the container has started still runs, nor with which fault of the store a lost
/// save is told: both are tested.
pub fn run_script<H: Host, R: Read, W: Write>(
    alloc: Global,
    host: &mut H,
    reader: &mut R,
    writer: &mut W,
) -> Result<(), ScriptFault>
    requires { H.told host.old ≡ [] }
    ensures awaited { (s : ℕ) → running s (H.told host.new) ≡ 0 }
    ensures turns { AreTurns (H.told host.new) }
    ensures bounded { AreBounded (H.told host.new) }
    ensures heard { AreHeard (H.told host.new) }
    ensures saved { AreSaved ⟦<H::Disk as Disk>⟧ (H.told host.new) }
    ensures opened { H.Disk.follows_model → AreOpened ⟦<H::Disk as Disk>⟧ (H.told host.new) }
    ensures started { AreStarted (H.told host.new) }
    ensures carried { OnOk result (IfSome (R.remaining reader.old) (λ text. AreCarriedOut (H.told host.new) text)) }
    ensures begun { IfSome (R.remaining reader.old) (λ text. MayHaveBegun (H.told host.new) text) }
    ensures settled { OnOk result (IsSettled (before_ends (H.told host.new))) }
    ensures released { OnOk result
        (IfSome (R.remaining reader.old) (λ text. AreReleasedOf (before_ends (H.told host.new)) text)) }
    ensures held_back { IfSome (R.remaining reader.old) (λ text. AreHeldBackOf (H.told host.new) text) }
    ensures faulted { IfErr result (λ fault. IsFaultOf ⟦<H::Disk as Disk>⟧ (R.remaining reader.old)
        (H.told host.new) fault) }
    ensures printed { OnOk result
        (IfSome (R.remaining reader.old) (λ text. HasAll ⟦<H::Disk as Disk>⟧ (before_ends (H.told host.new)) text
        (W.contents writer.old) (W.contents writer.new))) }
    ensures begun_printed { IfErr result
        (λ fault. IfSome (R.remaining reader.old)
        (λ text. HasSomeOf ⟦<H::Disk as Disk>⟧ (before_ends (H.told host.new)) text (W.contents writer.old)
        (W.contents writer.new) fault)) }
{
    let commands = match read_script(alloc, reader) {
        Ok(commands) => commands,
        Err(fault) => return Err(fault),
    };
    let Ok(buffer) = take_buffer(alloc) else {
        return Err(ScriptFault::NoMemory);
    };
    let limits = Limits {
        numbers: MOST_NUMBERS,
    };
    let core = ContainerCore::new(alloc, limits);
    let links = Vec::new(alloc);
    let mut progress = Progress {
        core,
        links,
        noticed: None,
        buffer,
    };
    let told = carry_out_all(alloc, host, &mut progress, commands, writer);
    end_all(host, &mut progress.links);
    told
}
