//! The simulation of a world: its moments are read, happen, and are told.

ghost use Rattle.text_worlds.specs.Answers.{answer_lines};
ghost use Rattle.text_worlds.specs.Simulation.{IsSimulated, MayRefuseSimulate, Simulates, world_text};
ghost use Rattle.std.specs.Prelude.{◌≡◌, ◌≢◌, ◌≤◌, ◌<◌, ◌++◌, IfErr, IfOk, IfSome, OnOk, length, map};
ghost use Rattle.world_model.specs.Report.{report};
ghost use Rattle.world_run.specs.Shown.{shown};
ghost use Rattle.world_state.specs.View.{seen_stocked};
ghost use Rattle.world_model.specs.World.{MOST_EVENTS};

use container_core::container::Limits;
use object_core::embedded::Embedded;
use std::alloc::{AllocError, Global};
use std::io::{Read, Write};
use text_worlds::answers::push_answer;
use text_worlds::fault::SimulateFault;
use text_worlds::simulation::{push_end, read_moments, write_told};
use world_model::event::Stop;
use world_model::moment::Moment;
use world_run::world::World;
use world_state::stock::Stock;

/// Runs the moments that a text spells in a new world, and writes what they are answered, each with its number from 1,
/// then the world's report, and in the end the moment before which the run stopped, if it did. Gives why it stopped.
///
/// Refused: an input that isn't read or has more than 134,217,728 bytes; the first line that spells no moment; no
/// memory for what is printed. Nothing is written then. `Unwritable` where a write fails.
pub fn simulate<R: Read, W: Write>(
    alloc: Global,
    reader: &mut R,
    writer: &mut W,
    limits: Limits,
    stock: Stock,
) -> Result<Option<Stop>, SimulateFault>
    requires { limits.numbers ≤ 1000000 }
    ensures simulated { IfOk result
        (λ stop. IfSome (R.remaining reader.old)
        (λ text. Simulates limits.numbers
        (map (seen_stocked (λ s. (⟦<dyn Embedded as Embedded>⟧ s.boxed.vtable).content s.boxed.value))
        stock.boxes.items) text stop (W.contents writer.old) (W.contents writer.new))) }
    ensures refused { IfErr result (λ fault. IfSome (R.remaining reader.old) (λ text. MayRefuseSimulate text fault)) }
    ensures unwritten { IfErr result (λ fault. fault ≢ SimulateFault.Unwritable → writer.new ≡ writer.old) }
{
    let moments = match read_moments(alloc, reader) {
        Ok(moments) => moments,
        Err(fault) => return Err(fault),
    };
    let (out, stop) = match run(alloc, &moments, limits, stock) {
        Ok(told) => told,
        Err(_) => return Err(SimulateFault::NoMemory),
    };
    match write_told(writer, &out) {
        Ok(()) => Ok(stop),
        Err(_) => Err(SimulateFault::Unwritable),
    }
}

/// What is printed of a run of moments in a new world, and why the run stopped, if it did.
fn run(
    alloc: Global,
    moments: &[Moment],
    limits: Limits,
    stock: Stock,
) -> Result<(Vec<u8>, Option<Stop>), AllocError>
    requires { limits.numbers ≤ 1000000 }
    ensures { IfOk result (λ told. IsSimulated limits.numbers
        (map (seen_stocked (λ s. (⟦<dyn Embedded as Embedded>⟧ s.boxed.vtable).content s.boxed.value))
        stock.boxes.items) moments.now told.1 told.0.items) }
{
    let mut world = World::new(alloc, limits, stock);
    let (taken, stop) = world.run(alloc, moments);
    let mut out = Vec::new(alloc);
    push_told(alloc, &mut out, &world, taken, stop)?;
    Ok((out, stop))
}

/// Writes what a world's moments were answered, its report, and the moment before which its run stopped, if it did.
fn push_told(
    alloc: Global,
    out: &mut Vec<u8>,
    world: &World,
    taken: usize,
    stop: Option<Stop>,
) -> Result<(), AllocError>
    requires few { length (shown (λ s. (⟦<dyn Embedded as Embedded>⟧ s.boxed.vtable).content s.boxed.value)
        world.now).now.answers ≤ MOST_EVENTS }
    requires before { IfSome stop (λ stop. taken < usize.MAX) }
    ensures { OnOk result (out.new.items ≡ out.old.items ++ world_text
        (shown (λ s. (⟦<dyn Embedded as Embedded>⟧ s.boxed.vtable).content s.boxed.value) world.now).now taken
        stop) }
{
    push_answers(alloc, out, world)?;
    push_report(alloc, out, world)?;
    push_end(alloc, out, taken, stop)
}

/// Writes what a world's moments were answered.
fn push_answers(alloc: Global, out: &mut Vec<u8>, world: &World) -> Result<(), AllocError>
    requires { length (shown (λ s. (⟦<dyn Embedded as Embedded>⟧ s.boxed.vtable).content s.boxed.value)
        world.now).now.answers ≤ MOST_EVENTS }
    ensures { OnOk result (out.new.items ≡ out.old.items ++ answer_lines 1
        (shown (λ s. (⟦<dyn Embedded as Embedded>⟧ s.boxed.vtable).content s.boxed.value) world.now).now.answers) }
{
    let mut event: u32 = 1;
    while let Some(answer) = world.answer(event) {
        push_answer(alloc, out, event as usize, answer)?;
        event += 1;
    }
    Ok(())
}

/// Writes a world's report.
fn push_report(alloc: Global, out: &mut Vec<u8>, world: &World) -> Result<(), AllocError>
    ensures { OnOk result (out.new.items ≡ out.old.items
        ++ report (shown (λ s. (⟦<dyn Embedded as Embedded>⟧ s.boxed.vtable).content s.boxed.value)
        world.now).now) }
{
    match world.report(alloc, out) {
        Ok(()) => Ok(()),
        Err(_) => Err(AllocError),
    }
}
