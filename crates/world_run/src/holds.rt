//! The lines of activations that have a frame's grant.

ghost use Rattle.std.specs.List.{flat_map};
ghost use Rattle.std.specs.Prelude.{◌≡◌, ◌++◌, OnOk};
ghost use Rattle.world_model.specs.Report.{hold_line, hold_lines};

use message_values::items::Items;
use server_model::hold::Hold;
use std::alloc::{AllocError, Global};
use text_spelling::writing::push_numbered;

/// Writes the lines of those at servers, of which the first has incarnation 1.
pub(crate) fn push_holds(
    alloc: Global,
    text: &mut Vec<u8>,
    holds: &[Items<Hold>],
) -> Result<(), AllocError>
    ensures { OnOk result (text.new.items ≡ text.old.items ++ hold_lines 1 holds.now) }
{
    for (index, held) in holds.iter().enumerate() {
        push_server_holds(alloc, text, index + 1, held.as_slice())?;
    }
    Ok(())
}

/// Writes the lines of those at one server.
fn push_server_holds(
    alloc: Global,
    text: &mut Vec<u8>,
    inc: usize,
    holds: &[Hold],
) -> Result<(), AllocError>
    ensures { OnOk result (text.new.items ≡ text.old.items ++ flat_map (hold_line inc) holds.now) }
{
    for hold in holds {
        push_hold(alloc, text, inc, hold)?;
    }
    Ok(())
}

/// Writes the line of an activation that has a frame's grant.
#[tactic(auto, unfolding(world_model::specs::Report::hold_line))]
fn push_hold(alloc: Global, text: &mut Vec<u8>, inc: usize, hold: &Hold) -> Result<(), AllocError>
    ensures { OnOk result (text.new.items ≡ text.old.items ++ hold_line inc hold.now) }
{
    push_numbered(alloc, text, "holds server ", inc)?;
    push_numbered(alloc, text, " act ", hold.act as usize)?;
    push_numbered(alloc, text, " grant ", hold.g as usize)?;
    text.push(b'\n')?;
    Ok(())
}
