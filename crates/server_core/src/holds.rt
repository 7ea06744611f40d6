//! Who has a frame's menus and border.

ghost use Rattle.std.specs.Prelude.{◌≡◌, ◌≤◌, IfOk, OnOk, length};
ghost use Rattle.std.specs.List.{insert};
ghost use Rattle.server_model.specs.Server.{add_hold, holds_of, place_hold};
ghost use Rattle.server_core.specs.View.{seen};

use crate::server::ServerCore;
use server_model::hold::Hold;
use std::alloc::{AllocError, Global};

// Where a hold goes among others: before the first of an activation with a number as high.
fn hold_place(holds: &[Hold], hold: Hold) -> usize
    ensures within { result ≤ length holds.now }
    ensures placed { place_hold hold holds.now ≡ insert holds.now result hold }
{
    for (i, other) in holds.iter().enumerate() {
        if hold.act <= other.act {
            return i;
        }
    }
    holds.len()
}

// The grant of an activation, if it has one, goes among those of others.
fn add_hold(holds: &mut Vec<Hold>, act: u32, grant: Option<u32>) -> Result<(), AllocError>
    ensures { OnOk result (holds.new.items ≡ add_hold act grant holds.old.items) }
{
    if let Some(g) = grant {
        let hold = Hold { act, g };
        let place = hold_place(holds, hold);
        holds.insert(place, hold)?;
    }
    Ok(())
}

impl ServerCore {
    /// The activations that have a grant, each with it, by rising number.
    ///
    /// Refused for want of memory alone.
    pub fn holds(&self, alloc: Global) -> Result<Vec<Hold>, AllocError>
        ensures { IfOk result (λ holds. holds.items ≡ holds_of (seen (λ s. content s.boxed) self.now).acts) }
    {
        let mut holds = Vec::new(alloc);
        let count = self.acts.len();
        for done in 0..count {
            let (act, activation) = self.acts.get_index(count - 1 - done).unwrap();
            add_hold(&mut holds, *act, activation.facts.grant())?;
        }
        Ok(holds)
    }
}
