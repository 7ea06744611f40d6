//! Whether a write may be taken.

ghost use Rattle.std.specs.Prelude.{◌≡◌};
ghost use Rattle.container_model.specs.Messages.{awaits_save, has_save, is_open_to, is_save, is_save_pending};

use container_model::record::Link;
use message_values::operation::Operation;

// Whether an operation answers a content for a save.
fn is_save(operation: &Operation) -> bool
    ensures { result ≡ is_save operation.now }
{
    match operation {
        Operation::Save(_) => true,
        _ => false,
    }
}

// Whether one of the operations does.
fn has_save(operations: &[Operation]) -> bool
    ensures { result ≡ has_save operations.now }
{
    for operation in operations {
        if is_save(operation) {
            return true;
        }
    }
    false
}

// Whether the pending operation does.
fn is_save_pending(pending: &Option<Operation>) -> bool
    ensures { result ≡ is_save_pending pending.now }
{
    match pending {
        Some(operation) => is_save(operation),
        None => false,
    }
}

/// Whether a save is asked of an activation and not answered yet: it is pending, or waits.
pub fn awaits_save(link: &Link) -> bool
    ensures { result ≡ awaits_save link.now }
{
    is_save_pending(&link.pending) || has_save(link.waiting.as_slice())
}

/// Whether an activation may write now: under its present storage grant, which is open for reading and writing, while
/// no save is asked of it, and with a number past each that was taken before.
pub fn is_open_to(link: &Link, s: u32, w: u32) -> bool
    ensures { result ≡ is_open_to link.now s w }
{
    link.s == s && link.states.persist.state.may_write() && !awaits_save(link) && link.w < w
}
