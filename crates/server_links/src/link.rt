//! A link of a server, from one pause to the next.

ghost use Rattle.server_links.specs.Links.{HasLacked, IsUnderway, Pauses, pause_of};
ghost use Rattle.server_links.specs.Turns.{Turn};
ghost use Rattle.server_links.specs.View.{IsStarted};
ghost use Rattle.std.specs.Prelude.{◌≡◌, ℕ, List, Bool, IfOk, OnErr, Option};

use crate::serving::{Advance, End, Serving};
use object_core::embedded::Embedded;
use std::alloc::{AllocError, Global};
use std::io::{Read, Write};
use tree_values::class_id::ClassId;

/// Why a link is left for now.
#[derive(Clone, Copy)]
pub enum Pause {
    /// A call makes an activation, and needs an object of this class. Where none is offered, it is passed over.
    Wants(ClassId),
    /// The link is over, and why.
    Over(End),
    /// It goes on, and more than 2^63 frames came.
    Long,
}

/// Whether a step ends in a pause.
fn pause_of(advance: &Advance) -> Option<Pause>
    ensures { result ≡ pause_of advance.now }
{
    match advance {
        Advance::Wants(class) => Some(Pause::Wants(*class)),
        Advance::Over(end) => Some(Pause::Over(*end)),
        Advance::Met => None,
        Advance::Turned => None,
        Advance::Read => None,
    }
}

/// Serves a link until it is over, or wants an object. All that was written on it since it began are the answers to the
/// frames that were taken since then, in order.
///
/// Refused for want of memory alone. The frames before the one that memory was wanted for were served, and nothing of
/// that one was written. The link can't be gone on with then.
pub fn serve_link<R: Read, W: Write>(
    alloc: Global,
    serving: &mut Serving,
    reader: &mut R,
    writer: &mut W,
) -> Result<Pause, AllocError>
    requires { IsStarted serving.old }
    ensures started { IsStarted serving.new }
    ensures served { (made : List ℕ → Bool) (began : Turn) (unread held : Option (List ℕ))
        → IsUnderway (λ s. (⟦<dyn Embedded as Embedded>⟧ s.boxed.vtable).content s.boxed.value) serving.old made
        began unread (R.remaining reader.old) held (W.contents writer.old)
        → IfOk result (λ told. Pauses (λ s. (⟦<dyn Embedded as Embedded>⟧ s.boxed.vtable).content s.boxed.value)
        told serving.new made began unread (R.remaining reader.new) held (W.contents writer.new)) }
    ensures lacking { (made : List ℕ → Bool) (began : Turn) (unread held : Option (List ℕ))
        → IsUnderway (λ s. (⟦<dyn Embedded as Embedded>⟧ s.boxed.vtable).content s.boxed.value) serving.old made
        began unread (R.remaining reader.old) held (W.contents writer.old)
        → OnErr result (HasLacked made began unread (R.remaining reader.new) held (W.contents writer.new)) }
{
    for _ in 0..u64::MAX {
        let advance = serving.advance(alloc, reader, writer)?;
        if let Some(pause) = pause_of(&advance) {
            return Ok(pause);
        }
    }
    Ok(Pause::Long)
}
