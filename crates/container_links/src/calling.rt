//! Calls of activations.

ghost use Rattle.std.specs.Prelude.{◌≡◌};
ghost use Rattle.container_model.specs.Record.{call};

use container_model::record::Link;
use message_values::message::{Message, Said};
use message_values::operation::Operation;

/// The call of this number that asks an activation for an operation, in the session of its server. Every call is made
/// by it.
pub fn call(link: &Link, n: u32, operation: Operation) -> Message
    ensures { result ≡ call link.now n operation }
{
    Message {
        session: link.session,
        said: Said::Call {
            inc: link.inc,
            act: link.act,
            n,
            operation,
        },
    }
}
