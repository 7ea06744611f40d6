//! What each kind of answer means for an operation.

ghost use Rattle.std.specs.Prelude.{◌≡◌, ◌≤◌};
ghost use Rattle.container_links.specs.Answered.{grant_of, when_content, when_done, when_refused};

use message_values::operation::Operation;
use object_state::CloseOption;

/// What an operation that was done makes of an activation.
#[derive(Clone, Copy)]
pub(crate) enum WhenDone {
    /// It goes on, with this storage grant.
    Continues(u32),
    /// It goes on, and has given its frame up.
    GivesUp,
    /// It is over.
    Ends,
    /// Such an operation isn't answered so.
    Undone,
}

/// What an operation that was refused makes of it.
#[derive(Clone, Copy)]
pub(crate) enum WhenRefused {
    /// It is over, as it never began.
    Lost,
    /// It goes on as it was.
    Noted,
    /// Such an operation isn't answered so.
    Unrefused,
}

/// What an operation that was answered by a content makes of it.
#[derive(Clone, Copy)]
pub(crate) enum WhenContent {
    /// It goes on, and the content waits until its save is counted.
    Saved,
    /// It is over, and the object has the content.
    Closed,
    /// Such an operation isn't answered so.
    Unasked,
}

/// What this operation makes of an activation with this storage grant, once it was done.
pub(crate) fn when_done(operation: &Operation, s: u32) -> WhenDone
    requires { s ≤ 1000000 }
    ensures { result ≡ when_done operation.now s }
{
    match operation {
        Operation::InitNew(_) => WhenDone::Continues(1),
        Operation::Load(_, _) => WhenDone::Continues(1),
        Operation::InPlace => WhenDone::Continues(s),
        Operation::UiActivate(_) => WhenDone::Undone,
        Operation::UiDeactivate => WhenDone::GivesUp,
        Operation::InPlaceDeactivate => WhenDone::Continues(s),
        Operation::OpenWindow => WhenDone::Continues(s),
        Operation::Edit(_) => WhenDone::Continues(s),
        Operation::Save(_) => WhenDone::Undone,
        Operation::HandsOff => WhenDone::Continues(s),
        Operation::SaveCompleted { .. } => WhenDone::Continues(s + 1),
        Operation::SaveDropped(_) => WhenDone::Continues(s + 1),
        Operation::Close(option) => match option {
            CloseOption::SaveIfDirty => WhenDone::Undone,
            CloseOption::NoSave => WhenDone::Ends,
        },
    }
}

/// What this operation makes of an activation, once it was refused.
pub(crate) fn when_refused(operation: &Operation) -> WhenRefused
    ensures { result ≡ when_refused operation.now }
{
    match operation {
        Operation::InitNew(_) => WhenRefused::Lost,
        Operation::Load(_, _) => WhenRefused::Lost,
        Operation::Edit(_) => WhenRefused::Noted,
        _ => WhenRefused::Unrefused,
    }
}

/// What this operation makes of an activation, once it was answered by a content.
pub(crate) fn when_content(operation: &Operation) -> WhenContent
    ensures { result ≡ when_content operation.now }
{
    match operation {
        Operation::Save(_) => WhenContent::Saved,
        Operation::Close(option) => match option {
            CloseOption::SaveIfDirty => WhenContent::Closed,
            CloseOption::NoSave => WhenContent::Unasked,
        },
        _ => WhenContent::Unasked,
    }
}

/// The grant under which this operation asks for menus and border space, if it does.
pub(crate) fn grant_of(operation: &Operation) -> Option<u32>
    ensures { result ≡ grant_of operation.now }
{
    match operation {
        Operation::UiActivate(g) => Some(*g),
        _ => None,
    }
}
