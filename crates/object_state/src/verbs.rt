//! What the verbs of an object do in each of its states (IOleObject::DoVerb).
ghost use Rattle.std.specs.Prelude.{◌≡◌, ◌≢◌, IfSome, IfNone, option_map};
ghost use Rattle.object_state.specs.declared.verbs.Verb.{Verb};
ghost use Rattle.object_state.specs.Verbs as verb;

use crate::object_states::ObjectState;
use crate::operations::{CloseOption, Op};

/// A verb that every object has (OLEIVERB of IOleObject::DoVerb).
#[derive(Clone, Copy)]
pub enum Verb {
    /// 0: the object's main verb, which here shows it for editing in place.
    Primary,
    /// -1: shows it for editing in place.
    Show,
    /// -2: shows it in a window of its own.
    Open,
    /// -3: hides it.
    Hide,
    /// -4: makes it active in place, with menus and border space.
    UiActivate,
    /// -5: makes it active in place, without menus and border space.
    InPlaceActivate,
}

/// An operation that a verb or a close takes, whose grant is still to be named.
#[derive(Clone, Copy)]
pub enum Step {
    /// `Op::InPlace`.
    InPlace,
    /// `Op::UiActivate`, under a grant that the caller draws.
    UiActivate,
    /// `Op::UiDeactivate`.
    UiDeactivate,
    /// `Op::InPlaceDeactivate`.
    InPlaceDeactivate,
    /// `Op::OpenWindow`.
    OpenWindow,
    /// `Op::Close`.
    Close(CloseOption),
}

impl Verb {
    /// The verb of this number (OLEIVERB), none where the number is no verb's.
    pub fn new(number: i32) -> Option<Verb>
        ensures verb { result ≡ verb.verb_of number }
        ensures known { IfSome result (λ v. verb.number_of v ≡ number) }
        ensures unknown { IfNone result ((v : Verb) → verb.number_of v ≢ number) }
    {
        match number {
            0 => Some(Verb::Primary),
            -1 => Some(Verb::Show),
            -2 => Some(Verb::Open),
            -3 => Some(Verb::Hide),
            -4 => Some(Verb::UiActivate),
            -5 => Some(Verb::InPlaceActivate),
            _ => None,
        }
    }

    /// Whether the verb leads to menus and border space of the frame, whatever the object's state.
    pub fn activates_ui(self) -> bool
        ensures { result ≡ verb.activates_ui self }
    {
        matches!(self, Verb::Primary | Verb::Show | Verb::UiActivate)
    }

    /// The operations of the verb for an object in this state, in their order; none where the object
    /// doesn't take the verb: while it is open, or where it isn't running.
    pub fn steps(self, state: ObjectState) -> Option<&'static [Step]>
        ensures { option_map (λ steps. steps.now) result ≡ verb.steps self state }
    {
        match (self, state) {
            (Verb::Primary | Verb::Show | Verb::UiActivate, ObjectState::Running) => {
                Some(&[Step::InPlace, Step::UiActivate])
            }
            (Verb::Primary | Verb::Show | Verb::UiActivate, ObjectState::InPlaceActive) => {
                Some(&[Step::UiActivate])
            }
            (Verb::Primary | Verb::Show | Verb::UiActivate, ObjectState::UiActive) => Some(&[]),
            (Verb::Open, ObjectState::Running) => Some(&[Step::OpenWindow]),
            (Verb::Open, ObjectState::InPlaceActive) => {
                Some(&[Step::InPlaceDeactivate, Step::OpenWindow])
            }
            (Verb::Open, ObjectState::UiActive) => Some(&[
                Step::UiDeactivate,
                Step::InPlaceDeactivate,
                Step::OpenWindow,
            ]),
            (Verb::Open, ObjectState::Open) => Some(&[]),
            (Verb::Hide, ObjectState::Running) => Some(&[]),
            (Verb::Hide, ObjectState::InPlaceActive | ObjectState::Open) => {
                Some(&[Step::InPlaceDeactivate])
            }
            (Verb::Hide, ObjectState::UiActive) => {
                Some(&[Step::UiDeactivate, Step::InPlaceDeactivate])
            }
            (Verb::InPlaceActivate, ObjectState::Running) => Some(&[Step::InPlace]),
            (Verb::InPlaceActivate, ObjectState::InPlaceActive) => Some(&[]),
            (Verb::InPlaceActivate, ObjectState::UiActive) => Some(&[Step::UiDeactivate]),
            _ => None,
        }
    }
}

impl Step {
    /// The operation, with the grant's number where it takes one.
    pub fn op(self, g: u32) -> Op
        ensures { result ≡ verb.op_of g self }
    {
        match self {
            Step::InPlace => Op::InPlace,
            Step::UiActivate => Op::UiActivate(g),
            Step::UiDeactivate => Op::UiDeactivate,
            Step::InPlaceDeactivate => Op::InPlaceDeactivate,
            Step::OpenWindow => Op::OpenWindow,
            Step::Close(option) => Op::Close(option),
        }
    }
}

impl CloseOption {
    /// The operations that close an object in this state: those of the verb `Hide`, then Close; none
    /// where it isn't running.
    pub fn steps(self, state: ObjectState) -> Option<&'static [Step]>
        ensures { option_map (λ steps. steps.now) result ≡ verb.close_steps self state }
    {
        match (state, self) {
            (ObjectState::Running, CloseOption::SaveIfDirty) => {
                Some(&[Step::Close(CloseOption::SaveIfDirty)])
            }
            (ObjectState::Running, CloseOption::NoSave) => {
                Some(&[Step::Close(CloseOption::NoSave)])
            }
            (ObjectState::InPlaceActive | ObjectState::Open, CloseOption::SaveIfDirty) => Some(&[
                Step::InPlaceDeactivate,
                Step::Close(CloseOption::SaveIfDirty),
            ]),
            (ObjectState::InPlaceActive | ObjectState::Open, CloseOption::NoSave) => Some(&[
                Step::InPlaceDeactivate,
                Step::Close(CloseOption::NoSave),
            ]),
            (ObjectState::UiActive, CloseOption::SaveIfDirty) => Some(&[
                Step::UiDeactivate,
                Step::InPlaceDeactivate,
                Step::Close(CloseOption::SaveIfDirty),
            ]),
            (ObjectState::UiActive, CloseOption::NoSave) => Some(&[
                Step::UiDeactivate,
                Step::InPlaceDeactivate,
                Step::Close(CloseOption::NoSave),
            ]),
            _ => None,
        }
    }
}
