//! What a server answers to a call.

ghost use Rattle.std.specs.Prelude.{◌≡◌, IfOk};

use crate::refusal::Refusal;
use object_state::Menus;
use std::alloc::{AllocError, Global};
use tree_streams::stored::Stored;

/// What a server answers to a call.
#[derive(Drop)]
pub enum Answer {
    /// It was done.
    Done,
    /// It was refused.
    Refused(Refusal),
    /// The content, to a Save, or to a Close that asks for it.
    Content(Stored),
    /// What the object wants of its frame, to a UiActivate.
    Tools {
        /// Its menus.
        menus: Menus,
        /// The border space that it asks for, in cells: left, top, right, bottom.
        border: [u16; 4],
    },
}

impl Answer {
    /// An equal answer.
    ///
    /// Refused for want of memory alone.
    pub fn copy(&self, alloc: Global) -> Result<Answer, AllocError>
        ensures { IfOk result (λ a. a ≡ self.now) }
    {
        match self {
            Answer::Done => Ok(Answer::Done),
            Answer::Refused(refusal) => Ok(Answer::Refused(*refusal)),
            Answer::Content(content) => Ok(Answer::Content(content.copy(alloc)?)),
            Answer::Tools { menus, border } => Ok(Answer::Tools {
                menus: *menus,
                border: *border,
            }),
        }
    }
}
