//! Messages.

ghost use Rattle.std.specs.Prelude.{◌≡◌, IfOk};

use crate::answer::Answer;
use crate::operation::Operation;
use std::alloc::{AllocError, Global};
use tree_streams::stored::Stored;

/// What a message says. Every number in it is at least 1.
#[derive(Drop)]
pub enum Said {
    /// The container asks an activation of a server for an operation.
    Call {
        /// The server's incarnation.
        inc: u32,
        /// The activation.
        act: u32,
        /// The number of the call, from 1 for each activation.
        n: u32,
        /// What is asked.
        operation: Operation,
    },
    /// The server answers a call.
    Reply {
        /// The server's incarnation.
        inc: u32,
        /// The activation.
        act: u32,
        /// The number of the call.
        n: u32,
        /// What is answered.
        answer: Answer,
    },
    /// The server writes a content of its own accord.
    Write {
        /// The server's incarnation.
        inc: u32,
        /// The activation.
        act: u32,
        /// The storage grant that it writes under.
        s: u32,
        /// The number of the write, from 1 for each activation.
        w: u32,
        /// The content.
        content: Stored,
    },
    /// The server asks to be relieved of its frame's menus and border space.
    Ask {
        /// The server's incarnation.
        inc: u32,
        /// The activation.
        act: u32,
        /// The grant that it holds.
        g: u32,
    },
}

impl Said {
    /// The same said again.
    ///
    /// Refused for want of memory alone.
    pub fn copy(&self, alloc: Global) -> Result<Said, AllocError>
        ensures { IfOk result (λ m. m ≡ self.now) }
    {
        match self {
            Said::Call {
                inc,
                act,
                n,
                operation,
            } => Ok(Said::Call {
                inc: *inc,
                act: *act,
                n: *n,
                operation: operation.copy(alloc)?,
            }),
            Said::Reply {
                inc,
                act,
                n,
                answer,
            } => Ok(Said::Reply {
                inc: *inc,
                act: *act,
                n: *n,
                answer: answer.copy(alloc)?,
            }),
            Said::Write {
                inc,
                act,
                s,
                w,
                content,
            } => Ok(Said::Write {
                inc: *inc,
                act: *act,
                s: *s,
                w: *w,
                content: content.copy(alloc)?,
            }),
            Said::Ask { inc, act, g } => Ok(Said::Ask {
                inc: *inc,
                act: *act,
                g: *g,
            }),
        }
    }
}

/// A message: what is said, in a session of the container. A server is known by the session and its incarnation.
#[derive(Drop)]
pub struct Message {
    /// The session, at least 1.
    pub session: u32,
    /// What is said.
    pub said: Said,
}

impl Message {
    /// An equal message.
    ///
    /// Refused for want of memory alone.
    pub fn copy(&self, alloc: Global) -> Result<Message, AllocError>
        ensures { IfOk result (λ m. m ≡ self.now) }
    {
        Ok(Message {
            session: self.session,
            said: self.said.copy(alloc)?,
        })
    }
}
