//! What a server sends of its own accord.

ghost use Rattle.std.specs.Prelude.{◌≡◌, Err, IfErr, IfOk, OnErr};
ghost use Rattle.message_values.specs.Found.{find};
ghost use Rattle.server_model.specs.Server.{Refuses, Tells, ask_deactivate, is_act, scribble, scribbled};
ghost use Rattle.server_core.specs.Places.{IsAt};
ghost use Rattle.server_core.specs.View.{seen};

use crate::server::ServerCore;
use message_values::message::Message;
use server_model::fault::ServerFault;
use std::alloc::Global;

impl ServerCore {
    // The activation that stands at i writes.
    fn scribble_at(&mut self, alloc: Global, i: usize, act: u32) -> Result<Message, ServerFault>
        requires { IsAt self.old.acts.entries act i }
        ensures told { IfOk result
            (λ m. Tells (scribbled (seen (λ s. content s.boxed) self.old)
            (find (is_act act) (seen (λ s. content s.boxed) self.old).acts)) (seen (λ s. content s.boxed) self.new)
            m) }
        ensures refused { IfErr result
            (Refuses (scribbled (seen (λ s. content s.boxed) self.old)
            (find (is_act act) (seen (λ s. content s.boxed) self.old).acts))) }
        ensures kept { OnErr result (seen (λ s. content s.boxed) self.new ≡ seen (λ s. content s.boxed) self.old) }
    {
        match self.acts[i].write(alloc, act, &self.seats, self.inc, self.numbers) {
            Ok(said) => Ok(Message {
                session: self.session,
                said,
            }),
            Err(fault) => Err(fault),
        }
    }

    /// An activation writes the content that it has now.
    ///
    /// Refused: `Ignored` where it isn't known, is closed or may not write into its storage; `NumbersSpent` where it
    /// made as many writes as it may; then `NoMemory`. Then nothing changes.
    pub fn scribble(&mut self, alloc: Global, act: u32) -> Result<Message, ServerFault>
        ensures told { IfOk result (λ m. Tells (scribble (seen (λ s. content s.boxed) self.old) act)
            (seen (λ s. content s.boxed) self.new) m) }
        ensures refused { IfErr result (Refuses (scribble (seen (λ s. content s.boxed) self.old) act)) }
        ensures kept { OnErr result (seen (λ s. content s.boxed) self.new ≡ seen (λ s. content s.boxed) self.old) }
    {
        match self.place(act) {
            Some(i) => self.scribble_at(alloc, i, act),
            None => Err(ServerFault::Ignored),
        }
    }

    /// An activation asks to be relieved of its frame's menus and border space. The server stays as it is.
    ///
    /// Refused: `Ignored` where it isn't known or has no grant.
    pub fn ask_deactivate(&self, act: u32) -> Result<Message, ServerFault>
        ensures told { IfOk result (λ m. Tells (ask_deactivate (seen (λ s. content s.boxed) self.now) act)
            (seen (λ s. content s.boxed) self.now) m) }
        ensures refused { IfErr result (λ fault. ask_deactivate (seen (λ s. content s.boxed) self.now) act
            ≡ Err fault) }
    {
        let Some(i) = self.place(act) else {
            return Err(ServerFault::Ignored);
        };
        match self.acts[i].facts.ask(self.inc, act) {
            Some(said) => Ok(Message {
                session: self.session,
                said,
            }),
            None => Err(ServerFault::Ignored),
        }
    }
}
