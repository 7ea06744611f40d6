//! What a server does with calls.

ghost use Rattle.std.specs.Prelude.{◌≡◌, ◌≢◌, ◌++◌, ◌∷◌, [], Some, None, Option, true, IfErr, IfOk, OnErr, Ok, OnOk};
ghost use Rattle.std.specs.Prelude.{option_map, is_some, ◌<◌};
ghost use Rattle.indexmap.specs.IndexMap.{spare};
ghost use Rattle.slab.specs.Slab.{HasRoomFor};
ghost use Rattle.message_values.specs.Found.{find};
ghost use Rattle.object_core.specs.Kinds.{Kind, kind_of};
ghost use Rattle.server_model.specs.Server.{Refuses, Takes, after_begun, begins, begun_class, begun_content};
ghost use Rattle.server_model.specs.Server.{begun_states, called, answers, fresh, offered, is_act, is_for, on_call};
ghost use Rattle.server_model.specs.Server.{unknown_call, unless_wanted, wanted, wanted_unknown};
ghost use Rattle.server_model.specs.Opened.{TakesCall, TakesKnown, first_class};
ghost use Rattle.server_core.specs.Kept.{whole};
ghost use Rattle.server_core.specs.Places.{IsAt};
ghost use Rattle.server_core.specs.View.{seen};
ghost use Rattle.message_values.specs.declared.answer.Answer.TheVariants as answer;

use crate::facts::{Answered, Facts};
use crate::refusal::{Reaction, Refusal};
use crate::server::{Activation, Seat, ServerCore};
use message_values::answer::Answer;
use message_values::message::{Message, Said};
use message_values::operation::Operation;
use message_values::refusal::Refusal as Why;
use object_core::embedded::Embedded;
use object_core::fault::EmbedFault;
use object_state::States;
use server_model::fault::ServerFault;
use std::alloc::{AllocError, Global};
use tree_values::class_id::ClassId;

// The class that a call begins an activation of, where it is a first one.
fn begun_class(n: u32, operation: &Operation) -> Option<ClassId>
    ensures { result ≡ begun_class n operation.now }
{
    match operation {
        Operation::InitNew(class) | Operation::Load(class, _) if n == 1 => Some(*class),
        _ => None,
    }
}

// The states after a first InitNew or Load.
fn begun_states(operation: &Operation) -> States
    ensures { result ≡ begun_states operation.now }
{
    let loaded = States::new();
    match loaded.step(operation.op()) {
        Ok(states) => states,
        Err(_) => loaded,
    }
}

impl ServerCore {
    // A call of the activation that stands at i.
    fn known(
        &mut self,
        alloc: Global,
        i: usize,
        act: u32,
        n: u32,
        operation: &Operation,
    ) -> Result<Answered, ServerFault>
        requires { IsAt self.old.acts.entries act i }
        ensures acted { IfOk result (λ t. TakesKnown (seen (λ s. content s.boxed) self.old) act n operation.now
            (find (is_act act) (seen (λ s. content s.boxed) self.old).acts) (seen (λ s. content s.boxed) self.new)
            t.answer t.counted) }
        ensures refused { IfErr result (λ e. (box : Option Kind)
            → Refuses (called (seen (λ s. content s.boxed) self.old) act n operation.now box
            (find (is_act act) (seen (λ s. content s.boxed) self.old).acts)) e) }
        ensures kept { OnErr result (seen (λ s. content s.boxed) self.new ≡ seen (λ s. content s.boxed) self.old) }
    {
        self.acts[i].on_call(alloc, act, &mut self.seats, n, operation)
    }

    // One more activation, into reserved room.
    fn push(&mut self, act: u32, facts: Facts, seat: Option<Seat>)
        requires unknown { find (is_act act) (seen (λ s. content s.boxed) self.old).acts ≡ None }
        requires room { 0 < spare self.old.acts }
        requires free { HasRoomFor self.old.seats.slab 1 }
        ensures { seen (λ s. content s.boxed) self.new
            ≡ record (seen (λ s. content s.boxed) self.old) {
              acts = (seen (λ s. content s.boxed) self.old).acts
                  ++ whole act facts (option_map (λ s. content s.boxed) seat) ∷ [];
            } }
    {
        let key = self.seats.put(act, seat);
        self.acts.insert(act, Activation { facts, key }).unwrap();
    }

    // A first call that the object refused: the activation is closed.
    fn push_closed(&mut self, act: u32, class: ClassId, refusal: Why) -> Answer
        requires unknown { find (is_act act) (seen (λ s. content s.boxed) self.old).acts ≡ None }
        requires room { 0 < spare self.old.acts }
        requires free { HasRoomFor self.old.seats.slab 1 }
        ensures pushed { seen (λ s. content s.boxed) self.new
            ≡ record (seen (λ s. content s.boxed) self.old) {
              acts = (seen (λ s. content s.boxed) self.old).acts
                  ++ (answers (fresh act class) (answer.Refused refusal)).activation ∷ [];
            } }
        ensures answered { result ≡ answer.Refused refusal }
    {
        self.push(act, Facts::closed(class, refusal), None);
        Answer::Refused(refusal)
    }

    // Makes room for one more activation, with a seat.
    fn reserve(&mut self) -> Result<(), AllocError>
        ensures room { OnOk result (0 < spare self.new.acts) }
        ensures free { OnOk result (HasRoomFor self.new.seats.slab 1) }
        ensures kept { seen (λ s. content s.boxed) self.new ≡ seen (λ s. content s.boxed) self.old }
    {
        self.seats.reserve()?;
        self.acts.reserve(1)
    }

    // A first call, with an object of its class.
    fn begin(
        &mut self,
        alloc: Global,
        act: u32,
        class: ClassId,
        operation: &Operation,
        boxed: Box<dyn Embedded>,
    ) -> Result<Answer, Refusal>
        requires { find (is_act act) (seen (λ s. content s.boxed) self.old).acts ≡ None }
        ensures begun { IfOk result (λ a. after_begun (seen (λ s. content s.boxed) self.old)
            (begins act class operation.now (begun_content (kind_of (content boxed)) operation.now))
            ≡ Ok (record {
              server = seen (λ s. content s.boxed) self.new;
              answer = a;
              counted = None;
              used = true;
            })) }
        ensures refused { IfErr result (λ r. r.fault ≡ ServerFault.NoMemory) }
        ensures handed_back { IfErr result (λ r. option_map (λ b. content b) r.back ≡ Some (content boxed)) }
        ensures same { IfErr result (λ r. r.fault ≢ ServerFault.NoMemory → r.back ≡ Some boxed) }
        ensures kept { OnErr result (seen (λ s. content s.boxed) self.new ≡ seen (λ s. content s.boxed) self.old) }
    {
        if self.reserve().is_err() {
            return Err(Refusal::no_memory(boxed));
        }
        let mut seat = Seat { boxed };
        match seat.begin(alloc, operation) {
            Ok(()) => {
                let facts = Facts::opened(class, begun_states(operation));
                self.push(act, facts, Some(seat));
                Ok(Answer::Done)
            }
            Err(EmbedFault::BadEdit) => Ok(self.push_closed(act, class, Why::BadEdit)),
            Err(EmbedFault::BadContent) => Ok(self.push_closed(act, class, Why::BadContent)),
            Err(EmbedFault::TooBig) => Ok(self.push_closed(act, class, Why::TooBig)),
            Err(EmbedFault::NoMemory) => Err(Refusal::no_memory(seat.boxed)),
        }
    }

    // A call of the activation that stands at i. The object isn't used.
    fn known_call(
        &mut self,
        alloc: Global,
        i: usize,
        act: u32,
        n: u32,
        operation: Operation,
        boxed: Option<Box<dyn Embedded>>,
    ) -> Result<Reaction, Refusal>
        requires { IsAt self.old.acts.entries act i }
        ensures acted { IfOk result (λ r. TakesCall (seen (λ s. content s.boxed) self.old) act n operation
            (option_map (λ b. kind_of (content b)) boxed)
            (find (is_act act) (seen (λ s. content s.boxed) self.old).acts) (seen (λ s. content s.boxed) self.new)
            r.reply r.counted) }
        ensures back { IfOk result
            (λ r. r.back ≡ unless_wanted (wanted_unknown (seen (λ s. content s.boxed) self.old)
            (begun_class n operation) (find (is_act act) (seen (λ s. content s.boxed) self.old).acts)) boxed) }
        ensures refused { IfErr result
            (λ r. Refuses (called (seen (λ s. content s.boxed) self.old) act n operation
            (option_map (λ b. kind_of (content b)) boxed)
            (find (is_act act) (seen (λ s. content s.boxed) self.old).acts)) r.fault) }
        ensures handed_back { IfErr result (λ r. option_map (λ b. content b) r.back
            ≡ option_map (λ b. content b) boxed) }
        ensures same { IfErr result (λ r. r.fault ≢ ServerFault.NoMemory → r.back ≡ boxed) }
        ensures kept { OnErr result (seen (λ s. content s.boxed) self.new ≡ seen (λ s. content s.boxed) self.old) }
    {
        let session = self.session;
        let inc = self.inc;
        let told = self.known(alloc, i, act, n, &operation);
        // In one call: at each way out of a function an operation that it still has is let go of as a match over its
        // kinds.
        drop(operation);
        match told {
            Ok(answered) => Ok(Reaction {
                reply: Message {
                    session,
                    said: Said::Reply {
                        inc,
                        act,
                        n,
                        answer: answered.answer,
                    },
                },
                counted: answered.counted,
                back: boxed,
            }),
            Err(fault) => Err(Refusal { fault, back: boxed }),
        }
    }

    // The class that a call begins an activation of, where the server may have one more.
    fn first_class(&self, n: u32, operation: &Operation) -> Result<ClassId, ServerFault>
        ensures { result ≡ first_class (seen (λ s. content s.boxed) self.now) (begun_class n operation.now) }
    {
        let Some(class) = begun_class(n, operation) else {
            return Err(ServerFault::Ignored);
        };
        if self.acts.len() >= self.numbers as usize {
            return Err(ServerFault::NumbersSpent);
        }
        Ok(class)
    }

    // A first call, with the object that was handed in.
    fn offered(
        &mut self,
        alloc: Global,
        act: u32,
        class: ClassId,
        operation: &Operation,
        boxed: Option<Box<dyn Embedded>>,
    ) -> Result<Answer, Refusal>
        requires { find (is_act act) (seen (λ s. content s.boxed) self.old).acts ≡ None }
        ensures acted { IfOk result (λ a. offered (seen (λ s. content s.boxed) self.old) act class operation.now
            (option_map (λ b. kind_of (content b)) boxed)
            ≡ Ok (record {
              server = seen (λ s. content s.boxed) self.new;
              answer = a;
              counted = None;
              used = true;
            })) }
        ensures refused { IfErr result
            (λ r. Refuses (offered (seen (λ s. content s.boxed) self.old) act class operation.now
            (option_map (λ b. kind_of (content b)) boxed)) r.fault) }
        ensures handed_back { IfErr result (λ r. option_map (λ b. content b) r.back
            ≡ option_map (λ b. content b) boxed) }
        ensures same { IfErr result (λ r. r.fault ≢ ServerFault.NoMemory → r.back ≡ boxed) }
        ensures kept { OnErr result (seen (λ s. content s.boxed) self.new ≡ seen (λ s. content s.boxed) self.old) }
    {
        let Some(boxed) = boxed else {
            return Err(Refusal {
                fault: ServerFault::NeedObject,
                back: None,
            });
        };
        if boxed.class() != class {
            return Err(Refusal {
                fault: ServerFault::WrongClass,
                back: Some(boxed),
            });
        }
        self.begin(alloc, act, class, operation, boxed)
    }

    // A call of an activation that isn't known.
    fn unknown_call(
        &mut self,
        alloc: Global,
        act: u32,
        n: u32,
        operation: Operation,
        boxed: Option<Box<dyn Embedded>>,
    ) -> Result<Reaction, Refusal>
        requires { find (is_act act) (seen (λ s. content s.boxed) self.old).acts ≡ None }
        ensures acted { IfOk result (λ r. TakesCall (seen (λ s. content s.boxed) self.old) act n operation
            (option_map (λ b. kind_of (content b)) boxed) None (seen (λ s. content s.boxed) self.new) r.reply
            r.counted) }
        ensures back { IfOk result
            (λ r. r.back ≡ unless_wanted (wanted_unknown (seen (λ s. content s.boxed) self.old)
            (begun_class n operation) None) boxed) }
        ensures refused { IfErr result
            (λ r. Refuses (called (seen (λ s. content s.boxed) self.old) act n operation
            (option_map (λ b. kind_of (content b)) boxed) None) r.fault) }
        ensures handed_back { IfErr result (λ r. option_map (λ b. content b) r.back
            ≡ option_map (λ b. content b) boxed) }
        ensures same { IfErr result (λ r. r.fault ≢ ServerFault.NoMemory → r.back ≡ boxed) }
        ensures kept { OnErr result (seen (λ s. content s.boxed) self.new ≡ seen (λ s. content s.boxed) self.old) }
    {
        let class = match self.first_class(n, &operation) {
            Ok(class) => class,
            Err(fault) => {
                drop(operation);
                return Err(Refusal { fault, back: boxed });
            }
        };
        let session = self.session;
        let inc = self.inc;
        let offered = self.offered(alloc, act, class, &operation, boxed);
        drop(operation);
        match offered {
            Ok(answer) => Ok(Reaction {
                reply: Message {
                    session,
                    said: Said::Reply {
                        inc,
                        act,
                        n,
                        answer,
                    },
                },
                counted: None,
                back: None,
            }),
            Err(refusal) => Err(refusal),
        }
    }

    // Whether it is this server's, by session and incarnation.
    fn is_for(&self, session: u32, inc: u32) -> bool
        ensures { result ≡ is_for (seen (λ s. content s.boxed) self.now) session inc }
    {
        session == self.session && inc == self.inc
    }

    /// The class of the object that a message needs, where it makes an activation: none for a message that makes none.
    pub fn wants(&self, message: &Message) -> Option<ClassId>
        ensures { result ≡ wanted (seen (λ s. content s.boxed) self.now) message.now }
    {
        let Said::Call {
            inc,
            act,
            n,
            operation,
        } = &message.said
        else {
            return None;
        };
        if !self.is_for(message.session, *inc) {
            return None;
        }
        if let Some(_) = self.place(*act) {
            return None;
        }
        match self.first_class(*n, operation) {
            Ok(class) => Some(class),
            Err(_) => None,
        }
    }

    /// What a message does, with an object handed in for an activation that it makes, or none. The activation's next
    /// call acts, its last is answered again.
    ///
    /// Refused: `WrongIncarnation` a call of another session, or for another incarnation; `Ignored` what isn't a call,
    /// a call of an unknown activation but for a first InitNew or Load, a call of a known one that is neither the last
    /// nor the next, or the next of a closed one; `NumbersSpent` where the server has as many activations as it may
    /// have; `NeedObject` where there is none to make the activation with; `WrongClass` where it is of another class;
    /// then `NoMemory`. Then nothing changes, and the object comes back: the very one that was handed in, and after
    /// `NoMemory` one with its content.
    pub fn on_call(
        &mut self,
        alloc: Global,
        message: Message,
        boxed: Option<Box<dyn Embedded>>,
    ) -> Result<Reaction, Refusal>
        ensures acted { IfOk result (λ r. Takes (seen (λ s. content s.boxed) self.old) message
            (option_map (λ b. kind_of (content b)) boxed) (seen (λ s. content s.boxed) self.new) r.reply
            r.counted) }
        ensures back { IfOk result
            (λ r. r.back ≡ unless_wanted (wanted (seen (λ s. content s.boxed) self.old) message) boxed) }
        ensures refused { IfErr result
            (λ r. Refuses (on_call (seen (λ s. content s.boxed) self.old) message
            (option_map (λ b. kind_of (content b)) boxed)) r.fault) }
        ensures handed_back { IfErr result (λ r. option_map (λ b. content b) r.back
            ≡ option_map (λ b. content b) boxed) }
        ensures same { IfErr result (λ r. r.fault ≢ ServerFault.NoMemory → r.back ≡ boxed) }
        ensures kept { OnErr result (seen (λ s. content s.boxed) self.new ≡ seen (λ s. content s.boxed) self.old) }
        ensures session { OnOk result (message.session ≡ (seen (λ s. content s.boxed) self.old).session) }
    {
        let Message { session, said } = message;
        let Said::Call {
            inc,
            act,
            n,
            operation,
        } = said
        else {
            return Err(Refusal {
                fault: ServerFault::Ignored,
                back: boxed,
            });
        };
        if !self.is_for(session, inc) {
            drop(operation);
            return Err(Refusal {
                fault: ServerFault::WrongIncarnation,
                back: boxed,
            });
        }
        match self.place(act) {
            Some(i) => self.known_call(alloc, i, act, n, operation, boxed),
            None => self.unknown_call(alloc, act, n, operation, boxed),
        }
    }
}
