//! What the delivery of a message makes of a world.

ghost use Rattle.std.specs.Prelude.{◌≡◌, ◌≤◌, ◌<◌, [], IfErr, IfOk, None, OnErr, OnOk, Ok, Err, Some, length, map};
ghost use Rattle.std.specs.Prelude.{option_map, vec_len, vec_capacity};
ghost use Rattle.container_model.specs.Numbered.{IsNth};
ghost use Rattle.object_core.specs.Kinds.{kind_of};
ghost use Rattle.world_state.specs.declared.plan.Plan.TheVariants as plan;
ghost use Rattle.world_state.specs.Plans.{Fits, IsCallOf, carried, carry, carry_call, stock_with};
ghost use Rattle.world_state.specs.View.{seen, seen_stocked};
ghost use Rattle.world_model.specs.World.{StopsFor, delivered, step, no_choice};
ghost use Rattle.world_model.specs.declared.event.Event.TheVariants as event;

use crate::instance::Stocked;
use crate::plan::Plan;
use crate::state::State;
use container_checks::lookups::place;
use container_model::server_link::ServerLink;
use message_values::message::{Message, Said};
use message_values::operation::Operation;
use object_core::embedded::Embedded;
use server_core::refusal::Refusal;
use server_model::fault::ServerFault;
use std::alloc::Global;
use world_model::event::Stop;
use world_model::life::Life;

impl State {
    // A call at the server that stands at i, which makes no activation.
    fn serve(
        &mut self,
        alloc: Global,
        i: usize,
        session: u32,
        inc: u32,
        act: u32,
        n: u32,
        operation: Operation,
    ) -> Result<(), Stop>
        requires { IsNth inc self.old.instances.items i }
        ensures taken { OnOk result (carry_call (seen (λ s. content s.boxed) self.old) session inc act n operation
            (plan.Serve i) ≡ Ok (seen (λ s. content s.boxed) self.new)) }
        ensures refused { IfErr result
            (StopsFor (carry_call (seen (λ s. content s.boxed) self.old) session inc act n operation
            (plan.Serve i))) }
        ensures kept { OnErr result (seen (λ s. content s.boxed) self.new ≡ seen (λ s. content s.boxed) self.old) }
    {
        self.host.open()?;
        let Ok(room) = self.host.reply_room(alloc) else {
            return Err(Stop::NoMemory);
        };
        let view = self.view(i, act);
        let message = Message {
            session,
            said: Said::Call {
                inc,
                act,
                n,
                operation,
            },
        };
        match self.instances[i].core.on_call(alloc, message, None) {
            Ok(reaction) => {
                self.host
                    .replied(alloc, inc, view, reaction.reply, reaction.counted, room);
                Ok(())
            }
            Err(refusal) => match refusal.fault {
                ServerFault::NoMemory => Err(Stop::NoMemory),
                fault => {
                    self.host.dropped(fault);
                    Ok(())
                }
            },
        }
    }

    // An object that a server didn't use stands in stock again.
    fn put_back(&mut self, at: usize, back: Option<Box<dyn Embedded>>)
        requires place { at ≤ length self.old.stock.boxes.items }
        requires room { vec_len self.old.stock.boxes < vec_capacity self.old.stock.boxes }
        ensures host { self.new.host ≡ self.old.host }
        ensures put { seen (λ s. content s.boxed) self.new
            ≡ record (seen (λ s. content s.boxed) self.old) {
              stock =
                  stock_with (map (seen_stocked (λ s. content s.boxed)) self.old.stock.boxes.items) at
                  (option_map (λ b. kind_of (content b)) back);
            } }
    {
        match back {
            Some(boxed) => match self.stock.boxes.insert(at, Stocked { boxed }) {
                Ok(()) => {}
                Err(_) => unreachable!(),
            },
            None => {}
        }
    }

    // A call at the server that stands at i, which makes an activation with the object that stands in stock.
    fn begin(
        &mut self,
        alloc: Global,
        i: usize,
        at: usize,
        session: u32,
        inc: u32,
        act: u32,
        n: u32,
        operation: Operation,
    ) -> Result<(), Stop>
        requires place { IsNth inc self.old.instances.items i }
        requires stock { at < length self.old.stock.boxes.items }
        ensures taken { OnOk result (carry_call (seen (λ s. content s.boxed) self.old) session inc act n operation
            (plan.Begin i at) ≡ Ok (seen (λ s. content s.boxed) self.new)) }
        ensures refused { IfErr result
            (StopsFor (carry_call (seen (λ s. content s.boxed) self.old) session inc act n operation
            (plan.Begin i at))) }
        ensures kept { OnErr result (seen (λ s. content s.boxed) self.new ≡ seen (λ s. content s.boxed) self.old) }
    {
        self.host.open()?;
        let Ok(room) = self.host.reply_room(alloc) else {
            return Err(Stop::NoMemory);
        };
        let view = self.view(i, act);
        let message = Message {
            session,
            said: Said::Call {
                inc,
                act,
                n,
                operation,
            },
        };
        let Stocked { boxed } = self.stock.boxes.remove(at);
        match self.instances[i].core.on_call(alloc, message, Some(boxed)) {
            Ok(reaction) => {
                self.host
                    .replied(alloc, inc, view, reaction.reply, reaction.counted, room);
                Ok(())
            }
            Err(refusal) => {
                let Refusal { fault, back } = refusal;
                self.put_back(at, back);
                match fault {
                    ServerFault::NoMemory => Err(Stop::NoMemory),
                    fault => {
                        self.host.dropped(fault);
                        Ok(())
                    }
                }
            }
        }
    }

    // What a call at a server comes to.
    fn plan_call(&self, inc: u32, call: &Message) -> Result<Plan, Stop>
        requires { IsCallOf inc call.now.said }
        ensures planned { IfOk result
            (λ p. (delivered (seen (λ s. content s.boxed) self.now) call.now
            ≡ carried (seen (λ s. content s.boxed) self.now) call.now p)
            × Fits (seen (λ s. content s.boxed) self.now) call.now p) }
        ensures refused { IfErr result (λ stop. delivered (seen (λ s. content s.boxed) self.now) call.now ≡ Err stop) }
    {
        let Some((i, life)) = self.life(inc) else {
            return Ok(Plan::Quiet);
        };
        match life {
            Life::Running => {}
            Life::Ended | Life::Reaped => return Ok(Plan::Quiet),
        }
        let Some(class) = self.instances[i].core.wants(call) else {
            return Ok(Plan::Serve(i));
        };
        match self.stock.place(class) {
            Some(at) => Ok(Plan::Begin(i, at)),
            None => Err(Stop::OutOfStock),
        }
    }

    // What the delivery of a message comes to.
    fn plan(&self, message: &Message) -> Result<Plan, Stop>
        ensures planned { IfOk result
            (λ p. (delivered (seen (λ s. content s.boxed) self.now) message.now
            ≡ carried (seen (λ s. content s.boxed) self.now) message.now p)
            × Fits (seen (λ s. content s.boxed) self.now) message.now p) }
        ensures refused { IfErr result (λ stop. delivered (seen (λ s. content s.boxed) self.now) message.now
            ≡ Err stop) }
    {
        match &message.said {
            Said::Call { inc, .. } => self.plan_call(*inc, message),
            Said::Reply { inc, .. } | Said::Write { inc, .. } | Said::Ask { inc, .. } => {
                Ok(Plan::Tell(*inc))
            }
        }
    }

    // What a plan says of the message at this place is done.
    fn carry_out(&mut self, alloc: Global, p: u32, plan: Plan, message: Message) -> Result<(), Stop>
        requires { Fits (seen (λ s. content s.boxed) self.old) message plan }
        ensures taken { OnOk result (carry (seen (λ s. content s.boxed) self.old) p message plan
            ≡ Ok (seen (λ s. content s.boxed) self.new)) }
        ensures refused { IfErr result (StopsFor (carry (seen (λ s. content s.boxed) self.old) p message plan)) }
        ensures kept { OnErr result (seen (λ s. content s.boxed) self.new ≡ seen (λ s. content s.boxed) self.old) }
    {
        let Message { session, said } = message;
        match said {
            Said::Call {
                inc,
                act,
                n,
                operation,
            } => match plan {
                Plan::Quiet => {
                    self.host.open()?;
                    self.host.quiet(alloc);
                    Ok(())
                }
                Plan::Serve(i) => self.serve(alloc, i, session, inc, act, n, operation),
                Plan::Begin(i, at) => self.begin(alloc, i, at, session, inc, act, n, operation),
                Plan::Tell(_) => unreachable!(),
            },
            Said::Reply {
                inc,
                act,
                n,
                answer,
            } => self.tell(
                alloc,
                p,
                ServerLink { session, inc },
                Message {
                    session,
                    said: Said::Reply {
                        inc,
                        act,
                        n,
                        answer,
                    },
                },
            ),
            Said::Write {
                inc,
                act,
                s,
                w,
                content,
            } => self.tell(
                alloc,
                p,
                ServerLink { session, inc },
                Message {
                    session,
                    said: Said::Write {
                        inc,
                        act,
                        s,
                        w,
                        content,
                    },
                },
            ),
            Said::Ask { inc, act, g } => self.tell(
                alloc,
                p,
                ServerLink { session, inc },
                Message {
                    session,
                    said: Said::Ask { inc, act, g },
                },
            ),
        }
    }

    /// A message that was sent is delivered, to the container or to a server of these.
    ///
    /// Refused: `NotEnabled` where none has this place; `OutOfStock`; then `EventLimit`, then `NoMemory`. Then nothing
    /// changes.
    pub fn deliver(&mut self, alloc: Global, p: u32) -> Result<(), Stop>
        ensures taken { OnOk result (step (seen (λ s. content s.boxed) self.old) no_choice (event.Deliver p)
            ≡ Ok (seen (λ s. content s.boxed) self.new)) }
        ensures refused { IfErr result
            (StopsFor (step (seen (λ s. content s.boxed) self.old) no_choice (event.Deliver p))) }
        ensures kept { OnErr result (seen (λ s. content s.boxed) self.new ≡ seen (λ s. content s.boxed) self.old) }
    {
        let Some(i) = place(&self.host.sent, p) else {
            return Err(Stop::NotEnabled);
        };
        let plan = self.plan(&self.host.sent[i].message)?;
        self.host.open()?;
        let Ok(message) = self.host.sent[i].message.copy(alloc) else {
            return Err(Stop::NoMemory);
        };
        self.carry_out(alloc, p, plan, message)
    }
}
