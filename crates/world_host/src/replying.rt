//! What a reply of a server, and an event that leads to nothing, leave in a world.

ghost use Rattle.std.specs.Prelude.{[], ◌∷◌, ◌++◌, ◌+◌, ◌≤◌, ◌<◌, ◌≡◌, IfOk, OnOk, Ok, vec_len, vec_capacity};
ghost use Rattle.world_model.specs.World.{owner, counted_by, quiet_outcome};
ghost use Rattle.world_model.specs.declared.logs.EventAnswer.TheVariants as told;
ghost use Rattle.world_host.specs.Rooms.{HasReplyRoom, replied};
ghost use Rattle.world_host.specs.View.{bare};

use crate::host::{Host, add, number};
use message_values::items::Items;
use message_values::message::Message;
use server_model::counted::Counted;
use server_model::fault::ServerFault;
use std::alloc::{AllocError, Global};
use world_model::logs::{EventAnswer, Outcome, Sent, ServerDone, View};

impl Host {
    /// An event that led to nothing.
    pub fn quiet(&mut self, alloc: Global)
        requires { vec_len self.old.answers < vec_capacity self.old.answers }
        ensures { bare self.new ≡ record (bare self.old) {
          answers = self.old.answers.items
              ++ told.Took quiet_outcome ∷ [];
        } }
    {
        add(&mut self.answers, EventAnswer::Took(Outcome::quiet(alloc)));
    }

    /// A message that a server did nothing with.
    pub fn dropped(&mut self, fault: ServerFault)
        requires { vec_len self.old.answers < vec_capacity self.old.answers }
        ensures { bare self.new ≡ record (bare self.old) {
          answers = self.old.answers.items ++ told.Dropped fault
              ∷ [];
        } }
    {
        add(&mut self.answers, EventAnswer::Dropped(fault));
    }

    // The object that an activation was made for, 0 where there is none.
    fn owner(&self, act: u32) -> u32
        ensures { result ≡ owner (bare self.now) act }
    {
        if act == 0 {
            return 0;
        }
        let place = (act - 1) as usize;
        if place < self.owners.len() {
            self.owners[place]
        } else {
            0
        }
    }

    /// Room for a reply; gives room for its place.
    pub fn reply_room(&mut self, alloc: Global) -> Result<Vec<u32>, AllocError>
        ensures place { IfOk result (λ v. v.items ≡ []) }
        ensures place_room { IfOk result (λ v. 1 ≤ vec_capacity v) }
        ensures room { OnOk result (HasReplyRoom self.new) }
        ensures answers { vec_len self.old.answers < vec_capacity self.old.answers
            → vec_len self.new.answers < vec_capacity self.new.answers }
        ensures kept { bare self.new ≡ bare self.old }
    {
        let place = Vec::with_capacity(alloc, 1)?;
        self.sent.reserve(1)?;
        self.server_done.reserve(1)?;
        if self.sent.len() >= 0xffff_ffff {
            return Err(AllocError);
        }
        Ok(place)
    }

    // What a server counted.
    fn count(&mut self, inc: u32, counted: Option<Counted>)
        requires { vec_len self.old.server_done < vec_capacity self.old.server_done }
        ensures { bare self.new ≡ record (bare self.old) {
          server_done = self.old.server_done.items
              ++ counted_by (bare self.old) inc counted;
        } }
    {
        match counted {
            Some(counted) => {
                let Counted { act, k, content } = counted;
                let object = self.owner(act);
                add(
                    &mut self.server_done,
                    ServerDone {
                        inc,
                        object,
                        k,
                        content,
                    },
                );
            }
            None => {}
        }
    }

    /// A reply of a server, its activation's state just before, and what the server counted.
    pub fn replied(
        &mut self,
        alloc: Global,
        inc: u32,
        view: Option<View>,
        reply: Message,
        counted: Option<Counted>,
        place: Vec<u32>,
    )
        requires place { place.items ≡ [] }
        requires place_room { 1 ≤ vec_capacity place }
        requires room { HasReplyRoom self.old }
        requires answers { vec_len self.old.answers < vec_capacity self.old.answers }
        ensures { bare self.new ≡ replied (bare self.old) inc view reply counted }
    {
        let mut place = place;
        number(&mut place, self.sent.len(), 1);
        add(
            &mut self.sent,
            Sent {
                message: reply,
                view,
            },
        );
        let mut outcome = Outcome::quiet(alloc);
        outcome.sent = Items::from_vec(place);
        add(&mut self.answers, EventAnswer::Took(outcome));
        self.count(inc, counted);
    }
}
