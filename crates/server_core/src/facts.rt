//! What a server keeps of an activation, but for its number and its object.

ghost use Rattle.std.specs.Prelude.{◌≡◌, ◌+◌, ◌<◌, ◌^◌, Some, None, IfOk, option_map, IsTrue, ◌↔◌};
ghost use Rattle.object_state.specs.Both as both;
ghost use Rattle.message_values.specs.declared.answer.Answer.TheVariants as answer;
ghost use Rattle.message_values.specs.declared.message.Said.TheVariants as said;
ghost use Rattle.object_state.specs.Persists.{may_write};

use message_values::answer::Answer;
use message_values::message::Said;
use message_values::refusal::Refusal;
use object_state::{Menus, Op, StateFault, States};
use server_model::activation_view::ActivationView;
use server_model::counted::Counted;
use std::alloc::{AllocError, Global};
use std::marker::Model;
use tree_streams::stored::Stored;
use tree_values::class_id::ClassId;

/// An answer, and the save that was counted with it.
#[derive(Drop)]
pub struct Answered {
    /// The answer.
    pub answer: Answer,
    /// The save.
    pub counted: Option<Counted>,
}

impl Answered {
    /// An answer with which no save was counted.
    pub fn alone(answer: Answer) -> Answered
        ensures answer { result.answer ≡ answer }
        ensures counted { result.counted ≡ None }
    {
        Answered {
            answer,
            counted: None,
        }
    }
}

// What an object wants of its frame.
fn tools(menus: &Menus, border: [u16; 4]) -> Answer
    ensures { result ≡ answer.Tools menus.now border }
{
    Answer::Tools {
        menus: *menus,
        border,
    }
}

/// What a server keeps of an activation, but for its number and its object. Its storage grants are at most its calls.
#[derive(Drop)]
pub struct Facts {
    class: ClassId,
    last: u32,
    reply: Answer,
    states: States,
    saved: Option<Stored>,
    s: u32,
    w: u32,
    g: Option<u32>,
}

impl Model for Facts {
    ghost use Rattle.std.specs.Prelude.{◌≤◌};
    ghost use Rattle.server_core.specs.Kept.{Kept};

    ghost Value = { Kept };

    ghost view = { λ f. record {
      class = f.class;
      last = f.last;
      reply = f.reply;
      states = f.states;
      saved = f.saved;
      s = f.s;
      w = f.w;
      g = f.g;
    } };

    ghost invariant = { λ f. f.s ≤ f.last };
}

impl Facts {
    /// Those of an activation whose first call was done.
    pub fn opened(class: ClassId, states: States) -> Facts
        ensures { result ≡ record {
          class = class;
          last = 1;
          reply = answer.Done;
          states = states;
          saved = None;
          s = 1;
          w = 0;
          g = None;
        } }
    {
        Facts {
            class,
            last: 1,
            reply: Answer::Done,
            states,
            saved: None,
            s: 1,
            w: 0,
            g: None,
        }
    }

    /// Those of an activation whose first call was refused.
    pub fn closed(class: ClassId, refusal: Refusal) -> Facts
        ensures { result ≡ record {
          class = class;
          last = 1;
          reply = answer.Refused refusal;
          states = both.loaded;
          saved = None;
          s = 0;
          w = 0;
          g = None;
        } }
    {
        Facts {
            class,
            last: 1,
            reply: Answer::Refused(refusal),
            states: States::new(),
            saved: None,
            s: 0,
            w: 0,
            g: None,
        }
    }

    pub fn last(&self) -> u32
        ensures { result ≡ self.now.last }
    {
        self.last
    }

    /// Whether the call of this number is the next.
    pub fn is_next(&self, n: u32) -> bool
        ensures { IsTrue result ↔ (n ≡ self.now.last + 1) }
    {
        n > self.last && n - self.last == 1
    }

    /// The states after an operation.
    pub fn step(&self, op: Op) -> Result<States, StateFault>
        ensures { result ≡ both.step self.now.states op }
    {
        self.states.step(op)
    }

    /// The answer that was given last.
    pub fn reply(&self, alloc: Global) -> Result<Answer, AllocError>
        ensures { IfOk result (λ a. a ≡ self.now.reply) }
    {
        self.reply.copy(alloc)
    }

    /// Call n was answered, and led to these states.
    pub fn settle(&mut self, n: u32, states: States, reply: Answer)
        requires { n ≡ self.old.last + 1 }
        ensures { self.new ≡ record self.old { last = self.old.last + 1; states = states; reply = reply } }
    {
        self.last = n;
        self.states = states;
        self.reply = reply;
    }

    /// The save of this number as it is counted, none where no content was answered to a save.
    pub fn counted(&self, alloc: Global, act: u32, k: u32) -> Result<Option<Counted>, AllocError>
        ensures { IfOk result (λ c. c ≡ option_map (λ content. record { act = act; k = k; content = content })
            self.now.saved) }
    {
        match &self.saved {
            Some(content) => Ok(Some(Counted {
                act,
                k,
                content: content.copy(alloc)?,
            })),
            None => Ok(None),
        }
    }

    /// Call n was done.
    pub fn done(&mut self, n: u32, states: States) -> Answered
        requires { n ≡ self.old.last + 1 }
        ensures settled { self.new ≡ record self.old {
          last = self.old.last + 1;
          states = states;
          reply = answer.Done;
        } }
        ensures answered { result ≡ record { answer = answer.Done; counted = None } }
    {
        self.settle(n, states, Answer::Done);
        Answered::alone(Answer::Done)
    }

    /// Call n led to these states, and the object refused it.
    pub fn refused_in(&mut self, n: u32, states: States, refusal: Refusal) -> Answered
        requires { n ≡ self.old.last + 1 }
        ensures settled { self.new ≡ record self.old {
          last = self.old.last + 1;
          states = states;
          reply = answer.Refused refusal;
        } }
        ensures answered { result ≡ record { answer = answer.Refused refusal; counted = None } }
    {
        self.settle(n, states, Answer::Refused(refusal));
        Answered::alone(Answer::Refused(refusal))
    }

    /// Call n was answered with this content, for a save.
    pub fn settle_save(&mut self, n: u32, states: States, content: Stored, reply: Answer)
        requires { n ≡ self.old.last + 1 }
        ensures { self.new ≡ record self.old {
          last = self.old.last + 1;
          states = states;
          reply = reply;
          saved = Some content;
        } }
    {
        self.last = n;
        self.states = states;
        self.saved = Some(content);
        self.reply = reply;
    }

    /// Call n ended a save: the storage is granted anew.
    pub fn settle_end(&mut self, n: u32, states: States)
        requires { n ≡ self.old.last + 1 }
        ensures { self.new ≡ record self.old {
          last = self.old.last + 1;
          states = states;
          reply = answer.Done;
          s = self.old.s + 1;
        } }
    {
        self.last = n;
        self.states = states;
        self.reply = Answer::Done;
        self.s += 1;
    }

    /// Call n gave up a save: the storage is granted anew.
    pub fn dropped(&mut self, n: u32, states: States) -> Answered
        requires { n ≡ self.old.last + 1 }
        ensures settled { self.new ≡ record self.old {
          last = self.old.last + 1;
          states = states;
          reply = answer.Done;
          s = self.old.s + 1;
        } }
        ensures answered { result ≡ record { answer = answer.Done; counted = None } }
    {
        self.settle_end(n, states);
        Answered::alone(Answer::Done)
    }

    /// Call n took a grant of the frame, and was answered what the object wants of it.
    pub fn ui_active(
        &mut self,
        n: u32,
        states: States,
        grant: u32,
        menus: &Menus,
        border: [u16; 4],
    ) -> Answered
        requires { n ≡ self.old.last + 1 }
        ensures settled { self.new ≡ record self.old {
          last = self.old.last + 1;
          states = states;
          reply = answer.Tools menus.now border;
          g = Some grant;
        } }
        ensures answered { result ≡ record { answer = answer.Tools menus.now border; counted = None } }
    {
        self.settle(n, states, tools(menus, border));
        self.g = Some(grant);
        Answered::alone(tools(menus, border))
    }

    /// Call n gave the grant of the frame back.
    pub fn ui_inactive(&mut self, n: u32, states: States) -> Answered
        requires { n ≡ self.old.last + 1 }
        ensures settled { self.new ≡ record self.old {
          last = self.old.last + 1;
          states = states;
          reply = answer.Done;
          g = None;
        } }
        ensures answered { result ≡ record { answer = answer.Done; counted = None } }
    {
        self.settle(n, states, Answer::Done);
        self.g = None;
        Answered::alone(Answer::Done)
    }

    /// Call n was refused by the tables.
    pub fn refused(&mut self, n: u32, refusal: Refusal) -> Answered
        requires { n ≡ self.old.last + 1 }
        ensures settled { self.new ≡ record self.old { last = self.old.last + 1; reply = answer.Refused refusal } }
        ensures answered { result ≡ record { answer = answer.Refused refusal; counted = None } }
    {
        self.last = n;
        self.reply = Answer::Refused(refusal);
        Answered::alone(Answer::Refused(refusal))
    }

    /// Whether it may write into its storage.
    pub fn may_write(&self) -> bool
        ensures { result ≡ may_write self.now.states.persist.state }
    {
        self.states.persist.state.may_write()
    }

    /// How many writes it made.
    pub fn writes(&self) -> u32
        ensures { result ≡ self.now.w }
    {
        self.w
    }

    /// The next write, of this content.
    pub fn write(&mut self, inc: u32, act: u32, content: Stored) -> Said
        requires { self.old.w + 1 < 2 ^ 32 }
        ensures counted { self.new ≡ record self.old { w = self.old.w + 1 } }
        ensures written { result ≡ said.Write inc act self.old.s (self.old.w + 1) content }
    {
        self.w += 1;
        Said::Write {
            inc,
            act,
            s: self.s,
            w: self.w,
            content,
        }
    }

    /// The grant of its frame that it has.
    pub fn grant(&self) -> Option<u32>
        ensures { result ≡ self.now.g }
    {
        self.g
    }

    /// What asks to be relieved of its grant, where it has one.
    pub fn ask(&self, inc: u32, act: u32) -> Option<Said>
        ensures { result ≡ option_map (said.Ask inc act) self.now.g }
    {
        match self.g {
            Some(g) => Some(Said::Ask { inc, act, g }),
            None => None,
        }
    }

    /// The reply to its last call.
    pub fn last_reply(&self, alloc: Global, inc: u32, act: u32) -> Result<Said, AllocError>
        ensures { IfOk result (λ m. m ≡ said.Reply inc act self.now.last self.now.reply) }
    {
        Ok(Said::Reply {
            inc,
            act,
            n: self.last,
            answer: self.reply.copy(alloc)?,
        })
    }

    /// What is seen of it.
    pub fn view(&self, opened: bool) -> ActivationView
        ensures { result ≡ record {
          class = self.now.class;
          opened = opened;
          states = self.now.states;
          s = self.now.s;
          last = self.now.last;
          g = self.now.g;
          w = self.now.w;
        } }
    {
        ActivationView {
            class: self.class,
            opened,
            states: self.states,
            s: self.s,
            last: self.last,
            g: self.g,
            w: self.w,
        }
    }
}
