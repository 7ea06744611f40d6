//! What a container does with a message.

ghost use Rattle.std.specs.Prelude.{◌+◌, ◌≡◌, ◌≤◌, IfErr, IfOk, Ok, OnErr, length, true};
ghost use Rattle.container_queues.specs.Steady.{Steady};
ghost use Rattle.container_model.specs.Record.{Refuses, counts_none, is_linked, quiet_answer};
ghost use Rattle.container_model.specs.Messages.{is_said_by, on_message, on_reply, on_write, reply_found, said_to};
ghost use Rattle.container_model.specs.Messages.{write_found};
ghost use Rattle.container_model.specs.Room.{IsSound};
ghost use Rattle.message_values.specs.Found.{find, IsPlace};

use crate::state::State;
use container_checks::lookups::place_linked;
use container_grants::grants::{prepare_waiting, take_grants, tell_frame};
use container_links::handing::is_content;
use container_links::replies::gives_up;
use container_links::settling::settle_into;
use container_model::answer::Answer;
use container_model::fault::ContainerFault;
use container_model::server_link::ServerLink;
use container_objects::replies::{Told, answered, told_object};
use container_objects::writes::write_one;
use message_values::answer as reply;
use message_values::message::{Message, Said};
use std::alloc::Global;
use tree_streams::stored::Stored;

// The answer to a write that was taken.
fn content_taken(alloc: Global) -> Answer
    ensures { result ≡ record quiet_answer { taken = true } }
{
    let mut answer = Answer::quiet(alloc);
    answer.taken = true;
    answer
}

// Whether a server of this incarnation may say it.
fn is_said_by(link: u32, said: &Said) -> bool
    ensures { result ≡ is_said_by link said.now }
{
    match said {
        Said::Call { .. } => false,
        Said::Reply { inc, .. } | Said::Write { inc, .. } | Said::Ask { inc, .. } => *inc == link,
    }
}

impl State {
    /// A message on the link of a server. The answer has what came of it, what is sent and which files are to be
    /// committed.
    ///
    /// Refused: `WrongLink`, `Stale`, `BadAnswer`; then `NoMemory`. A refusal changes nothing.
    pub fn on_message(
        &mut self,
        alloc: Global,
        link: ServerLink,
        message: Message,
    ) -> Result<Answer, ContainerFault>
        requires steady { Steady self.old }
        requires sound { IsSound self.old }
        ensures taken { IfOk result (λ a. on_message self.old link message ≡ Ok (counts_none self.new a)) }
        ensures few { IfOk result (λ a. length a.actions ≤ length self.old.objects + length self.old.frames + 1) }
        ensures refused { IfErr result (Refuses (on_message self.old link message)) }
        ensures kept { OnErr result (self.new ≡ self.old) }
    {
        if message.session != link.session || !is_said_by(link.inc, &message.said) {
            drop(message);
            return Err(ContainerFault::WrongLink);
        }
        if link.session != self.session {
            drop(message);
            return Err(ContainerFault::Stale);
        }
        self.on_said(alloc, message.said)
    }

    // What a server says.
    fn on_said(&mut self, alloc: Global, said: Said) -> Result<Answer, ContainerFault>
        requires steady { Steady self.old }
        requires sound { IsSound self.old }
        ensures taken { IfOk result (λ a. said_to self.old said ≡ Ok (counts_none self.new a)) }
        ensures few { IfOk result (λ a. length a.actions ≤ length self.old.objects + length self.old.frames + 1) }
        ensures refused { IfErr result (Refuses (said_to self.old said)) }
        ensures kept { OnErr result (self.new ≡ self.old) }
    {
        match said {
            Said::Call { .. } => Err(ContainerFault::WrongLink),
            Said::Reply {
                inc,
                act,
                n,
                answer,
            } => self.on_reply(alloc, inc, act, n, answer),
            Said::Write {
                inc,
                act,
                s,
                w,
                content,
            } => self.on_write(alloc, inc, act, s, w, content),
            Said::Ask { inc, act, g } => self.on_ask(alloc, inc, act, g),
        }
    }

    // A reply of a server.
    fn on_reply(
        &mut self,
        alloc: Global,
        inc: u32,
        act: u32,
        n: u32,
        answer: reply::Answer,
    ) -> Result<Answer, ContainerFault>
        requires steady { Steady self.old }
        requires sound { IsSound self.old }
        ensures taken { IfOk result (λ a. on_reply self.old inc act n answer ≡ Ok (counts_none self.new a)) }
        ensures few { IfOk result (λ a. length a.actions ≤ length self.old.objects + length self.old.frames + 1) }
        ensures refused { IfErr result (Refuses (on_reply self.old inc act n answer)) }
        ensures kept { OnErr result (self.new ≡ self.old) }
    {
        if !self.servers.is_alive(inc) {
            return Err(ContainerFault::Stale);
        }
        let Some(place) = place_linked(&self.objects.list, inc, act) else {
            return Err(ContainerFault::Stale);
        };
        self.reply_at(alloc, place, inc, act, n, answer)
    }

    // A reply to the object that stands here.
    fn reply_at(
        &mut self,
        alloc: Global,
        place: usize,
        inc: u32,
        act: u32,
        n: u32,
        answer: reply::Answer,
    ) -> Result<Answer, ContainerFault>
        requires steady { Steady self.old }
        requires sound { IsSound self.old }
        requires place { IsPlace (is_linked inc act) self.old.objects place }
        ensures taken { IfOk result (λ a. reply_found self.old inc act n answer
            (find (is_linked inc act) self.old.objects) ≡ Ok (counts_none self.new a)) }
        ensures few { IfOk result (λ a. length a.actions ≤ length self.old.objects + length self.old.frames + 1) }
        ensures refused { IfErr result
            (Refuses (reply_found self.old inc act n answer (find (is_linked inc act) self.old.objects))) }
        ensures kept { OnErr result (self.new ≡ self.old) }
    {
        if is_content(&self.objects.list[place].link, n, &answer) {
            return self.content_at(alloc, place, inc, act, n, answer);
        }
        let f = self.objects.list[place].frame;
        let gives = gives_up(&self.objects.list[place].link, n, &answer);
        let Ok(grants) = prepare_waiting(alloc, gives, f, &self.frames, &self.objects) else {
            return Err(ContainerFault::NoMemory);
        };
        let more = self.frames.len() + 1;
        let Told {
            taken,
            refused,
            grant,
            mut actions,
        } = match told_object(alloc, &mut self.objects.list[place], n, answer, more) {
            Ok(replied) => replied,
            Err(fault) => return Err(fault),
        };
        let no_tools = tell_frame(&mut self.frames, f, grant);
        take_grants(&mut self.objects, &mut actions, grants);
        settle_into(&mut actions, &mut self.frames, &self.objects.list);
        Ok(answered(alloc, taken, refused, no_tools, actions))
    }

    // A write of a server.
    fn on_write(
        &mut self,
        alloc: Global,
        inc: u32,
        act: u32,
        s: u32,
        w: u32,
        content: Stored,
    ) -> Result<Answer, ContainerFault>
        ensures taken { IfOk result (λ a. on_write self.old inc act s w content ≡ Ok (counts_none self.new a)) }
        ensures few { IfOk result (λ a. length a.actions ≤ 1) }
        ensures refused { IfErr result (Refuses (on_write self.old inc act s w content)) }
        ensures kept { OnErr result (self.new ≡ self.old) }
    {
        if !self.servers.is_alive(inc) {
            return Err(ContainerFault::Stale);
        }
        let Some(place) = place_linked(&self.objects.list, inc, act) else {
            return Err(ContainerFault::Stale);
        };
        self.write_at(alloc, place, inc, act, s, w, content)
    }

    // A write to the object that stands here.
    fn write_at(
        &mut self,
        alloc: Global,
        place: usize,
        inc: u32,
        act: u32,
        s: u32,
        w: u32,
        content: Stored,
    ) -> Result<Answer, ContainerFault>
        requires { IsPlace (is_linked inc act) self.old.objects place }
        ensures taken { IfOk result (λ a. write_found self.old inc act s w content
            (find (is_linked inc act) self.old.objects) ≡ Ok (counts_none self.new a)) }
        ensures few { IfOk result (λ a. length a.actions ≤ 1) }
        ensures refused { IfErr result
            (Refuses (write_found self.old inc act s w content (find (is_linked inc act) self.old.objects))) }
        ensures kept { OnErr result (self.new ≡ self.old) }
    {
        match write_one(&mut self.objects.list[place], s, w, content) {
            Ok(()) => {}
            Err(fault) => return Err(fault),
        }
        Ok(content_taken(alloc))
    }
}
