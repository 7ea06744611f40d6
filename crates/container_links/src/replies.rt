//! What an answer makes of an object's link, and what is called next.

ghost use Rattle.std.specs.Prelude.{◌≡◌, ◌+◌, ◌≤◌, IfErr, IfOk, IfSome, OnErr, Ok, Some, None, true, length, vec_len};
ghost use Rattle.std.specs.Prelude.{vec_capacity};
ghost use Rattle.object_state.specs.Both as both;
ghost use Rattle.container_model.specs.Record.{Refuses, sends};
ghost use Rattle.container_links.specs.Answered.{answered, is_pending};
ghost use Rattle.container_links.specs.Relieving.{gives_up};
ghost use Rattle.container_model.specs.Messages.{closed_with, done_link, granted_link, is_fit, lost, next_at, noted};
ghost use Rattle.container_model.specs.Messages.{replied, reply_link, saved_link};
ghost use Rattle.container_model.specs.Replies.{first_call, resumed};
ghost use Rattle.container_model.specs.Room.{IfLinked, IsRoomy};
ghost use Rattle.message_values.specs.declared.operation.Operation.TheVariants.{UiDeactivate};

use crate::calling::call;
use crate::turns::{
    WhenContent, WhenDone, WhenRefused, grant_of, when_content, when_done, when_refused,
};
use container_model::answer::Action;
use container_model::fault::ContainerFault;
use container_model::grants::Tells;
use container_model::record::Link;
use message_values::answer::Answer;
use message_values::operation::Operation;
use message_values::refusal::Refusal;
use object_state::{Op, States, Tools};
use std::alloc::{AllocError, Global};
use tree_streams::limits::is_within;
use tree_streams::stored::Stored;

/// What a reply gives.
#[derive(Drop)]
pub struct Replied {
    /// The content that is the object's work content from now on, if any.
    pub taken: Option<Stored>,
    /// Why the object refused the call.
    pub refused: Option<Refusal>,
    /// What is told of the frame's grant.
    pub grant: Option<Tells>,
    /// The call that is sent next, if any.
    pub actions: Vec<Action>,
}

// The call of the first operation that waits.
fn next_call(alloc: Global, link: &Link) -> Result<Option<Action>, AllocError>
    requires { link.now.last + length link.now.waiting ≤ 1000000 }
    ensures { IfOk result (λ a. first_call link.now link.now.waiting ≡ a) }
{
    match link.waiting.as_slice().first() {
        None => Ok(None),
        Some(operation) => Ok(Some(Action::Send(call(
            link,
            link.last + 1,
            operation.copy(alloc)?,
        )))),
    }
}

// The first operation that waits is pending, or none is.
fn go_on(link: &mut Link)
    requires { link.old.last + length link.old.waiting ≤ 1000000 }
    ensures { link.new ≡ (next_at (record link.old { pending = None }) link.old.waiting).link }
{
    link.pending = link.waiting.take_first();
    if link.pending.is_some() {
        link.last += 1;
    }
}

// The call that is sent next, in a list with room for so many actions more.
fn next_actions(alloc: Global, link: &Link, more: usize) -> Result<Vec<Action>, AllocError>
    requires numbers { link.now.last + length link.now.waiting ≤ 1000000 }
    requires few { more ≤ 2000001 }
    ensures sent { IfOk result (λ v. v.items ≡ sends (next_at link.now link.now.waiting).sent) }
    ensures few { IfOk result (λ v. vec_len v ≤ 1) }
    ensures room { IfOk result (λ v. vec_len v + more ≤ vec_capacity v) }
{
    let mut actions = Vec::with_capacity(alloc, more + 1)?;
    if let Some(call) = next_call(alloc, link)? {
        match actions.push(call) {
            Ok(()) => {}
            Err(_) => unreachable!(),
        }
    }
    Ok(actions)
}

// An operation was done, with this storage grant after it.
fn done(
    alloc: Global,
    link: &mut Link,
    op: Op,
    s: u32,
    more: usize,
) -> Result<Replied, ContainerFault>
    requires numbers { link.old.last + length link.old.waiting ≤ 1000000 }
    requires few { more ≤ 2000001 }
    ensures taken { IfOk result (λ t. resumed (done_link link.old s (both.step link.old.states op))
        ≡ Ok (record {
          link = Some link.new;
          taken = t.taken;
          refused = t.refused;
          grant = t.grant;
          actions = t.actions.items;
        })) }
    ensures few { IfOk result (λ t. vec_len t.actions ≤ 1) }
    ensures room { IfOk result (λ t. vec_len t.actions + more ≤ vec_capacity t.actions) }
    ensures refused { IfErr result (Refuses (done_link link.old s (both.step link.old.states op))) }
    ensures kept { OnErr result (link.new ≡ link.old) }
{
    let Ok(states) = link.states.step(op) else {
        return Err(ContainerFault::BadAnswer);
    };
    let Ok(actions) = next_actions(alloc, link, more) else {
        return Err(ContainerFault::NoMemory);
    };
    go_on(link);
    link.states = states;
    link.s = s;
    Ok(Replied {
        taken: None,
        refused: None,
        grant: None,
        actions,
    })
}

// An operation was done and answered the content.
fn saved(
    alloc: Global,
    link: &mut Link,
    op: Op,
    content: Stored,
    more: usize,
) -> Result<Replied, ContainerFault>
    requires numbers { link.old.last + length link.old.waiting ≤ 1000000 }
    requires few { more ≤ 2000001 }
    ensures taken { IfOk result
        (λ t. resumed (saved_link content (done_link link.old link.old.s (both.step link.old.states op)))
        ≡ Ok (record {
          link = Some link.new;
          taken = t.taken;
          refused = t.refused;
          grant = t.grant;
          actions = t.actions.items;
        })) }
    ensures few { IfOk result (λ t. vec_len t.actions ≤ 1) }
    ensures room { IfOk result (λ t. vec_len t.actions + more ≤ vec_capacity t.actions) }
    ensures refused { IfErr result
        (Refuses (saved_link content (done_link link.old link.old.s (both.step link.old.states op)))) }
    ensures kept { OnErr result (link.new ≡ link.old) }
{
    let s = link.s;
    match done(alloc, link, op, s, more) {
        Ok(replied) => {
            link.saved = Some(content);
            Ok(replied)
        }
        Err(fault) => Err(fault),
    }
}

// An operation was done, which tells this of the frame's grant.
fn granted(
    alloc: Global,
    link: &mut Link,
    op: Op,
    told: Tells,
    more: usize,
) -> Result<Replied, ContainerFault>
    requires numbers { link.old.last + length link.old.waiting ≤ 1000000 }
    requires few { more ≤ 2000001 }
    ensures taken { IfOk result
        (λ t. resumed (granted_link told (done_link link.old link.old.s (both.step link.old.states op)))
        ≡ Ok (record {
          link = Some link.new;
          taken = t.taken;
          refused = t.refused;
          grant = t.grant;
          actions = t.actions.items;
        })) }
    ensures few { IfOk result (λ t. vec_len t.actions ≤ 1) }
    ensures room { IfOk result (λ t. vec_len t.actions + more ≤ vec_capacity t.actions) }
    ensures refused { IfErr result
        (Refuses (granted_link told (done_link link.old link.old.s (both.step link.old.states op)))) }
    ensures kept { OnErr result (link.new ≡ link.old) }
{
    let s = link.s;
    match done(alloc, link, op, s, more) {
        Ok(replied) => {
            let mut replied = replied;
            replied.grant = Some(told);
            Ok(replied)
        }
        Err(fault) => Err(fault),
    }
}

// The refusal of an operation is noted, and all else stays.
fn noted(
    alloc: Global,
    link: &mut Link,
    why: Refusal,
    more: usize,
) -> Result<Replied, ContainerFault>
    requires numbers { link.old.last + length link.old.waiting ≤ 1000000 }
    requires few { more ≤ 2000001 }
    ensures taken { IfOk result (λ t. resumed (noted link.old why)
        ≡ Ok (record {
          link = Some link.new;
          taken = t.taken;
          refused = t.refused;
          grant = t.grant;
          actions = t.actions.items;
        })) }
    ensures few { IfOk result (λ t. vec_len t.actions ≤ 1) }
    ensures room { IfOk result (λ t. vec_len t.actions + more ≤ vec_capacity t.actions) }
    ensures refused { IfErr result (Refuses (noted link.old why)) }
    ensures kept { OnErr result (link.new ≡ link.old) }
{
    let Ok(actions) = next_actions(alloc, link, more) else {
        return Err(ContainerFault::NoMemory);
    };
    go_on(link);
    Ok(Replied {
        taken: None,
        refused: Some(why),
        grant: None,
        actions,
    })
}

// The object is passive again.
fn lost(
    alloc: Global,
    link: &mut Option<Link>,
    why: Refusal,
    more: usize,
) -> Result<Replied, ContainerFault>
    requires { more ≤ 2000001 }
    ensures taken { IfOk result (λ t. resumed (lost why)
        ≡ Ok (record {
          link = link.new;
          taken = t.taken;
          refused = t.refused;
          grant = t.grant;
          actions = t.actions.items;
        })) }
    ensures few { IfOk result (λ t. vec_len t.actions ≤ 1) }
    ensures room { IfOk result (λ t. vec_len t.actions + more ≤ vec_capacity t.actions) }
    ensures refused { IfErr result (Refuses (lost why)) }
    ensures kept { OnErr result (link.new ≡ link.old) }
{
    let Ok(actions) = Vec::with_capacity(alloc, more) else {
        return Err(ContainerFault::NoMemory);
    };
    *link = None;
    Ok(Replied {
        taken: None,
        refused: Some(why),
        grant: None,
        actions,
    })
}

// The object is passive again, and has this content, if any.
fn closed(
    alloc: Global,
    link: &mut Option<Link>,
    states: States,
    op: Op,
    content: Option<Stored>,
    more: usize,
) -> Result<Replied, ContainerFault>
    requires { more ≤ 2000001 }
    ensures taken { IfOk result (λ t. resumed (closed_with content (both.step states op))
        ≡ Ok (record {
          link = link.new;
          taken = t.taken;
          refused = t.refused;
          grant = t.grant;
          actions = t.actions.items;
        })) }
    ensures few { IfOk result (λ t. vec_len t.actions ≤ 1) }
    ensures room { IfOk result (λ t. vec_len t.actions + more ≤ vec_capacity t.actions) }
    ensures refused { IfErr result (Refuses (closed_with content (both.step states op))) }
    ensures kept { OnErr result (link.new ≡ link.old) }
{
    if states.step(op).is_err() {
        return Err(ContainerFault::BadAnswer);
    }
    let Ok(actions) = Vec::with_capacity(alloc, more) else {
        return Err(ContainerFault::NoMemory);
    };
    *link = None;
    Ok(Replied {
        taken: content,
        refused: None,
        grant: None,
        actions,
    })
}

// Whether an answer's content, if it has one, may be stored.
fn is_fit(answer: &Answer) -> bool
    ensures { result ≡ is_fit answer.now }
{
    match answer {
        Answer::Content(content) => is_within(content),
        _ => true,
    }
}

// Whether the call of this number is pending.
fn is_pending(link: &Option<Link>, n: u32) -> bool
    ensures { result ≡ is_pending n link.now }
{
    match link {
        Some(l) => l.pending.is_some() && n == l.last,
        None => false,
    }
}

// The pending operation was done.
fn done_told(alloc: Global, link: &mut Option<Link>, more: usize) -> Result<Replied, ContainerFault>
    requires numbers { IfLinked (IsRoomy 1000000 0) link.old }
    requires few { more ≤ 2000001 }
    ensures taken { IfOk result (λ t. resumed (answered link.old Answer.Done)
        ≡ Ok (record {
          link = link.new;
          taken = t.taken;
          refused = t.refused;
          grant = t.grant;
          actions = t.actions.items;
        })) }
    ensures few { IfOk result (λ t. vec_len t.actions ≤ 1) }
    ensures room { IfOk result (λ t. vec_len t.actions + more ≤ vec_capacity t.actions) }
    ensures refused { IfErr result (Refuses (answered link.old Answer.Done)) }
    ensures kept { OnErr result (link.new ≡ link.old) }
{
    let Some(l) = link else {
        return Err(ContainerFault::Stale);
    };
    let Some(operation) = &l.pending else {
        return Err(ContainerFault::Stale);
    };
    let op = operation.op();
    let states = l.states;
    let act = l.act;
    match when_done(operation, l.s) {
        WhenDone::Continues(s) => done(alloc, l, op, s, more),
        WhenDone::GivesUp => granted(alloc, l, op, Tells::GivesUp(act), more),
        WhenDone::Ends => closed(alloc, link, states, op, None, more),
        WhenDone::Undone => Err(ContainerFault::BadAnswer),
    }
}

// The pending operation was refused.
fn refused_told(
    alloc: Global,
    link: &mut Option<Link>,
    why: Refusal,
    more: usize,
) -> Result<Replied, ContainerFault>
    requires numbers { IfLinked (IsRoomy 1000000 0) link.old }
    requires few { more ≤ 2000001 }
    ensures taken { IfOk result (λ t. resumed (answered link.old (Answer.Refused why))
        ≡ Ok (record {
          link = link.new;
          taken = t.taken;
          refused = t.refused;
          grant = t.grant;
          actions = t.actions.items;
        })) }
    ensures few { IfOk result (λ t. vec_len t.actions ≤ 1) }
    ensures room { IfOk result (λ t. vec_len t.actions + more ≤ vec_capacity t.actions) }
    ensures refused { IfErr result (Refuses (answered link.old (Answer.Refused why))) }
    ensures kept { OnErr result (link.new ≡ link.old) }
{
    let Some(l) = link else {
        return Err(ContainerFault::Stale);
    };
    let Some(operation) = &l.pending else {
        return Err(ContainerFault::Stale);
    };
    match when_refused(operation) {
        WhenRefused::Lost => lost(alloc, link, why, more),
        WhenRefused::Noted => noted(alloc, l, why, more),
        WhenRefused::Unrefused => Err(ContainerFault::BadAnswer),
    }
}

// The pending operation was answered by a content.
fn content_told(
    alloc: Global,
    link: &mut Option<Link>,
    content: Stored,
    more: usize,
) -> Result<Replied, ContainerFault>
    requires numbers { IfLinked (IsRoomy 1000000 0) link.old }
    requires few { more ≤ 2000001 }
    ensures taken { IfOk result (λ t. resumed (answered link.old (Answer.Content content))
        ≡ Ok (record {
          link = link.new;
          taken = t.taken;
          refused = t.refused;
          grant = t.grant;
          actions = t.actions.items;
        })) }
    ensures few { IfOk result (λ t. vec_len t.actions ≤ 1) }
    ensures room { IfOk result (λ t. vec_len t.actions + more ≤ vec_capacity t.actions) }
    ensures refused { IfErr result (Refuses (answered link.old (Answer.Content content))) }
    ensures kept { OnErr result (link.new ≡ link.old) }
{
    let Some(l) = link else {
        return Err(ContainerFault::Stale);
    };
    let Some(operation) = &l.pending else {
        return Err(ContainerFault::Stale);
    };
    let op = operation.op();
    let states = l.states;
    match when_content(operation) {
        WhenContent::Saved => saved(alloc, l, op, content, more),
        WhenContent::Closed => closed(alloc, link, states, op, Some(content), more),
        WhenContent::Unasked => Err(ContainerFault::BadAnswer),
    }
}

// The pending operation was answered by what the object wants of its frame.
fn tools_told(
    alloc: Global,
    link: &mut Option<Link>,
    tools: Tools,
    more: usize,
) -> Result<Replied, ContainerFault>
    requires numbers { IfLinked (IsRoomy 1000000 0) link.old }
    requires few { more ≤ 2000001 }
    ensures taken { IfOk result (λ t. resumed (answered link.old (Answer.Tools tools.menus tools.border))
        ≡ Ok (record {
          link = link.new;
          taken = t.taken;
          refused = t.refused;
          grant = t.grant;
          actions = t.actions.items;
        })) }
    ensures few { IfOk result (λ t. vec_len t.actions ≤ 1) }
    ensures room { IfOk result (λ t. vec_len t.actions + more ≤ vec_capacity t.actions) }
    ensures refused { IfErr result (Refuses (answered link.old (Answer.Tools tools.menus tools.border))) }
    ensures kept { OnErr result (link.new ≡ link.old) }
{
    let Some(l) = link else {
        return Err(ContainerFault::Stale);
    };
    let Some(operation) = &l.pending else {
        return Err(ContainerFault::Stale);
    };
    let op = operation.op();
    match grant_of(operation) {
        Some(g) => granted(alloc, l, op, Tells::Gets(g, tools), more),
        None => Err(ContainerFault::BadAnswer),
    }
}

/// The answer to the call of this number; then the first operation that waits is called. The actions have room for so
/// many more.
///
/// Refused as stale unless the call is pending, as a bad answer if its content is past what may be stored or it doesn't
/// fit the operation or its states, and last for want of memory. Then nothing changes.
pub fn told(
    alloc: Global,
    link: &mut Option<Link>,
    n: u32,
    answer: Answer,
    more: usize,
) -> Result<Replied, ContainerFault>
    requires numbers { IfLinked (IsRoomy 1000000 0) link.old }
    requires few { more ≤ 2000001 }
    ensures taken { IfOk result (λ t. resumed (reply_link n answer link.old)
        ≡ Ok (record {
          link = link.new;
          taken = t.taken;
          refused = t.refused;
          grant = t.grant;
          actions = t.actions.items;
        })) }
    ensures few { IfOk result (λ t. vec_len t.actions ≤ 1) }
    ensures room { IfOk result (λ t. vec_len t.actions + more ≤ vec_capacity t.actions) }
    ensures refused { IfErr result (Refuses (reply_link n answer link.old)) }
    ensures kept { OnErr result (link.new ≡ link.old) }
{
    if !is_pending(link, n) {
        return Err(ContainerFault::Stale);
    }
    if !is_fit(&answer) {
        return Err(ContainerFault::BadAnswer);
    }
    match answer {
        Answer::Done => done_told(alloc, link, more),
        Answer::Refused(why) => refused_told(alloc, link, why, more),
        Answer::Content(content) => content_told(alloc, link, content, more),
        Answer::Tools { menus, border } => tools_told(alloc, link, Tools { menus, border }, more),
    }
}

/// The activation that gives its frame up by an answer to the call of this number, as it was asked, if it does. It
/// changes nothing.
pub fn gives_up(link: &Option<Link>, n: u32, answer: &Answer) -> Option<u32>
    ensures told { result ≡ gives_up (reply_link n answer.now link.now) }
    ensures asked { IfSome result (λ act. IfSome link.now (λ l. l.pending ≡ Some UiDeactivate)) }
{
    let Some(link) = link else {
        return None;
    };
    let Some(operation) = &link.pending else {
        return None;
    };
    if n != link.last {
        return None;
    }
    match answer {
        Answer::Done => given_up(link, operation),
        _ => None,
    }
}

// The same where this operation was pending and is done.
fn given_up(link: &Link, operation: &Operation) -> Option<u32>
    ensures told { result ≡ gives_up (replied link.now operation.now Answer.Done) }
    ensures asked { IfSome result (λ act. operation.now ≡ UiDeactivate) }
{
    match operation {
        Operation::UiDeactivate => match link.states.step(Op::UiDeactivate) {
            Ok(_) => Some(link.act),
            Err(_) => None,
        },
        _ => None,
    }
}
