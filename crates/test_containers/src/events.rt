//! What happens to a container, as the program reads it.

use crate::shown::seen;
use container_core::container::ContainerCore;
use container_model::answer::Answer;
use container_model::command::Command;
use container_model::fault::ContainerFault;
use std::alloc::Global;
use std::process::Abort;
use test_marks::marks::{begin, end};
use text_worlds::lines::parse_line;
use world_model::event::Event;

fn carry_out(
    alloc: Global,
    core: &mut ContainerCore,
    command: Command,
) -> Result<Answer, ContainerFault> {
    begin(alloc);
    let answer = core.command(alloc, command);
    end(alloc);
    answer
}

fn reap(alloc: Global, core: &mut ContainerCore, inc: u32) -> Result<Answer, ContainerFault> {
    begin(alloc);
    let answer = core.on_reap(alloc, inc);
    end(alloc);
    answer
}

fn commit(alloc: Global, core: &mut ContainerCore, f: u32) -> Result<Answer, ContainerFault> {
    begin(alloc);
    let answer = core.commit_done(alloc, f);
    end(alloc);
    answer
}

fn fail(alloc: Global, core: &mut ContainerCore, f: u32) -> Result<Answer, ContainerFault> {
    begin(alloc);
    let answer = core.commit_failed(alloc, f);
    end(alloc);
    answer
}

fn resolve(
    alloc: Global,
    core: &mut ContainerCore,
    f: u32,
    is_kept: bool,
) -> Result<Answer, ContainerFault> {
    begin(alloc);
    let answer = core.resolve(alloc, f, is_kept);
    end(alloc);
    answer
}

/// The event that a row spells.
pub(crate) fn event(rt: &impl Abort, alloc: Global, row: &str) -> Option<Event> {
    parse_line(alloc, row.as_bytes()).expect(rt, "memory")
}

/// What a container answers to a command, the end of a server or a commit that is done, that fails or is resolved.
fn answer(
    alloc: Global,
    core: &mut ContainerCore,
    event: Event,
) -> Option<Result<Answer, ContainerFault>> {
    match event {
        Event::Command(command) => Some(carry_out(alloc, core, command)),
        Event::Reap(inc) => Some(reap(alloc, core, inc)),
        Event::Done(f) => Some(commit(alloc, core, f)),
        Event::Fail(f) => Some(fail(alloc, core, f)),
        Event::Resolve(f, is_kept) => Some(resolve(alloc, core, f, is_kept)),
        _ => None,
    }
}

/// The same of the event that a row spells.
fn answer_to(
    rt: &impl Abort,
    alloc: Global,
    core: &mut ContainerCore,
    row: &str,
) -> Option<Result<Answer, ContainerFault>> {
    match event(rt, alloc, row) {
        Some(event) => answer(alloc, core, event),
        None => None,
    }
}

/// The same. Where memory is refused, the container is as before, and is told again.
pub(crate) fn happens(
    rt: &impl Abort,
    alloc: Global,
    core: &mut ContainerCore,
    row: &str,
) -> Option<Result<Answer, ContainerFault>> {
    let before = seen(rt, alloc, core);
    match answer_to(rt, alloc, core, row) {
        Some(Err(ContainerFault::NoMemory)) => {
            assert!(rt; seen(rt, alloc, core) == before, "{row}");
            answer_to(rt, alloc, core, row)
        }
        told => told,
    }
}
