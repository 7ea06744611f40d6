//! What a world shows beside its report.

use crate::words::{number, word};
use container_model::answer::Done;
use std::str::SplitWhitespace;
use world_model::logs::{Document, EventAnswer, ServerDone, Taken};
use world_run::past::Past;
use world_run::world::World;

/// Whether the next two words are this name and this number.
fn counts(words: &mut SplitWhitespace<'_>, name: &str, count: usize) -> bool {
    word(words) == name && number(words) as usize == count
}

/// Whether the next words are these numbers.
fn are_next(words: &mut SplitWhitespace<'_>, numbers: &[u32]) -> bool {
    for of in numbers {
        if number(words) != *of {
            return false;
        }
    }
    true
}

/// Whether the next words are this name and these numbers.
fn tells(words: &mut SplitWhitespace<'_>, name: &str, numbers: &[u32]) -> bool {
    word(words) == name && are_next(words, numbers)
}

/// Whether so many events were taken, messages sent, and frames there are.
fn are_counted(world: &World, words: &mut SplitWhitespace<'_>) -> bool {
    counts(words, "events", world.events_taken())
        && counts(words, "sent", world.sent().len())
        && counts(words, "frames", world.container().all_frames().len())
}

fn are_container_done(done: &[Done], words: &mut SplitWhitespace<'_>) -> bool {
    for done in done {
        if !tells(words, "container", &[done.object, done.k]) {
            return false;
        }
    }
    true
}

fn are_server_done(done: &[ServerDone], words: &mut SplitWhitespace<'_>) -> bool {
    for done in done {
        if !tells(words, "server", &[done.inc, done.object, done.k]) {
            return false;
        }
    }
    true
}

/// A content that was taken, behind the place of its message, if that was sent.
fn is_taken(taken: &Taken, words: &mut SplitWhitespace<'_>) -> bool {
    let of = [taken.object, taken.inc, taken.act, taken.s];
    match taken.place {
        Some(place) => tells(words, "taken", &[place]) && are_next(words, &of),
        None => tells(words, "forged", &of),
    }
}

fn are_taken(taken: &[Taken], words: &mut SplitWhitespace<'_>) -> bool {
    for taken in taken {
        if !is_taken(taken, words) {
            return false;
        }
    }
    true
}

/// Whether the next words are these servers of which messages were forged, if there are any.
fn are_hostile(hostile: &[u32], words: &mut SplitWhitespace<'_>) -> bool {
    hostile.is_empty() || tells(words, "hostile", hostile)
}

fn is_document(document: Option<&Document>, words: &mut SplitWhitespace<'_>) -> bool {
    match document {
        Some(document) => tells(words, "counted", &[document.k])
            && number(words) as usize == document.parts.len(),
        None => true,
    }
}

/// Whether there are so many of all; then whether these are each content that was counted, by its object and save, the
/// servers of which messages were forged, each content that was taken, by its place, object, server, activation and
/// storage grant, and the document of frame 1, by its save and how many objects it has.
pub(crate) fn is_shown(world: &World, words: &mut SplitWhitespace<'_>) -> bool {
    are_counted(world, words)
        && are_container_done(world.container_done(), words)
        && are_server_done(world.server_done(), words)
        && are_hostile(world.hostile(), words)
        && are_taken(world.taken(), words)
        && is_document(world.counted(1), words)
        && word(words).is_empty()
}

/// Whether the next words are the session of an earlier run and its logs.
fn is_run(past: &Past, words: &mut SplitWhitespace<'_>) -> bool {
    tells(words, "session", &[past.session()])
        && are_container_done(past.container_done(), words)
        && are_server_done(past.server_done(), words)
        && are_hostile(past.hostile(), words)
        && are_taken(past.taken(), words)
}

/// Whether these are the runs before the present one, each with its session, each content that was counted in it, the
/// servers of which messages were forged, and each content that was taken.
pub(crate) fn are_past(world: &World, words: &mut SplitWhitespace<'_>) -> bool {
    for past in world.past() {
        if !is_run(past, words) {
            return false;
        }
    }
    word(words).is_empty()
}

/// What an event was answered: why it was refused or dropped, or that it was taken.
pub(crate) fn answer(world: &World, event: u32) -> &'static str {
    match world.answer(event) {
        Some(EventAnswer::Took(_)) => "took",
        Some(EventAnswer::Refused(fault)) => fault.name(),
        Some(EventAnswer::Dropped(fault)) => fault.name(),
        None => "none",
    }
}
