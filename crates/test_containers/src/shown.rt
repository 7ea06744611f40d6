//! What a container shows, as rows spell it.

use crate::answers::{are_calls, is_fault};
use crate::words::{counts, number, word};
use container_core::container::ContainerCore;
use container_model::fault::ContainerFault;
use container_model::record::{Frame, Object, Phase};
use message_values::message::{Message, Said};
use object_state::GrantState;
use std::alloc::{AllocError, Global};
use std::process::Abort;
use std::str::SplitWhitespace;
use test_marks::marks::{begin, end};

fn object_text(object: &Object) -> &'static str {
    match (&object.link, object.work.streams.as_slice().len()) {
        (Some(_), 0) => "active-empty",
        (Some(_), _) => "active",
        (None, 0) => "passive-empty",
        (None, _) => "passive",
    }
}

fn object(core: &ContainerCore) -> &'static str {
    match core.object(1) {
        Some(object) => object_text(object),
        None => "none",
    }
}

fn phase_text(phase: Phase) -> &'static str {
    match phase {
        Phase::Idle => "Idle",
        Phase::Saving => "Saving",
        Phase::HandingOff => "HandingOff",
        Phase::Committing => "Committing",
        Phase::InDoubt => "InDoubt",
    }
}

fn grant_text(state: &GrantState) -> &'static str {
    match state {
        GrantState::Free => "Free",
        GrantState::Granting(_) => "Granting",
        GrantState::Held { .. } => "Held",
        GrantState::Revoking { .. } => "Revoking",
    }
}

fn frame(core: &ContainerCore) -> (&'static str, &'static str) {
    match core.frame(1) {
        Some(frame) => (phase_text(frame.phase), grant_text(&frame.ui.state())),
        None => ("none", "none"),
    }
}

/// Whether the save of frame 1 is so far, an object has the frame or not, and object 1 is this.
pub(crate) fn are_states(core: &ContainerCore, words: &mut SplitWhitespace<'_>) -> bool {
    let (phase, grant) = frame(core);
    word(words) == phase && word(words) == grant && word(words) == object(core)
}

/// Whether there are so many frames and objects, and this is the greatest number.
pub(crate) fn are_sizes(core: &ContainerCore, words: &mut SplitWhitespace<'_>) -> bool {
    counts(words, core.all_frames().len())
        && counts(words, core.all_objects().len())
        && number(word(words)) == core.numbers()
}

fn are(numbers: &[u32], words: &mut SplitWhitespace<'_>) -> bool {
    for of in numbers {
        if number(word(words)) != *of {
            return false;
        }
    }
    true
}

fn frames_once(alloc: Global, core: &ContainerCore) -> Result<Vec<u32>, AllocError> {
    begin(alloc);
    let frames = core.frames(alloc);
    end(alloc);
    frames
}

fn frames(rt: &impl Abort, alloc: Global, core: &ContainerCore) -> Vec<u32> {
    match frames_once(alloc, core) {
        Ok(frames) => frames,
        Err(_) => frames_once(alloc, core).expect(rt, "memory"),
    }
}

fn objects_once(alloc: Global, core: &ContainerCore) -> Result<Vec<u32>, AllocError> {
    begin(alloc);
    let objects = core.objects(alloc);
    end(alloc);
    objects
}

fn objects(rt: &impl Abort, alloc: Global, core: &ContainerCore) -> Vec<u32> {
    match objects_once(alloc, core) {
        Ok(objects) => objects,
        Err(_) => objects_once(alloc, core).expect(rt, "memory"),
    }
}

/// Whether these are the numbers of frames, and those of objects.
pub(crate) fn are_numbers(
    rt: &impl Abort,
    alloc: Global,
    core: &ContainerCore,
    words: &mut SplitWhitespace<'_>,
) -> bool {
    are(&frames(rt, alloc, core), words)
        && word(words) == "of"
        && are(&objects(rt, alloc, core), words)
}

fn calls_once(alloc: Global, core: &ContainerCore) -> Result<Vec<Message>, AllocError> {
    begin(alloc);
    let calls = core.resend(alloc);
    end(alloc);
    calls
}

fn calls(rt: &impl Abort, alloc: Global, core: &ContainerCore) -> Vec<Message> {
    match calls_once(alloc, core) {
        Ok(calls) => calls,
        Err(_) => calls_once(alloc, core).expect(rt, "memory"),
    }
}

/// Whether these calls are pending.
pub(crate) fn are_pending(
    rt: &impl Abort,
    alloc: Global,
    core: &ContainerCore,
    words: &mut SplitWhitespace<'_>,
) -> bool {
    are_calls(&calls(rt, alloc, core), words)
}

fn drawn_once(alloc: Global, core: &ContainerCore, f: u32) -> Result<Vec<u8>, ContainerFault> {
    begin(alloc);
    let screen = core.screen(alloc, f);
    end(alloc);
    screen
}

fn drawn(alloc: Global, core: &ContainerCore, f: u32) -> Result<Vec<u8>, ContainerFault> {
    match drawn_once(alloc, core, f) {
        Err(ContainerFault::NoMemory) => drawn_once(alloc, core, f),
        screen => screen,
    }
}

/// A frame of 12 by 4 cells with a note that was never run.
const FRAME: &str =
    "File Container Window\n            \n +---+      \n +---+      \n            \n";

/// Whether a frame shows a note, or nothing for this fault.
pub(crate) fn is_screen(
    alloc: Global,
    core: &ContainerCore,
    f: u32,
    words: &mut SplitWhitespace<'_>,
) -> bool {
    match drawn(alloc, core, f) {
        Ok(screen) => word(words) == "note" && screen.as_slice() == FRAME.as_bytes(),
        Err(fault) => is_fault(fault, words),
    }
}

fn add(rt: &impl Abort, text: &mut Vec<u8>, word: &str) {
    text.extend_from_slice(word.as_bytes()).expect(rt, "memory");
}

fn add_number(rt: &impl Abort, text: &mut Vec<u8>, number: u32) {
    text.extend_from_slice(&number.to_le_bytes())
        .expect(rt, "memory");
}

fn add_frame(rt: &impl Abort, text: &mut Vec<u8>, frame: &Frame) {
    add(rt, text, phase_text(frame.phase));
    add(rt, text, grant_text(&frame.ui.state()));
    add(rt, text, if frame.stored { "stored" } else { "none" });
    add_number(rt, text, frame.k);
    add_number(rt, text, frame.session);
}

fn add_call(rt: &impl Abort, text: &mut Vec<u8>, call: &Message) {
    if let Said::Call { inc, act, n, .. } = &call.said {
        add_number(rt, text, *inc);
        add_number(rt, text, *act);
        add_number(rt, text, *n);
    }
}

/// What is seen of a container's frames, its objects, the calls that wait for an answer, and the cells of frame 1.
pub(crate) fn seen(rt: &impl Abort, alloc: Global, core: &ContainerCore) -> Vec<u8> {
    let mut text = Vec::new(alloc);
    add_number(rt, &mut text, core.session());
    for frame in core.all_frames() {
        add_frame(rt, &mut text, frame);
    }
    for object in core.all_objects() {
        add(rt, &mut text, object_text(object));
    }
    let calls = core.resend(alloc).expect(rt, "memory");
    for call in calls.as_slice() {
        add_call(rt, &mut text, call);
    }
    match core.screen(alloc, 1) {
        Ok(screen) => text.extend_from_slice(&screen).expect(rt, "memory"),
        Err(fault) => add(rt, &mut text, fault.name()),
    }
    text
}
