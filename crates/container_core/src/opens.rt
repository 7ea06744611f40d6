//! Files that are opened as frames.

ghost use Rattle.std.specs.Prelude.{◌≡◌, ◌+◌, ◌≤◌, ◌<◌, IfErr, IfOk, Ok, OnErr, Some, length, map, option_copied, true};
ghost use Rattle.container_core.specs.Opening.{MayRefuse, looked_at, room};
ghost use Rattle.container_model.specs.Opens.{Given, IsReadAs, opened, opened_document, opened_made};
ghost use Rattle.container_model.specs.Record.{MOST_OBJECTS, Refuses, counts_none, quiet_answer};
ghost use Rattle.container_model.specs.Room.{IsSound};
ghost use Rattle.container_model.specs.Saves.{is_document};
ghost use Rattle.container_queues.specs.Steady.{Steady};
ghost use Rattle.store_images.specs.Trimmed.{trimmed};

use crate::frame_images::Images;
use container_checks::checks;
use container_checks::lookups::object_numbers;
use container_documents::reading::document_in;
use container_model::answer::Answer;
use container_model::fault::ContainerFault;
use container_model::record::Object;
use container_objects::opens::{opened_frame, opened_objects};
use container_state::state::State;
use message_values::items::Items;
use ole_streams::doc::Doc;
use std::alloc::{AllocError, Global};
use store_images::image::Image;
use tree_values::bytes::Bytes;

// How many frames there may be.
const MOST_FRAMES: usize = 8;

// The answer that a frame with objects was made.
fn made(alloc: Global, frame: u32, objects: &[Object]) -> Result<Answer, AllocError>
    ensures { IfOk result (λ a. a ≡ record quiet_answer {
      frame = Some frame;
      objects = map (λ o. o.number) objects.now;
    }) }
{
    let numbers = object_numbers(alloc, objects)?;
    let mut answer = Answer::quiet(alloc);
    answer.frame = Some(frame);
    answer.objects = Items::from_vec(numbers);
    Ok(answer)
}

/// Whether a file may be opened under a name, in a frame of this size. It takes no memory.
pub(crate) fn may_open(state: &State, name: &[u8], w: u16, h: u16) -> Result<(), ContainerFault>
    ensures { result ≡ looked_at state.now name.now w h }
{
    if checks::is_named(name, state.frames.as_slice()) {
        return Err(ContainerFault::Busy);
    }
    if !checks::is_size(w, h) {
        return Err(ContainerFault::WrongState);
    }
    Ok(())
}

// Whether there are a frame and numbers left for so many objects.
fn room_for(state: &State, count: usize) -> Result<(), ContainerFault>
    requires { count ≤ MOST_OBJECTS }
    ensures { result ≡ room state.now count }
{
    let frames = state.frames.len();
    if frames >= MOST_FRAMES {
        return Err(ContainerFault::Full);
    }
    if frames >= state.numbers as usize {
        return Err(ContainerFault::NumbersSpent);
    }
    if state.last_object as usize + count > state.numbers as usize {
        return Err(ContainerFault::NumbersSpent);
    }
    Ok(())
}

// A frame with the objects of a document, for which there is room.
fn make_opened(
    alloc: Global,
    state: &mut State,
    name: Bytes,
    w: u16,
    h: u16,
    document: Doc,
) -> Result<Answer, AllocError>
    requires steady { Steady state.old }
    requires few_frames { length state.old.frames < 8 }
    requires numbers { state.old.last_object + length document.objects ≤ 1000000 }
    ensures made { IfOk result (λ a. opened_made state.old name w h document ≡ counts_none state.new a) }
    ensures few { IfOk result (λ a. length a.actions ≤ 1) }
    ensures kept { OnErr result (state.new ≡ state.old) }
{
    let frame = state.frames.len() as u32 + 1;
    let session = document.session();
    let objects = document.into_vec();
    let count = objects.len() as u32;
    let more = opened_objects(alloc, state.last_object, frame, objects)?;
    let answer = made(alloc, frame, more.as_slice())?;
    state.objects.reserve(more.len())?;
    state.frames.push(opened_frame(name, w, h, session))?;
    state.objects.append_reserved(more);
    state.last_object += count;
    Ok(answer)
}

// A frame with the objects of a document.
fn open_document(
    alloc: Global,
    state: &mut State,
    name: Bytes,
    w: u16,
    h: u16,
    document: Doc,
) -> Result<Answer, ContainerFault>
    requires steady { Steady state.old }
    requires sound { IsSound state.old }
    requires within { is_document document.objects ≡ true }
    ensures taken { IfOk result (λ a. opened_document state.old name w h document ≡ Ok (counts_none state.new a)) }
    ensures few { IfOk result (λ a. length a.actions ≤ 1) }
    ensures refused { IfErr result (Refuses (opened_document state.old name w h document)) }
    ensures kept { OnErr result (state.new ≡ state.old) }
{
    match room_for(state, document.len()) {
        Ok(()) => {}
        Err(fault) => return Err(fault),
    }
    match make_opened(alloc, state, name, w, h, document) {
        Ok(answer) => Ok(answer),
        Err(_) => Err(ContainerFault::NoMemory),
    }
}

// The image of a file that gives a document, which is a compound file.
//
// Refused for want of memory alone.
fn image_read(alloc: Global, file: &[u8]) -> Result<Image, AllocError>
    ensures { IfOk result (λ image. image ≡ trimmed file.now) }
{
    match Image::open(alloc, Vec::from_slice(alloc, file)?) {
        Ok(image) => Ok(image),
        Err(_) => Err(AllocError),
    }
}

// A frame of a file under a name, and in a size, that may be. Its image is kept.
fn open_named(
    alloc: Global,
    state: &mut State,
    images: &mut Images,
    name: Bytes,
    w: u16,
    h: u16,
    file: Option<&[u8]>,
) -> Result<Answer, ContainerFault>
    requires steady { Steady state.old }
    requires sound { IsSound state.old }
    requires named { looked_at state.old name w h ≡ Ok tt }
    ensures taken { IfOk result (λ a. (given : Given) × IsReadAs (option_copied file.entry) given
        × (opened state.old name w h given ≡ Ok (counts_none state.new a))) }
    ensures few { IfOk result (λ a. length a.actions ≤ 1) }
    ensures refused { IfErr result (MayRefuse state.old name w h (option_copied file.entry)) }
    ensures kept { OnErr result (state.new ≡ state.old) }
{
    let Some(bytes) = file else {
        return Err(ContainerFault::NoSuch);
    };
    let Ok(read) = document_in(alloc, bytes) else {
        return Err(ContainerFault::NoMemory);
    };
    match read {
        Some(document) => {
            let Ok(image) = image_read(alloc, bytes) else {
                return Err(ContainerFault::NoMemory);
            };
            let answer = open_document(alloc, state, name, w, h, document);
            images.start(&answer, image);
            answer
        }
        None => Err(ContainerFault::BadFile),
    }
}

/// A frame of a file. Its image is kept.
pub(crate) fn open_file(
    alloc: Global,
    state: &mut State,
    images: &mut Images,
    name: Bytes,
    w: u16,
    h: u16,
    file: Option<&[u8]>,
) -> Result<Answer, ContainerFault>
    requires steady { Steady state.old }
    requires sound { IsSound state.old }
    ensures taken { IfOk result (λ a. (given : Given) × IsReadAs (option_copied file.entry) given
        × (opened state.old name w h given ≡ Ok (counts_none state.new a))) }
    ensures few { IfOk result (λ a. length a.actions ≤ 1) }
    ensures refused { IfErr result (MayRefuse state.old name w h (option_copied file.entry)) }
    ensures kept { OnErr result (state.new ≡ state.old) }
{
    match may_open(state, name.as_slice(), w, h) {
        Ok(()) => open_named(alloc, state, images, name, w, h, file),
        Err(fault) => Err(fault),
    }
}
