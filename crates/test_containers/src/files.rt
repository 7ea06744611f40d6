//! The documents of a container and their files, as rows spell them.

use crate::answers::is_fault;
use crate::words::{counts, number, word};
use container_core::container::ContainerCore;
use container_model::answer::FrameDocument;
use container_model::fault::ContainerFault;
use std::alloc::Global;
use std::str::SplitWhitespace;
use store_images::image::Image;
use test_marks::marks::{begin, end};

fn document_once(
    alloc: Global,
    core: &ContainerCore,
    f: u32,
) -> Result<FrameDocument, ContainerFault> {
    begin(alloc);
    let document = core.document(alloc, f);
    end(alloc);
    document
}

/// A frame's document, asked for again where memory is refused.
fn document(alloc: Global, core: &ContainerCore, f: u32) -> Result<FrameDocument, ContainerFault> {
    match document_once(alloc, core, f) {
        Err(ContainerFault::NoMemory) => document_once(alloc, core, f),
        document => document,
    }
}

/// Whether the document of frame 1 has so many objects.
pub(crate) fn is_document(
    alloc: Global,
    core: &ContainerCore,
    words: &mut SplitWhitespace<'_>,
) -> bool {
    match document(alloc, core, 1) {
        Ok(document) => counts(words, document.parts.len()),
        Err(fault) => is_fault(fault, words),
    }
}

/// Whether the document of a frame that is to be committed says this session, or there is `none`.
fn is_written(
    alloc: Global,
    core: &ContainerCore,
    f: u32,
    words: &mut SplitWhitespace<'_>,
) -> bool {
    match document(alloc, core, f) {
        Ok(document) => number(word(words)) == document.session,
        Err(_) => word(words) == "none",
    }
}

/// The session of a frame's document, and the number of its last save.
fn saved(core: &ContainerCore, f: u32) -> (u32, u32) {
    match core.frame(f) {
        Some(frame) => (frame.session, frame.k),
        None => (u32::MAX, u32::MAX),
    }
}

/// Whether the sessions are these: the container's, that of a frame and the one of its document that is to be
/// committed. Then the number of its last save.
pub(crate) fn are_sessions(
    alloc: Global,
    core: &ContainerCore,
    f: u32,
    words: &mut SplitWhitespace<'_>,
) -> bool {
    let (session, k) = saved(core, f);
    number(word(words)) == core.session()
        && number(word(words)) == session
        && is_written(alloc, core, f, words)
        && number(word(words)) == k
}

fn commit_image_once(
    alloc: Global,
    core: &ContainerCore,
) -> Result<(FrameDocument, Image), ContainerFault> {
    begin(alloc);
    let image = core.commit_image(alloc, 1);
    end(alloc);
    image
}

/// The same of its document with its file.
fn commit_image(
    alloc: Global,
    core: &ContainerCore,
) -> Result<(FrameDocument, Image), ContainerFault> {
    match commit_image_once(alloc, core) {
        Err(ContainerFault::NoMemory) => commit_image_once(alloc, core),
        image => image,
    }
}

fn image_once(alloc: Global, core: &ContainerCore) -> Result<Image, ContainerFault> {
    begin(alloc);
    let image = core.image(alloc, 1);
    end(alloc);
    image
}

/// The same of its file.
fn image(alloc: Global, core: &ContainerCore) -> Result<Image, ContainerFault> {
    match image_once(alloc, core) {
        Err(ContainerFault::NoMemory) => image_once(alloc, core),
        image => image,
    }
}

fn is_image(alloc: Global, core: &ContainerCore, file: &[u8]) -> bool {
    match image(alloc, core) {
        Ok(image) => image.bytes() == file,
        Err(_) => false,
    }
}

/// Whether a commit of frame 1 counts so many objects, and the image with them is the frame's image.
pub(crate) fn is_file(
    alloc: Global,
    core: &ContainerCore,
    words: &mut SplitWhitespace<'_>,
) -> bool {
    match commit_image(alloc, core) {
        Ok((document, image)) => counts(words, document.parts.len())
            && is_image(alloc, core, image.bytes()),
        Err(fault) => is_fault(fault, words),
    }
}
