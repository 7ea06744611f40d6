//! The documents of frames whose commits are asked for or in doubt, and their images.

ghost use Rattle.std.specs.Prelude.{◌≡◌, ◌≢◌, ◌≤◌, IfErr, IfOk, Ok, length};
ghost use Rattle.container_model.specs.Record.{Refuses};
ghost use Rattle.container_model.specs.Saves as saves;
ghost use Rattle.container_model.specs.Saves.{document_tree, image, parts_in};
ghost use Rattle.container_model.specs.declared.fault.ContainerFault.TheVariants.{NoMemory};
ghost use Rattle.ole_model.specs.DocOf.{DocOf};
ghost use Rattle.cfb_file.specs.Denotes.{Denotes};
ghost use Rattle.cfb_file.specs.Limits.{MOST_BYTES};
ghost use Rattle.write_zeros.specs.Zeroed.{IsZeroed};

use container_checks::checks::has_image;
use container_documents::documents::{fits, image_of, parts_in};
use container_model::answer::FrameDocument;
use container_model::fault::ContainerFault;
use container_objects::commits::session_after;
use container_state::state::State;
use message_values::items::Items;
use std::alloc::Global;
use store_images::image::Image;

/// The session of a frame that has a document whose file is to be committed. It takes no memory.
///
/// Refused: as `document`, but for `NoMemory`.
pub(crate) fn check_image(state: &State, f: u32) -> Result<u32, ContainerFault>
    ensures fine { IfOk result (λ session. image state.now f
        ≡ Ok (record { session = session; parts = parts_in f state.now.objects })) }
    ensures refused { IfErr result (Refuses (image state.now f)) }
    ensures memory { IfErr result (λ fault. fault ≢ NoMemory) }
{
    let Some(place) = state.frames.place(f) else {
        return Err(ContainerFault::NoSuch);
    };
    if !has_image(state.frames[place].phase) {
        return Err(ContainerFault::WrongState);
    }
    let frame = &state.frames[place];
    let session = session_after(frame.session, frame.raised);
    if !fits(session, f, state.objects.list.as_slice()) {
        return Err(ContainerFault::Full);
    }
    Ok(session)
}

/// The document of a frame whose commit is asked for or in doubt.
pub(crate) fn document(
    alloc: Global,
    state: &State,
    f: u32,
) -> Result<FrameDocument, ContainerFault>
    ensures document { IfOk result (λ d. image state.now f ≡ Ok d) }
    ensures refused { IfErr result (Refuses (image state.now f)) }
{
    let session = check_image(state, f)?;
    match parts_in(alloc, f, state.objects.list.as_slice()) {
        Ok(parts) => Ok(FrameDocument {
            session,
            parts: Items::from_vec(parts),
        }),
        Err(_) => Err(ContainerFault::NoMemory),
    }
}

/// The document of a frame, and the image that is to be committed, in the sectors of the one that was counted last, if
/// any.
pub(crate) fn commit_image(
    alloc: Global,
    state: &State,
    committed: Option<&Image>,
    f: u32,
) -> Result<(FrameDocument, Image), ContainerFault>
    ensures document { IfOk result (λ w. image state.now f ≡ Ok w.0) }
    ensures denotes { IfOk result (λ w. ∥ Denotes w.1 (document_tree w.0) ∥₁) }
    ensures zeroed { IfOk result (λ w. IsZeroed w.1) }
    ensures few { IfOk result (λ w. length w.1 ≤ MOST_BYTES) }
    ensures holds { IfOk result (λ w. DocOf (document_tree w.0) (saves.document w.0)) }
    ensures refused { IfErr result (Refuses (image state.now f)) }
{
    let saved = document(alloc, state, f)?;
    match image_of(alloc, &saved, committed) {
        Ok(image) => Ok((saved, image)),
        Err(_) => Err(ContainerFault::NoMemory),
    }
}
