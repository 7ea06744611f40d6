//! Frames and objects of a file that is opened.

ghost use Rattle.std.specs.Prelude.{◌≡◌, ◌+◌, ◌≤◌, IfOk, length};
ghost use Rattle.container_model.specs.Opens.{opened_frame, opened_object, opened_objects};

use container_model::record::{Frame, Object, Phase};
use object_state::FrameUi;
use ole_model::object::DocObject;
use std::alloc::{AllocError, Global};
use tree_values::bytes::Bytes;

/// A frame of a file that is opened, under the file's name. It holds the session of the file's document.
pub fn opened_frame(name: Bytes, w: u16, h: u16, session: u32) -> Frame
    ensures { result ≡ opened_frame name w h session }
{
    Frame {
        name,
        asked: None,
        k: 0,
        ui: FrameUi::new(w, h),
        stored: true,
        session,
        raised: None,
        phase: Phase::Idle,
    }
}

// An object of a document, passive in a frame. What it holds is moved.
fn opened_object(number: u32, frame: u32, object: DocObject) -> Object
    ensures { result ≡ opened_object number frame object }
{
    Object {
        number,
        frame,
        class: object.class,
        user_type: object.user_type,
        area: object.area,
        work: object.stored,
        link: None,
    }
}

/// The objects of a document in a frame, in their order: passive, each with the next number. What they hold is moved,
/// and not copied.
///
/// Refused for want of memory alone.
pub fn opened_objects(
    alloc: Global,
    last: u32,
    frame: u32,
    objects: Vec<DocObject>,
) -> Result<Vec<Object>, AllocError>
    requires { last + length objects.items ≤ 1000000 }
    ensures { IfOk result (λ v. v.items ≡ opened_objects last frame objects.items) }
{
    let mut made = Vec::new(alloc);
    let mut number = last;
    for object in objects {
        number += 1;
        made.push(opened_object(number, frame, object))?;
    }
    Ok(made)
}
