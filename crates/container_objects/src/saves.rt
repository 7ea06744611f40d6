//! Saves that begin.

ghost use Rattle.std.specs.Prelude.{◌≡◌, ◌≤◌, All, IfOk, if◌then◌else◌};
ghost use Rattle.container_links.specs.Asking.{HasNumber, IsAsking};
ghost use Rattle.container_model.specs.Commands.{saving_frame};
ghost use Rattle.container_model.specs.HandOffs.{handing_frame, hands_off};
ghost use Rattle.message_values.specs.declared.operation.Operation.TheVariants.{Save};

use container_links::asking::{Asking, prepare};
use container_links::settling::hands_off;
use container_model::record::{Frame, Object, Phase};
use message_values::operation::Operation;
use std::alloc::{AllocError, Global};
use tree_values::bytes::Bytes;

/// What is needed to ask the objects of a frame for their contents, for the save of number `k`.
///
/// Refused for want of memory alone.
pub fn prepare_save(
    alloc: Global,
    frame: u32,
    k: u32,
    objects: &[Object],
) -> Result<Asking, AllocError>
    requires { All HasNumber objects.now }
    ensures { IfOk result (λ a. IsAsking frame (Save k) objects.now a.actions.items a.takes.items) }
{
    prepare(alloc, frame, &Operation::Save(k), objects)
}

/// Where all that a save under another name waits for is there as it begins, the frame hands off at once: nobody is
/// asked.
pub fn go_on(number: u32, frame: &mut Frame, objects: &[Object])
    ensures { frame.new ≡ if hands_off number objects.now frame.old then handing_frame frame.old else frame.old }
{
    if hands_off(number, frame, objects) {
        frame.phase = Phase::HandingOff;
    }
}

/// A frame is saved once more, under its name or under another one, with its session or one that it is raised to: its
/// save has the next number, and waits for contents.
pub fn begin_save(frame: &mut Frame, raised: Option<u32>, asked: Option<Bytes>)
    requires { frame.old.k ≤ 1000000 }
    ensures { frame.new ≡ saving_frame raised asked frame.old }
{
    frame.asked = asked;
    frame.raised = raised;
    frame.k += 1;
    frame.phase = Phase::Saving;
}
