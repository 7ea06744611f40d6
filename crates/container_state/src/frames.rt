//! New frames.

ghost use Rattle.std.specs.Prelude.{◌≡◌, ◌≤◌, IfErr, IfOk, Ok, OnErr, length};
ghost use Rattle.container_model.specs.Commands.{new};
ghost use Rattle.container_model.specs.Record.{Refuses, counts_none};

use crate::state::State;
use container_checks::checks;
use container_model::answer::Answer;
use container_model::fault::ContainerFault;
use container_model::record::{Frame, Phase};
use object_state::FrameUi;
use std::alloc::Global;
use tree_values::bytes::Bytes;

// How many frames there may be.
const MOST_FRAMES: usize = 8;

impl State {
    // A new frame.
    pub(crate) fn new_frame(
        &mut self,
        alloc: Global,
        name: Bytes,
        w: u16,
        h: u16,
    ) -> Result<Answer, ContainerFault>
        ensures taken { IfOk result (λ a. new self.old name w h ≡ Ok (counts_none self.new a)) }
        ensures few { IfOk result (λ a. length a.actions ≤ 1) }
        ensures refused { IfErr result (Refuses (new self.old name w h)) }
        ensures kept { OnErr result (self.new ≡ self.old) }
    {
        if checks::is_named(name.as_slice(), self.frames.as_slice()) {
            return Err(ContainerFault::Busy);
        }
        if !checks::is_size(w, h) {
            return Err(ContainerFault::WrongState);
        }
        let count = self.frames.len();
        if count >= MOST_FRAMES {
            return Err(ContainerFault::Full);
        }
        if count >= self.numbers as usize {
            return Err(ContainerFault::NumbersSpent);
        }
        let frame = Frame {
            name,
            asked: None,
            k: 0,
            ui: FrameUi::new(w, h),
            stored: false,
            session: 0,
            raised: None,
            phase: Phase::Idle,
        };
        if self.frames.push(frame).is_err() {
            return Err(ContainerFault::NoMemory);
        }
        let mut answer = Answer::quiet(alloc);
        answer.frame = Some(count as u32 + 1);
        Ok(answer)
    }
}
