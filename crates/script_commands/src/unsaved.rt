//! Whether a frame's file is to be committed.

ghost use Rattle.script_model.specs.Saved.{is_any_unsaved, is_unsaved};
ghost use Rattle.std.specs.Prelude.{◌≡◌};

use container_core::container::ContainerCore;
use container_model::record::Phase;

/// Whether a frame's file is to be committed, or in doubt.
fn is_unsaved(phase: Phase) -> bool
    ensures { result ≡ is_unsaved phase }
{
    match phase {
        Phase::Committing | Phase::InDoubt => true,
        Phase::Idle | Phase::Saving | Phase::HandingOff => false,
    }
}

/// Whether the file of a frame of this container is to be committed, or in doubt.
pub(crate) fn is_any_unsaved(core: &ContainerCore) -> bool
    ensures { result ≡ is_any_unsaved core.now.frames }
{
    for frame in core.all_frames() {
        if is_unsaved(frame.phase) {
            return true;
        }
    }
    false
}
