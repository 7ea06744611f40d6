//! What steps are refused for.

ghost use Rattle.std.specs.Prelude.{◌&&◌, ◌+◌, ◌≡◌, ◌≤◌, ◌||◌, All, length};
ghost use Rattle.container_model.specs.Commands.{all_have_numbers, any_busy, is_empty_area, is_known_class, is_name};
ghost use Rattle.container_model.specs.Commands.{is_named, is_named_beside, is_size};
ghost use Rattle.container_model.specs.Record.{count_objects, has_numbers, is_asked, is_busy, is_claim, is_doubtful};
ghost use Rattle.container_model.specs.Record.{is_moving, is_saving, link_has_numbers};
ghost use Rattle.container_model.specs.Room.{IfLinked};
ghost use Rattle.container_model.specs.Saves.{has_image, is_committing};
ghost use Rattle.object_state.specs.Grants.{waiting};

use container_model::record::{Frame, Link, Object, Phase};
use object_core::classes;
use object_state::{Claim, GrantState};
use tree_streams::area::Area;
use tree_values::bytes::Bytes;
use tree_values::class_id::ClassId;

/// How many numbers an activation that gets operations has left at least.
pub const MARGIN: usize = 8;

// Whether a frame is to be saved under a name.
fn is_name(name: &[u8], asked: &Option<Bytes>) -> bool
    ensures { result ≡ is_name name.now asked.now }
{
    match asked {
        Some(asked) => asked.as_slice() == name,
        None => false,
    }
}

/// Whether a frame bears a name, or is to be saved under it.
pub fn is_named(name: &[u8], frames: &[Frame]) -> bool
    ensures { result ≡ is_named name.now frames.now }
{
    for frame in frames {
        if frame.name.as_slice() == name || is_name(name, &frame.asked) {
            return true;
        }
    }
    false
}

/// Whether a frame but this one bears a name, or is to be saved under it.
pub fn is_named_beside(number: u32, name: &[u8], frames: &[Frame]) -> bool
    requires { length frames.now ≤ 1000000 }
    ensures { result ≡ is_named_beside number name.now 1 frames.now }
{
    for (i, frame) in frames.iter().enumerate() {
        if i as u32 + 1 != number
            && (frame.name.as_slice() == name || is_name(name, &frame.asked))
        {
            return true;
        }
    }
    false
}

/// Whether a frame may have so many columns and lines.
pub fn is_size(w: u16, h: u16) -> bool
    ensures { result ≡ is_size w h }
{
    1 <= w && w <= 200 && 1 <= h && h <= 100
}

/// Whether an area has no cell.
pub fn is_empty_area(area: Area) -> bool
    ensures { result ≡ is_empty_area area }
{
    area.w == 0 || area.h == 0
}

/// How many objects a frame has.
pub fn count_objects(frame: u32, objects: &[Object]) -> usize
    ensures { result ≡ count_objects frame objects.now }
{
    let mut count = 0;
    for object in objects {
        if object.frame == frame {
            count += 1;
        }
    }
    count
}

/// Whether a frame is saving, handing off or committing.
pub fn is_saving(phase: Phase) -> bool
    ensures { result ≡ is_saving phase }
{
    match phase {
        Phase::Idle | Phase::InDoubt => false,
        Phase::Saving | Phase::HandingOff | Phase::Committing => true,
    }
}

/// Whether a frame's commit is in doubt.
pub fn is_doubtful(phase: Phase) -> bool
    ensures { result ≡ is_doubtful phase }
{
    match phase {
        Phase::InDoubt => true,
        _ => false,
    }
}

/// Whether a grant is being given or taken back.
pub fn is_moving(state: &GrantState) -> bool
    ensures { result ≡ is_moving state.now }
{
    match state {
        GrantState::Granting(_) | GrantState::Revoking { .. } => true,
        _ => false,
    }
}

// Who waits for a frame.
fn waiting(state: &GrantState) -> Option<Claim>
    ensures { result ≡ waiting state.now }
{
    match state {
        GrantState::Revoking { waiting, .. } => *waiting,
        _ => None,
    }
}

// Whether an object waits for its frame.
fn is_claim(number: u32, claim: Option<Claim>) -> bool
    ensures { result ≡ is_claim number claim }
{
    match claim {
        Some(claim) => claim.object == number,
        None => false,
    }
}

// Whether an operation is pending.
fn is_asked(link: &Option<Link>) -> bool
    ensures { result ≡ is_asked link.now }
{
    match link {
        Some(link) => link.pending.is_some(),
        None => false,
    }
}

/// Whether an object has a pending operation, or waits for its frame.
pub fn is_busy(state: &GrantState, object: &Object) -> bool
    ensures { result ≡ is_busy state.now object.now }
{
    is_asked(&object.link) || is_claim(object.number, waiting(state))
}

/// Whether an object of a frame is busy.
pub fn any_busy(frame: u32, state: &GrantState, objects: &[Object]) -> bool
    ensures { result ≡ any_busy frame state.now objects.now }
{
    for object in objects {
        if object.frame == frame && is_busy(state, object) {
            return true;
        }
    }
    false
}

/// Whether an activation has numbers left for operations.
pub fn has_numbers(numbers: u32, link: &Link) -> bool
    requires { link.now.last + length link.now.waiting ≤ 1000000 }
    ensures { result ≡ has_numbers numbers link.now }
{
    link.last as usize + link.waiting.len() + MARGIN <= numbers as usize
}

/// Whether an object that isn't passive has numbers left for operations.
pub fn link_has_numbers(numbers: u32, link: &Option<Link>) -> bool
    requires { IfLinked (λ l. l.last + length l.waiting ≤ 1000000) link.now }
    ensures { result ≡ link_has_numbers numbers link.now }
{
    match link {
        Some(link) => has_numbers(numbers, link),
        None => true,
    }
}

/// Whether all objects of a frame have numbers left for operations.
pub fn all_have_numbers(frame: u32, numbers: u32, objects: &[Object]) -> bool
    requires { All (λ o. IfLinked (λ l. l.last + length l.waiting ≤ 1000000) o.link) objects.now }
    ensures { result ≡ all_have_numbers frame numbers objects.now }
{
    for object in objects {
        if object.frame == frame && !link_has_numbers(numbers, &object.link) {
            return false;
        }
    }
    true
}

/// Whether a class is one of the three kinds'.
pub fn is_known_class(class: ClassId) -> bool
    ensures { result ≡ is_known_class class }
{
    let (note, table, drawing) = (classes::note(), classes::table(), classes::drawing());
    class.as_bytes() == note.as_bytes()
        || class.as_bytes() == table.as_bytes()
        || class.as_bytes() == drawing.as_bytes()
}

/// Whether a frame's commit is asked for.
pub fn is_committing(phase: Phase) -> bool
    ensures { result ≡ is_committing phase }
{
    match phase {
        Phase::Committing => true,
        Phase::Idle | Phase::Saving | Phase::HandingOff | Phase::InDoubt => false,
    }
}

/// Whether a frame has a document whose file is to be committed.
pub fn has_image(phase: Phase) -> bool
    ensures { result ≡ has_image phase }
{
    match phase {
        Phase::Committing | Phase::InDoubt => true,
        Phase::Idle | Phase::Saving | Phase::HandingOff => false,
    }
}
