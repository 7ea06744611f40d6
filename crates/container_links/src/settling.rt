//! How saves go on once nothing is waited for.

ghost use Rattle.std.specs.Prelude.{◌≡◌, ◌+◌, ◌≤◌, ◌<◌, ◌++◌, length, vec_len, vec_capacity};
ghost use Rattle.container_model.specs.Saves.{awaits, is_awaited_link, is_away, is_keeping_link, is_ready, keeps};
ghost use Rattle.container_model.specs.Saves.{settled_action, settled_actions, settled_frame, settled_frames};
ghost use Rattle.container_model.specs.HandOffs.{hands_off};

use container_checks::frames::Frames;
use container_model::answer::Action;
use container_model::record::{Frame, Link, Object, Phase};
use object_state::PersistState;

// Whether a save waits for the object of this link.
fn is_awaited(link: &Option<Link>) -> bool
    ensures { result ≡ is_awaited_link link.now }
{
    match link {
        Some(link) => link.saved.is_none(),
        None => false,
    }
}

// Whether a save of the frame waits for an object.
pub(crate) fn awaits(frame: u32, objects: &[Object]) -> bool
    ensures { result ≡ awaits frame objects.now }
{
    for object in objects {
        if object.frame == frame && is_awaited(&object.link) {
            return true;
        }
    }
    false
}

// Whether a storage was given away.
fn is_away(state: PersistState) -> bool
    ensures { result ≡ is_away state }
{
    match state {
        PersistState::HandsOff => true,
        _ => false,
    }
}

// Whether a frame that hands off waits for the object of this link.
fn is_keeping(link: &Option<Link>) -> bool
    ensures { result ≡ is_keeping_link link.now }
{
    match link {
        Some(link) => !is_away(link.states.persist.state),
        None => false,
    }
}

// Whether a frame that hands off waits for an object.
fn keeps(frame: u32, objects: &[Object]) -> bool
    ensures { result ≡ keeps frame objects.now }
{
    for object in objects {
        if object.frame == frame && is_keeping(&object.link) {
            return true;
        }
    }
    false
}

// Whether a frame goes on to its commit.
fn is_ready(number: u32, frame: &Frame, objects: &[Object]) -> bool
    ensures { result ≡ is_ready number objects.now frame.now }
{
    match frame.phase {
        Phase::Saving => match &frame.asked {
            None => !awaits(number, objects),
            Some(_) => false,
        },
        Phase::HandingOff => !keeps(number, objects),
        _ => false,
    }
}

/// Whether a frame that is saved under another name asks for its objects' storages next: each content is there.
pub fn hands_off(number: u32, frame: &Frame, objects: &[Object]) -> bool
    ensures { result ≡ hands_off number objects.now frame.now }
{
    match frame.phase {
        Phase::Saving => match &frame.asked {
            None => false,
            Some(_) => !awaits(number, objects),
        },
        _ => false,
    }
}

// Asks for the commit of a frame that goes on.
fn push_commit(actions: &mut Vec<Action>, number: u32, frame: &Frame, objects: &[Object])
    requires { vec_len actions.old < vec_capacity actions.old }
    ensures pushed { actions.new.items ≡ actions.old.items ++ settled_action number objects.now frame.now }
    ensures few { vec_len actions.new ≤ vec_len actions.old + 1 }
    ensures room { vec_capacity actions.old ≤ vec_capacity actions.new }
{
    if is_ready(number, frame, objects) {
        match actions.push(Action::Commit(number)) {
            Ok(()) => {}
            Err(_) => unreachable!(),
        }
    }
}

// Asks for the commits of the frames that go on.
fn push_commits(actions: &mut Vec<Action>, frames: &[Frame], objects: &[Object])
    requires room { vec_len actions.old + length frames.now ≤ vec_capacity actions.old }
    requires few { length frames.now ≤ 1000000 }
    ensures asked { actions.new.items ≡ actions.old.items ++ settled_actions 1 objects.now frames.now }
    ensures few { vec_len actions.new ≤ vec_len actions.old + length frames.now }
{
    for (i, frame) in frames.iter().enumerate() {
        push_commit(actions, i as u32 + 1, frame, objects);
    }
}

// A frame that goes on.
fn settle_frame(number: u32, frame: &mut Frame, objects: &[Object])
    ensures { frame.new ≡ settled_frame number objects.now frame.old }
{
    if is_ready(number, frame, objects) {
        frame.phase = Phase::Committing;
    }
}

// The frames that go on.
fn settle_slice(frames: &mut [Frame], objects: &[Object])
    requires { length frames.old ≤ 1000000 }
    ensures { frames.new ≡ settled_frames 1 objects.now frames.old }
{
    for (i, frame) in frames.iter_mut().enumerate() {
        settle_frame(i as u32 + 1, frame, objects);
    }
}

/// Saves go on, by rising frame, and their commits are asked for. It takes no memory.
pub fn settle_into(actions: &mut Vec<Action>, frames: &mut Frames, objects: &Vec<Object>)
    requires room { vec_len actions.old + length frames.old ≤ vec_capacity actions.old }
    requires few { length frames.old ≤ 1000000 }
    ensures asked { actions.new.items ≡ actions.old.items ++ settled_actions 1 objects.now.items frames.old }
    ensures few { vec_len actions.new ≤ vec_len actions.old + length frames.old }
    ensures settled { frames.new ≡ settled_frames 1 objects.now.items frames.old }
{
    push_commits(actions, frames.as_slice(), objects.as_slice());
    settle_slice(frames.as_mut_slice(), objects.as_slice());
}
