//! Commits that are done, that fail and whose saves are dropped: what they make of a frame and of its objects.

ghost use Rattle.std.specs.Prelude.{◌≡◌, length, map, vec_len};
ghost use Rattle.container_links.specs.Asking.{prepared};
ghost use Rattle.container_model.specs.Saves.{committed_frame, completed, completion, counted_object, doubted_frame};
ghost use Rattle.container_model.specs.Saves.{dropped_frame, dropped_object, forgotten_object, session_after};
ghost use Rattle.container_model.specs.declared.record.Frame as declared;
ghost use Rattle.message_values.specs.declared.operation.Operation.TheVariants.{SaveDropped};

use container_links::asking::{Prepared, take_up};
use container_model::record::{Frame, Object, Phase};
use message_values::operation::Operation;

/// What the objects of a frame are told once its save is counted.
pub fn completion(frame: &Frame) -> Operation
    ensures { result ≡ completion frame.now }
{
    Operation::SaveCompleted {
        save: frame.k,
        storage: frame.asked.is_some(),
    }
}

/// The session after a save: the one that its document is raised to, or the one that was.
pub fn session_after(session: u32, raised: Option<u32>) -> u32
    ensures { result ≡ session_after session raised }
{
    match raised {
        Some(raised) => raised,
        None => session,
    }
}

/// The file stands under the asked name, with the session that it was raised to, and no save is under way.
pub fn commit_frame(frame: &mut Frame)
    ensures { frame.new ≡ committed_frame frame.old }
{
    if let Some(name) = frame.asked.take() {
        frame.name = name;
    }
    frame.session = session_after(frame.session, frame.raised.take());
    frame.stored = true;
    frame.phase = Phase::Idle;
}

/// The content that is counted is an object's work content.
fn count_object(f: u32, object: &mut Object)
    ensures { object.new ≡ counted_object f object.old }
{
    if object.frame != f {
        return;
    }
    if let Some(link) = &mut object.link {
        if let Some(content) = link.saved.take() {
            object.work = content;
        }
    }
}

/// The same in all objects of a frame.
fn count_objects(f: u32, objects: &mut [Object])
    ensures { objects.new ≡ map (counted_object f) objects.old }
{
    for object in objects.iter_mut() {
        count_object(f, object);
    }
}

/// The same in a vector.
fn count_all(f: u32, objects: &mut Vec<Object>)
    ensures items { objects.new.items ≡ map (counted_object f) objects.old.items }
{
    count_objects(f, objects);
}

/// The contents that are counted are work contents, and each object that isn't passive takes up what was prepared.
pub fn complete_objects(f: u32, objects: &mut Vec<Object>, takes: Vec<Prepared>)
    requires { vec_len takes ≡ length objects.old.items }
    ensures { (frame : declared.Frame) → takes.items ≡ map (prepared f (completion frame)) objects.old.items
        → objects.new.items ≡ map (completed f frame) objects.old.items }
{
    count_all(f, objects);
    take_up(objects, takes);
}

/// What the objects of a frame are told once its save is dropped.
pub fn dropping(frame: &Frame) -> Operation
    ensures { result ≡ SaveDropped frame.now.k }
{
    Operation::SaveDropped(frame.k)
}

/// It isn't known which file stands.
pub fn doubt_frame(frame: &mut Frame)
    ensures { frame.new ≡ doubted_frame frame.old }
{
    frame.phase = Phase::InDoubt;
}

/// The file stands as it was, under the name that it had and with its session, and no save is under way.
pub fn drop_frame(frame: &mut Frame)
    ensures { frame.new ≡ dropped_frame frame.old }
{
    frame.asked = None;
    frame.raised = None;
    frame.phase = Phase::Idle;
}

/// The content that an object answered isn't counted.
fn forget_object(f: u32, object: &mut Object)
    ensures { object.new ≡ forgotten_object f object.old }
{
    if object.frame != f {
        return;
    }
    if let Some(link) = &mut object.link {
        link.saved = None;
    }
}

/// The same in all objects of a frame.
fn forget_objects(f: u32, objects: &mut [Object])
    ensures { objects.new ≡ map (forgotten_object f) objects.old }
{
    for object in objects.iter_mut() {
        forget_object(f, object);
    }
}

/// The same in a vector.
fn forget_all(f: u32, objects: &mut Vec<Object>)
    ensures items { objects.new.items ≡ map (forgotten_object f) objects.old.items }
{
    forget_objects(f, objects);
}

/// The contents that were answered aren't counted, and each object that isn't passive takes up what was prepared.
pub fn drop_objects(f: u32, objects: &mut Vec<Object>, takes: Vec<Prepared>)
    requires { vec_len takes ≡ length objects.old.items }
    ensures { (frame : declared.Frame) → takes.items ≡ map (prepared f (SaveDropped frame.k)) objects.old.items
        → objects.new.items ≡ map (dropped_object f frame) objects.old.items }
{
    forget_all(f, objects);
    take_up(objects, takes);
}
