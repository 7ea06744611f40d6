//! Objects of a server that has ended.

ghost use Rattle.std.specs.Prelude.{◌≡◌, map};
ghost use Rattle.container_model.specs.Grants.{is_hosted};
ghost use Rattle.container_model.specs.Messages.{reaped_object};

use container_model::record::{Link, Object};

// Whether an activation is one of this server.
fn is_hosted(inc: u32, link: &Option<Link>) -> bool
    ensures { result ≡ is_hosted inc link.now }
{
    match link {
        Some(link) => link.inc == inc,
        None => false,
    }
}

// An object of a server that has ended is passive, with the content that it answered in the present save, if any.
fn reap_object(inc: u32, object: &mut Object)
    ensures { object.new ≡ reaped_object inc object.old object.old.link }
{
    if !is_hosted(inc, &object.link) {
        return;
    }
    if let Some(link) = &mut object.link {
        if let Some(content) = link.saved.take() {
            object.work = content;
        }
    }
    object.link = None;
}

// The same in all objects.
fn reap_slice(inc: u32, objects: &mut [Object])
    ensures { objects.new ≡ map (λ o. reaped_object inc o o.link) objects.old }
{
    for object in objects.iter_mut() {
        reap_object(inc, object);
    }
}

/// The objects of a server that has ended are passive, each with the content that it answered in the present save, if
/// any.
pub fn reap_all(inc: u32, objects: &mut Vec<Object>)
    ensures { objects.new.items ≡ map (λ o. reaped_object inc o o.link) objects.old.items }
{
    reap_slice(inc, objects);
}
