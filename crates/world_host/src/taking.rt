//! The log of the contents that a container took.

ghost use Rattle.std.specs.Prelude.{◌≡◌, ◌++◌, ◌<◌, MatchOption, None, Some, slice_get, vec_len, vec_capacity};
ghost use Rattle.message_values.specs.Found.{find, IsPlace};
ghost use Rattle.container_model.specs.Record.{is_linked};
ghost use Rattle.world_model.specs.World.{taken_link, taken_of};
ghost use Rattle.world_host.specs.Logging.{brought, if_taken, listed};

use crate::host::add;
use container_checks::lookups::place_linked;
use container_links::writes::awaits_save;
use container_model::record::Object;
use message_values::message::{Message, Said};
use world_model::logs::Taken;

// What is held of an object that isn't passive.
fn held(place: Option<u32>, object: &Object) -> Option<Taken>
    ensures { listed result ≡ taken_link place object.now.number object.now.link }
{
    match &object.link {
        Some(link) => Some(Taken {
            place,
            object: object.number,
            inc: link.inc,
            act: link.act,
            persist: link.states.persist.state,
            s: link.s,
            awaits_save: awaits_save(link),
        }),
        None => None,
    }
}

// What is held of the object of an activation.
fn held_of(place: Option<u32>, inc: u32, act: u32, objects: &[Object]) -> Option<Taken>
    ensures { listed result ≡ taken_of place (find (is_linked inc act) objects.now) }
{
    match place_linked(objects, inc, act) {
        Some(i) => held(place, &objects[i]),
        None => None,
    }
}

// The entry of a message at this place, or of one that is forged, where a content of it is taken: what is held of its
// object now.
pub(crate) fn entry(place: Option<u32>, message: &Message, objects: &[Object]) -> Option<Taken>
    ensures { listed result ≡ brought place objects.now message.now.said }
{
    match &message.said {
        Said::Call { .. } => None,
        Said::Reply { inc, act, .. } | Said::Write { inc, act, .. } | Said::Ask { inc, act, .. } =>
            held_of(place, *inc, *act, objects),
    }
}

// A content that was taken is logged.
pub(crate) fn log(log: &mut Vec<Taken>, taken: bool, entry: Option<Taken>)
    requires { vec_len log.old < vec_capacity log.old }
    ensures { log.new.items ≡ log.old.items ++ if_taken taken (listed entry) }
{
    if !taken {
        return;
    }
    match entry {
        Some(entry) => add(log, entry),
        None => {}
    }
}
