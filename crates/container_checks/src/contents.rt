//! Contents that saves count.

ghost use Rattle.std.specs.Prelude.{◌≡◌};
ghost use Rattle.container_model.specs.Saves.{kept};

use container_model::record::Object;
use tree_streams::stored::Stored;

/// The content that a save counts: what was answered in it, or the work content where none was.
pub fn kept(object: &Object) -> &Stored
    ensures { result.now ≡ kept object.now }
{
    match &object.link {
        Some(link) => match &link.saved {
            Some(content) => content,
            None => &object.work,
        },
        None => &object.work,
    }
}
