//! Writes of objects into their storages.

ghost use Rattle.std.specs.Prelude.{◌≡◌, ◌≢◌, IfErr, Ok, OnErr, OnOk, true, ℕ};
ghost use Rattle.message_values.specs.Found.{put};
ghost use Rattle.container_model.specs.Messages.{write_link};
ghost use Rattle.container_model.specs.Record.{Record, Refuses, counts_none, is_linked, quiet_answer};
ghost use Rattle.container_model.specs.declared.fault.ContainerFault.TheVariants.{NoMemory};

use container_links::writes::is_open_to;
use container_model::fault::ContainerFault;
use container_model::record::Object;
use tree_streams::limits::is_within;
use tree_streams::stored::Stored;

/// A write is taken: its content is the object's work content. It takes no memory.
///
/// Refused: `Stale` where the object is passive, the write is under another storage grant than the one that is open to
/// it, a save is asked, or the write is no later than one that was taken; `BadAnswer` where the content is past what
/// may be stored. A refusal changes nothing.
pub fn write_one(object: &mut Object, s: u32, w: u32, content: Stored) -> Result<(), ContainerFault>
    ensures taken { OnOk result ((r : Record) (inc : ℕ) (act : ℕ)
        → write_link r inc act s w content object.old object.old.link
        ≡ Ok (counts_none (record r { objects = put (is_linked inc act) object.new r.objects })
        (record quiet_answer { taken = true }))) }
    ensures refused { IfErr result (λ e. (r : Record) (inc : ℕ) (act : ℕ)
        → Refuses (write_link r inc act s w content object.old object.old.link) e) }
    ensures memory { IfErr result (λ fault. fault ≢ NoMemory) }
    ensures same { object.new.number ≡ object.old.number }
    ensures kept { OnErr result (object.new ≡ object.old) }
{
    let Some(link) = &mut object.link else {
        return Err(ContainerFault::Stale);
    };
    if !is_open_to(link, s, w) {
        return Err(ContainerFault::Stale);
    }
    if !is_within(&content) {
        return Err(ContainerFault::BadAnswer);
    }
    link.w = w;
    object.work = content;
    Ok(())
}
