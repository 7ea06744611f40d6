//! The directory of a tree, as it is sent (MS-CFB 2.6).

ghost use Rattle.cfb_layout.specs.Directory.{balanced, directory_of_tree};
ghost use Rattle.cfb_file.specs.Need.{directory_sectors, entries};
ghost use Rattle.cfb_file.specs.declared.limit.TheConstants.{MANY};
ghost use Rattle.write_parts.specs.Counted.{AreCounts};
ghost use Rattle.write_parts.specs.Leads.{IsDirectory, lead_in, led_below, storage_led, stream_led};
ghost use Rattle.write_parts.specs.Sends.{Sends};
ghost use Rattle.std.specs.Prelude.{◌+◌, ◌++◌, ◌*◌, ◌<◌, ◌≡◌, ◌≤◌, IfOk, OnOk, length};
ghost use Rattle.cfb_entries.specs.Written.{entry_bytes};

use crate::sent_entries::{send_entry, send_unused};
use crate::walks::{Branch, Child, What};
use cfb_entries::entries::{EntryKind, NO_STREAM};
use cfb_names::name::Name;
use std::alloc::AllocError;
use std::io::{self, Write};
use write_directory::write::{EntryFields, write_entry};
use write_parts::counts::Counts;
use write_parts::leads::{Directory, Lead, class_bytes, state_bits};
use write_parts::pieces::PIECE;

/// The lead at a place.
fn lead_at(leads: &[Lead], at: usize) -> Lead
    ensures { result ≡ lead_in leads.now at }
{
    if at < leads.len() {
        return leads[at];
    }
    Lead {
        left: NO_STREAM,
        right: NO_STREAM,
        down: NO_STREAM,
    }
}

/// What the entry of a stream of so many bytes says. A longer one than its field can say is in no tree that is written.
fn stream_entry(lead: Lead, len: usize) -> EntryFields
    ensures { result ≡ stream_led lead len }
{
    EntryFields {
        kind: EntryKind::Stream,
        left: lead.left,
        right: lead.right,
        child: NO_STREAM,
        class: [0; 16],
        state: 0,
        first: lead.down,
        size: len.min(u32::MAX as usize) as u32,
    }
}

/// What the entry of a storage says.
fn storage_entry<B: Branch>(lead: Lead, storage: B) -> EntryFields
    ensures { result ≡ storage_led lead (B.tree storage) }
{
    let class = storage.class();
    EntryFields {
        kind: EntryKind::Storage,
        left: lead.left,
        right: lead.right,
        child: lead.down,
        class: class_bytes(class.as_bytes()),
        state: state_bits(storage.state()),
        first: 0,
        size: 0,
    }
}

/// Adds the entry with a name to those that wait.
fn push_entry(waiting: &mut Vec<u8>, name: &[u8], fields: &EntryFields) -> Result<(), AllocError>
    requires { length name.now ≤ 31 }
    ensures { OnOk result (waiting.new.items ≡ waiting.old.items ++ entry_bytes name.now fields.now) }
{
    write_entry(waiting, name, fields)
}

/// Sends the entries below a storage, whose leads stand from a place on, and gives the place behind them.
fn send_below<W: Write, B: Branch>(
    writer: &mut W,
    waiting: &mut Vec<u8>,
    storage: B,
    leads: &[Lead],
    at: usize,
) -> io::Result<usize>
    requires { at + entries (B.tree storage) < MANY }
    ensures sent { OnOk result (Sends (W.contents writer.old) (W.contents writer.new) waiting.old.items
        waiting.new.items (led_below leads.now at (B.tree storage))) }
    ensures next { IfOk result (λ next. next ≡ at + entries (B.tree storage)) }
    ensures long { OnOk result (length (led_below leads.now at (B.tree storage)) ≡ 128 * entries (B.tree storage)) }
{
    let mut next = at;
    let mut walk = storage.walk();
    while let Some(Child { name, what }) = B::next(&mut walk) {
        let name = B::spell(&name);
        let lead = lead_at(leads, next);
        match what {
            What::Stream(size) => {
                let fields = stream_entry(lead, size);
                // where there is room no write is tried, whose result is large
                if waiting.len() < PIECE {
                    push_entry(waiting, name, &fields)?;
                    next += 1;
                    continue;
                }
                send_entry(writer, waiting, name, &fields)?;
                next += 1;
            }
            What::Storage(inner) => {
                send_entry(writer, waiting, name, &storage_entry(lead, inner))?;
                next = send_below(writer, waiting, inner, leads, next + 1)?;
            }
        }
    }
    Ok(next)
}

/// Sends the directory of a tree: the root, what is below it, and unused entries up to a whole sector.
pub(crate) fn send_directory<W: Write, B: Branch>(
    writer: &mut W,
    waiting: &mut Vec<u8>,
    root: B,
    directory: &Directory,
    counts: Counts,
) -> io::Result<()>
    requires counts { AreCounts counts (B.tree root) }
    requires directory { IsDirectory directory.now counts.fat (B.tree root) }
    ensures sent { OnOk result (Sends (W.contents writer.old) (W.contents writer.new) waiting.old.items
        waiting.new.items (directory_of_tree balanced counts.fat (B.tree root))) }
    ensures long { OnOk result (length (directory_of_tree balanced counts.fat (B.tree root))
        ≡ 512 * directory_sectors (B.tree root)) }
{
    let name = Name::root();
    send_entry(writer, waiting, name.as_bytes(), &directory.root)?;
    send_below(writer, waiting, root, &directory.leads, 0)?;
    send_unused(
        writer,
        waiting,
        4 * counts.directory_sectors() - (1 + counts.entries),
    )?;
    Ok(())
}
