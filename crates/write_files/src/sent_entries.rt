//! Entries of the directory on their way to a writer.

ghost use Rattle.cfb_entries.specs.Written.{entry_bytes, free_entry_bytes};
ghost use Rattle.write_parts.specs.Sends.{Sends};
ghost use Rattle.std.specs.List.{concat};
ghost use Rattle.std.specs.Prelude.{◌≡◌, ◌≤◌, OnOk, length, replicate};

use std::io::{self, Write};
use write_directory::write::{EntryFields, write_entry, write_free_entry};
use write_parts::leads::class_bytes;
use write_parts::pieces::make_room;

/// Sends an entry of the directory.
pub(crate) fn send_entry<W: Write>(
    writer: &mut W,
    waiting: &mut Vec<u8>,
    name: &[u8],
    fields: &EntryFields,
) -> io::Result<()>
    requires { length name.now ≤ 31 }
    ensures sent { OnOk result (Sends (W.contents writer.old) (W.contents writer.new) waiting.old.items
        waiting.new.items (entry_bytes name.now fields.now)) }
    ensures class_id { length fields.now.class ≡ 16 }
{
    let _class = class_bytes(&fields.class);
    make_room(writer, waiting)?;
    write_entry(waiting, name, fields)?;
    Ok(())
}

/// Sends an entry that isn't used.
fn send_free_entry<W: Write>(writer: &mut W, waiting: &mut Vec<u8>) -> io::Result<()>
    ensures { OnOk result (Sends (W.contents writer.old) (W.contents writer.new) waiting.old.items waiting.new.items
        free_entry_bytes) }
{
    make_room(writer, waiting)?;
    write_free_entry(waiting)?;
    Ok(())
}

/// Sends entries that aren't used.
pub(crate) fn send_unused<W: Write>(
    writer: &mut W,
    waiting: &mut Vec<u8>,
    count: u32,
) -> io::Result<()>
    ensures { OnOk result (Sends (W.contents writer.old) (W.contents writer.new) waiting.old.items waiting.new.items
        (concat (replicate count free_entry_bytes))) }
{
    for _ in 0..count {
        send_free_entry(writer, waiting)?;
    }
    Ok(())
}
