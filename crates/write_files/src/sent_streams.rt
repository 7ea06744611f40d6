//! The file of a tree sent to where it goes, without a copy of its streams in memory.

ghost use Rattle.cfb_layout.specs.Directory.{balanced, directory_of_tree, long_streams, parts_of, short_streams};
ghost use Rattle.cfb_layout.specs.Image.{behind_fat, image, padded, whole_pieces};
ghost use Rattle.write_parts.specs.Counted.{AreCounts, AreEnough};
ghost use Rattle.write_parts.specs.Front.{IsFront};
ghost use Rattle.write_parts.specs.Sends.{Sends};
ghost use Rattle.write_parts.specs.Fronts.{front_bytes};
ghost use Rattle.cfb_file.specs.Need.{data_sectors, directory_sectors, long_sectors, mini_sectors};
ghost use Rattle.write_parts.specs.Streams.{long_within, short_within};
ghost use Rattle.std.specs.Io.KnownBytes.{Appends};
ghost use Rattle.std.specs.Prelude.{[], ◌*◌, ◌+◌, ◌++◌, ◌∷◌, ◌≡◌, IfOk, IfSome, OnOk, length};
ghost use Rattle.tree_storage.specs.NodeView.{seen, view};

use crate::directory::send_directory;
use crate::walks::Branch;
use std::alloc::AllocError;
use std::io::{self, Write};
use tree_storage::nodes::{Node, Storage};
use write_parts::counts::Counts;
use write_parts::front::Front;
use write_parts::pieces::{PIECE, finish, make_room, push_padded, send, send_numbers, send_zeros};
use write_parts::streams::{is_short, mini_zeros, sector_zeros};

/// Adds the bytes of a stream, with zeros up to whole mini sectors.
fn push_minis(waiting: &mut Vec<u8>, bytes: &[u8]) -> Result<(), AllocError>
    ensures { OnOk result (waiting.new.items ≡ waiting.old.items ++ padded 64 bytes.now) }
{
    push_padded(waiting, bytes, mini_zeros(bytes.len()))
}

/// Sends the bytes of a stream, with zeros up to whole mini sectors.
fn send_minis<W: Write>(writer: &mut W, waiting: &mut Vec<u8>, bytes: &[u8]) -> io::Result<()>
    ensures { OnOk result (Sends (W.contents writer.old) (W.contents writer.new) waiting.old.items waiting.new.items
        (padded 64 bytes.now)) }
{
    make_room(writer, waiting)?;
    push_minis(waiting, bytes)?;
    Ok(())
}

/// Sends the bytes of a stream, with zeros up to whole sectors.
fn send_sectors<W: Write>(writer: &mut W, waiting: &mut Vec<u8>, bytes: &[u8]) -> io::Result<()>
    ensures { OnOk result (Sends (W.contents writer.old) (W.contents writer.new) waiting.old.items waiting.new.items
        (padded 512 bytes.now)) }
{
    send(writer, waiting, bytes)?;
    send_zeros(writer, waiting, sector_zeros(bytes.len()))?;
    Ok(())
}

/// The bytes of a child that is a stream shorter than 4,096 bytes.
fn short_stream(child: &Node) -> Option<&[u8]>
    ensures { IfSome result (λ bytes. short_within (seen child.now) ≡ bytes.now ∷ []) }
{
    match child {
        Node::Stream(bytes) => {
            let bytes = bytes.as_slice();
            if is_short(bytes.len()) {
                return Some(bytes);
            }
            None
        }
        Node::Storage(_) => None,
    }
}

/// Sends the streams below a storage that are shorter than 4,096 bytes, in the order of their entries, each in whole
/// mini sectors.
#[cycle(send_short)]
fn send_short<W: Write>(writer: &mut W, waiting: &mut Vec<u8>, storage: &Storage) -> io::Result<()>
    ensures { OnOk result (Sends (W.contents writer.old) (W.contents writer.new) waiting.old.items waiting.new.items
        (whole_pieces 64 (short_streams (view storage.now)))) }
{
    for (_, node) in storage.children.iter() {
        // where there is room no write is tried, whose result is large
        if waiting.len() < PIECE {
            if let Some(bytes) = short_stream(&node.1) {
                push_minis(waiting, bytes)?;
                continue;
            }
        }
        send_short_child(writer, waiting, &node.1)?;
    }
    Ok(())
}

/// Sends a child's.
#[cycle(send_short)]
fn send_short_child<W: Write>(writer: &mut W, waiting: &mut Vec<u8>, child: &Node) -> io::Result<()>
    ensures { OnOk result (Sends (W.contents writer.old) (W.contents writer.new) waiting.old.items waiting.new.items
        (whole_pieces 64 (short_within (seen child.now)))) }
{
    match child {
        Node::Stream(bytes) => {
            let bytes = bytes.as_slice();
            if is_short(bytes.len()) {
                send_minis(writer, waiting, bytes)?;
            }
        }
        Node::Storage(inner) => send_short(writer, waiting, inner)?,
    }
    Ok(())
}

/// Sends the mini stream of a tree whose short streams take so many mini sectors, in whole sectors.
fn send_mini_stream<W: Write>(
    writer: &mut W,
    waiting: &mut Vec<u8>,
    root: &Storage,
    minis: u32,
) -> io::Result<()>
    requires { minis ≡ mini_sectors (view root.now) }
    ensures { OnOk result (Sends (W.contents writer.old) (W.contents writer.new) waiting.old.items waiting.new.items
        (padded 512 (whole_pieces 64 (short_streams (view root.now))))) }
{
    if minis == 0 {
        return Ok(());
    }
    send_short(writer, waiting, root)?;
    send_zeros(writer, waiting, sector_zeros(64 * minis as usize))?;
    Ok(())
}

/// Sends the streams below a storage that have 4,096 bytes or more, in the order of their entries, each in whole
/// sectors.
#[cycle(send_long)]
fn send_long<W: Write>(writer: &mut W, waiting: &mut Vec<u8>, storage: &Storage) -> io::Result<()>
    ensures { OnOk result (Sends (W.contents writer.old) (W.contents writer.new) waiting.old.items waiting.new.items
        (whole_pieces 512 (long_streams (view storage.now)))) }
{
    for (_, node) in storage.children.iter() {
        send_long_child(writer, waiting, &node.1)?;
    }
    Ok(())
}

/// Sends a child's.
#[cycle(send_long)]
fn send_long_child<W: Write>(writer: &mut W, waiting: &mut Vec<u8>, child: &Node) -> io::Result<()>
    ensures { OnOk result (Sends (W.contents writer.old) (W.contents writer.new) waiting.old.items waiting.new.items
        (whole_pieces 512 (long_within (seen child.now)))) }
{
    match child {
        Node::Stream(bytes) => {
            let bytes = bytes.as_slice();
            if !is_short(bytes.len()) {
                send_sectors(writer, waiting, bytes)?;
            }
        }
        Node::Storage(inner) => send_long(writer, waiting, inner)?,
    }
    Ok(())
}

/// Sends the long streams of a tree that take so many sectors.
fn send_long_streams<W: Write>(
    writer: &mut W,
    waiting: &mut Vec<u8>,
    root: &Storage,
    longs: u32,
) -> io::Result<()>
    requires { longs ≡ long_sectors (view root.now) }
    ensures { OnOk result (Sends (W.contents writer.old) (W.contents writer.new) waiting.old.items waiting.new.items
        (whole_pieces 512 (long_streams (view root.now)))) }
{
    if longs == 0 {
        return Ok(());
    }
    send_long(writer, waiting, root)?;
    Ok(())
}

/// Sends what stands before the streams in the file of a tree with these counts, of which this is the front, and gives
/// what waits then.
pub fn send_front<W: Write, B: Branch>(
    writer: &mut W,
    front: Front,
    root: B,
    counts: Counts,
) -> io::Result<Vec<u8>>
    requires counts { AreCounts counts (B.tree root) }
    requires front { IsFront front counts.fat (B.tree root) }
    ensures sent { IfOk result (λ waiting. Sends (W.contents writer.old) (W.contents writer.new) [] waiting.items
        (front_bytes counts.fat (B.tree root))) }
    ensures long { OnOk result (length (directory_of_tree balanced counts.fat (B.tree root))
        ≡ 512 * directory_sectors (B.tree root)) }
{
    let mut waiting = front.header;
    send_numbers(writer, &mut waiting, &front.tables.fat)?;
    send_numbers(writer, &mut waiting, &front.difat)?;
    send_directory(writer, &mut waiting, root, &front.directory, counts)?;
    send_numbers(writer, &mut waiting, &front.tables.minis)?;
    Ok(waiting)
}

/// Writes the file of a tree with these counts, of which this is the front, and all through to the writer's end.
pub fn send_all<W: Write>(
    writer: &mut W,
    front: Front,
    root: &Storage,
    counts: Counts,
) -> io::Result<()>
    requires counts { AreEnough counts (view root.now) }
    requires front { IsFront front counts.fat (view root.now) }
    ensures sent { OnOk result (Appends (W.contents writer.old) (W.contents writer.new)
        (image counts.fat (parts_of balanced counts.fat (view root.now)))) }
    ensures long { OnOk result (length (image counts.fat (parts_of balanced counts.fat (view root.now)))
        ≡ 512 * (1 + behind_fat counts.fat + data_sectors (view root.now))) }
{
    let mut waiting = send_front(writer, front, root, counts)?;
    send_mini_stream(writer, &mut waiting, root, counts.minis)?;
    send_long_streams(writer, &mut waiting, root, counts.longs)?;
    finish(writer, &waiting)?;
    Ok(())
}
