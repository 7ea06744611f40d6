//! The line that tells what is wrong with a file, and where.

ghost use Rattle.tell_checks.specs.Lines.{byte_part, chain_text, entry_text, from_text, known_text, link_text};
ghost use Rattle.tell_checks.specs.Lines.{mini_from_text, mini_step_text, number_text, one_text, other_text};
ghost use Rattle.tell_checks.specs.Lines.{owner_text, path_part, place_text, spot_text, step_text, stream_link_text};
ghost use Rattle.tell_checks.specs.Lines.{stream_number_text, stream_text, told_line, twin_text, twins_text, worded};
ghost use Rattle.std.specs.Prelude.{◌≡◌, ◌++◌, IfOk, OnOk};

use crate::spot::{Place, Spot};
use read_files::fault::ReadFault;
use std::alloc::{AllocError, Global};
use tell_chains::place::{Owner, StreamPlace};
use tell_entries::place::EntryPlace;
use tell_entries::ways::end_of;
use tell_faults::place::{FaultPlace, Link};

/// Writes a number behind words.
fn push_number(
    alloc: Global,
    text: &mut Vec<u8>,
    words: &[u8],
    number: u32,
) -> Result<(), AllocError>
    ensures { OnOk result (text.new.items ≡ text.old.items ++ worded words.now number) }
{
    let digits = number.to_string(alloc)?;
    text.extend_from_slice(words)?;
    text.extend_from_slice(digits.as_bytes())?;
    Ok(())
}

/// Writes which sector leads to which number.
fn push_step(alloc: Global, text: &mut Vec<u8>, from: u32, to: u32) -> Result<(), AllocError>
    ensures { OnOk result (text.new.items ≡ text.old.items ++ step_text from to) }
{
    push_number(alloc, text, b", whose sector ".as_slice(), from)?;
    push_number(alloc, text, b" leads to ".as_slice(), to)
}

/// Writes what a link is.
fn push_link(alloc: Global, text: &mut Vec<u8>, link: Link) -> Result<(), AllocError>
    ensures { OnOk result (text.new.items ≡ text.old.items ++ link_text link) }
{
    match link.from {
        None => push_number(
            alloc,
            text,
            b", which begins at sector ".as_slice(),
            link.to,
        ),
        Some(from) => push_step(alloc, text, from, link.to),
    }
}

/// Writes where the fault of a chain is.
fn push_chain(alloc: Global, text: &mut Vec<u8>, place: FaultPlace) -> Result<(), AllocError>
    ensures { OnOk result (text.new.items ≡ text.old.items ++ chain_text place) }
{
    match place {
        FaultPlace::Header => text.extend_from_slice(b" in the header".as_slice()),
        FaultPlace::Fat => {
            text.extend_from_slice(b" in the lists of the FAT and the DIFAT".as_slice())
        }
        FaultPlace::Directory(link) => {
            text.extend_from_slice(b" in the directory".as_slice())?;
            push_link(alloc, text, link)
        }
        FaultPlace::MiniFat(link) => {
            text.extend_from_slice(b" in the mini FAT".as_slice())?;
            push_link(alloc, text, link)
        }
        FaultPlace::MiniStream(link) => {
            text.extend_from_slice(b" in the mini stream".as_slice())?;
            push_link(alloc, text, link)
        }
    }
}

/// Writes which mini sector leads to which number.
fn push_mini_step(alloc: Global, text: &mut Vec<u8>, from: u32, to: u32) -> Result<(), AllocError>
    ensures { OnOk result (text.new.items ≡ text.old.items ++ mini_step_text from to) }
{
    push_number(alloc, text, b", whose mini sector ".as_slice(), from)?;
    push_number(alloc, text, b" leads to ".as_slice(), to)
}

/// Writes what a link of mini sectors is.
fn push_mini_link(alloc: Global, text: &mut Vec<u8>, link: Link) -> Result<(), AllocError>
    ensures { OnOk result (text.new.items ≡ text.old.items ++ mini_from_text link.from link.to) }
{
    match link.from {
        None => push_number(
            alloc,
            text,
            b", which begins at mini sector ".as_slice(),
            link.to,
        ),
        Some(from) => push_mini_step(alloc, text, from, link.to),
    }
}

/// Writes what a link of a stream's chain is.
fn push_stream_link(
    alloc: Global,
    text: &mut Vec<u8>,
    is_mini: bool,
    link: Link,
) -> Result<(), AllocError>
    ensures { OnOk result (text.new.items ≡ text.old.items ++ stream_link_text is_mini link) }
{
    if is_mini {
        return push_mini_link(alloc, text, link);
    }
    push_link(alloc, text, link)
}

/// Writes that the stream of an entry has the sector to which a chain leads.
fn push_other(alloc: Global, text: &mut Vec<u8>, id: u32) -> Result<(), AllocError>
    ensures { OnOk result (text.new.items ≡ text.old.items ++ other_text id) }
{
    push_number(alloc, text, b", which the stream of entry ".as_slice(), id)?;
    text.extend_from_slice(b" has".as_slice())
}

/// Writes whose the sector is to which a chain leads.
fn push_owner(alloc: Global, text: &mut Vec<u8>, owner: &Owner) -> Result<(), AllocError>
    ensures { OnOk result (text.new.items ≡ text.old.items ++ owner_text owner.now) }
{
    match owner {
        Owner::Nobody => Ok(()),
        Owner::System => text.extend_from_slice(b", which a part of the system has".as_slice()),
        Owner::Stream(way) => push_other(alloc, text, end_of(way)),
    }
}

/// Writes in the stream of which entry a fault is.
fn push_stream_number(alloc: Global, text: &mut Vec<u8>, id: u32) -> Result<(), AllocError>
    ensures { OnOk result (text.new.items ≡ text.old.items ++ stream_number_text id) }
{
    push_number(alloc, text, b" in the stream of entry ".as_slice(), id)
}

/// Writes where the fault of a stream's chain is.
fn push_stream(
    alloc: Global,
    text: &mut Vec<u8>,
    place: &StreamPlace,
    path: &Option<String>,
) -> Result<(), AllocError>
    ensures { OnOk result (text.new.items ≡ text.old.items ++ stream_text place.now path.now) }
{
    push_stream_number(alloc, text, end_of(&place.way))?;
    push_path(text, path)?;
    push_stream_link(alloc, text, place.is_mini, place.link)?;
    push_owner(alloc, text, &place.owner)
}

/// Writes in which entry a fault is.
fn push_number_of(alloc: Global, text: &mut Vec<u8>, id: u32) -> Result<(), AllocError>
    ensures { OnOk result (text.new.items ≡ text.old.items ++ number_text id) }
{
    push_number(alloc, text, b" in entry ".as_slice(), id)
}

/// Writes of which entry it has the name.
fn push_twin(alloc: Global, text: &mut Vec<u8>, id: u32) -> Result<(), AllocError>
    ensures { OnOk result (text.new.items ≡ text.old.items ++ twin_text id) }
{
    push_number(
        alloc,
        text,
        b", which has the name of entry ".as_slice(),
        id,
    )
}

/// Writes in which entry of which path a fault is.
fn push_one(
    alloc: Global,
    text: &mut Vec<u8>,
    id: u32,
    path: &Option<String>,
) -> Result<(), AllocError>
    ensures { OnOk result (text.new.items ≡ text.old.items ++ one_text id path.now) }
{
    push_number_of(alloc, text, id)?;
    push_path(text, path)
}

/// Writes which two entries have one name.
fn push_twins(
    alloc: Global,
    text: &mut Vec<u8>,
    m: u32,
    n: u32,
    path: &Option<String>,
) -> Result<(), AllocError>
    ensures { OnOk result (text.new.items ≡ text.old.items ++ twins_text m n path.now) }
{
    push_number_of(alloc, text, n)?;
    push_path(text, path)?;
    push_twin(alloc, text, m)
}

/// Writes where the fault of a directory is.
fn push_entry(
    alloc: Global,
    text: &mut Vec<u8>,
    place: &EntryPlace,
    path: &Option<String>,
) -> Result<(), AllocError>
    ensures { OnOk result (text.new.items ≡ text.old.items ++ entry_text place.now path.now) }
{
    match place {
        EntryPlace::Nowhere => {
            text.extend_from_slice(b" in the directory, which has no entry".as_slice())
        }
        EntryPlace::Entry(way) => push_one(alloc, text, end_of(way), path),
        EntryPlace::Twins(_, m, n) => push_twins(alloc, text, *m, *n, path),
    }
}

/// Writes a place.
fn push_place(
    alloc: Global,
    text: &mut Vec<u8>,
    place: &Place,
    path: &Option<String>,
) -> Result<(), AllocError>
    ensures { OnOk result (text.new.items ≡ text.old.items ++ place_text place.now path.now) }
{
    match place {
        Place::Chain(at) => push_chain(alloc, text, *at),
        Place::Stream(at) => push_stream(alloc, text, at, path),
        Place::Entry(at) => push_entry(alloc, text, at, path),
    }
}

/// Writes the path of an entry, where it is known.
fn push_path(text: &mut Vec<u8>, path: &Option<String>) -> Result<(), AllocError>
    ensures { OnOk result (text.new.items ≡ text.old.items ++ path_part path.now) }
{
    match path {
        None => Ok(()),
        Some(path) => {
            text.extend_from_slice(b", ".as_slice())?;
            text.extend_from_slice(path.as_bytes())
        }
    }
}

/// Writes the byte of the file, where it is known.
fn push_byte(alloc: Global, text: &mut Vec<u8>, byte: Option<u32>) -> Result<(), AllocError>
    ensures { OnOk result (text.new.items ≡ text.old.items ++ byte_part byte) }
{
    match byte {
        None => Ok(()),
        Some(byte) => push_number(alloc, text, b", at byte ".as_slice(), byte),
    }
}

/// Writes where the fault is.
fn push_spot(alloc: Global, text: &mut Vec<u8>, spot: &Option<Spot>) -> Result<(), AllocError>
    ensures { OnOk result (text.new.items ≡ text.old.items ++ spot_text spot.now) }
{
    match spot {
        None => Ok(()),
        Some(spot) => push_known(alloc, text, spot),
    }
}

/// Writes a place and what is known of it.
fn push_known(alloc: Global, text: &mut Vec<u8>, spot: &Spot) -> Result<(), AllocError>
    ensures { OnOk result (text.new.items ≡ text.old.items ++ known_text spot.now) }
{
    push_place(alloc, text, &spot.place, &spot.path)?;
    push_byte(alloc, text, spot.byte)
}

/// The line of a fault and its place.
pub(crate) fn line_of(
    alloc: Global,
    fault: &ReadFault,
    spot: &Option<Spot>,
) -> Result<Vec<u8>, AllocError>
    ensures { IfOk result (λ v. v.items ≡ told_line fault.now spot.now) }
{
    let mut text = Vec::from_slice(alloc, fault.name().as_bytes())?;
    push_spot(alloc, &mut text, spot)?;
    text.push(b'\n')?;
    Ok(text)
}
