//! What is wrong with a file, as JSON (RFC 8259).

ghost use Rattle.tell_checks.specs.Json.{chain_link, chain_part, entry_id, entry_of, entry_part, file_member};
ghost use Rattle.tell_checks.specs.Json.{known_members, link_members, link_of, null_member, number_member, ok_member};
ghost use Rattle.tell_checks.specs.Json.{other_of, owner_id, part_of, path_member, sound_tokens, spot_members};
ghost use Rattle.tell_checks.specs.Json.{stream_part, text_member, told_tokens, twin_id, unknown_members};
ghost use Rattle.json.specs.Print.{print};
ghost use Rattle.std.specs.Prelude.{[], ◌∷◌, ◌≡◌, ◌++◌, codes, IfOk, OnOk, option_map};

use crate::spot::{Place, Spot};
use json::Writer;
use read_files::fault::ReadFault;
use std::alloc::{AllocError, Global};
use tell_chains::place::Owner;
use tell_entries::place::EntryPlace;
use tell_entries::ways::end_of;
use tell_faults::place::{FaultPlace, Link};

/// The part that a chain is of.
fn chain_part(place: FaultPlace) -> &'static str
    ensures { result.now ≡ chain_part place }
{
    match place {
        FaultPlace::Header => "header",
        FaultPlace::Fat => "fat",
        FaultPlace::Directory(_) => "directory",
        FaultPlace::MiniFat(_) => "mini_fat",
        FaultPlace::MiniStream(_) => "mini_stream",
    }
}

/// What a place of the directory is called.
fn entry_part(place: &EntryPlace) -> &'static str
    ensures { result.now ≡ entry_part place.now }
{
    match place {
        EntryPlace::Nowhere => "directory",
        EntryPlace::Entry(_) => "entry",
        EntryPlace::Twins(_, _, _) => "entry",
    }
}

/// What a stream is called that lies in mini sectors, or in sectors.
fn stream_part(is_mini: bool) -> &'static str
    ensures { result.now ≡ stream_part is_mini }
{
    if is_mini {
        return "short_stream";
    }
    "stream"
}

/// The part that is at fault.
fn part_of(place: &Place) -> &'static str
    ensures { result.now ≡ part_of place.now }
{
    match place {
        Place::Chain(at) => chain_part(*at),
        Place::Stream(at) => stream_part(at.is_mini),
        Place::Entry(at) => entry_part(at),
    }
}

/// The link of a chain.
fn chain_link(place: FaultPlace) -> Option<Link>
    ensures { result ≡ chain_link place }
{
    match place {
        FaultPlace::Header => None,
        FaultPlace::Fat => None,
        FaultPlace::Directory(link) => Some(link),
        FaultPlace::MiniFat(link) => Some(link),
        FaultPlace::MiniStream(link) => Some(link),
    }
}

/// The link at which a chain goes wrong.
fn link_of(place: &Place) -> Option<Link>
    ensures { result ≡ link_of place.now }
{
    match place {
        Place::Chain(at) => chain_link(*at),
        Place::Stream(at) => Some(at.link),
        Place::Entry(_) => None,
    }
}

/// The entry of a place of the directory.
fn entry_id(place: &EntryPlace) -> Option<u32>
    ensures { result ≡ entry_id place.now }
{
    match place {
        EntryPlace::Nowhere => None,
        EntryPlace::Entry(way) => Some(end_of(way)),
        EntryPlace::Twins(_, _, other) => Some(*other),
    }
}

/// The entry that a place is of.
fn entry_of(place: &Place) -> Option<u32>
    ensures { result ≡ entry_of place.now }
{
    match place {
        Place::Chain(_) => None,
        Place::Stream(at) => Some(end_of(&at.way)),
        Place::Entry(at) => entry_id(at),
    }
}

/// The entry whose stream has a sector.
fn owner_id(owner: &Owner) -> Option<u32>
    ensures { result ≡ owner_id owner.now }
{
    match owner {
        Owner::Nobody => None,
        Owner::System => None,
        Owner::Stream(way) => Some(end_of(way)),
    }
}

/// The entry that has the name too.
fn twin_id(place: &EntryPlace) -> Option<u32>
    ensures { result ≡ twin_id place.now }
{
    match place {
        EntryPlace::Nowhere => None,
        EntryPlace::Entry(_) => None,
        EntryPlace::Twins(_, one, _) => Some(*one),
    }
}

/// The other entry that a place is of.
fn other_of(place: &Place) -> Option<u32>
    ensures { result ≡ other_of place.now }
{
    match place {
        Place::Chain(_) => None,
        Place::Stream(at) => owner_id(&at.owner),
        Place::Entry(at) => twin_id(at),
    }
}

/// Writes a member of a text.
fn write_text(writer: &mut Writer, name: &str, text: &str) -> Result<(), AllocError>
    ensures before { OnOk result (writer.new.before ≡ writer.old.before) }
    ensures tokens { OnOk result (writer.new.tokens ≡ writer.old.tokens ++ text_member name.now text.now) }
{
    writer.key(name)?;
    writer.string(text)?;
    Ok(())
}

/// Writes a member that isn't known.
fn write_null(writer: &mut Writer, name: &str) -> Result<(), AllocError>
    ensures before { OnOk result (writer.new.before ≡ writer.old.before) }
    ensures tokens { OnOk result (writer.new.tokens ≡ writer.old.tokens ++ null_member name.now) }
{
    writer.key(name)?;
    writer.null()?;
    Ok(())
}

/// Writes a member of a number, where it is known.
fn write_number(writer: &mut Writer, name: &str, number: Option<u32>) -> Result<(), AllocError>
    ensures before { OnOk result (writer.new.before ≡ writer.old.before) }
    ensures tokens { OnOk result (writer.new.tokens ≡ writer.old.tokens ++ number_member name.now number) }
{
    match number {
        None => write_null(writer, name),
        Some(number) => {
            writer.key(name)?;
            writer.u64(u64::from(number))?;
            Ok(())
        }
    }
}

/// Writes whether the file is sound.
fn write_ok(writer: &mut Writer, is_sound: bool) -> Result<(), AllocError>
    ensures before { OnOk result (writer.new.before ≡ writer.old.before) }
    ensures tokens { OnOk result (writer.new.tokens ≡ writer.old.tokens ++ ok_member is_sound) }
{
    writer.key("ok")?;
    writer.boolean(is_sound)?;
    Ok(())
}

/// Writes the path, where it is known.
fn write_path(writer: &mut Writer, path: &Option<String>) -> Result<(), AllocError>
    ensures before { OnOk result (writer.new.before ≡ writer.old.before) }
    ensures tokens { OnOk result (writer.new.tokens ≡ writer.old.tokens ++ path_member path.now) }
{
    match path {
        None => write_null(writer, "path"),
        Some(path) => write_text(writer, "path", path.as_str()),
    }
}

/// Writes the sector whose entry is at fault, and what it leads to.
fn write_link(writer: &mut Writer, link: Option<Link>) -> Result<(), AllocError>
    ensures before { OnOk result (writer.new.before ≡ writer.old.before) }
    ensures tokens { OnOk result (writer.new.tokens ≡ writer.old.tokens ++ link_members link) }
{
    match link {
        None => {
            write_null(writer, "sector")?;
            write_null(writer, "to")
        }
        Some(link) => {
            write_number(writer, "sector", link.from)?;
            write_number(writer, "to", Some(link.to))
        }
    }
}

/// Writes what is known of a place.
fn write_known(writer: &mut Writer, spot: &Spot) -> Result<(), AllocError>
    ensures before { OnOk result (writer.new.before ≡ writer.old.before) }
    ensures tokens { OnOk result (writer.new.tokens ≡ writer.old.tokens ++ known_members spot.now) }
{
    write_text(writer, "part", part_of(&spot.place))?;
    write_link(writer, link_of(&spot.place))?;
    write_number(writer, "entry", entry_of(&spot.place))?;
    write_path(writer, &spot.path)?;
    write_number(writer, "byte", spot.byte)?;
    write_number(writer, "other", other_of(&spot.place))
}

/// Writes that nothing is known of a place.
fn write_unknown(writer: &mut Writer) -> Result<(), AllocError>
    ensures before { OnOk result (writer.new.before ≡ writer.old.before) }
    ensures tokens { OnOk result (writer.new.tokens ≡ writer.old.tokens ++ unknown_members) }
{
    write_null(writer, "part")?;
    write_link(writer, None)?;
    write_null(writer, "entry")?;
    write_null(writer, "path")?;
    write_null(writer, "byte")?;
    write_null(writer, "other")
}

/// Writes what is known of where a fault is.
fn write_spot(writer: &mut Writer, spot: &Option<Spot>) -> Result<(), AllocError>
    ensures before { OnOk result (writer.new.before ≡ writer.old.before) }
    ensures tokens { OnOk result (writer.new.tokens ≡ writer.old.tokens ++ spot_members spot.now) }
{
    match spot {
        None => write_unknown(writer),
        Some(spot) => write_known(writer, spot),
    }
}

/// Writes the name of the file, where it is to be told.
fn write_file(writer: &mut Writer, name: Option<&str>) -> Result<(), AllocError>
    ensures before { OnOk result (writer.new.before ≡ writer.old.before) }
    ensures tokens { OnOk result (writer.new.tokens ≡ writer.old.tokens
        ++ file_member (option_map (λ n. n.now) name.entry)) }
{
    match name {
        None => Ok(()),
        Some(name) => write_text(writer, "file", name),
    }
}

/// Writes the value of a file that is sound.
fn write_sound(writer: &mut Writer, name: Option<&str>) -> Result<(), AllocError>
    ensures before { OnOk result (writer.new.before ≡ writer.old.before) }
    ensures tokens { OnOk result (writer.new.tokens ≡ writer.old.tokens
        ++ sound_tokens (option_map (λ n. n.now) name.entry)) }
{
    writer.begin_object()?;
    write_file(writer, name)?;
    write_ok(writer, true)?;
    writer.end_object()?;
    Ok(())
}

/// Writes the value of a fault.
fn write_told(
    writer: &mut Writer,
    name: Option<&str>,
    fault: &ReadFault,
    spot: &Option<Spot>,
) -> Result<(), AllocError>
    ensures before { OnOk result (writer.new.before ≡ writer.old.before) }
    ensures tokens { OnOk result (writer.new.tokens ≡ writer.old.tokens
        ++ told_tokens (option_map (λ n. n.now) name.entry) fault.now spot.now) }
{
    writer.begin_object()?;
    write_file(writer, name)?;
    write_ok(writer, false)?;
    write_text(writer, "fault", fault.name())?;
    write_spot(writer, spot)?;
    writer.end_object()?;
    Ok(())
}

/// The line of a file that is sound.
pub(crate) fn sound_json(alloc: Global, name: Option<&str>) -> Result<Vec<u8>, AllocError>
    ensures { IfOk result (λ v. v.items ≡ print (sound_tokens (option_map (λ n. n.now) name.entry)) ++ 10 ∷ []) }
{
    let mut writer = Writer::new(Vec::new(alloc));
    write_sound(&mut writer, name)?;
    let mut text = writer.into_inner();
    text.push(b'\n')?;
    Ok(text)
}

/// The line of a fault and its place.
pub(crate) fn told_json(
    alloc: Global,
    name: Option<&str>,
    fault: &ReadFault,
    spot: &Option<Spot>,
) -> Result<Vec<u8>, AllocError>
    ensures { IfOk result
        (λ v. v.items ≡ print (told_tokens (option_map (λ n. n.now) name.entry) fault.now spot.now) ++ 10 ∷ []) }
{
    let mut writer = Writer::new(Vec::new(alloc));
    write_told(&mut writer, name, fault, spot)?;
    let mut text = writer.into_inner();
    text.push(b'\n')?;
    Ok(text)
}
