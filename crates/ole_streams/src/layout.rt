//! The stream `Layout` of a document: a version, a count, and the area of each object.

ghost use Rattle.std.specs.Prelude.{◌≡◌, ◌≢◌, ◌<◌, ◌≤◌, ◌*◌, ◌^◌, ◌++◌, Err, IfOk, Ok, IsOk, OnOk, length, map};
ghost use Rattle.std.specs.Int.{to_le_bytes, w16};
ghost use Rattle.std.specs.List.{flat_map};
ghost use Rattle.ole_model.specs.Fields.{map_ok};
ghost use Rattle.ole_model.specs.Layouts.{area_at, area_bytes, areas_behind, areas_read, layout_bytes, layout_read};
ghost use Rattle.ole_model.specs.declared.fault.OleFault.TheVariants.{NoMemory};

use crate::doc::{DocObject, MOST_OBJECTS};
use ole_model::fault::OleFault;
use ole_model::fields::push_number;
use std::alloc::{AllocError, Global};
use tree_streams::area::Area;
use tree_values::bytes::Bytes;

/// The version of the stream.
const VERSION: u32 = 1;

/// Adds a number in two bytes, least byte first.
fn push_short(out: &mut Vec<u8>, n: u16) -> Result<(), AllocError>
    ensures { OnOk result (out.new.items ≡ out.old.items ++ to_le_bytes w16 n) }
{
    out.extend_from_slice(&n.to_le_bytes())?;
    Ok(())
}

/// Adds an area.
fn push_area(out: &mut Vec<u8>, area: &Area) -> Result<(), AllocError>
    ensures { OnOk result (out.new.items ≡ out.old.items ++ area_bytes area.now) }
{
    push_short(out, area.x)?;
    push_short(out, area.y)?;
    push_short(out, area.w)?;
    push_short(out, area.h)?;
    Ok(())
}

/// Adds areas.
fn push_areas(out: &mut Vec<u8>, areas: &[Area]) -> Result<(), AllocError>
    ensures { OnOk result (out.new.items ≡ out.old.items ++ flat_map area_bytes areas.now) }
{
    for area in areas {
        push_area(out, area)?;
    }
    Ok(())
}

/// The areas of objects.
fn areas_of(alloc: Global, objects: &[DocObject]) -> Result<Vec<Area>, AllocError>
    ensures { IfOk result (λ areas. areas.items ≡ map (λ o. o.area) objects.now) }
{
    let mut areas = Vec::new(alloc);
    for object in objects {
        areas.push(object.area)?;
    }
    Ok(areas)
}

/// The stream of these objects.
pub(crate) fn write_layout(alloc: Global, objects: &[DocObject]) -> Result<Bytes, AllocError>
    requires { length objects.now < 2 ^ 32 }
    ensures { IfOk result (λ b. b ≡ layout_bytes (map (λ o. o.area) objects.now)) }
{
    let mut out = Vec::new(alloc);
    push_number(&mut out, VERSION)?;
    push_number(&mut out, objects.len() as u32)?;
    push_areas(&mut out, &areas_of(alloc, objects)?)?;
    Bytes::from_vec(alloc, out)
}

/// The area in eight bytes.
fn area_at(bytes: &[u8; 8]) -> Area
    ensures { result ≡ area_at bytes.now }
{
    Area {
        x: u16::from_le_bytes([bytes[0], bytes[1]]),
        y: u16::from_le_bytes([bytes[2], bytes[3]]),
        w: u16::from_le_bytes([bytes[4], bytes[5]]),
        h: u16::from_le_bytes([bytes[6], bytes[7]]),
    }
}

/// So many areas, which the bytes have room for.
fn take_areas(alloc: Global, count: u32, bytes: &[u8]) -> Result<Vec<Area>, AllocError>
    requires { length bytes.now ≡ 8 * count }
    ensures areas { IfOk result (λ areas. Ok areas.items ≡ areas_read count bytes.now) }
    ensures count { IfOk result (λ areas. length areas.items ≡ count) }
{
    let mut areas = Vec::new(alloc);
    let mut rest = bytes;
    for index in 0..count {
        match rest.split_first_chunk::<8>() {
            Some((first, behind)) => {
                areas.push(area_at(first))?;
                rest = behind;
            }
            None => unreachable!(),
        }
    }
    Ok(areas)
}

/// So many areas, with nothing behind them. The length is looked at first, then they take memory.
fn read_areas(alloc: Global, count: u32, bytes: &[u8]) -> Result<Vec<Area>, OleFault>
    ensures areas { result ≢ Err NoMemory → map_ok (λ areas. areas.items) result ≡ areas_read count bytes.now }
    ensures count { IfOk result (λ areas. length areas.items ≡ count) }
    ensures wanting { result ≡ Err NoMemory → IsOk (areas_read count bytes.now) }
{
    if bytes.len() != 8 * count as usize {
        return Err(OleFault::NotADocument);
    }
    Ok(take_areas(alloc, count, bytes)?)
}

/// The areas behind the first eight bytes.
fn areas_behind(alloc: Global, head: &[u8; 8], bytes: &[u8]) -> Result<Vec<Area>, OleFault>
    ensures areas { result ≢ Err NoMemory → map_ok (λ areas. areas.items) result ≡ areas_behind head.now bytes.now }
    ensures few { IfOk result (λ areas. length areas.items ≤ MOST_OBJECTS) }
    ensures wanting { result ≡ Err NoMemory → IsOk (areas_behind head.now bytes.now) }
{
    if u32::from_le_bytes([head[0], head[1], head[2], head[3]]) != VERSION {
        return Err(OleFault::NotADocument);
    }
    let count = u32::from_le_bytes([head[4], head[5], head[6], head[7]]);
    if count as usize > MOST_OBJECTS {
        return Err(OleFault::TooManyObjects);
    }
    read_areas(alloc, count, bytes)
}

/// The areas that the stream says.
///
/// Refused: `TooManyObjects` where it counts more than 64; `NotADocument` where it has another version, or not just so
/// many areas; `NoMemory`.
pub(crate) fn read_layout(alloc: Global, bytes: &[u8]) -> Result<Vec<Area>, OleFault>
    ensures areas { result ≢ Err NoMemory → map_ok (λ areas. areas.items) result ≡ layout_read bytes.now }
    ensures few { IfOk result (λ areas. length areas.items ≤ MOST_OBJECTS) }
    ensures wanting { result ≡ Err NoMemory → IsOk (layout_read bytes.now) }
{
    match bytes.split_first_chunk::<8>() {
        Some((head, rest)) => areas_behind(alloc, head, rest),
        None => Err(OleFault::NotADocument),
    }
}
