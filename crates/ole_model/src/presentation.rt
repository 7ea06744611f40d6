//! The stream `\2OlePres000` (MS-OLEDS 2.3.4), where it holds a picture of text.

ghost use Rattle.std.specs.Prelude.{◌≡◌, ◌+◌, ◌<◌, ◌≤◌, ◌++◌, ◌^◌, IfOk, OnOk, length};
ghost use Rattle.std.specs.List.{list_all};
ghost use Rattle.std.specs.Option.{option_map};
ghost use Rattle.ole_model.specs.Presentations.{PAST_DATA, are_lines, front, height, is_line_byte, lines_behind};
ghost use Rattle.ole_model.specs.Presentations.{lines_read, lines_written, longer, presentation, presentation_bytes};
ghost use Rattle.ole_model.specs.Presentations.{size_of, whole_lines, width};

use crate::fields::push_number;
use std::alloc::{AllocError, Global};
use tree_values::bytes::Bytes;

/// The fields before the advise flags: the clipboard format `OleCon Text`, no target device, the aspect for content,
/// the index -1.
const FRONT: [u8; 28] = *b"\x0c\0\0\0OleCon Text\0\x04\0\0\0\x01\0\0\0\xff\xff\xff\xff";

/// The first number that doesn't fit the field of the size.
const PAST_SIZE: usize = 0x1_0000_0000;

/// A picture.
#[derive(Drop)]
pub enum Presentation {
    /// Lines of printable characters, each ended by a line feed.
    Text(Bytes),
    /// Anything else, with the bytes of the stream.
    Other(Bytes),
}

/// Whether a byte may stand in a line or end one.
fn is_line_byte(c: u8) -> bool
    ensures { result ≡ is_line_byte c }
{
    c == b'\n' || (32 <= c && c <= 126)
}

/// Whether each of the bytes may.
fn are_line_bytes(bytes: &[u8]) -> bool
    ensures { result ≡ list_all is_line_byte bytes.now }
{
    bytes.iter().all(|c| is_line_byte(*c))
}

/// Whether bytes are lines of printable characters, each ended by a line feed.
#[tactic(auto, unfolding(crate::specs::Presentations::are_lines))]
fn are_lines(bytes: &[u8]) -> bool
    ensures { result ≡ are_lines bytes.now }
{
    are_line_bytes(bytes) && (bytes.is_empty() || bytes[bytes.len() - 1] == b'\n')
}

/// How many lines there are.
fn height(lines: &[u8]) -> usize
    ensures count { result ≡ height lines.now }
    ensures bound { result ≤ length lines.now }
{
    lines.iter().filter(|c| **c == b'\n').count()
}

/// The greater of two lengths.
fn longer(a: usize, b: usize) -> usize
    ensures { result ≡ longer a b }
{
    if a < b { b } else { a }
}

/// The length of the longest line.
fn width(lines: &[u8]) -> usize
    ensures longest { result ≡ width lines.now }
    ensures bound { result ≤ length lines.now }
{
    let mut longest = 0;
    let mut before = 0;
    for c in lines {
        if *c == b'\n' {
            longest = longer(longest, before);
            before = 0;
        } else {
            before += 1;
        }
    }
    longest
}

/// The size of the data.
#[tactic(auto, unfolding(crate::specs::Presentations::size_of))]
fn size_of(head: &[u8; 48]) -> usize
    ensures { result ≡ size_of head.now }
{
    u32::from_le_bytes([head[44], head[45], head[46], head[47]]) as usize
}

/// Data of so many bytes, where it is whole and lines.
#[tactic(auto, unfolding(crate::specs::Presentations::whole_lines))]
fn whole_lines(size: usize, bytes: &[u8]) -> Option<&[u8]>
    ensures { option_map (λ l. l.now) result ≡ whole_lines size bytes.now }
{
    if size <= bytes.len() && are_lines(&bytes[..size]) {
        Some(&bytes[..size])
    } else {
        None
    }
}

/// The lines behind the first 48 bytes.
fn lines_behind<'a>(head: &[u8; 48], bytes: &'a [u8]) -> Option<&'a [u8]>
    ensures { option_map (λ l. l.now) result ≡ lines_behind head.now bytes.now }
{
    if head.starts_with(&FRONT) {
        whole_lines(size_of(head), bytes)
    } else {
        None
    }
}

/// The lines of a picture of text, which are left where they stand; none of any other. It takes no memory.
pub fn lines(bytes: &[u8]) -> Option<&[u8]>
    ensures { option_map (λ l. l.now) result ≡ lines_read bytes.now }
{
    match bytes.split_first_chunk::<48>() {
        Some((head, rest)) => lines_behind(head, rest),
        None => None,
    }
}

impl Presentation {
    /// Reads the stream: the lines of a picture of text, or else its bytes.
    ///
    /// Refused for want of memory alone.
    pub fn read(alloc: Global, bytes: &[u8]) -> Result<Presentation, AllocError>
        ensures { IfOk result (λ p. p ≡ presentation bytes.now) }
    {
        match lines(bytes) {
            Some(lines) => Ok(Presentation::Text(Bytes::from_slice(alloc, lines)?)),
            None => Ok(Presentation::Other(Bytes::from_slice(alloc, bytes)?)),
        }
    }

    /// The stream that holds a picture of these lines, as wide as the longest one and as high as there are lines. There
    /// is none where they aren't lines of printable characters (32 to 126), each ended by a line feed, or have
    /// 4,294,967,296 bytes or more.
    ///
    /// Refused for want of memory alone.
    pub fn write(alloc: Global, lines: &[u8]) -> Result<Option<Bytes>, AllocError>
        ensures { IfOk result (λ b. b ≡ lines_written lines.now) }
    {
        if !are_lines(lines) || lines.len() >= PAST_SIZE {
            return Ok(None);
        }
        Ok(Some(write_stream(alloc, lines)?))
    }
}

/// The stream that holds a picture of these lines.
fn write_stream(alloc: Global, lines: &[u8]) -> Result<Bytes, AllocError>
    requires { length lines.now < PAST_DATA }
    ensures { IfOk result (λ b. b ≡ presentation_bytes lines.now) }
{
    let mut out = Vec::new(alloc);
    out.extend_from_slice(&FRONT)?;
    push_number(&mut out, 2)?;
    push_number(&mut out, 0)?;
    push_number(&mut out, width(lines) as u32)?;
    push_number(&mut out, height(lines) as u32)?;
    push_number(&mut out, lines.len() as u32)?;
    out.extend_from_slice(lines)?;
    Bytes::from_vec(alloc, out)
}
