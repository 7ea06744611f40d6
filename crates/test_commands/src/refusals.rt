//! Commands where a read or a write fails. The table is a text, a line each: the command, how many bytes may be written
//! or `unread` where the input's end isn't read, and what is told; and the functions have no contracts: so the test is
//! quick to prove.

use crate::commands::{clean, get, list, make, simulate};
use crate::ends::{Failing, Full};
use read_source::source::Source;
use std::alloc::{AllocError, Global};
use std::io::{Read, Write};
use std::process::Abort;
use std::test::Fail;
use text_words::words::number;

const ROWS: &str = "make unread => file -: Unreadable
make 0 => file a.ole: Unwritable
make 2559 => file a.ole: Unwritable
make 2560 => 2560
list unread => file a.ole: Unreadable
list 5 => file -: Unwritable
list 52 => file -: Unwritable
list 53 => listed
get unread => file a.ole: Unreadable
get 0 => file -: Unwritable
get 2 => file -: Unwritable
get 3 => written
root 0 => file a.ole: WrongKind
clean unread => file a.ole: Unreadable
clean 0 => file b.ole: Unwritable
clean 2559 => file b.ole: Unwritable
clean 2560 => 2560
simulate unread => file e: Unreadable
simulate 0 => file -: Unwritable
simulate 9 => file -: Unwritable
simulate 10 => run";

const DESCRIPTION: &str = "stream A 010203\n";

const EVENTS: &str = "new a 1 1\n";

/// What these events lead to.
const TOLD: &str = "1 frame 1\n";

/// What stands before a mark, and what behind it, which is nothing where there is no such mark.
fn halves<'a>(text: &'a str, mark: &str) -> (&'a str, &'a str) {
    match text.split_once(mark) {
        Some(halves) => halves,
        None => (text, ""),
    }
}

/// What a command reads, where the file that is listed, read and written anew is this one.
fn input<'a>(command: &str, file: &'a [u8]) -> &'a [u8] {
    match command.as_bytes() {
        [b'm', ..] => DESCRIPTION.as_bytes(),
        [b's', ..] => EVENTS.as_bytes(),
        _ => file,
    }
}

/// What is told of a command.
fn told<R: Read + Source, W: Write>(
    alloc: Global,
    command: &str,
    reader: &mut R,
    writer: &mut W,
) -> Result<String, AllocError> {
    match command.as_bytes() {
        [b'm', ..] => make(alloc, reader, writer),
        [b'l', ..] => list(alloc, reader, writer),
        [b'g', ..] => get(alloc, reader, "A", writer),
        [b'r', ..] => get(alloc, reader, "", writer),
        [b'c', ..] => clean(alloc, reader, writer),
        _ => simulate(alloc, reader, writer, TOLD),
    }
}

/// What is told of a command whose input's end isn't read, or that it wrote.
fn unread(alloc: Global, command: &str, rest: &[u8]) -> Result<String, AllocError> {
    let mut out = Vec::new(alloc);
    let told = told(alloc, command, &mut Failing { rest }, &mut out)?;
    if out.is_empty() {
        Ok(told)
    } else {
        String::from_str(alloc, "written")
    }
}

fn ends(alloc: Global, command: &str, end: &str, file: &[u8]) -> Result<String, AllocError> {
    let mut rest = input(command, file);
    match number(end.as_bytes()) {
        Some(room) => {
            let mut writer = Full {
                room: room as usize,
            };
            told(alloc, command, &mut rest, &mut writer)
        }
        None => unread(alloc, command, rest),
    }
}

fn expect(rt: &impl Abort, alloc: Global, row: &str, file: &[u8]) -> Result<(), Fail> {
    let (row, want) = halves(row, " => ");
    let (command, end) = halves(row, " ");
    let told = ends(alloc, command, end, file)?;
    assert!(rt; told.as_str() == want, "{row}: {told}");
    Ok(())
}

#[test]
fn reads_and_writes_that_fail_are_told(rt: HostRuntime) -> Result<(), Fail> {
    let mut file = Vec::new(rt.alloc());
    drop(make(rt.alloc(), &mut DESCRIPTION.as_bytes(), &mut file)?);
    for row in ROWS.split('\n') {
        expect(&rt, rt.alloc(), row, &file)?;
    }
    Ok(())
}
