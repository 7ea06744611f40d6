//! Names, entries and siblings, with values from the format.

use crate::texts::{are_all, are_numbers, are_spelled, number, word};
use cfb_names::fault::DirFault;
use cfb_names::name::{LONGEST, Name, key, keys_agree, named};
use read_directories::entries::{Entries, EntryKind, NO_STREAM};
use std::alloc::{AllocError, Global};
use std::cmp::Ordering;
use std::process::Abort;
use std::str::SplitWhitespace;
use write_directory::law::names_have_one_order;
use write_directory::links::{Links, balanced, build};
use write_directory::write::{EntryFields, write_entry, write_free_entry};

/// Names, and what they are refused for behind a `|`.
const NAMES: &str = "\x01CompObj|
xxxxxxxxxxxxxxxxxxxxxxxxxxxxxxx|
xxxxxxxxxxxxxxxxxxxxxxxxxxxxxxxx|NameTooLong
|NameEmpty
\x7f|
na\u{ef}ve|NameNotAscii
a/|NameForbidden
a\\|NameForbidden
a:|NameForbidden
a!|NameForbidden
a\0|NameForbidden";

/// Two names, and how they stand to one another.
const ORDERS: &str = "b aa less
b B equal
b A greater
b _ less";

/// An entry and a free one: names are of two bytes a character.
const WRITTEN: &str =
    "41006200,60*00,06000501,ffffffff,55000000,02000000,16*07,04030201,16*00,05000000,00100000,4*00,68*00,12*ff,48*00";

/// Whether bytes are a name, and copied as such, or refused so.
fn name_is(bytes: &[u8], fault: &str) -> bool {
    match named(bytes) {
        Ok(name) => fault.is_empty()
            && name.len() == bytes.len()
            && name.copy().as_bytes() == bytes,
        Err(refused) => refused.name() == fault,
    }
}

fn ordering_text(order: Ordering) -> &'static str {
    match order {
        Ordering::Less => "less",
        Ordering::Equal => "equal",
        Ordering::Greater => "greater",
    }
}

fn name(rt: &impl Abort, text: &str) -> Name {
    named(text.as_bytes()).expect(rt, "a name")
}

/// Whether two names stand so to one another, and their keys as well.
fn stand_so(one: &Name, other: &Name, want: &str) -> bool {
    ordering_text(one.cmp(other)) == want && ordering_text(key(one).cmp(&key(other))) == want
}

fn order_is(rt: &impl Abort, row: &str) -> bool {
    let mut words = row.split_whitespace();
    let one = name(rt, word(&mut words));
    let other = name(rt, word(&mut words));
    stand_so(&one, &other, word(&mut words))
}

fn is_read_or_refused(row: &str) -> bool {
    let (name, fault) = row.split_once("|").unwrap_or((row, ""));
    name_is(name.as_bytes(), fault)
}

#[test]
fn names_are_read_and_refused(rt: HostRuntime) {
    for row in NAMES.split('\n') {
        assert!(rt; is_read_or_refused(row), "{row}");
    }
}

#[test]
fn names_are_ordered(rt: HostRuntime) {
    for row in ORDERS.split('\n') {
        assert!(rt; order_is(&rt, row), "{row}");
    }
    assert!(rt; Name::root().as_bytes() == b"Root Entry".as_slice());
    keys_agree();
    names_have_one_order();
}

/// An entry with these links.
pub(crate) fn fields(kind: EntryKind, left: u32, right: u32, child: u32) -> EntryFields {
    EntryFields {
        kind,
        left,
        right,
        child,
        class: [7; 16],
        state: 0x0102_0304,
        first: 5,
        size: 4096,
    }
}

fn push(out: &mut Vec<u8>, name: &str, fields: &EntryFields) -> Result<(), AllocError> {
    if name.len() > LONGEST {
        return Err(AllocError);
    }
    write_entry(out, name.as_bytes(), fields)
}

fn push_free(out: &mut Vec<u8>) -> Result<(), AllocError> {
    write_free_entry(out)
}

fn entry(rt: &impl Abort, out: &mut Vec<u8>, name: &str, fields: &EntryFields) {
    push(out, name, fields).expect(rt, "memory");
}

fn free_entry(rt: &impl Abort, out: &mut Vec<u8>) {
    push_free(out).expect(rt, "memory");
}

#[test]
fn entries_are_written(rt: HostRuntime) {
    let mut bytes = Vec::new(rt.alloc());
    entry(
        &rt,
        &mut bytes,
        "Ab",
        &fields(EntryKind::Root, NO_STREAM, 0x55, 2),
    );
    free_entry(&rt, &mut bytes);
    assert!(rt; are_spelled(&rt, rt.alloc(), &bytes, WRITTEN));
}

/// A root with the children `A`, `B` and `C`, and a free entry.
pub(crate) fn directory(rt: &impl Abort, alloc: Global) -> Vec<u8> {
    let mut out = Vec::new(alloc);
    let leaf = fields(EntryKind::Stream, NO_STREAM, NO_STREAM, NO_STREAM);
    entry(
        rt,
        &mut out,
        "Root Entry",
        &fields(EntryKind::Root, NO_STREAM, NO_STREAM, 2),
    );
    entry(rt, &mut out, "A", &leaf);
    entry(
        rt,
        &mut out,
        "B",
        &fields(EntryKind::Storage, 1, 3, NO_STREAM),
    );
    entry(rt, &mut out, "C", &leaf);
    free_entry(rt, &mut out);
    out
}

/// Whether an entry has this name, kind and child, and all else as `fields` has it, or is refused so.
fn entry_is(entries: &Entries, id: u32, name: &str, kind: EntryKind, child: u32) -> bool {
    match entries.entry(id) {
        Ok(entry) => {
            entry.name.as_bytes() == name.as_bytes()
                && entry.kind == kind
                && are_all(&entry.class, 7)
                && entry.state == 0x0102_0304
                && entry.child == child
                && entry.first == 5
                && entry.size == 4096
        }
        Err(fault) => fault.name() == name,
    }
}

/// Whether these children were found, or refused so.
fn are_found(
    rt: &impl Abort,
    alloc: Global,
    found: Result<Vec<u32>, DirFault>,
    want: &str,
    fault: &str,
) -> bool {
    match found {
        Ok(children) => are_numbers(rt, alloc, &children, want),
        Err(refused) => refused.name() == fault,
    }
}

/// Of the last two, one is free and one isn't there.
fn are_entries(entries: &Entries) -> bool {
    entry_is(entries, 0, "Root Entry", EntryKind::Root, 2)
        && entry_is(entries, 2, "B", EntryKind::Storage, NO_STREAM)
        && entry_is(entries, 4, "BadEntry", EntryKind::Root, 0)
        && entry_is(entries, 5, "BadEntry", EntryKind::Root, 0)
}

/// The root's are marked once they are read.
fn are_children(rt: &impl Abort, alloc: Global, entries: &mut Entries) -> bool {
    are_found(rt, alloc, entries.children(alloc, 0), "2,1,3", "")
        && are_found(rt, alloc, entries.children(alloc, 2), "", "")
        && are_found(rt, alloc, entries.children(alloc, 0), "", "TreeCycle")
}

/// The same where they are read in order.
fn are_in_order(rt: &impl Abort, alloc: Global, entries: &mut Entries) -> bool {
    are_found(rt, alloc, entries.in_order(alloc, 0), "1,2,3", "")
        && are_found(rt, alloc, entries.in_order(alloc, 2), "", "")
        && are_found(rt, alloc, entries.in_order(alloc, 0), "", "TreeCycle")
}

fn entries_in<'a>(rt: &impl Abort, alloc: Global, bytes: &'a [u8]) -> Entries<'a> {
    Entries::load(alloc, bytes).expect(rt, "memory")
}

#[test]
fn entries_are_read(rt: HostRuntime) {
    let bytes = directory(&rt, rt.alloc());
    let mut entries = entries_in(&rt, rt.alloc(), &bytes);
    assert!(rt; are_entries(&entries));
    assert!(rt; are_children(&rt, rt.alloc(), &mut entries));
}

#[test]
fn entries_are_read_in_order(rt: HostRuntime) {
    let bytes = directory(&rt, rt.alloc());
    let mut entries = entries_in(&rt, rt.alloc(), &bytes);
    assert!(rt; are_in_order(&rt, rt.alloc(), &mut entries));
}

/// So many siblings, which is on top, and the left and the right one of each; none is `-`.
const BALANCED: &str = "0 -
2 1 -,0 -,-
5 2 -,0,1,-,3 -,-,4,-,-";

/// The same of siblings with these names.
const BUILT: &str = "aa,c,B,a 1 -,2,3,- -,0,-,-";

fn links_are(
    rt: &impl Abort,
    alloc: Global,
    links: &Links,
    words: &mut SplitWhitespace<'_>,
) -> bool {
    let top = number(word(words));
    let left = word(words);
    links.top == top
        && are_numbers(rt, alloc, &links.left, left)
        && are_numbers(rt, alloc, &links.right, word(words))
}

fn is_balanced(rt: &impl Abort, alloc: Global, row: &str) -> bool {
    let mut words = row.split_whitespace();
    let links = balanced(alloc, number(word(&mut words))).expect(rt, "memory");
    links_are(rt, alloc, &links, &mut words)
}

pub(crate) fn names(rt: &impl Abort, alloc: Global, names: &str) -> Vec<Name> {
    let mut list = Vec::new(alloc);
    for text in names.split(',') {
        list.push(name(rt, text)).expect(rt, "memory");
    }
    list
}

/// The links of siblings with these names.
fn built(alloc: Global, names: &[Name]) -> Result<Links, DirFault> {
    if names.len() > 100 {
        return Err(DirFault::NameTooLong);
    }
    build(alloc, names)
}

fn is_built(rt: &impl Abort, alloc: Global, row: &str) -> bool {
    let mut words = row.split_whitespace();
    let links = built(alloc, &names(rt, alloc, word(&mut words))).expect(rt, "other names");
    links_are(rt, alloc, &links, &mut words)
}

fn is_twice_named(rt: &impl Abort, alloc: Global, list: &str) -> bool {
    match built(alloc, &names(rt, alloc, list)) {
        Ok(_) => false,
        Err(fault) => fault == DirFault::DuplicateName,
    }
}

#[test]
fn siblings_are_linked(rt: HostRuntime) {
    for row in BALANCED.split('\n') {
        assert!(rt; is_balanced(&rt, rt.alloc(), row), "{row}");
    }
    assert!(rt; is_built(&rt, rt.alloc(), BUILT));
    assert!(rt; is_twice_named(&rt, rt.alloc(), "x,y,X"));
}
