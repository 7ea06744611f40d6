//! Sectors, directories, trees, streams and files to which memory is refused: `tests/refused_memory` refuses one
//! request after another. What was refused is as before, and is asked again.

use crate::chains::{self, header_of};
use crate::directories::{directory, fields, names};
use crate::reading::{FILE, first_size, is_read};
use crate::texts::{are_numbers, are_spelled, spelled, word};
use crate::trees::{class, content, fresh, letter, name, path};
use cfb_file::fault::WriteFault;
use cfb_header::fault::ChainFault;
use cfb_header::header::Header;
use cfb_names::fault::DirFault;
use cfb_names::name::Name;
use read_chains::fat::Fat;
use read_chains::image::Image;
use read_directories::entries::{Entries, EntryKind, NO_STREAM};
use read_files::fault::{ReadFault, StreamFault};
use read_files::read::{read_file, read_outline, read_placed};
use read_outlines::outline::Outline;
use read_queries::queries::{is_file_of, read_stream};
use read_source::fault::PlacesFault;
use read_source::reading::{Catalog, read_catalog};
use std::alloc::{AllocError, Global};
use std::process::Abort;
use test_marks::marks::{begin, end};
use tree_storage::fault::TreeFault;
use tree_storage::tree::Tree;
use tree_streams::fault::StreamsFault;
use tree_streams::stored::Stored;
use tree_streams::streams::{NamedStream, Streams};
use tree_values::bytes::Bytes;
use tree_values::class_id::ClassId;
use write_directory::links::{Links, build};
use write_directory::write::write_entry;
use write_files::sending::{SendFault, send_file};
use write_files::write::write_file;

// ---- trees

/// Three words a call: the call, a path and an argument. A point stands for nothing.
const CALLS: &str = "put A 123
begin . .
remove A .
put B 45
revert . .
make Obj1 2
add Obj1/Text ab
put Obj1/Text abcd
begin . .
make obj1/Inner 3
put OBJ1/inner/Deep x
rename Obj1/Text Other
begin . .
rename A C
put D .
remove Obj1 .
revert . .
commit . .
put E 1
put F 2
put G 3
put H 4
put I 5
put J 6
put K 7
put L 8
put M 9
put N 10
put O 11
put P 12
remove F .
remove I .
remove M .";

/// Calls that make the same tree.
const SHORTER: &str = "put A 123
make Obj1 2
make Obj1/Inner 3
put Obj1/Inner/Deep x
put Obj1/Other abcd
put P 12
put O 11
put N 10
put L 8
put K 7
put J 6
put H 4
put G 3
put E 1";

fn put_once(alloc: Global, tree: &mut Tree, path: &[Name], bytes: Bytes) -> Result<(), TreeFault> {
    begin(alloc);
    let answer = tree.put_stream(path, bytes);
    end(alloc);
    answer
}

fn add_once(alloc: Global, tree: &mut Tree, path: &[Name], bytes: Bytes) -> Result<(), TreeFault> {
    begin(alloc);
    let answer = tree.make_stream(path, bytes);
    end(alloc);
    answer
}

fn make_once(
    alloc: Global,
    tree: &mut Tree,
    path: &[Name],
    class: ClassId,
) -> Result<(), TreeFault> {
    begin(alloc);
    let answer = tree.make_storage(path, class, 7);
    end(alloc);
    answer
}

fn remove_once(alloc: Global, tree: &mut Tree, path: &[Name]) -> Result<(), TreeFault> {
    begin(alloc);
    let answer = tree.remove(path);
    end(alloc);
    answer
}

fn rename_once(alloc: Global, tree: &mut Tree, path: &[Name], new: Name) -> Result<(), TreeFault> {
    begin(alloc);
    let answer = tree.rename(path, new);
    end(alloc);
    answer
}

fn begin_once(alloc: Global, tree: &mut Tree) -> Result<(), TreeFault> {
    begin(alloc);
    let answer = tree.begin();
    end(alloc);
    answer
}

/// The answer of a call.
fn answer(
    rt: &impl Abort,
    alloc: Global,
    tree: &mut Tree,
    call: &str,
    at: &str,
    with: &str,
) -> Result<(), TreeFault> {
    let path = path(rt, alloc, at);
    match call {
        "put" => put_once(alloc, tree, &path, content(rt, alloc, with)),
        "add" => add_once(alloc, tree, &path, content(rt, alloc, with)),
        "make" => make_once(alloc, tree, &path, class(letter(with))),
        "remove" => remove_once(alloc, tree, &path),
        "rename" => rename_once(alloc, tree, &path, name(rt, with)),
        "begin" => begin_once(alloc, tree),
        "revert" => tree.revert(),
        _ => tree.commit(),
    }
}

/// The file of a tree, which shows all of it.
fn shown(rt: &impl Abort, alloc: Global, tree: &Tree) -> Vec<u8> {
    write_file(alloc, tree).expect(rt, "a file")
}

/// Carries out the call of a row. Where memory is refused, the tree is as before, and the call is made again.
fn carry_out(rt: &impl Abort, alloc: Global, tree: &mut Tree, row: &str) {
    let before = shown(rt, alloc, tree);
    let mut words = row.split_whitespace();
    let call = word(&mut words);
    let at = word(&mut words);
    let with = word(&mut words);
    match answer(rt, alloc, tree, call, at, with) {
        Err(TreeFault::NoMemory) => {
            assert!(rt; shown(rt, alloc, tree) == before);
            answer(rt, alloc, tree, call, at, with).expect(rt, "memory");
        }
        told => told.expect(rt, "a call that can be done"),
    }
}

/// The tree of some calls.
fn tree_of(rt: &impl Abort, alloc: Global, calls: &str) -> Tree {
    let mut tree = fresh(alloc, 7);
    for row in calls.split('\n') {
        carry_out(rt, alloc, &mut tree, row);
    }
    tree
}

#[test]
fn a_refused_call_of_a_tree_is_made_again(rt: HostRuntime) {
    let alloc = rt.alloc();
    let tree = tree_of(&rt, alloc, CALLS);
    let other = tree_of(&rt, alloc, SHORTER);
    assert!(rt; shown(&rt, alloc, &tree) == shown(&rt, alloc, &other));
}

fn names_once(alloc: Global, tree: &Tree) -> Result<Vec<Name>, AllocError> {
    begin(alloc);
    let names = tree_storage::storage::names(tree.root(), alloc);
    end(alloc);
    names
}

/// How many children the root has, by their names.
fn count_names(rt: &impl Abort, alloc: Global, tree: &Tree) -> usize {
    match names_once(alloc, tree) {
        Ok(names) => names.len(),
        Err(_) => names_once(alloc, tree).expect(rt, "memory").len(),
    }
}

#[test]
fn refused_names_are_asked_for_again(rt: HostRuntime) {
    let alloc = rt.alloc();
    let tree = tree_of(&rt, alloc, SHORTER);
    assert!(rt; count_names(&rt, alloc, &tree) == 11);
}

// ---- lists of streams

fn push_once(
    alloc: Global,
    streams: &mut Streams,
    stream: NamedStream,
) -> Result<(), StreamsFault> {
    begin(alloc);
    let answer = streams.push(stream);
    end(alloc);
    answer
}

fn named(rt: &impl Abort, alloc: Global, text: &str) -> NamedStream {
    NamedStream {
        name: name(rt, text),
        bytes: content(rt, alloc, text),
    }
}

/// Puts a stream to the end, whose bytes are its name. Where memory is refused, there is none more, and it is put
/// again.
fn push(rt: &impl Abort, alloc: Global, streams: &mut Streams, text: &str) {
    let count = streams.len();
    match push_once(alloc, streams, named(rt, alloc, text)) {
        Err(StreamsFault::NoMemory) => {
            assert!(rt; streams.len() == count);
            push_once(alloc, streams, named(rt, alloc, text)).expect(rt, "memory");
        }
        told => told.expect(rt, "a name in order"),
    }
}

fn copy_once(alloc: Global, stored: &Stored) -> Result<Stored, AllocError> {
    begin(alloc);
    let copy = stored.copy(alloc);
    end(alloc);
    copy
}

/// An equal value.
fn copied(rt: &impl Abort, alloc: Global, stored: &Stored) -> Stored {
    match copy_once(alloc, stored) {
        Ok(copy) => copy,
        Err(_) => copy_once(alloc, stored).expect(rt, "memory"),
    }
}

/// Whether each of these streams is there, with its name as its bytes, and no other.
fn are_held(rt: &impl Abort, streams: &Streams, texts: &str) -> bool {
    let mut count = 0;
    for text in texts.split(' ') {
        match streams.get(&name(rt, text)) {
            Some(bytes) if bytes.as_slice() == text.as_bytes() => count = usize::saturating_add(
                count, 1,
            ),
            _ => return false,
        }
    }
    streams.len() == count
}

#[test]
fn a_refused_stream_is_put_and_copied_again(rt: HostRuntime) {
    let alloc = rt.alloc();
    let texts = "A B C D E F G H I";
    let mut stored = Stored::new(alloc);
    for text in texts.split(' ') {
        push(&rt, alloc, &mut stored.streams, text);
    }
    stored.picture = content(&rt, alloc, "the picture");
    let copy = copied(&rt, alloc, &stored);
    assert!(rt; are_held(&rt, &stored.streams, texts));
    assert!(rt; are_held(&rt, &copy.streams, texts));
    assert!(rt; copy.picture.as_slice() == b"the picture".as_slice());
}

// ---- sectors

fn load_once<'a>(alloc: Global, header: &Header, file: &'a [u8]) -> Result<Fat<'a>, ChainFault> {
    begin(alloc);
    let fat = Fat::load(alloc, header, Image::Whole(file));
    end(alloc);
    fat
}

/// The table of a file.
fn loaded<'a>(rt: &impl Abort, alloc: Global, header: &Header, file: &'a [u8]) -> Fat<'a> {
    match load_once(alloc, header, file) {
        Err(ChainFault::NoMemory) => load_once(alloc, header, file).expect(rt, "a table"),
        fat => fat.expect(rt, "a whole table"),
    }
}

fn chain_once(alloc: Global, fat: &mut Fat<'_>, start: u32) -> Result<Vec<u32>, ChainFault> {
    begin(alloc);
    let sectors = fat.chain(alloc, start);
    end(alloc);
    sectors
}

/// The sectors of a chain. Where memory is refused none is marked, or they weren't found again.
fn chained(rt: &impl Abort, alloc: Global, fat: &mut Fat<'_>, start: u32) -> Vec<u32> {
    match chain_once(alloc, fat, start) {
        Err(ChainFault::NoMemory) => chain_once(alloc, fat, start).expect(rt, "a chain"),
        sectors => sectors.expect(rt, "a whole chain"),
    }
}

/// The bytes of the chain from a sector on.
fn joined(rt: &impl Abort, alloc: Global, fat: &mut Fat<'_>, start: u32) -> Vec<u8> {
    let sectors = fat.chain(alloc, start).expect(rt, "a chain");
    begin(alloc);
    let bytes = fat.join(alloc, &sectors);
    end(alloc);
    match bytes {
        Ok(bytes) => bytes,
        Err(_) => fat.join(alloc, &sectors).expect(rt, "memory"),
    }
}

fn hold_once(alloc: Global, fat: &Fat<'_>, start: u32, len: u32) -> Result<Vec<u8>, AllocError> {
    begin(alloc);
    let bytes = fat.held(alloc, start, len);
    end(alloc);
    bytes
}

/// The first bytes of a chain.
fn held(rt: &impl Abort, alloc: Global, fat: &Fat<'_>, start: u32, len: u32) -> Vec<u8> {
    match hold_once(alloc, fat, start, len) {
        Ok(bytes) => bytes,
        Err(_) => hold_once(alloc, fat, start, len).expect(rt, "memory"),
    }
}

fn compare_once(
    alloc: Global,
    fat: &Fat<'_>,
    start: u32,
    bytes: &[u8],
) -> Result<bool, AllocError> {
    begin(alloc);
    let same = fat.holds(alloc, start, bytes);
    end(alloc);
    same
}

/// Whether these are the first bytes of a chain.
fn holds(rt: &impl Abort, alloc: Global, fat: &Fat<'_>, start: u32, bytes: &[u8]) -> bool {
    match compare_once(alloc, fat, start, bytes) {
        Ok(same) => same,
        Err(_) => compare_once(alloc, fat, start, bytes).expect(rt, "memory"),
    }
}

/// Whether a table has a chain of two sectors that aren't in a row, and one of which 513 bytes are held.
fn is_linked(rt: &impl Abort, alloc: Global, fat: &mut Fat<'_>, bytes: &[u8]) -> bool {
    let sectors = chained(rt, alloc, fat, 1);
    fat.mark_chain(7, 513).expect(rt, "a chain");
    let first = held(rt, alloc, fat, 7, 513);
    are_numbers(rt, alloc, &sectors, "1,8")
        && are_spelled(rt, alloc, bytes, "512*01,12*08,500*00")
        && are_spelled(rt, alloc, &first, "512*07,02")
        && holds(rt, alloc, fat, 7, &first)
        && !holds(rt, alloc, fat, 7, bytes)
}

#[test]
fn a_refused_chain_is_followed_again(rt: HostRuntime) {
    let alloc = rt.alloc();
    let file = chains::file_of(&rt, alloc, chains::LINKED);
    let header = header_of(&rt, &file);
    let bytes = joined(&rt, alloc, &mut loaded(&rt, alloc, &header, &file), 1);
    let mut fat = loaded(&rt, alloc, &header, &file);
    assert!(rt; is_linked(&rt, alloc, &mut fat, &bytes));
}

fn mini_once<'a>(alloc: Global, fat: &mut Fat<'a>, header: &Header) -> Result<Fat<'a>, ChainFault> {
    begin(alloc);
    let mini = fat.mini(alloc, header, 2, 640);
    end(alloc);
    mini
}

/// The table of the mini stream. Where memory is refused, no sector is marked, or it weren't found again.
fn mini<'a>(rt: &impl Abort, alloc: Global, fat: &mut Fat<'a>, header: &Header) -> Fat<'a> {
    match mini_once(alloc, fat, header) {
        Err(ChainFault::NoMemory) => mini_once(alloc, fat, header).expect(rt, "a mini stream"),
        mini => mini.expect(rt, "a whole mini stream"),
    }
}

#[test]
fn a_refused_mini_stream_is_read_again(rt: HostRuntime) {
    let alloc = rt.alloc();
    let file = chains::file_of(&rt, alloc, chains::MINI);
    let header = header_of(&rt, &file);
    let mut fat = loaded(&rt, alloc, &header, &file);
    let mini = mini(&rt, alloc, &mut fat, &header);
    let bytes = held(&rt, alloc, &mini, 0, 100);
    assert!(rt; are_spelled(&rt, alloc, &bytes, "100*02"));
}

// ---- directories

fn entries_once<'a>(alloc: Global, directory: &'a [u8]) -> Result<Entries<'a>, DirFault> {
    begin(alloc);
    let entries = Entries::load(alloc, directory);
    end(alloc);
    entries
}

/// The entries of a directory.
fn entries_of<'a>(rt: &impl Abort, alloc: Global, directory: &'a [u8]) -> Entries<'a> {
    match entries_once(alloc, directory) {
        Err(DirFault::NoMemory) => entries_once(alloc, directory).expect(rt, "entries"),
        entries => entries.expect(rt, "a root"),
    }
}

fn children_once(
    alloc: Global,
    entries: &mut Entries<'_>,
    in_order: bool,
) -> Result<Vec<u32>, DirFault> {
    begin(alloc);
    let children = if in_order {
        entries.in_order(alloc, 0)
    } else {
        entries.children(alloc, 0)
    };
    end(alloc);
    children
}

/// The children of the root. Where memory is refused none is marked, or they weren't found again.
fn children(rt: &impl Abort, alloc: Global, entries: &mut Entries<'_>, in_order: bool) -> Vec<u32> {
    match children_once(alloc, entries, in_order) {
        Err(DirFault::NoMemory) => {
            children_once(alloc, entries, in_order).expect(rt, "children")
        }
        children => children.expect(rt, "a tree of entries"),
    }
}

/// Whether the root of a directory has these children.
fn has_children(
    rt: &impl Abort,
    alloc: Global,
    directory: &[u8],
    in_order: bool,
    want: &str,
) -> bool {
    let mut entries = entries_of(rt, alloc, directory);
    let found = children(rt, alloc, &mut entries, in_order);
    are_numbers(rt, alloc, &found, want)
}

#[test]
fn a_refused_directory_is_read_again(rt: HostRuntime) {
    let alloc = rt.alloc();
    let bytes = directory(&rt, alloc);
    assert!(rt; has_children(&rt, alloc, &bytes, false, "2,1,3"));
    assert!(rt; has_children(&rt, alloc, &bytes, true, "1,2,3"));
}

fn build_once(alloc: Global, names: &[Name]) -> Result<Links, DirFault> {
    if names.len() > 100 {
        return Err(DirFault::NameTooLong);
    }
    begin(alloc);
    let links = build(alloc, names);
    end(alloc);
    links
}

/// The links of siblings with these names.
fn linked(rt: &impl Abort, alloc: Global, names: &[Name]) -> Links {
    match build_once(alloc, names) {
        Err(DirFault::NoMemory) => build_once(alloc, names).expect(rt, "links"),
        links => links.expect(rt, "other names"),
    }
}

fn write_once(out: &mut Vec<u8>, alloc: Global) -> Result<(), AllocError> {
    let root = fields(EntryKind::Root, NO_STREAM, NO_STREAM, 1);
    begin(alloc);
    let written = write_entry(out, b"Root Entry".as_slice(), &root);
    end(alloc);
    written
}

/// An entry, written into a new list where memory is refused: what a refused write left in its list isn't told.
fn written(rt: &impl Abort, alloc: Global) -> Vec<u8> {
    let mut out = Vec::new(alloc);
    if write_once(&mut out, alloc).is_ok() {
        return out;
    }
    let mut again = Vec::new(alloc);
    write_once(&mut again, alloc).expect(rt, "memory");
    again
}

#[test]
fn refused_siblings_are_linked_again(rt: HostRuntime) {
    let alloc = rt.alloc();
    let links = linked(&rt, alloc, &names(&rt, alloc, "aa,c,B,a"));
    assert!(rt; links.top == 1 && are_numbers(&rt, alloc, &links.left, "-,2,3,-"));
    assert!(rt; are_numbers(&rt, alloc, &links.right, "-,0,-,-"));
    assert!(rt; written(&rt, alloc).len() == 128);
}

// ---- files

fn read_once(alloc: Global, file: &[u8]) -> Result<Tree, ReadFault> {
    begin(alloc);
    let tree = read_file(alloc, file);
    end(alloc);
    tree
}

/// The tree of a file.
fn read(rt: &impl Abort, alloc: Global, file: &[u8]) -> Tree {
    match read_once(alloc, file) {
        Err(ReadFault::NoMemory) => read_once(alloc, file).expect(rt, "a tree"),
        tree => tree.expect(rt, "a whole file"),
    }
}

fn outline_once(alloc: Global, file: &[u8]) -> Result<Outline, ReadFault> {
    begin(alloc);
    let outline = read_outline(alloc, file);
    end(alloc);
    outline
}

/// The outline of a file.
fn outlined(rt: &impl Abort, alloc: Global, file: &[u8]) -> Outline {
    match outline_once(alloc, file) {
        Err(ReadFault::NoMemory) => outline_once(alloc, file).expect(rt, "an outline"),
        outline => outline.expect(rt, "a whole file"),
    }
}

fn find_once(alloc: Global, file: &[u8], path: &[Name]) -> Result<Vec<u8>, StreamFault> {
    begin(alloc);
    let bytes = read_stream(alloc, file, path);
    end(alloc);
    bytes
}

/// The bytes of the stream at a path of a file.
fn found(rt: &impl Abort, alloc: Global, file: &[u8], path: &[Name]) -> Vec<u8> {
    match find_once(alloc, file, path) {
        Err(StreamFault::Read(ReadFault::NoMemory)) => {
            find_once(alloc, file, path).expect(rt, "a stream")
        }
        bytes => bytes.expect(rt, "a path to a stream"),
    }
}

fn ask_once(alloc: Global, file: &[u8], tree: &Tree) -> Result<bool, ReadFault> {
    begin(alloc);
    let is = is_file_of(alloc, file, tree);
    end(alloc);
    is
}

/// Whether a file denotes a tree.
fn denotes(rt: &impl Abort, alloc: Global, file: &[u8], tree: &Tree) -> bool {
    match ask_once(alloc, file, tree) {
        Err(ReadFault::NoMemory) => ask_once(alloc, file, tree).expect(rt, "memory"),
        is => is.expect(rt, "a whole file"),
    }
}

#[test]
fn a_refused_file_is_read_again(rt: HostRuntime) {
    let alloc = rt.alloc();
    let file = spelled(&rt, alloc, FILE);
    let tree = read(&rt, alloc, &file);
    let outline = outlined(&rt, alloc, &file);
    let bytes = found(&rt, alloc, &file, &path(&rt, alloc, "a"));
    assert!(rt; is_read(&tree, name(&rt, "A")));
    assert!(rt; first_size(&outline) == Some(3));
    assert!(rt; bytes.as_slice() == b"\x01\x02\x03".as_slice());
    assert!(rt; denotes(&rt, alloc, &file, &tree));
    assert!(rt; !denotes(&rt, alloc, &file, &fresh(alloc, 7)));
}

fn catalog_once(alloc: Global, file: &[u8]) -> Result<Catalog, PlacesFault> {
    let mut source = file;
    begin(alloc);
    let catalog = read_catalog(alloc, &mut source);
    end(alloc);
    catalog
}

/// Whether the places of a file are read that its listing needs, the second time where memory is refused.
fn is_cataloged(alloc: Global, file: &[u8]) -> bool {
    match catalog_once(alloc, file) {
        Err(PlacesFault::NoMemory) => catalog_once(alloc, file).is_ok(),
        catalog => catalog.is_ok(),
    }
}

/// The outline of a file by its places.
fn placed(rt: &impl Abort, alloc: Global, file: &[u8]) -> Outline {
    let mut source = file;
    let catalog = read_catalog(alloc, &mut source).expect(rt, "places");
    begin(alloc);
    let outline = read_placed(alloc, &catalog.header, &catalog.file);
    end(alloc);
    match outline {
        Err(ReadFault::NoMemory) => {
            read_placed(alloc, &catalog.header, &catalog.file).expect(rt, "an outline")
        }
        outline => outline.expect(rt, "a whole file"),
    }
}

#[test]
fn refused_places_are_read_again(rt: HostRuntime) {
    let alloc = rt.alloc();
    let file = spelled(&rt, alloc, FILE);
    assert!(rt; is_cataloged(alloc, &file));
    let outline = placed(&rt, alloc, &file);
    assert!(rt; first_size(&outline) == Some(3));
}

fn lay_once(alloc: Global, tree: &Tree) -> Result<Vec<u8>, WriteFault> {
    begin(alloc);
    let file = write_file(alloc, tree);
    end(alloc);
    file
}

/// The file of a tree.
fn laid(rt: &impl Abort, alloc: Global, tree: &Tree) -> Vec<u8> {
    match lay_once(alloc, tree) {
        Err(WriteFault::NoMemory) => lay_once(alloc, tree).expect(rt, "a file"),
        file => file.expect(rt, "a tree that fits"),
    }
}

/// Sends the file of a tree to a writer with room for all of it.
fn send_once(
    rt: &impl Abort,
    alloc: Global,
    tree: &Tree,
    out: &mut Vec<u8>,
) -> Result<usize, SendFault> {
    out.reserve(16_384).expect(rt, "memory");
    begin(alloc);
    let sent = send_file(alloc, tree.root(), out);
    end(alloc);
    sent
}

/// What is sent of a tree. Where memory is refused nothing is sent, and it is sent again.
fn sent(rt: &impl Abort, alloc: Global, tree: &Tree) -> Vec<u8> {
    let mut out = Vec::new(alloc);
    match send_once(rt, alloc, tree, &mut out) {
        Err(SendFault::Write(WriteFault::NoMemory)) => {
            assert!(rt; out.is_empty());
            send_once(rt, alloc, tree, &mut out).expect(rt, "a file");
        }
        count => assert!(rt; count.expect(rt, "a tree that fits") == out.len()),
    }
    out
}

#[test]
fn a_refused_file_is_written_again(rt: HostRuntime) {
    let alloc = rt.alloc();
    let mut tree = tree_of(&rt, alloc, SHORTER);
    let long = vec![in alloc; 7; 5000].expect(&rt, "memory");
    let bytes = Bytes::from_vec(alloc, long).expect(&rt, "memory");
    tree.put_stream(&path(&rt, alloc, "Obj1/Long"), bytes)
        .expect(&rt, "a free name");
    let file = laid(&rt, alloc, &tree);
    assert!(rt; file == sent(&rt, alloc, &tree));
    assert!(rt; denotes(&rt, alloc, &file, &tree));
    assert!(rt; shown(&rt, alloc, &read(&rt, alloc, &file)) == file);
}
