//! Trees, as texts of calls with their answers.

use crate::texts::{number, word};
use cfb_names::name::{Name, named};
use std::alloc::Global;
use std::process::Abort;
use tree_storage::fault::TreeFault;
use tree_storage::storage::{Found, Storage, copy};
use tree_storage::tree::Tree;
use tree_values::bytes::Bytes;
use tree_values::class_id::ClassId;

/// Four words a call: the call, a path, an argument and the answer. A point stands for nothing.
const CALLS: &str = "begin . . ok
put A 123 ok
begin . . ok
remove A . ok
get A . NotFound
revert . . ok
get A 123 ok
commit . . ok
commit . . NoTransaction
revert . . NoTransaction
get A 123 ok
new . 0 ok
put A 1 ok
rename A B ok
get B 1 ok
get A . NotFound
put C . ok
rename B c Exists
rename D E NotFound
new . 0 ok
put ab 1 ok
put AB 2 ok
names . ab ok
rename ab Ab ok
names . Ab ok
count . 1 ok
get aB 2 ok
new . 1 ok
make Obj1 2 ok
put Obj1/Text ab ok
get Obj1/Text ab ok
class OBJ1 2 ok
class . 1 ok
put . . WrongKind
make . 0 WrongKind
remove . . WrongKind
rename . E WrongKind
get Obj1/Text/X . WrongKind
put Obj1/Text/X . WrongKind
put Obj1 . WrongKind
put Obj2/Text . NotFound
add Obj1/Text c Exists
add obj1 c Exists
add Obj2/Text c NotFound
add Obj1/Text/X c WrongKind
add . c WrongKind
add Obj1/More c ok
get Obj1/More c ok
get Obj1/Text ab ok
remove Obj2 . NotFound
make obj1 0 Exists
remove Obj1 . ok
get Obj1/Text . NotFound
new . 3 ok
make D 4 ok
put D/A 1 ok
copy D/A 1 ok
begin . . ok
begin . . ok
begin . . ok
begin . . ok
begin . . ok
begin . . ok
begin . . ok
begin . . ok
begin . . TooDeep
commit . . ok
begin . . ok
new . 0 ok
many . 50000 ok
count . 50000 ok
get 49999 49999 ok
begin . . ok
revert . . ok
get 7 7 ok";

pub(crate) fn name(rt: &impl Abort, text: &str) -> Name {
    named(text.as_bytes()).expect(rt, "a name")
}

/// A path of names with slashes between, or the empty one.
pub(crate) fn path(rt: &impl Abort, alloc: Global, text: &str) -> Vec<Name> {
    if text == "." {
        Vec::new(alloc)
    } else {
        names(rt, alloc, text)
    }
}

fn names(rt: &impl Abort, alloc: Global, text: &str) -> Vec<Name> {
    let mut names = Vec::new(alloc);
    for part in text.split('/') {
        names.push(name(rt, part)).expect(rt, "memory");
    }
    names
}

/// The bytes of a text.
pub(crate) fn content(rt: &impl Abort, alloc: Global, text: &str) -> Bytes {
    Bytes::from_slice(alloc, filled(text).as_bytes()).expect(rt, "memory")
}

fn filled(text: &str) -> &str {
    if text == "." { "" } else { text }
}

/// The class that is named by a letter.
pub(crate) fn class(letter: u8) -> ClassId {
    ClassId::from_bytes([letter; 16])
}

pub(crate) fn letter(text: &str) -> u8 {
    match text.as_bytes() {
        [letter, ..] => *letter,
        [] => 0,
    }
}

fn told(answer: Result<(), TreeFault>) -> &'static str {
    match answer {
        Ok(()) => "ok",
        Err(fault) => fault.name(),
    }
}

fn whether(holds: bool) -> &'static str {
    if holds { "ok" } else { "otherwise" }
}

fn put(rt: &impl Abort, alloc: Global, tree: &mut Tree, at: &str, text: &str) -> &'static str {
    told(tree.put_stream(&path(rt, alloc, at), content(rt, alloc, text)))
}

fn add(rt: &impl Abort, alloc: Global, tree: &mut Tree, at: &str, text: &str) -> &'static str {
    told(tree.make_stream(&path(rt, alloc, at), content(rt, alloc, text)))
}

/// The state bits of a storage are the letter of its class.
fn make(rt: &impl Abort, alloc: Global, tree: &mut Tree, at: &str, with: u8) -> &'static str {
    told(tree.make_storage(&path(rt, alloc, at), class(with), u32::from(with)))
}

fn remove(rt: &impl Abort, alloc: Global, tree: &mut Tree, at: &str) -> &'static str {
    told(tree.remove(&path(rt, alloc, at)))
}

fn rename(rt: &impl Abort, alloc: Global, tree: &mut Tree, at: &str, new: &str) -> &'static str {
    told(tree.rename(&path(rt, alloc, at), name(rt, new)))
}

/// Whether the stream at a path of a storage has these bytes.
fn get(rt: &impl Abort, alloc: Global, root: &Storage, at: &str, text: &str) -> &'static str {
    match tree_storage::storage::get(root, &path(rt, alloc, at)) {
        Ok(Found::Stream(bytes)) => whether(bytes.as_slice() == filled(text).as_bytes()),
        Ok(Found::Storage(_)) => "otherwise",
        Err(fault) => fault.name(),
    }
}

/// Whether the storage at a path has this class, and its state bits.
fn is_storage(rt: &impl Abort, alloc: Global, tree: &Tree, at: &str, with: u8) -> &'static str {
    match tree.get(&path(rt, alloc, at)) {
        Ok(Found::Storage(inner)) => whether(has(inner, with)),
        Ok(Found::Stream(_)) => "otherwise",
        Err(fault) => fault.name(),
    }
}

fn has(storage: &Storage, with: u8) -> bool {
    storage.class == class(with) && storage.state == u32::from(with)
}

/// Whether the root's only child is spelled so.
fn is_named(rt: &impl Abort, alloc: Global, tree: &Tree, text: &str) -> bool {
    let names = tree_storage::storage::names(tree.root(), alloc).expect(rt, "memory");
    match names.as_slice() {
        [name] => name.as_bytes() == text.as_bytes(),
        _ => false,
    }
}

/// Whether a copy of the root, taken before its storage `D` goes, has these bytes.
fn copied(rt: &impl Abort, alloc: Global, tree: &mut Tree, at: &str, text: &str) -> &'static str {
    let copy = copy(tree.root(), alloc).expect(rt, "memory");
    let _ = remove(rt, alloc, tree, "D");
    if copy.class != tree.root().class || copy.state != tree.root().state {
        return "otherwise";
    }
    get(rt, alloc, &copy, at, text)
}

/// A tree without children, of this class.
pub(crate) fn fresh(alloc: Global, with: u8) -> Tree {
    Tree::new(alloc, class(with), u32::from(with))
}

fn renew(alloc: Global, tree: &mut Tree, with: u8) -> &'static str {
    *tree = fresh(alloc, with);
    "ok"
}

/// Puts so many streams, each named by its number, with that as its bytes.
fn put_many(rt: &impl Abort, alloc: Global, tree: &mut Tree, count: u32) -> &'static str {
    for number in 0..count {
        let digits = format!(in alloc; "{number}").expect(rt, "memory");
        let _ = put(rt, alloc, tree, digits.as_str(), digits.as_str());
    }
    "ok"
}

fn counts(tree: &Tree, count: u32) -> bool {
    tree.root().children.len() == count as usize
}

fn call(
    rt: &impl Abort,
    alloc: Global,
    tree: &mut Tree,
    call: &str,
    at: &str,
    with: &str,
) -> &'static str {
    match call {
        "new" => renew(alloc, tree, letter(with)),
        "begin" => told(tree.begin()),
        "commit" => told(tree.commit()),
        "revert" => told(tree.revert()),
        "put" => put(rt, alloc, tree, at, with),
        "add" => add(rt, alloc, tree, at, with),
        "make" => make(rt, alloc, tree, at, letter(with)),
        "remove" => remove(rt, alloc, tree, at),
        "rename" => rename(rt, alloc, tree, at, with),
        "get" => get(rt, alloc, tree.root(), at, with),
        "class" => is_storage(rt, alloc, tree, at, letter(with)),
        "names" => whether(is_named(rt, alloc, tree, with)),
        "count" => whether(counts(tree, number(with))),
        "many" => put_many(rt, alloc, tree, number(with)),
        "copy" => copied(rt, alloc, tree, at, with),
        _ => "unknown",
    }
}

/// Whether a call has its answer.
fn answers(rt: &impl Abort, alloc: Global, tree: &mut Tree, row: &str) -> bool {
    let mut words = row.split_whitespace();
    let name = word(&mut words);
    let at = word(&mut words);
    let with = word(&mut words);
    call(rt, alloc, tree, name, at, with) == word(&mut words)
}

#[test]
fn calls_have_their_answers(rt: HostRuntime) {
    let mut tree = fresh(rt.alloc(), 0);
    for row in CALLS.split('\n') {
        assert!(rt; answers(&rt, rt.alloc(), &mut tree, row), "{row}");
    }
}
