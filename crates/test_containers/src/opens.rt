//! Files that are opened. The table is a text as that of containers; `may NAME W H` asks whether a file may be opened
//! under a name, and `open NAME W H FILE` opens one: `image` is what is to be committed for frame 1, `none` no file,
//! `text` no compound file, `many` one whose layout counts 65 objects, and `other` one with an object of a class that
//! no server has; that of `first` is of session 1, and that of `last` of the greatest one. `same N` tells that frames 1
//! and N commit the same file, and `few` is a new container that gives numbers up to 3.

use crate::answers::{is_answered, is_fault};
use crate::containers::tells;
use crate::shown::seen;
use crate::words::{halves, number, word};
use container_core::container::{ContainerCore, Limits};
use container_model::answer::Answer;
use container_model::fault::ContainerFault;
use ole_streams::doc::{Doc, DocObject};
use ole_streams::document_tree::document_tree;
use ole_streams::names;
use std::alloc::Global;
use std::process::Abort;
use std::str::SplitWhitespace;
use store_images::image::Image;
use test_marks::marks::{begin, end};
use tree_storage::tree::Tree;
use tree_streams::area::Area;
use tree_streams::stored::Stored;
use tree_values::bytes::Bytes;
use tree_values::class_id::ClassId;
use write_files::write::write_file;

const ROWS: &str = "new a.ole 12 4 => frame 1
insert 1 note 1 1 5 2 => object 1
insert 1 table 1 1 5 2 => object 2
session => commit 1
done 1 =>
save 1 => commit 1
may a.ole 12 4 => Busy
may b.ole 12 101 => WrongState
may b.ole 12 4 => ok
open a.ole 201 4 none => Busy
open b.ole 201 4 none => WrongState
open b.ole 12 4 none => NoSuch
open b.ole 12 4 text => BadFile
open b.ole 12 4 many => BadFile
numbers => 1 of 1 2
open b.ole 12 4 image => frame 2 object 3
numbers => 1 2 of 1 2 3 4
open b.ole 12 4 image => Busy
save 2 => commit 2
same 2 => yes
done 2 =>
start => server 1 start 1
open c.ole 12 4 other => frame 3 object 5
run 5 1 => UnknownClass
run 3 1 => call 1 InitNew
open d.ole 12 4 image => frame 4 object 6
open e.ole 12 4 image => frame 5 object 8
open f.ole 12 4 image => frame 6 object 10
open g.ole 12 4 image => frame 7 object 12
open h.ole 12 4 image => frame 8 object 14
open i.ole 12 4 image => Full
open i.ole 12 4 text => BadFile
few =>
new a.ole 12 4 => frame 1
insert 1 note 1 1 5 2 => object 1
insert 1 note 1 1 5 2 => object 2
session => commit 1
open b.ole 12 4 image => NumbersSpent
open b.ole 12 4 other => frame 2 object 3
open c.ole 12 4 other => NumbersSpent
anew =>
open a.ole 12 4 first => frame 1 object 1
sessions 1 => 0 1 none 0
start => WrongState
session => commit 1
sessions 1 => 0 1 2 1
open b.ole 12 4 image => frame 2 object 2
sessions 2 => 0 2 none 0
fail 1 =>
resolve 1 lost =>
sessions 1 => 0 1 none 1
session => commit 1
sessions 1 => 0 1 2 2
done 1 =>
sessions 1 => 2 2 none 2
session => WrongState
start => server 1 start 1
anew =>
open a.ole 12 4 last => frame 1 object 1
sessions 1 => 0 4294967295 none 0
session => NumbersSpent
start => WrongState";

fn bytes(rt: &impl Abort, alloc: Global, bytes: &[u8]) -> Bytes {
    Bytes::from_slice(alloc, bytes).expect(rt, "memory")
}

fn written(rt: &impl Abort, alloc: Global, tree: &Tree) -> Vec<u8> {
    write_file(alloc, tree).expect(rt, "a file")
}

/// A file whose layout counts 65 objects.
fn many(rt: &impl Abort, alloc: Global) -> Vec<u8> {
    let mut layout = vec![in alloc; 0; 8 + 65 * 8].expect(rt, "memory");
    layout[0] = 1;
    layout[4] = 65;
    let mut tree = Tree::new(alloc, names::root_class(), 0);
    let layout = Bytes::from_vec(alloc, layout).expect(rt, "memory");
    tree.put_stream(&[names::layout()], layout)
        .expect(rt, "a stream");
    written(rt, alloc, &tree)
}

fn object(rt: &impl Abort, alloc: Global) -> DocObject {
    DocObject {
        class: ClassId::from_bytes([7; 16]),
        user_type: bytes(rt, alloc, b"Other"),
        area: Area {
            x: 1,
            y: 1,
            w: 5,
            h: 2,
        },
        stored: Stored::new(alloc),
    }
}

/// A file of this session with an object of a class that no server has.
fn other(rt: &impl Abort, alloc: Global, session: u32) -> Vec<u8> {
    let mut doc = Doc::new(alloc, session);
    doc.push(object(rt, alloc)).expect(rt, "an object");
    let tree = document_tree(alloc, doc).expect(rt, "memory");
    written(rt, alloc, &tree)
}

fn image(rt: &impl Abort, alloc: Global, core: &ContainerCore, f: u32) -> Image {
    core.image(alloc, f).expect(rt, "an image")
}

fn image_file(rt: &impl Abort, alloc: Global, core: &ContainerCore) -> Vec<u8> {
    Vec::from_slice(alloc, image(rt, alloc, core, 1).bytes()).expect(rt, "memory")
}

fn text(rt: &impl Abort, alloc: Global) -> Vec<u8> {
    vec![in alloc; 7; 600].expect(rt, "memory")
}

fn file(rt: &impl Abort, alloc: Global, core: &ContainerCore, word: &str) -> Option<Vec<u8>> {
    match word.as_bytes() {
        [b'i', ..] => Some(image_file(rt, alloc, core)),
        [b't', ..] => Some(text(rt, alloc)),
        [b'm', ..] => Some(many(rt, alloc)),
        [b'o', ..] => Some(other(rt, alloc, 0)),
        [b'f', ..] => Some(other(rt, alloc, 1)),
        [b'l', ..] => Some(other(rt, alloc, u32::MAX)),
        _ => None,
    }
}

fn opened_once(
    alloc: Global,
    core: &mut ContainerCore,
    name: Bytes,
    size: (u16, u16),
    file: Option<&[u8]>,
) -> Result<Answer, ContainerFault> {
    begin(alloc);
    let answer = core.open_file(alloc, name, size.0, size.1, file);
    end(alloc);
    answer
}

/// What a container answers to a file that is opened. Where memory is refused, the container is as before, and opens it
/// again.
fn opened_as(
    rt: &impl Abort,
    alloc: Global,
    core: &mut ContainerCore,
    name: &str,
    size: (u16, u16),
    file: Option<&[u8]>,
) -> Result<Answer, ContainerFault> {
    let before = seen(rt, alloc, core);
    match opened_once(alloc, core, bytes(rt, alloc, name.as_bytes()), size, file) {
        Err(ContainerFault::NoMemory) => {
            assert!(rt; seen(rt, alloc, core) == before);
            opened_once(alloc, core, bytes(rt, alloc, name.as_bytes()), size, file)
        }
        answer => answer,
    }
}

fn size(word: &str) -> u16 {
    u16::try_from(number(word)).unwrap_or(u16::MAX)
}

fn opened(
    rt: &impl Abort,
    alloc: Global,
    core: &mut ContainerCore,
    words: &mut SplitWhitespace<'_>,
) -> Result<Answer, ContainerFault> {
    let name = word(words);
    let cells = (size(word(words)), size(word(words)));
    match file(rt, alloc, core, word(words)) {
        Some(file) => opened_as(rt, alloc, core, name, cells, Some(file.as_slice())),
        None => opened_as(rt, alloc, core, name, cells, None),
    }
}

fn may_be_opened(
    core: &ContainerCore,
    words: &mut SplitWhitespace<'_>,
) -> Result<(), ContainerFault> {
    let name = word(words);
    let (w, h) = (size(word(words)), size(word(words)));
    core.may_open(name.as_bytes(), w, h)
}

fn may(
    core: &ContainerCore,
    row: &mut SplitWhitespace<'_>,
    want: &mut SplitWhitespace<'_>,
) -> bool {
    match may_be_opened(core, row) {
        Ok(()) => word(want) == "ok",
        Err(fault) => is_fault(fault, want),
    }
}

fn same(
    rt: &impl Abort,
    alloc: Global,
    core: &ContainerCore,
    row: &mut SplitWhitespace<'_>,
    want: &mut SplitWhitespace<'_>,
) -> bool {
    let other = image(rt, alloc, core, number(word(row)));
    word(want) == "yes" && image(rt, alloc, core, 1).bytes() == other.bytes()
}

fn renew(alloc: Global, core: &mut ContainerCore) -> bool {
    *core = ContainerCore::new(alloc, Limits { numbers: 3 });
    true
}

fn opens(
    rt: &impl Abort,
    alloc: Global,
    core: &mut ContainerCore,
    row: &str,
    want: &mut SplitWhitespace<'_>,
) -> bool {
    let mut words = row.split_whitespace();
    match word(&mut words).as_bytes() {
        [b'o', ..] => is_answered(opened(rt, alloc, core, &mut words), want),
        [b'm', ..] => may(core, &mut words, want),
        [b's', b'a', b'm', ..] => same(rt, alloc, core, &mut words, want),
        [b'f', b'e', ..] => renew(alloc, core),
        _ => tells(rt, alloc, core, row, want),
    }
}

fn answers(rt: &impl Abort, alloc: Global, core: &mut ContainerCore, row: &str) -> bool {
    let (row, want) = halves(row, " =>");
    let mut words = want.split_whitespace();
    opens(rt, alloc, core, row, &mut words) && word(&mut words).is_empty()
}

#[test]
fn containers_open_files(rt: HostRuntime) {
    let mut core = ContainerCore::new(rt.alloc(), Limits { numbers: 100 });
    for row in ROWS.split('\n') {
        assert!(rt; answers(&rt, rt.alloc(), &mut core, row), "{row}");
    }
}
