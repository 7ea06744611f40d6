//! The images of frames' files: a save goes into the sectors of the committed one.

use crate::containers::tells;
use crate::words::{halves, word};
use cfb_names::name::named;
use container_core::container::{ContainerCore, Limits};
use ole_streams::doc::{Doc, DocObject};
use ole_streams::document_tree::document_tree;
use read_files::read::read_file;
use std::alloc::Global;
use std::process::Abort;
use store_images::changed::changed;
use store_images::image::Image;
use tree_storage::tree::Tree;
use tree_streams::area::Area;
use tree_streams::stored::Stored;
use tree_streams::streams::NamedStream;
use tree_values::bytes::Bytes;
use tree_values::class_id::ClassId;
use write_files::write::write_file;

/// How many bytes an object's stream has: eight sectors and a part of one.
const LONG: usize = 4_100;

/// What the stream of the object is made of that goes.
const GONE: u8 = 0x91;

fn bytes(rt: &impl Abort, alloc: Global, len: usize, byte: u8) -> Bytes {
    let bytes = vec![in alloc; byte; len].expect(rt, "memory");
    Bytes::from_vec(alloc, bytes).expect(rt, "memory")
}

/// A content of one stream of this byte.
fn content(rt: &impl Abort, alloc: Global, byte: u8) -> Stored {
    let mut stored = Stored::new(alloc);
    let stream = NamedStream {
        name: named(b"Data").expect(rt, "a name"),
        bytes: bytes(rt, alloc, LONG, byte),
    };
    stored.streams.push(stream).expect(rt, "a stream");
    stored
}

fn object(rt: &impl Abort, alloc: Global, byte: u8) -> DocObject {
    DocObject {
        class: ClassId::from_bytes([7; 16]),
        user_type: bytes(rt, alloc, 5, b'x'),
        area: Area {
            x: 1,
            y: 1,
            w: 5,
            h: 2,
        },
        stored: content(rt, alloc, byte),
    }
}

/// The tree of a document of session 1, with an object of each of these bytes.
fn tree(rt: &impl Abort, alloc: Global, objects: &[u8]) -> Tree {
    let mut doc = Doc::new(alloc, 1);
    for byte in objects {
        doc.push(object(rt, alloc, *byte)).expect(rt, "an object");
    }
    document_tree(alloc, doc).expect(rt, "memory")
}

/// A container with a frame whose file has an object of each of these bytes.
fn opened(rt: &impl Abort, alloc: Global, objects: &[u8]) -> ContainerCore {
    let mut core = ContainerCore::new(alloc, Limits { numbers: 100 });
    let file = write_file(alloc, &tree(rt, alloc, objects)).expect(rt, "a file");
    let _ = core
        .open_file(
            alloc,
            bytes(rt, alloc, 1, b'a'),
            12,
            4,
            Some(file.as_slice()),
        )
        .expect(rt, "a frame");
    core
}

/// Tells a container these rows, and looks at what it answers.
fn told(rt: &impl Abort, alloc: Global, core: &mut ContainerCore, rows: &str) {
    for row in rows.split('\n') {
        let (row, want) = halves(row, " =>");
        let mut words = want.split_whitespace();
        assert!(rt;
            tells(rt, alloc, core, row, &mut words) && word(&mut words).is_empty(),
            "{row}"
        );
    }
}

fn image(rt: &impl Abort, alloc: Global, core: &ContainerCore) -> Image {
    core.image(alloc, 1).expect(rt, "an image")
}

/// How many blocks of 512 bytes of an image differ from those of an older one.
fn count(rt: &impl Abort, alloc: Global, old: &Image, new: &Image) -> usize {
    let now = new.bytes();
    assert!(rt; now.len() <= 73_728_512);
    changed(alloc, old.bytes(), now).expect(rt, "memory").len()
}

/// Whether an image is as its tree is laid out anew.
fn is_anew(rt: &impl Abort, alloc: Global, image: &Image) -> bool {
    let tree = read_file(alloc, image.bytes()).expect(rt, "a tree");
    write_file(alloc, &tree).expect(rt, "a file").as_slice() == image.bytes()
}

/// Whether two bytes in a row are this one.
fn is_there(image: &Image, byte: u8) -> bool {
    let mut before = 0;
    for at in image.bytes() {
        if *at == byte && before == byte {
            return true;
        }
        before = *at;
    }
    false
}

/// Counts the commit of frame 1 with its image, which is given.
fn counted(rt: &impl Abort, alloc: Global, core: &mut ContainerCore) -> Image {
    let image = image(rt, alloc, core);
    let copy = image.copy(alloc).expect(rt, "memory");
    core.put_image(1, image);
    told(rt, alloc, core, "done 1 =>");
    copy
}

#[test]
fn a_save_goes_into_the_sectors_of_the_opened_file(rt: HostRuntime) {
    let alloc = rt.alloc();
    let tree = tree(&rt, alloc, &[1, GONE, 3]);
    let file = Image::made(alloc, &tree).expect(&rt, "an image");
    let mut core = opened(&rt, alloc, &[1, GONE, 3]);
    told(&rt, alloc, &mut core, "session => commit 1");
    // The session is raised: one block of the mini stream says it.
    let first = counted(&rt, alloc, &mut core);
    assert_eq!(rt; count(&rt, alloc, &file, &first), 1);
    told(&rt, alloc, &mut core, "delete 2 =>\nsave 1 => commit 1");
    let second = counted(&rt, alloc, &mut core);
    // Nine sectors are freed; the stream behind them, of nine too, stays where it is.
    let blocks = count(&rt, alloc, &first, &second);
    assert!(rt; blocks < 20, "{blocks}");
    assert!(rt; is_there(&first, GONE) && !is_there(&second, GONE));
    assert!(rt; !is_anew(&rt, alloc, &second));
}

#[test]
fn a_lost_save_leaves_the_committed_image(rt: HostRuntime) {
    let alloc = rt.alloc();
    let mut core = opened(&rt, alloc, &[1, GONE, 3]);
    told(&rt, alloc, &mut core, "session => commit 1");
    let first = counted(&rt, alloc, &mut core);
    told(&rt, alloc, &mut core, "delete 2 =>\nsave 1 => commit 1");
    let second = image(&rt, alloc, &core);
    let other = Image::made(alloc, &tree(&rt, alloc, &[5, 6, 7, 8, 9])).expect(&rt, "an image");
    core.put_image(1, other);
    let again = "fail 1 =>\nresolve 1 lost =>\nsave 1 => commit 1";
    told(&rt, alloc, &mut core, again);
    let third = image(&rt, alloc, &core);
    assert_eq!(rt; count(&rt, alloc, &second, &third), 0);
    assert!(rt; count(&rt, alloc, &first, &third) < 20);
}

#[test]
fn a_commit_in_doubt_that_was_kept_is_the_committed_image(rt: HostRuntime) {
    let alloc = rt.alloc();
    let mut core = opened(&rt, alloc, &[1, GONE, 3]);
    told(&rt, alloc, &mut core, "session => commit 1");
    let first = image(&rt, alloc, &core);
    core.put_image(1, image(&rt, alloc, &core));
    told(
        &rt,
        alloc,
        &mut core,
        "fail 1 =>\nresolve 1 kept =>\nsave 1 => commit 1",
    );
    assert_eq!(rt; count(&rt, alloc, &first, &image(&rt, alloc, &core)), 0);
}

#[test]
fn a_frame_whose_image_is_not_known_is_laid_out_anew(rt: HostRuntime) {
    let alloc = rt.alloc();
    let mut core = opened(&rt, alloc, &[1, GONE, 3]);
    told(&rt, alloc, &mut core, "session => commit 1\ndone 1 =>");
    told(&rt, alloc, &mut core, "delete 2 =>\nsave 1 => commit 1");
    assert!(rt; is_anew(&rt, alloc, &image(&rt, alloc, &core)));
}
