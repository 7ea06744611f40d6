//! What the kinds are.

use crate::objects::{drawing, note, table};
use cfb_names::name::Name;
use object_core::embedded::Embedded;
use object_core::fault::EmbedFault;
use object_core::tally::Tally;
use object_core::{ClassId, Menus, classes, kind_menus, laws, stream_names};

/// The bytes of a class id behind the first, which is the kind's number.
const CLASS: &[u8] = b"\x2a\x1d\x6f\x4b\x3c\x5f\x4e\x8a\x9b\x0c\x1d\x2e\x3f\x40\x51";

fn is_class(class: ClassId, number: u8) -> bool {
    match class.as_bytes().split_first() {
        Some((first, rest)) => *first == number && rest == CLASS,
        None => false,
    }
}

fn are_menus(menus: &Menus, object: &str) -> bool {
    menus.edit.as_bytes() == b"Edit".as_slice()
        && menus.object.as_bytes() == object.as_bytes()
        && menus.help.as_bytes() == b"Help".as_slice()
}

/// Whether an object is of the kind with this number, and asks for this menu and this much space above and on its left.
fn is_object(object: Box<dyn Embedded>, number: u8, menu: &str, left: u16, above: u16) -> bool {
    is_class(object.class(), number)
        && are_menus(&object.menus(), menu)
        && object.border() == [left, above, 0, 0]
}

#[test]
fn objects_have_their_classes_menus_and_borders(rt: HostRuntime) {
    let tally = Tally::new(rt.alloc()).expect(&rt, "memory");
    assert!(rt; is_object(note(&rt, rt.alloc(), &tally), 1, "Note", 0, 1));
    assert!(rt; is_object(table(&rt, rt.alloc(), &tally), 2, "Table", 2, 1));
    assert!(rt; is_object(drawing(&rt, rt.alloc(), &tally), 3, "Draw", 3, 0));
}

/// Whether a kind has this number, this menu and this stream.
fn is_kind(
    class: ClassId,
    menus: &Menus,
    stream: &Name,
    number: u8,
    menu: &str,
    name: &str,
) -> bool {
    is_class(class, number) && are_menus(menus, menu) && stream.as_bytes() == name.as_bytes()
}

#[test]
fn kinds_have_their_classes_menus_and_streams(rt: HostRuntime) {
    let text = stream_names::note();
    assert!(rt;
        is_kind(
            classes::note(),
            &kind_menus::note(),
            &text,
            1,
            "Note",
            "Text"
        )
    );
    let cells = stream_names::table();
    assert!(rt;
        is_kind(
            classes::table(),
            &kind_menus::table(),
            &cells,
            2,
            "Table",
            "Cells"
        )
    );
    let shapes = stream_names::drawing();
    assert!(rt;
        is_kind(
            classes::drawing(),
            &kind_menus::drawing(),
            &shapes,
            3,
            "Draw",
            "Shapes"
        )
    );
}

#[test]
fn laws_take_nothing(rt: HostRuntime) {
    laws::spelled_is_read();
    laws::read_was_spelled();
    laws::stored_is_loaded();
    laws::loaded_was_stored();
    laws::edits_stay();
    // the other faults are in the tables of calls
    assert!(rt; EmbedFault::NoMemory.name() == "NoMemory");
}
