//! What edits make of documents, and what is told of them.

use crate::runs::{changes_of, document_of, edit, is_of, made, names_nothing, tree_of};
use std::alloc::Global;
use std::process::Abort;
use store_edits::fault::EditFault;

/// A description, the lines of an edit, and the description of what it makes, each with `;` in the place of line feeds.
const ROWS: &str = "\
stream A 010203|stream A 040506|stream A 040506
stream A 010203|stream a 04|stream A 04
stream A 01|stream B 02|stream A 01;stream B 02
stream A 01|fill A 5000 07|fill A 5000 07
stream A 01|file A one|stream A 0102
stream A 01;stream B 02|remove A|stream B 02
storage S;stream S/A 01;stream B 02|remove S|stream B 02
stream A 0102|rename A a|stream a 0102
stream A 0102|rename A B|stream B 0102
storage S;stream S/A 01|rename S/A B;stream S/A 02|storage S;stream S/A 02;stream S/B 01
stream A 01|storage S;stream S/A 02;rename A B|storage S;stream S/A 02;stream B 01
stream A 01|stream B 02;remove B|stream A 01
fill A 4096 01|stream A -|stream A -
storage S|class S 6f1d2a00-3c4b-4e5f-8a9b-0c1d2e3f4051;state / 7;class S 00000000-0000-0000-0000-000000000000;state / 0|storage S";

fn described(rt: &impl Abort, alloc: Global, text: &str) -> String {
    let mut lines = String::new(alloc);
    for line in text.split(';') {
        lines.push_str(line).expect(rt, "memory");
        lines.push_str("\n").expect(rt, "memory");
    }
    lines
}

/// Whether an edit makes what it has to, with this told of it.
fn makes(rt: &impl Abort, alloc: Global, row: &str, is_zeroed: bool) -> bool {
    let mut parts = row.split('|');
    let before = described(rt, alloc, parts.next().unwrap_or(""));
    let lines = described(rt, alloc, parts.next().unwrap_or(""));
    let after = described(rt, alloc, parts.next().unwrap_or(""));
    let file = made(rt, alloc, &before);
    let ending = edit(rt, alloc, &file, changes_of(rt, alloc, &lines), is_zeroed);
    let Ok(told) = ending.told else {
        return false;
    };
    let document = document_of(&ending.disk);
    let tree = tree_of(rt, alloc, &made(rt, alloc, &after));
    told.bytes == document.len() && ending.is_settled && is_of(rt, alloc, document, &tree)
}

#[test]
fn lines_are_carried_out(rt: HostRuntime) {
    for row in ROWS.lines() {
        assert!(rt; makes(&rt, rt.alloc(), row, false), "{row}");
        assert!(rt; makes(&rt, rt.alloc(), row, true), "{row}");
    }
}

/// Lines, and the number and the fault of the one that is refused.
const REFUSED: &str = "\
remove B|1 NotFound
stream B 02;remove C|2 NotFound
stream B 02;storage A|2 Exists
remove A;rename A B|2 NotFound
stream B 02;rename A b|2 Exists
stream A/B 02|1 WrongKind
stream S/A 02|1 NotFound
stream a:b 02|1 NameForbidden
rename A B/C|1 NameForbidden
remove A;stream B 02;rename B a:b|3 NameForbidden";

/// Whether an edit is refused as it has to be, and leaves the document.
fn refuses(rt: &impl Abort, alloc: Global, row: &str) -> bool {
    let mut parts = row.split('|');
    let lines = described(rt, alloc, parts.next().unwrap_or(""));
    let mut words = parts.next().unwrap_or("").split(' ');
    let number = words.next().unwrap_or("").parse::<usize>();
    let file = made(rt, alloc, "stream A 010203\n");
    let ending = edit(rt, alloc, &file, changes_of(rt, alloc, &lines), false);
    let Err(EditFault::Line(at, fault)) = ending.told else {
        return false;
    };
    number.ok() == Some(at)
        && words.next() == Some(fault.name())
        && ending.is_settled
        && document_of(&ending.disk) == file.as_slice()
}

#[test]
fn a_refused_line_leaves_the_document(rt: HostRuntime) {
    for row in REFUSED.lines() {
        assert!(rt; refuses(&rt, rt.alloc(), row), "{row}");
    }
    assert!(rt; names_nothing(&rt, rt.alloc(), "stream A 01\nfile B two\n"));
}

/// How many blocks an edit of a file with A of 7 MB and a short stream writes.
fn blocks_of(rt: &impl Abort, alloc: Global, lines: &str) -> Option<usize> {
    let file = made(rt, alloc, "fill A 7000000 07\nstream B 010203\n");
    let ending = edit(rt, alloc, &file, changes_of(rt, alloc, lines), false);
    Some(ending.told.ok()?.blocks)
}

#[test]
fn a_short_stream_takes_few_blocks(rt: HostRuntime) {
    assert!(rt; blocks_of(&rt, rt.alloc(), "stream B 040506\n") == Some(1));
    assert!(rt; blocks_of(&rt, rt.alloc(), "stream B 010203\n") == Some(0));
    let new = blocks_of(&rt, rt.alloc(), "stream C 04\n").unwrap_or(99);
    assert!(rt; new <= 10, "{new}");
}
