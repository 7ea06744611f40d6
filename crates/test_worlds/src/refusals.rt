//! Worlds that go on where memory was refused: `tests/refused_memory` refuses one request after another.

use crate::worlds::{SAVED, STOPPED, moment, moments};
use container_core::container::Limits;
use object_core::embedded::Embedded;
use object_core::tally::Tally;
use object_kinds::note::Note;
use object_kinds::table::Table;
use std::alloc::Global;
use std::process::Abort;
use test_marks::marks::{begin, end};
use world_model::event::Stop;
use world_model::moment::Moment;
use world_run::report::ReportFault;
use world_run::world::World;
use world_state::stock::Stock;

/// Up to where a note has its text.
const EDITED: &str = "new a 40 10
session
done 1
insert 1 note 0 0 20 5
start
run 1 1
deliver 1
deliver 2
edit 1 i 0 ab
deliver 3
deliver 4";

/// A note and a table take the menus of their frame in turn.
const MENUS: &str = "new a 40 10
session
done 1
insert 1 note 0 0 20 5
insert 1 table 0 5 20 5
start
run 1 1
deliver 1
deliver 2
run 2 1
deliver 3
deliver 4
verb 1 -4
deliver 5
deliver 6
deliver 7
deliver 8
verb 2 -4
deliver 10
deliver 11
verb 1 -4
deliver 9
deliver 12
deliver 12
deliver 9
deliver 14
deliver 13
deliver 15";

/// What an edited note writes around a save.
const WRITES: &str = "scribble 1.1 1
save 1
deliver 6
deliver 5
deliver 7
done 1
deliver 8
deliver 9
deliver 5
scribble 1.1 1
deliver 10
deliver 10";

/// An edited note is closed, and runs again.
const CLOSED: &str = "close 1 save
deliver 5
deliver 6
deliver 1
deliver 5
deliver 7
run 1 1
deliver 8
deliver 9";

/// The server of an edited note that has its frame crashes, and another one runs it.
const CRASHED: &str = "scribble 1.1 1
deliver 5
edit 1 i 2 c
deliver 6
deliver 7
scribble 1.1 1
deliver 8
verb 1 -4
deliver 9
deliver 10
deliver 11
deliver 12
crash 1.1
reap 1
start
run 1 2
deliver 13
deliver 14
deliver 12";

/// A note asks to be relieved of its frame.
const ASKS: &str = "verb 1 0
deliver 5
deliver 6
deliver 7
deliver 8
ask 1.1 1
deliver 9
deliver 10
deliver 11
deliver 9";

/// The save of an edited note is in doubt, and then it was kept.
const KEPT: &str = "save 1
deliver 5
deliver 6
fail 1
edit 1 i 0 x
resolve 1 kept
deliver 7
deliver 8";

/// The same, and it was lost.
const LOST: &str = "save 1
deliver 5
deliver 6
fail 1
edit 1 i 0 x
resolve 1 lost
deliver 7
deliver 8";

/// A saved note is saved under another name, and opened.
const RENAMED: &str = "saveas 1 b
deliver 9
deliver 10
deliver 11
deliver 12
done 1
deliver 13
deliver 14
open b 40 10
open a 40 10
open c 40 10";

/// What no honest server sends, and events that are refused.
const REFUSED: &str =
    "forge 1 4f4c434d0203230000000100000001000000010000000200000001000000010454657874010000007a00000000
new a 40 10
insert 3 note 0 0 5 2
deliver 1
kill 1
delete 1
delete 1";

/// More servers and frames than there are numbers.
const SPENT: &str = "new a 40 10
session
done 1
start
start
start
start
new b 40 10
new c 40 10
new d 40 10";

fn note(rt: &impl Abort, alloc: Global) -> Box<dyn Embedded> {
    let tally = Tally::new(alloc).expect(rt, "memory");
    Box::new(alloc, Note::new(alloc, tally)).expect(rt, "memory")
}

fn table(rt: &impl Abort, alloc: Global) -> Box<dyn Embedded> {
    let tally = Tally::new(alloc).expect(rt, "memory");
    Box::new(alloc, Table::new(alloc, tally)).expect(rt, "memory")
}

fn add_once(
    alloc: Global,
    stock: &mut Stock,
    boxed: Box<dyn Embedded>,
) -> Result<(), Box<dyn Embedded>> {
    begin(alloc);
    let answer = stock.add(boxed);
    end(alloc);
    answer
}

/// Adds an object to a stock. Where memory is refused, it comes back, and is added again.
fn add(rt: &impl Abort, alloc: Global, stock: &mut Stock, boxed: Box<dyn Embedded>) {
    if let Err(back) = add_once(alloc, stock, boxed) {
        assert!(rt; add_once(alloc, stock, back).is_ok());
    }
}

/// A world with two notes and a table in stock.
fn world(rt: &impl Abort, alloc: Global, numbers: u32) -> World {
    let numbers = if numbers < 1000 { numbers } else { 1000 };
    let mut stock = Stock::new(alloc);
    add(rt, alloc, &mut stock, note(rt, alloc));
    add(rt, alloc, &mut stock, table(rt, alloc));
    add(rt, alloc, &mut stock, note(rt, alloc));
    World::new(alloc, Limits { numbers }, stock)
}

fn run(alloc: Global, world: &mut World, moments: &[Moment]) -> (usize, Option<Stop>) {
    begin(alloc);
    let told = world.run(alloc, moments);
    end(alloc);
    told
}

/// Whether all moments are taken. Where memory is refused, as many events were taken as is told, and the world goes on
/// with those behind.
fn takes(alloc: Global, world: &mut World, moments: &[Moment]) -> bool {
    let (taken, stop) = run(alloc, world, moments);
    match (stop, moments.get(taken..)) {
        (None, _) => taken == moments.len(),
        (Some(Stop::NoMemory), Some(rest)) => run(alloc, world, rest).1.is_none(),
        _ => false,
    }
}

fn report_once(alloc: Global, world: &World, text: &mut Vec<u8>) -> Result<(), ReportFault> {
    begin(alloc);
    let answer = world.report(alloc, text);
    end(alloc);
    answer
}

/// A world's report, into room that is there. Where memory is refused, nothing was written, and it is written again.
fn report(rt: &impl Abort, alloc: Global, world: &World) -> Vec<u8> {
    let mut text = Vec::with_capacity(alloc, 4096).expect(rt, "memory");
    let is_told = match report_once(alloc, world, &mut text) {
        Ok(()) => true,
        Err(ReportFault::NoMemory) => text.is_empty()
            && report_once(alloc, world, &mut text).is_ok(),
        Err(_) => false,
    };
    assert!(rt; is_told);
    text
}

/// What a world reports that takes these moments one by one.
fn wanted(rt: &impl Abort, alloc: Global, numbers: u32, moments: &[Moment]) -> Vec<u8> {
    let mut world = world(rt, alloc, numbers);
    for one in moments.chunks(1) {
        assert!(rt; world.run(alloc, one).1.is_none());
    }
    let mut text = Vec::new(alloc);
    assert!(rt; world.report(alloc, &mut text).is_ok());
    text
}

/// The moments of two texts, one behind the other.
fn joined(rt: &impl Abort, alloc: Global, first: &str, then: &str) -> Vec<Moment> {
    let mut all = moments(rt, alloc, first);
    for line in then.split('\n') {
        if !line.is_empty() {
            all.push(moment(rt, alloc, line)).expect(rt, "memory");
        }
    }
    all
}

/// Whether a world ends in the same report where memory is refused on its way.
fn goes_on(rt: &impl Abort, alloc: Global, numbers: u32, first: &str, then: &str) -> bool {
    let all = joined(rt, alloc, first, then);
    let mut world = world(rt, alloc, numbers);
    takes(alloc, &mut world, &all)
        && report(rt, alloc, &world).as_slice() == wanted(rt, alloc, numbers, &all).as_slice()
}

#[test]
fn a_saved_note_goes_on(rt: HostRuntime) {
    assert!(rt; goes_on(&rt, rt.alloc(), 1000, SAVED, ""));
}

#[test]
fn menus_in_turn_go_on(rt: HostRuntime) {
    assert!(rt; goes_on(&rt, rt.alloc(), 1000, MENUS, ""));
}

#[test]
fn an_edited_note_goes_on(rt: HostRuntime) {
    for then in [WRITES, CLOSED, KEPT, LOST, ASKS] {
        assert!(rt; goes_on(&rt, rt.alloc(), 1000, EDITED, then), "{then}");
    }
}

#[test]
fn a_note_whose_server_crashes_goes_on(rt: HostRuntime) {
    assert!(rt; goes_on(&rt, rt.alloc(), 1000, EDITED, CRASHED));
}

#[test]
fn a_renamed_file_goes_on(rt: HostRuntime) {
    assert!(rt; goes_on(&rt, rt.alloc(), 1000, SAVED, RENAMED));
}

#[test]
fn a_later_session_goes_on(rt: HostRuntime) {
    assert!(rt; goes_on(&rt, rt.alloc(), 1000, SAVED, STOPPED));
}

#[test]
fn spent_numbers_go_on(rt: HostRuntime) {
    assert!(rt; goes_on(&rt, rt.alloc(), 3, SPENT, ""));
}

#[test]
fn what_is_refused_goes_on(rt: HostRuntime) {
    assert!(rt; goes_on(&rt, rt.alloc(), 1000, EDITED, REFUSED));
}
