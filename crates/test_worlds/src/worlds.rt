//! Worlds, and what they show. Moments are texts, as the program reads them; and the functions have no contracts: so
//! the tests are quick to prove.

use crate::files::file;
use crate::reports::{is_report, is_unwritten};
use crate::shown::{answer, are_past, is_shown};
use crate::words::{number, word};
use container_core::container::Limits;
use object_core::embedded::Embedded;
use object_core::tally::Tally;
use object_kinds::note::Note;
use std::alloc::Global;
use std::process::Abort;
use text_worlds::moments::parse_moment;
use world_model::event::Stop;
use world_model::moment::Moment;
use world_run::world::World;
use world_state::stock::Stock;

/// A note that is saved.
pub(crate) const SAVED: &str = "new a 40 10
session
done 1
insert 1 note 0 0 20 5
start
run 1 1
deliver 1
deliver 2
edit 1 i 0 aa
deliver 3
deliver 4
save 1
deliver 5
deliver 6
done 1
deliver 7
deliver 8";

const REPORT: &str =
    "session 1\nframe 1 a Free k 2 stored\nobject 1 frame 1 Note Running Normal act 1 s 2 Text=6161\ndone container 1 2\ndone server 1 2\n";

/// What the note writes, and its content when it is closed; a frame without objects that is saved; then a command that
/// is refused, and a call that is dropped.
const CLOSED: &str = "scribble 1.1 1
deliver 9
close 1 save
deliver 10
deliver 11
new b 40 10
save 2
done 2
save 3
deliver 1";

/// A content that is forged is taken, and the one that the note then writes under the same number isn't.
const FORGED: &str =
    "forge 1 4f4c434d0203230000000100000001000000010000000200000001000000010454657874010000007a00000000
scribble 1.1 1
deliver 9";

/// Sessions that are asked for in vain: without a frame, while the commit of one is asked, while it is in doubt, and
/// where there is one. Before that no server starts and nothing else is saved. A lost one is asked for again.
const RAISED: &str = "session
new a 40 10
start
save 1
saveas 1 b
session
session
fail 1
session
resolve 1 lost
save 1
session
done 1
session
start";

/// A lost session, whose save has the last number.
const SPENT: &str = "new a 40 10
session
fail 1
resolve 1 lost
session";

/// The container stops, and the next run opens the session document first. A server of the run before it goes on, and
/// what it writes isn't taken.
pub(crate) const STOPPED: &str = "stop
open a 40 10
session
done 1
start
scribble 1.1 1
deliver 9";

/// What is looked at, and what it is: how many events, messages and frames there are, and the contents that were
/// counted or taken; the text of the note in a frame's file; what an event was answered; the session; the sessions of
/// the runs before the present one, each with the contents that were counted or taken in it.
const NEW_SHOWS: &str = "shown events 0 sent 0 frames 0
file 1 none
session 0
past";

const SAVED_SHOWS: &str = "shown events 17 sent 8 frames 1 container 1 2 server 1 1 2 counted 2 1
file 1 aa
file 2 none
session 1";

const CLOSED_SHOWS: &str =
    "shown events 27 sent 11 frames 2 container 1 2 server 1 1 2 taken 9 1 1 1 2 taken 11 1 1 1 2 counted 2 1
file 2 empty
answer 1 took
answer 26 NoSuch
answer 27 Ignored";

const FORGED_SHOWS: &str =
    "shown events 20 sent 9 frames 1 container 1 2 server 1 1 2 hostile 1 forged 1 1 1 2 counted 2 1
answer 18 took
answer 20 Stale";

const RAISED_SHOWS: &str = "shown events 15 sent 0 frames 1 counted 2 0
answer 1 NoSuch
answer 3 WrongState
answer 4 WrongState
answer 5 WrongState
answer 6 took
answer 7 Busy
answer 9 InDoubt
answer 11 WrongState
answer 12 took
answer 14 WrongState
answer 15 took
session 1";

const SPENT_SHOWS: &str = "shown events 5 sent 0 frames 1
file 1 none
answer 5 NumbersSpent
session 0";

const STOPPED_SHOWS: &str = "shown events 24 sent 9 frames 1 container 1 1 counted 1 1
past session 1 container 1 2 server 1 1 2
file 1 aa
answer 18 took
answer 23 took
answer 24 Stale
session 2";

fn boxed(rt: &impl Abort, alloc: Global) -> Box<dyn Embedded> {
    let tally = Tally::new(alloc).expect(rt, "memory");
    Box::new(alloc, Note::new(alloc, tally)).expect(rt, "memory")
}

fn add(rt: &impl Abort, stock: &mut Stock, boxed: Box<dyn Embedded>) {
    assert!(rt; stock.add(boxed).is_ok());
}

/// A stock of one note.
fn stock(rt: &impl Abort, alloc: Global) -> Stock {
    let mut stock = Stock::new(alloc);
    add(rt, &mut stock, boxed(rt, alloc));
    stock
}

/// A world that gives numbers up to 1000, with one note in stock.
fn world(rt: &impl Abort, alloc: Global) -> World {
    World::new(alloc, Limits { numbers: 1000 }, stock(rt, alloc))
}

/// The same with a single number.
fn narrow_world(rt: &impl Abort, alloc: Global) -> World {
    World::new(alloc, Limits { numbers: 1 }, stock(rt, alloc))
}

pub(crate) fn moment(rt: &impl Abort, alloc: Global, line: &str) -> Moment {
    parse_moment(alloc, line.as_bytes())
        .expect(rt, "memory")
        .expect(rt, "a moment")
}

pub(crate) fn moments(rt: &impl Abort, alloc: Global, lines: &str) -> Vec<Moment> {
    let mut moments = Vec::new(alloc);
    for line in lines.split('\n') {
        moments.push(moment(rt, alloc, line)).expect(rt, "memory");
    }
    moments
}

fn run(alloc: Global, world: &mut World, moments: &[Moment]) -> Option<Stop> {
    world.run(alloc, moments).1
}

/// `shown ..`, `file FRAME TEXT`, `answer EVENT NAME`, `session NUMBER` or `past ..`: whether a world shows this.
fn shows(rt: &impl Abort, alloc: Global, world: &World, row: &str) -> bool {
    let mut words = row.split_whitespace();
    match word(&mut words) {
        "file" => file(rt, alloc, world, number(&mut words)) == word(&mut words),
        "answer" => answer(world, number(&mut words)) == word(&mut words),
        "session" => world.container().session() == number(&mut words),
        "past" => are_past(world, &mut words),
        _ => is_shown(world, &mut words),
    }
}

fn expect(rt: &impl Abort, alloc: Global, world: &World, rows: &str) {
    for row in rows.split('\n') {
        assert!(rt; shows(rt, alloc, world, row), "{row}");
    }
}

/// Runs moments, and then looks at what the world shows.
fn play(rt: &impl Abort, alloc: Global, world: &mut World, lines: &str, rows: &str) {
    drop(run(alloc, world, &moments(rt, alloc, lines)));
    expect(rt, alloc, world, rows);
}

#[test]
fn a_new_world_is_empty(rt: HostRuntime) {
    let world = world(&rt, rt.alloc());
    assert!(rt; is_unwritten(rt.alloc(), &world));
    expect(&rt, rt.alloc(), &world, NEW_SHOWS);
}

#[test]
fn worlds_show_what_happened(rt: HostRuntime) {
    let mut world = world(&rt, rt.alloc());
    play(&rt, rt.alloc(), &mut world, SAVED, SAVED_SHOWS);
    play(&rt, rt.alloc(), &mut world, CLOSED, CLOSED_SHOWS);
}

#[test]
fn a_forged_content_has_no_place(rt: HostRuntime) {
    let mut world = world(&rt, rt.alloc());
    play(&rt, rt.alloc(), &mut world, SAVED, SAVED_SHOWS);
    play(&rt, rt.alloc(), &mut world, FORGED, FORGED_SHOWS);
}

#[test]
fn a_session_is_raised_once(rt: HostRuntime) {
    let mut world = world(&rt, rt.alloc());
    play(&rt, rt.alloc(), &mut world, RAISED, RAISED_SHOWS);
}

#[test]
fn a_lost_session_spends_a_number(rt: HostRuntime) {
    let mut world = narrow_world(&rt, rt.alloc());
    play(&rt, rt.alloc(), &mut world, SPENT, SPENT_SHOWS);
}

#[test]
fn a_stop_leaves_the_logs_of_its_run(rt: HostRuntime) {
    let mut world = world(&rt, rt.alloc());
    play(&rt, rt.alloc(), &mut world, SAVED, SAVED_SHOWS);
    play(&rt, rt.alloc(), &mut world, STOPPED, STOPPED_SHOWS);
}

/// Runs moments one after the other, and each again where memory ran out: whether all were taken.
fn run_on(alloc: Global, world: &mut World, moments: &[Moment]) -> bool {
    for moment in moments.chunks(1) {
        if run(alloc, world, moment).is_some() && run(alloc, world, moment).is_some() {
            return false;
        }
    }
    true
}

/// Where any one allocation is refused, the run goes on to the same report.
#[test]
fn a_run_goes_on_where_memory_ran_out(rt: HostRuntime) {
    let mut world = world(&rt, rt.alloc());
    assert!(rt; run_on(rt.alloc(), &mut world, &moments(&rt, rt.alloc(), SAVED)));
    assert!(rt; is_report(rt.alloc(), &world, REPORT));
}
