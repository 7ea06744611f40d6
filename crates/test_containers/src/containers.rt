//! Containers: what they are told, and what they answer. The table is a text, a line each: what is told or looked at,
//! and the answer behind ` =>`; and the functions have no contracts: so the test is quick to prove.

use crate::answers::is_answered;
use crate::events::happens;
use crate::files::{are_sessions, is_document, is_file};
use crate::messages::{messaged, messaged_in};
use crate::shown::{are_numbers, are_pending, are_sizes, are_states, is_screen};
use crate::words::{halves, number, word};
use container_core::container::{ContainerCore, Limits};
use std::alloc::Global;
use std::process::Abort;
use std::str::SplitWhitespace;

/// `anew N` is a new container that gives numbers up to N, or 100 where no smaller number is told. Messages come on the
/// link of server 1 and are of its activation 1; on the link of server 2 come those behind `astray`, which say the
/// same, those behind `forged`, which say that activation 1 is of server 2, and those behind `second`, which are of
/// activation 2 of server 2. The container's session is 1; those behind `later` are of session 2 and come on the link
/// of its server 1, and those behind `mixed` say that they are of session 2, on the link of server 1 of session 1.
const ROWS: &str = "document => NoSuch
file => NoSuch
done 1 => NoSuch
states => none none none
screen => NoSuch
new a.ole 12 4 => frame 1
session => commit 1
document => 0
file => 0
done 1 =>
save 1 => commit 1
done 1 =>
insert 1 note 1 1 5 2 => object 1
screen => note
start => server 1 start 1
run 1 1 => call 1 InitNew
pending => call 1 InitNew
reply 1 done =>
pending =>
document => WrongState
states => Idle Free active-empty
edit 1 x => call 2 Edit
pending => call 2 Edit
reply 2 done =>
write 2 small => Stale
write 1 large => BadAnswer
save 1 => call 3 Save
states => Saving Free active-empty
astray reply 3 small => WrongLink
reply 3 done => BadAnswer
reply 3 small => commit 1
states => Committing Free active-empty
document => 1
file => 1
done 1 => call 4 SaveCompleted
states => Idle Free active
document => WrongState
reply 4 done =>
write 2 small => taken
verb 1 -4 => call 5 InPlace
reply 5 done => call 6 UiActivate
states => Idle Granting active
reply 6 done => BadAnswer
kill 1 => end 1
reap 1 =>
reap 1 => NoSuch
pending =>
states => Idle Free passive
numbers => 1 of 1
sizes => 1 1 100
anew =>
new a.ole 12 4 => frame 1
session => commit 1
done 1 =>
insert 1 note 1 1 5 2 => object 1
start => server 1 start 1
run 1 1 => call 1 InitNew
reply 1 done =>
close 1 save => call 2 Close
reply 2 done => BadAnswer
reply 2 large => BadAnswer
reply 2 small => taken
states => Idle Free passive
anew =>
new a.ole 12 4 => frame 1
session => commit 1
done 1 =>
insert 1 note 1 1 5 2 => object 1
start => server 1 start 1
run 1 1 => call 1 InitNew
reply 1 done =>
close 1 nosave => call 2 Close
reply 2 small => BadAnswer
reply 2 done =>
states => Idle Free passive-empty
anew =>
fail 1 => NoSuch
resolve 1 kept => NoSuch
new a.ole 12 4 => frame 1
session => commit 1
done 1 =>
fail 1 => WrongState
resolve 1 lost => WrongState
insert 1 note 1 1 5 2 => object 1
start => server 1 start 1
run 1 1 => call 1 InitNew
reply 1 done =>
save 1 => call 2 Save
reply 2 small => commit 1
resolve 1 kept => WrongState
fail 1 =>
states => InDoubt Free active-empty
fail 1 => WrongState
done 1 => WrongState
edit 1 x => InDoubt
file => 1
resolve 1 lost => call 3 SaveDropped
states => Idle Free active-empty
document => WrongState
reply 3 done =>
save 1 => call 4 Save
reply 4 small => commit 1
fail 1 =>
resolve 1 kept => call 5 SaveCompleted
states => Idle Free active
anew =>
new a.ole 12 4 => frame 1
session => commit 1
done 1 =>
insert 1 note 1 1 5 2 => object 1
start => server 1 start 1
run 1 1 => call 1 InitNew
reply 1 done =>
save 1 => call 2 Save
reply 2 small => commit 1
fail 1 =>
kill 1 => end 1
reap 1 =>
states => InDoubt Free passive
resolve 1 lost =>
states => Idle Free passive
anew =>
new a.ole 12 4 => frame 1
session => commit 1
done 1 =>
insert 1 note 1 1 5 2 => object 1
saveas 1 a.ole => WrongState
new b.ole 12 4 => frame 2
saveas 1 b.ole => Busy
saveas 3 c.ole => NoSuch
saveas 1 c.ole => commit 1
states => Committing Free passive-empty
saveas 1 d.ole => Busy
new c.ole 12 4 => Busy
saveas 2 c.ole => Busy
done 1 =>
new a.ole 12 4 => frame 3
start => server 1 start 1
run 1 1 => call 1 InitNew
reply 1 done =>
saveas 1 d.ole => call 2 Save
states => Saving Free active-empty
reply 2 small => call 3 HandsOff
states => HandingOff Free active-empty
document => WrongState
pending => call 3 HandsOff
reply 3 small => BadAnswer
reply 3 done => commit 1
fail 1 =>
saveas 1 e.ole => InDoubt
resolve 1 kept => call 4 SaveCompleted
states => Idle Free active
new c.ole 12 4 => frame 4
reply 4 done =>
saveas 1 e.ole => call 5 Save
reply 5 small => call 6 HandsOff
kill 1 => end 1
reap 1 => commit 1
states => Committing Free passive
fail 1 =>
resolve 1 lost =>
states => Idle Free passive
new e.ole 12 4 => frame 5";

/// A server that sends what is another's, and what it didn't do.
const FORGED: &str = "new a.ole 12 4 => frame 1
session => commit 1
done 1 =>
insert 1 note 1 1 5 2 => object 1
insert 1 note 6 1 5 2 => object 2
start => server 1 start 1
start => server 2 start 2
run 1 1 => call 1 InitNew
run 2 2 => other 1 InitNew
astray reply 1 done => WrongLink
later reply 1 done => Stale
mixed reply 1 done => WrongLink
forged reply 1 done => Stale
pending => call 1 InitNew other 1 InitNew
reply 1 done =>
second reply 1 done =>
astray write 1 small => WrongLink
later write 1 small => Stale
mixed write 1 small => WrongLink
forged write 1 small => Stale
states => Idle Free active-empty
write 1 small => taken
write 1 small => Stale
verb 1 -4 => call 2 InPlace
reply 2 done => call 3 UiActivate
forged reply 3 tools => Stale
second reply 3 tools => Stale
reply 3 tools =>
states => Idle Held active
astray ask 1 => WrongLink
later ask 1 => Stale
mixed ask 1 => WrongLink
forged ask 1 => Stale
second ask 1 => Stale
ask 2 => Stale
states => Idle Held active
verb 2 -4 => call 4 UiDeactivate other 2 InPlace
second reply 2 done =>
second ask 2 => Stale
forged reply 4 done => Stale
states => Idle Revoking active
reply 4 done => other 3 UiActivate
states => Idle Granting active
reply 4 done => Stale
states => Idle Granting active";

/// An object that has its frame may be told four things by a save under another name: to answer its content, to give
/// its storage away, meanwhile to give the frame up, and that the save is counted.
const SPENT: &str = "anew 12 =>
new a.ole 12 4 => frame 1
session => commit 1
done 1 =>
insert 1 note 1 1 5 2 => object 1
start => server 1 start 1
run 1 1 => call 1 InitNew
reply 1 done =>
verb 1 -4 => call 2 InPlace
reply 2 done => call 3 UiActivate
reply 3 tools =>
edit 1 x => call 4 Edit
reply 4 done =>
saveas 1 b.ole => call 5 Save
reply 5 small => call 6 HandsOff
ask 1 =>
reply 6 done => call 7 UiDeactivate commit 1
done 1 =>
reply 7 done => call 8 SaveCompleted
reply 8 done =>
saveas 1 c.ole => NumbersSpent
anew 12 =>
new a.ole 12 4 => frame 1
session => commit 1
done 1 =>
insert 1 note 1 1 5 2 => object 1
start => server 1 start 1
run 1 1 => call 1 InitNew
reply 1 done =>
verb 1 -4 => call 2 InPlace
reply 2 done => call 3 UiActivate
reply 3 tools =>
edit 1 x => call 4 Edit
reply 4 done =>
edit 1 x => call 5 Edit
reply 5 done =>
saveas 1 b.ole => NumbersSpent
save 1 => NumbersSpent
states => Idle Held active-empty";

/// The first frame's document is raised to the next session, and that is the container's once it is counted.
/// `sessions N` tells the container's session, that of frame N, the one that the document says which is to be committed
/// for it, or `none`, and the number of its last save.
const RAISED: &str = "session => NoSuch
start => WrongState
save 1 => NoSuch
new a.ole 12 4 => frame 1
new b.ole 12 4 => frame 2
insert 1 note 1 1 5 2 => object 1
start => WrongState
save 1 => WrongState
save 2 => WrongState
saveas 2 c.ole => WrongState
sessions 1 => 0 0 none 0
session => commit 1
sessions 1 => 0 0 1 1
session => Busy
start => WrongState
save 1 => Busy
save 2 => WrongState
fail 1 =>
session => InDoubt
start => WrongState
sessions 1 => 0 0 1 1
resolve 1 lost =>
sessions 1 => 0 0 none 1
start => WrongState
save 1 => WrongState
session => commit 1
sessions 1 => 0 0 1 2
fail 1 =>
resolve 1 kept =>
sessions 1 => 1 1 none 2
session => WrongState
start => server 1 start 1
run 1 1 => call 1 InitNew
save 2 => commit 2
sessions 2 => 1 0 0 1
done 2 =>
sessions 2 => 1 0 none 1
reply 1 done =>
save 1 => call 2 Save
reply 2 small => commit 1
sessions 1 => 1 1 1 3
done 1 => call 3 SaveCompleted
sessions 1 => 1 1 none 3
anew 1 =>
new a.ole 12 4 => frame 1
session => commit 1
fail 1 =>
resolve 1 lost =>
session => NumbersSpent";

/// A container that gives numbers up to this one, and at most 100.
fn container(alloc: Global, numbers: u32) -> ContainerCore {
    let numbers = if numbers < 100 { numbers } else { 100 };
    ContainerCore::new(alloc, Limits { numbers })
}

/// Whether a container shows this.
fn shows(
    rt: &impl Abort,
    alloc: Global,
    core: &ContainerCore,
    row: &str,
    words: &mut SplitWhitespace<'_>,
) -> bool {
    match row.as_bytes() {
        [b'p', ..] => are_pending(rt, alloc, core, words),
        [b'd', ..] => is_document(alloc, core, words),
        [b'n', ..] => are_numbers(rt, alloc, core, words),
        [b's', b'i', ..] => are_sizes(core, words),
        [b's', b'c', ..] => is_screen(alloc, core, 1, words),
        [b's', b'e', ..] => are_sessions(alloc, core, number(halves(row, " ").1), words),
        [b's', ..] => are_states(core, words),
        _ => is_file(alloc, core, words),
    }
}

fn renew(alloc: Global, core: &mut ContainerCore, numbers: u32) -> bool {
    *core = container(alloc, numbers);
    true
}

/// Whether a container answers this to a message on the link of server 2.
fn hears_second(
    rt: &impl Abort,
    alloc: Global,
    core: &mut ContainerCore,
    from: (u32, u32),
    row: &str,
    words: &mut SplitWhitespace<'_>,
) -> bool {
    is_answered(
        messaged(rt, alloc, core, 2, from, halves(row, " ").1),
        words,
    )
}

/// Whether a container answers this to a message of session 2 on the link of server 1 of the session that is given.
fn hears_in(
    rt: &impl Abort,
    alloc: Global,
    core: &mut ContainerCore,
    session: u32,
    row: &str,
    words: &mut SplitWhitespace<'_>,
) -> bool {
    is_answered(
        messaged_in(rt, alloc, core, session, halves(row, " ").1),
        words,
    )
}

/// Whether a container answers this to a row that spells no event, or shows it.
fn hears(
    rt: &impl Abort,
    alloc: Global,
    core: &mut ContainerCore,
    row: &str,
    words: &mut SplitWhitespace<'_>,
) -> bool {
    match row.as_bytes() {
        [b'a', b'n', ..] => renew(alloc, core, number(halves(row, " ").1)),
        [b'a', b's', b't', ..] => hears_second(rt, alloc, core, (1, 1), row, words),
        [b'f', b'o', ..] => hears_second(rt, alloc, core, (2, 1), row, words),
        [b's', b'e', b'c', ..] => hears_second(rt, alloc, core, (2, 2), row, words),
        [b'l', b'a', b't', ..] => hears_in(rt, alloc, core, 2, row, words),
        [b'm', b'i', b'x', ..] => hears_in(rt, alloc, core, 1, row, words),
        [b'a', ..] | [b'r', ..] | [b'w', ..] => {
            is_answered(messaged(rt, alloc, core, 1, (1, 1), row), words)
        }
        _ => shows(rt, alloc, core, row, words),
    }
}

/// Whether a container answers this to a row.
pub(crate) fn tells(
    rt: &impl Abort,
    alloc: Global,
    core: &mut ContainerCore,
    row: &str,
    words: &mut SplitWhitespace<'_>,
) -> bool {
    match happens(rt, alloc, core, row) {
        Some(answer) => is_answered(answer, words),
        None => hears(rt, alloc, core, row, words),
    }
}

fn answers(rt: &impl Abort, alloc: Global, core: &mut ContainerCore, row: &str) -> bool {
    let (row, want) = halves(row, " =>");
    let mut words = want.split_whitespace();
    tells(rt, alloc, core, row, &mut words) && word(&mut words).is_empty()
}

#[test]
fn containers_answer_what_they_are_told(rt: HostRuntime) {
    for rows in [ROWS, FORGED, SPENT, RAISED] {
        let mut core = container(rt.alloc(), 100);
        for row in rows.split('\n') {
            assert!(rt; answers(&rt, rt.alloc(), &mut core, row), "{row}");
        }
    }
}
