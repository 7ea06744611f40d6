//! Scripts over links of which each call fails in turn.

use crate::servers::{Arrives, Servers};
use object_core::tally::Tally;
use script_run::script::run_script;
use std::alloc::Global;
use std::process::Abort;

/// A note is edited twice, the second time while what its server sends waits, over a link that is cut; it is closed.
pub(crate) const ONE: &str =
    "new e 12 4\ninsert 1 note 1 1 5 2\nstart\nrun 1 1\nedit 1 i 0 a\nhold 1\nedit 1 i 1 b\ncut 1\nrelease 1\nclose 1 save\nscreen 1\n";

/// A note and a table, each in a server of its own, take their frame in turn, and are closed; the note runs again in
/// the other server.
pub(crate) const TWO: &str =
    "new a 44 9\ninsert 1 note 4 2 18 4\ninsert 1 table 24 2 18 4\nstart\nstart\nrun 1 1\nrun 2 2\nedit 1 i 0 Ada\nedit 2 s A1 3\nverb 1 -4\nverb 2 -4\nclose 1 save\nclose 2 save\nscreen 1\nrun 1 2\nedit 1 i 0 Dear \nclose 1 save\nscreen 1\n";

/// The most calls of links that are tried.
const MOST_CALLS: u64 = 1_000;

/// What a script writes where a call of a link fails so, and whether that call was made; each object is dropped once.
fn run(
    rt: &impl Abort,
    alloc: Global,
    script: &str,
    failing: u64,
    arrives: Arrives,
) -> (Vec<u8>, bool) {
    let tally = Tally::new(alloc).expect(rt, "memory");
    let shared = tally.share().expect(rt, "memory");
    let mut host = Servers::new(alloc, shared, failing, arrives);
    let mut written = Vec::new(alloc);
    let told = run_script(alloc, &mut host, &mut script.as_bytes(), &mut written);
    assert!(rt; told.is_ok(), "a script that ends, call {failing}");
    let (made, has_failed) = (host.made(), host.has_failed());
    drop(host);
    assert!(rt;
        made > 0 && tally.count() == made,
        "{made} made, call {failing}"
    );
    (written, has_failed)
}

/// Runs a script with each call of a link failing in turn, until none is left; how many there were.
fn cut(rt: &impl Abort, alloc: Global, script: &str, arrives: Arrives) -> u64 {
    let (want, _) = run(rt, alloc, script, u64::MAX, arrives);
    for calls in 0..MOST_CALLS {
        let (written, has_failed) = run(rt, alloc, script, calls, arrives);
        assert!(rt; written == want, "call {calls}");
        if !has_failed {
            return calls;
        }
    }
    0
}

#[test]
fn a_link_that_fails_changes_no_answer(rt: HostRuntime) {
    for script in [ONE, TWO] {
        let nothing = cut(&rt, rt.alloc(), script, Arrives::Nothing);
        let half = cut(&rt, rt.alloc(), script, Arrives::Half);
        let all = cut(&rt, rt.alloc(), script, Arrives::All);
        assert!(rt;
            nothing > 5 && half == nothing && all == nothing,
            "{nothing} {half} {all}"
        );
    }
}
