//! The save that raises the session, whose disk stops for good. What a crash then leaves of the disk is no document
//! yet, or that of the session, whatever becomes of what was pending.

use crate::disks::{START, document, run_script_on};
use std::alloc::Global;
use std::process::Abort;
use store_memory::memory_disk::{Faults, MemoryDisk};
use test_disks::images::{PENDING, crashed};

/// The most calls of a disk that are tried.
const MOST_CALLS: u64 = 300;

/// Whether each crash of a disk leaves nothing, or this document; and how many leave it.
fn leaves(rt: &impl Abort, alloc: Global, left: &MemoryDisk, raised: &[u8]) -> (bool, u64) {
    let calls = left.calls().len();
    let mut count = 0u64;
    for of_document in PENDING {
        for of_journal in PENDING {
            let disk = crashed(alloc, left, calls, of_document, of_journal).expect(rt, "memory");
            let found = document(rt, alloc, disk);
            if found.as_slice() == raised {
                count = count.saturating_add(1);
            } else if !found.is_empty() {
                return (false, count);
            }
        }
    }
    (true, count)
}

#[test]
fn a_disk_that_stops_at_a_start_holds_the_session_or_nothing(rt: HostRuntime) {
    let alloc = rt.alloc();
    let whole = run_script_on(&rt, alloc, START, 0, Faults::Never);
    let raised = document(&rt, alloc, whole.disk);
    let (mut empty, mut held) = (0u64, 0u64);
    for calls in 0..MOST_CALLS {
        let ran = run_script_on(&rt, alloc, START, 0, Faults::From(calls));
        let (is_so, count) = leaves(&rt, alloc, &ran.disk, &raised);
        assert!(rt; is_so, "a crash after {calls} calls");
        held = held.saturating_add(count);
        empty = empty.saturating_add(16u64.saturating_sub(count));
        if ran.disk.failures() == 0 {
            assert!(rt; count == 16 && empty > 16 && held > 16, "{empty} {held}");
            return;
        }
    }
    assert!(rt; false, "a run whose disk doesn't stop");
}
