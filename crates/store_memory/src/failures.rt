//! The count of a disk's failures.

ghost use Rattle.store_model.specs.Crash.{Rose};
ghost use Rattle.std.specs.Prelude.{◌≤◌};

use store_model::disk::DiskFailure;

/// Counts a failure.
pub(crate) fn fail(failed: &mut u64) -> DiskFailure
    ensures later { failed.old ≤ failed.new }
    ensures rose { Rose failed.old failed.new }
{
    *failed = failed.saturating_add(1);
    DiskFailure
}

/// Counts a failure for want of memory, among all of them and by itself.
pub(crate) fn refuse(failed: &mut u64, refused: &mut u64) -> DiskFailure
    ensures later { failed.old ≤ failed.new }
    ensures rose { Rose failed.old failed.new }
    ensures refused { Rose refused.old refused.new }
{
    *refused = refused.saturating_add(1);
    fail(failed)
}
