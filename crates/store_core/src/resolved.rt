//! Commits whose end is known: after an error the disk is opened again, and its document compared.

ghost use Rattle.store_model.specs.Crash.{Rose, StaysIn};
ghost use Rattle.store_model.specs.Store.{IsBeforeOrAfter, StandsAsOneOf, StandsFor};
ghost use Rattle.store_model.specs.declared.fault.StoreFault.TheVariants.{Device};
ghost use Rattle.store_core.specs.Opened.{disk_of, needs_reopen_of};
ghost use Rattle.store_core.specs.Resolved.{Ends, IsLostFor, IsTold, LostAs, ReopenRefuses};
ghost use Rattle.std.specs.Prelude.{◌≡◌, false, true, IfErr, IfOk, length};

use crate::outcome::Outcome;
use crate::refused::Refused;
use crate::store::Store;
use store_model::disk::Disk;
use store_model::fault::StoreFault;

/// Makes these bytes the document. After an error the disk is opened again, and its document tells how the commit
/// ended: `Kept` where it is these bytes, `Lost` with the commit's error where it is the one from before. Both give a
/// store that needn't be opened again.
///
/// Where the disk can't be opened again, or its document can't be read, it is handed back, with that fault.
pub fn commit_resolved<D: Disk>(
    store: Store<D>,
    bytes: &[u8],
) -> Result<(Outcome, Store<D>), Refused<D>>
    ensures ends { D.follows_model → needs_reopen_of store ≡ false
        → IfOk result (λ r. Ends r.0 (D.reads (disk_of store)).document bytes.now
        (D.reads (disk_of r.1)).document) }
    ensures told { D.follows_model → IfOk result (λ r. IsTold r.0 bytes.now (D.reads (disk_of r.1)).document) }
    ensures lost { IfOk result (λ r. LostAs r.0 (length bytes.now) (needs_reopen_of store)
        (D.failed (disk_of store)) (D.failed (disk_of r.1))) }
    ensures ready { IfOk result (λ r. needs_reopen_of r.1 ≡ false) }
    ensures any_moment { D.follows_model → needs_reopen_of store ≡ false
        → IfOk result (λ r. StaysIn D.may_leave D.moment D.left_since (disk_of store) (disk_of r.1)
        (IsBeforeOrAfter (D.reads (disk_of store)).document bytes.now)) }
    ensures any_moment_refused { D.follows_model → needs_reopen_of store ≡ false
        → IfErr result (λ refused. StaysIn D.may_leave D.moment D.left_since (disk_of store) refused.disk
        (IsBeforeOrAfter (D.reads (disk_of store)).document bytes.now)) }
    ensures as_before { D.follows_model → needs_reopen_of store ≡ true
        → IfOk result (λ r. StaysIn D.may_leave D.moment D.left_since (disk_of store) (disk_of r.1)
        (StandsAsOneOf (D.may_leave (disk_of store)))) }
    ensures as_before_refused { D.follows_model → needs_reopen_of store ≡ true
        → IfErr result (λ refused. StaysIn D.may_leave D.moment D.left_since (disk_of store) refused.disk
        (StandsAsOneOf (D.may_leave (disk_of store)))) }
    ensures refuses { IfErr result (λ refused. ReopenRefuses D.follows_model (needs_reopen_of store)
        (D.failed (disk_of store)) (D.failed refused.disk) refused.fault) }
{
    let mut store = store;
    match store.commit(bytes) {
        Ok(()) => Ok((Outcome::Kept, store)),
        Err(first) => match store.reopen() {
            Ok(opened) => compared(opened, bytes, first),
            Err(refused) => Err(refused),
        },
    }
}

/// Whether a store that was opened again has these bytes.
fn compared<D: Disk>(
    store: Store<D>,
    bytes: &[u8],
    first: StoreFault,
) -> Result<(Outcome, Store<D>), Refused<D>>
    requires { needs_reopen_of store ≡ false }
    ensures told { D.follows_model → IfOk result (λ r. IsTold r.0 bytes.now (D.reads (disk_of store)).document) }
    ensures lost { IfOk result (λ r. IsLostFor first r.0) }
    ensures same { D.follows_model → IfOk result (λ r. D.reads (disk_of r.1) ≡ D.reads (disk_of store)) }
    ensures ready { IfOk result (λ r. needs_reopen_of r.1 ≡ false) }
    ensures count { IfOk result (λ r. D.failed (disk_of r.1) ≡ D.failed (disk_of store)) }
    ensures any_moment { D.follows_model
        → IfOk result (λ r. StaysIn D.may_leave D.moment D.left_since (disk_of store) (disk_of r.1)
        (StandsFor (D.reads (disk_of store)).document)) }
    ensures any_moment_refused { D.follows_model
        → IfErr result (λ refused. StaysIn D.may_leave D.moment D.left_since (disk_of store) refused.disk
        (StandsFor (D.reads (disk_of store)).document)) }
    ensures device { IfErr result (λ refused. refused.fault ≡ Device) }
    ensures rose { IfErr result (λ refused. Rose (D.failed (disk_of store)) (D.failed refused.disk)) }
{
    let mut store = store;
    match store.holds(bytes) {
        Ok(is) => {
            if is {
                return Ok((Outcome::Kept, store));
            }
            Ok((Outcome::Lost(first), store))
        }
        Err(_) => Err(Refused {
            fault: StoreFault::Device,
            disk: store.into_disk(),
        }),
    }
}
