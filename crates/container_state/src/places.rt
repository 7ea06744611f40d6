//! Where an object and its frame stand, for the steps that are asked of them.

ghost use Rattle.std.specs.Prelude.{◌≡◌, ◌≢◌, IfErr, IfOk, IfSome, IsSomeAnd, OnOk, Result, slice_get};
ghost use Rattle.container_model.specs.Located.{located, ready};
ghost use Rattle.container_model.specs.Numbered.{IsNth, IsObjectAt};
ghost use Rattle.container_model.specs.Record.{Refuses, Took};
ghost use Rattle.container_model.specs.declared.fault.ContainerFault.{ContainerFault};
ghost use Rattle.container_model.specs.declared.fault.ContainerFault.TheVariants.{NoMemory};
ghost use Rattle.container_model.specs.declared.record.Frame.{Frame};
ghost use Rattle.container_model.specs.declared.record.Object.{Object};

use crate::state::State;
use container_checks::checks;
use container_checks::lookups::place_object;
use container_model::fault::ContainerFault;
use container_model::record::{Frame, Object};

// Whether an object may be asked for something, in its frame.
//
// Refused: `InDoubt`, `Busy`.
fn may_ask(frame: &Frame, object: &Object) -> Result<(), ContainerFault>
    ensures may { OnOk result ((step : Object → Frame → Result Took ContainerFault)
        → ready step object.now frame.now ≡ step object.now frame.now) }
    ensures refused { IfErr result (λ e. (step : Object → Frame → Result Took ContainerFault)
        → Refuses (ready step object.now frame.now) e) }
    ensures memory { IfErr result (λ fault. fault ≢ NoMemory) }
{
    if checks::is_doubtful(frame.phase) {
        return Err(ContainerFault::InDoubt);
    }
    if checks::is_saving(frame.phase) {
        return Err(ContainerFault::Busy);
    }
    let state = frame.ui.state();
    if checks::is_busy(&state, object) {
        return Err(ContainerFault::Busy);
    }
    Ok(())
}

impl State {
    /// Where the object of this number stands, and its frame.
    ///
    /// Refused: `NoSuch`.
    pub(crate) fn place_both(&self, object: u32) -> Result<(usize, usize), ContainerFault>
        ensures place { IfOk result (λ p. IsObjectAt self.now.objects p.0) }
        ensures frame { IfOk result (λ p. IfSome (slice_get self.now.objects p.0)
            (λ o. IsNth o.frame self.now.frames p.1)) }
        ensures step { IfOk result (λ p. IsSomeAnd (slice_get self.now.objects p.0)
            (λ o. IsSomeAnd (slice_get self.now.frames p.1)
            (λ frame. (step : Object → Frame → Result Took ContainerFault) → located self.now object step
            ≡ step o frame))) }
        ensures refused { IfErr result (λ e. (step : Object → Frame → Result Took ContainerFault)
            → Refuses (located self.now object step) e) }
        ensures memory { IfErr result (λ fault. fault ≢ NoMemory) }
    {
        let Some(i) = place_object(&self.objects, object) else {
            return Err(ContainerFault::NoSuch);
        };
        let Some(at) = self.frames.place(self.objects.list[i].frame) else {
            return Err(ContainerFault::NoSuch);
        };
        Ok((i, at))
    }

    /// The same where the object may be asked for something.
    ///
    /// Refused: `NoSuch`; `InDoubt` and `Busy` where the commit of its frame is in doubt, the frame is saving, or the
    /// object has a pending call or waits for the frame.
    pub(crate) fn place_ready(&self, object: u32) -> Result<(usize, usize), ContainerFault>
        ensures place { IfOk result (λ p. IsObjectAt self.now.objects p.0) }
        ensures frame { IfOk result (λ p. IfSome (slice_get self.now.objects p.0)
            (λ o. IsNth o.frame self.now.frames p.1)) }
        ensures step { IfOk result (λ p. IsSomeAnd (slice_get self.now.objects p.0)
            (λ o. IsSomeAnd (slice_get self.now.frames p.1)
            (λ frame. (step : Object → Frame → Result Took ContainerFault) → located self.now object (ready step)
            ≡ step o frame))) }
        ensures refused { IfErr result (λ e. (step : Object → Frame → Result Took ContainerFault)
            → Refuses (located self.now object (ready step)) e) }
        ensures memory { IfErr result (λ fault. fault ≢ NoMemory) }
    {
        let (i, at) = match self.place_both(object) {
            Ok(places) => places,
            Err(fault) => return Err(fault),
        };
        match may_ask(&self.frames[at], &self.objects.list[i]) {
            Ok(()) => Ok((i, at)),
            Err(fault) => Err(fault),
        }
    }
}
