//! The states of a frame's grant.
ghost use Rattle.std.specs.Prelude.{◌≡◌, Ok};
ghost use Rattle.object_state.specs.Grants.{Ask, Granted, Revoked, Lost, IsApart, table, is_own, is_another, passed_on};
ghost use Rattle.object_state.specs.Grants.{but_for};
ghost use Rattle.object_state.specs.Grants as grant;

use crate::Menus;
use crate::grant_faults::GrantFault;

/// An object that holds the frame or asks for it: its number, its activation's, and that of the grant.
#[derive(Clone, Copy)]
pub struct Claim {
    /// The object.
    pub object: u32,
    /// Its activation.
    pub act: u32,
    /// The grant that was drawn for it.
    pub g: u32,
}

/// What a holder answers to its grant: the menus that it adds, and the widths of the border space that
/// it asks for, in cells: left, top, right, bottom.
#[derive(Clone, Copy)]
pub struct Tools {
    /// The menus that it adds.
    pub menus: Menus,
    /// Left, top, right, bottom.
    pub border: [u16; 4],
}

/// The state of a frame's grant.
#[derive(Clone, Copy)]
pub enum GrantState {
    /// No object has the frame or is to get it.
    Free,
    /// The object is told that it gets the frame, and hasn't answered.
    Granting(Claim),
    /// The object has the frame.
    Held {
        /// Who has it.
        holder: Claim,
        /// What it answered.
        tools: Tools,
    },
    /// The holder is told to give the frame up, and hasn't answered.
    Revoking {
        /// Who is to give it up.
        holder: Claim,
        /// Who gets it then, if any.
        waiting: Option<Claim>,
    },
}

impl GrantState {
    /// Who has the frame or is to get it: at most one object, and none where the frame is free.
    pub fn who(self) -> Option<Claim>
        ensures { result ≡ grant.who self }
    {
        match self {
            GrantState::Free => None,
            GrantState::Granting(claim) => Some(claim),
            GrantState::Held { holder, .. } | GrantState::Revoking { holder, .. } => Some(holder),
        }
    }

    /// Who gets the frame once its holder has given it up, if any object waits for it.
    pub fn waiting(self) -> Option<Claim>
        ensures { result ≡ grant.waiting self }
    {
        match self {
            GrantState::Revoking { waiting, .. } => waiting,
            _ => None,
        }
    }
}

// What the frame alone calls is no method: a type is read with all of its methods by whoever holds a value of it.
// Whether the claim is the holder's own, by its activation and grant: it is to give the frame up.
fn is_own(claim: Claim, holder: Claim) -> bool
    ensures { result ≡ is_own holder claim }
{
    claim.act == holder.act && claim.g == holder.g
}

// Whether the claim is another object's, by an activation of its own.
fn is_another(claim: Claim, holder: Claim) -> bool
    ensures { result ≡ is_another holder claim }
{
    claim.object != holder.object && claim.act != holder.act
}

// The state after an object asked.
pub(crate) fn asked(state: GrantState, claim: Claim) -> Result<GrantState, GrantFault>
    ensures { result ≡ table state (Ask claim) }
{
    match state {
        GrantState::Free => Ok(GrantState::Granting(claim)),
        GrantState::Held { holder, .. } => {
            if is_own(claim, holder) {
                return Ok(GrantState::Revoking {
                    holder,
                    waiting: None,
                });
            }
            if is_another(claim, holder) {
                return Ok(GrantState::Revoking {
                    holder,
                    waiting: Some(claim),
                });
            }
            Err(GrantFault::Busy)
        }
        _ => Err(GrantFault::Busy),
    }
}

// The state after an object answered its grant.
pub(crate) fn granted(state: GrantState, g: u32, tools: Tools) -> Result<GrantState, GrantFault>
    ensures { result ≡ table state (Granted g tools) }
{
    match state {
        GrantState::Granting(holder) if g == holder.g => Ok(GrantState::Held { holder, tools }),
        _ => Err(GrantFault::NotHolder),
    }
}

// The state after a holder gave the frame up.
pub(crate) fn revoked(state: GrantState, g: u32) -> Result<GrantState, GrantFault>
    ensures { result ≡ table state (Revoked g) }
{
    match state {
        GrantState::Revoking { holder, waiting } if g == holder.g => Ok(passed_on(waiting)),
        _ => Err(GrantFault::NotHolder),
    }
}

// The state after an activation was lost.
pub(crate) fn lost(state: GrantState, act: u32) -> GrantState
    ensures { table state (Lost act) ≡ Ok result }
{
    match state {
        GrantState::Granting(holder) | GrantState::Held { holder, .. } if act == holder.act => {
            GrantState::Free
        }
        GrantState::Revoking { holder, waiting } => {
            if act == holder.act {
                return passed_on(waiting);
            }
            GrantState::Revoking {
                holder,
                waiting: but_for(act, waiting),
            }
        }
        _ => state,
    }
}

// The state once the holder is gone.
fn passed_on(waiting: Option<Claim>) -> GrantState
    ensures { result ≡ passed_on waiting }
{
    match waiting {
        Some(claim) => GrantState::Granting(claim),
        None => GrantState::Free,
    }
}

// Whoever waits, but for this activation.
fn but_for(act: u32, waiting: Option<Claim>) -> Option<Claim>
    ensures { result ≡ but_for act waiting }
{
    match waiting {
        Some(claim) if act != claim.act => Some(claim),
        _ => None,
    }
}
