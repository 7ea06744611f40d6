//! Why a frame's grant refuses a call.
ghost use Rattle.std.specs.Prelude.{◌≡◌};
ghost use Rattle.object_state.specs.GrantFaults.{fault_name};

use thiserror::Error;

/// Why a frame's grant refuses a call. A refused call changes nothing, but for `NoToolSpace`.
#[derive(Clone, Copy, Debug, Error)]
pub enum GrantFault {
    /// The border that was asked for leaves no room in the frame. The object holds the frame all the
    /// same, with its menus and a border of zero (INPLACE_E_NOTOOLSPACE).
    #[error("NoToolSpace")]
    NoToolSpace,
    /// The grant isn't the one that is to be answered.
    #[error("NotHolder")]
    NotHolder,
    /// The frame is being granted or given up.
    #[error("Busy")]
    Busy,
}

impl GrantFault {
    /// The name of the fault, and nothing else.
    pub fn name(&self) -> &'static str
        ensures { result.now ≡ fault_name self.now }
    {
        match self {
            GrantFault::NoToolSpace => "NoToolSpace",
            GrantFault::NotHolder => "NotHolder",
            GrantFault::Busy => "Busy",
        }
    }
}
