//! What a container's numbers keep, whatever it is told: each activation has room for what it may be asked without a
//! check, there are never more frames than there may be, and all is in one session.
#![tactic(auto)]

pub mod sound_laws;
