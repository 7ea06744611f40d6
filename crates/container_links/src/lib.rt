//! Activations of objects as a container has them: what is asked of them, what a reply makes of them, when they may
//! write, and how saves go on once all of a frame have answered.
#![tactic(auto)]

pub mod asking;
pub mod calling;
pub mod closing;
pub mod handing;
pub mod replies;
pub mod requests;
pub mod resending;
pub mod settling;
mod turns;
pub mod writes;
