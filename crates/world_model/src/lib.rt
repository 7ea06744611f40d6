//! A world as a function of its events: a container, its servers, all messages ever sent and the files, what each event
//! makes of them, and what it is that every world is safe.
//!
//! A story as a function of what happens: a container that stops and starts again, the world of its present run and
//! what is left of those before it, and what it is that every story is safe.
#![tactic(auto)]

pub mod event;
pub mod life;
pub mod logs;
pub mod moment;
pub mod worked;
pub mod worked_stories;
