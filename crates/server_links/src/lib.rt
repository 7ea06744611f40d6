//! What a server does with a link: it reads frames up to a Turn, answers each call, writes of its own accord what was
//! edited, and gives the turn back.
//!
//! A server that serves one link after another: whoever gives the links, and the loop over them.
#![tactic(auto)]

pub mod all_links;
mod fronts;
mod kinds;
pub mod link;
pub mod links;
pub mod serving;
