//! A server as a function of its messages: its activations, what it does with a call, and the laws of it.
#![tactic(auto)]

pub mod activation_view;
pub mod counted;
pub mod fault;
pub mod hold;
pub mod laws;
