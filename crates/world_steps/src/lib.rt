//! Each step of a container and each call to a server is a list of shapes of change.
#![tactic(auto)]
