//! Tests of files as folders over a folder in memory, of the calls that other languages have, of listings and maps, and
//! of streams read by places.
//!
//! Tests of the commands over readers, sources and writers that fail, which the built program can't show. All else of
//! them is shown by the cases of `tests/cli`.
#![tactic(auto)]

#[cfg(test)]
mod calls;
#[cfg(test)]
mod commands;
#[cfg(test)]
mod ends;
#[cfg(test)]
mod listings;
#[cfg(test)]
mod maps;
#[cfg(test)]
mod memory;
#[cfg(test)]
mod refusals;
#[cfg(test)]
mod seeking;
#[cfg(test)]
mod trips;
