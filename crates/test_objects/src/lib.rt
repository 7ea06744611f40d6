//! Tests of embedded objects, their states and a frame's grant by their public calls.
//!
//! Tests of the OLE streams and of documents by their public calls.
#![tactic(auto)]

#[cfg(test)]
mod calls;
#[cfg(test)]
mod documents;
#[cfg(test)]
mod drawings;
#[cfg(test)]
mod grants;
#[cfg(test)]
mod kinds;
#[cfg(test)]
mod notes;
#[cfg(test)]
mod objects;
#[cfg(test)]
mod rows;
#[cfg(test)]
mod states;
#[cfg(test)]
mod steps;
#[cfg(test)]
mod streams;
#[cfg(test)]
mod tables;
#[cfg(test)]
mod tallies;
#[cfg(test)]
mod texts;
#[cfg(test)]
mod words;
