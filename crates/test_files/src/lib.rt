//! Tests of sectors, directories, trees and whole files by their public calls.
//!
//! Tests of checks of files, and of the places that they tell.
#![tactic(auto)]

#[cfg(test)]
mod chains;
#[cfg(test)]
mod checks;
#[cfg(test)]
mod directories;
#[cfg(test)]
mod places;
#[cfg(test)]
mod reading;
#[cfg(test)]
mod refusals;
#[cfg(test)]
mod searches;
#[cfg(test)]
mod streams;
#[cfg(test)]
mod texts;
#[cfg(test)]
mod trees;
#[cfg(test)]
mod writing;
