//! Tests of images by their public calls.
//!
//! Tests of edits by their public calls, over disks in memory.
#![tactic(auto)]

#[cfg(test)]
mod crashes;
#[cfg(test)]
mod edits;
#[cfg(test)]
mod making;
#[cfg(test)]
mod placing;
#[cfg(test)]
mod random_edits;
#[cfg(test)]
mod random_images;
#[cfg(test)]
mod refusals;
#[cfg(test)]
mod runs;
#[cfg(test)]
mod trees;
#[cfg(test)]
mod trimming;
#[cfg(test)]
mod wide;
#[cfg(test)]
mod zeroing;
#[cfg(test)]
mod zeros;
