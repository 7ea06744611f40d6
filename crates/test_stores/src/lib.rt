//! Tests of the store by its public calls, over disks in memory and over files.
#![tactic(auto)]

#[cfg(test)]
mod crashes;
#[cfg(test)]
mod failing;
#[cfg(test)]
mod faults;
#[cfg(test)]
mod files;
#[cfg(test)]
mod folder;
#[cfg(test)]
mod refusals;
#[cfg(test)]
mod resolving;
#[cfg(test)]
mod runs;
#[cfg(test)]
mod short;
#[cfg(test)]
mod wide;
