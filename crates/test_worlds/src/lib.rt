//! Tests of worlds by their public calls: what no run of the built program shows.
#![tactic(auto)]

#[cfg(test)]
mod files;
#[cfg(test)]
mod moments;
#[cfg(test)]
mod refusals;
#[cfg(test)]
mod reports;
#[cfg(test)]
mod shown;
#[cfg(test)]
mod words;
#[cfg(test)]
mod worlds;
