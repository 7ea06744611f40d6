//! Tests of containers by their public calls: what no run of the built program shows.
#![tactic(auto)]

#[cfg(test)]
mod answers;
#[cfg(test)]
mod containers;
#[cfg(test)]
mod events;
#[cfg(test)]
mod files;
#[cfg(test)]
mod images;
#[cfg(test)]
mod messages;
#[cfg(test)]
mod opens;
#[cfg(test)]
mod shown;
#[cfg(test)]
mod words;
