//! Tests of scripts by their public call, over a host whose files are disks in memory that fail.
//!
//! Tests of scripts by their public call, over servers in memory whose links fail or that memory is refused to, and of
//! what their saves write.
#![tactic(auto)]

#[cfg(test)]
mod crashes;
#[cfg(test)]
mod cuts;
#[cfg(test)]
mod disks;
#[cfg(test)]
mod ends;
#[cfg(test)]
mod failing_saves;
#[cfg(test)]
mod files;
#[cfg(test)]
mod given;
#[cfg(test)]
mod refusals;
#[cfg(test)]
mod saves;
#[cfg(test)]
mod server;
#[cfg(test)]
mod servers;
#[cfg(test)]
mod sessions;
#[cfg(test)]
mod sockets;
#[cfg(test)]
mod stops;
#[cfg(test)]
mod wire;
