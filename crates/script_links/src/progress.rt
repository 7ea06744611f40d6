//! What a script that is carried out has.

use crate::links::Link;
use container_core::container::ContainerCore;
use script_model::answer::Told;

/// A script that is carried out: its container, the links to the servers that run, what was noticed first since the
/// command began, and room for what is read of a link at once.
#[derive(Drop)]
pub struct Progress {
    pub core: ContainerCore,
    pub links: Vec<Link>,
    pub noticed: Option<Told>,
    pub buffer: Vec<u8>,
}
