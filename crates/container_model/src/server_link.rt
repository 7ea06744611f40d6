//! Links of servers.

/// The link of a server, by what names the server: a session of the container, and the incarnation in it.
#[derive(Clone, Copy)]
pub struct ServerLink {
    /// The session in which the server was started.
    pub session: u32,
    /// Its incarnation.
    pub inc: u32,
}
