//! The lives of servers.

/// How far a server's life is.
#[derive(Clone, Copy)]
pub enum Life {
    /// It runs.
    Running,
    /// It has ended, and its end isn't told yet.
    Ended,
    /// It has ended, and its end was told.
    Reaped,
}
