//! What the delivery of a message comes to.

/// What the delivery of a message comes to, before anything changes.
#[derive(Clone, Copy, PartialEq, Eq)]
pub(crate) enum Plan {
    /// Nothing: the server has ended.
    Quiet,
    /// The container takes it as one of this server's.
    Tell(u32),
    /// The server that stands here takes it.
    Serve(usize),
    /// The server that stands here makes an activation, with the object that stands there in stock.
    Begin(usize, usize),
}
