//! Whoever gives links to a server.

ghost use Rattle.server_links.specs.Events.{Came, Closed, Event};
ghost use Rattle.std.specs.Prelude.{◌≡◌, ◌∷◌, List};

use std::io::{Read, Write};

/// A link: what is read of it, and what is written to it.
#[derive(Drop)]
pub struct Link<R, W> {
    pub reader: R,
    pub writer: W,
}

/// What gives links, one after another.
pub trait Links {
    /// What is read of a link.
    type Reader: Read + Drop;

    /// What is written to a link.
    type Writer: Write + Drop;

    /// The links that came and were closed, each as it was then, the newest first.
    ghost told: { Self → List (Event Self.Reader Self.Writer) };

    /// The next link; none where no other one comes.
    fn next(&mut self) -> Option<Link<Self::Reader, Self::Writer>>
        ensures { told self.new ≡ Came result ∷ told self.old };

    /// Closes a link.
    fn close(&mut self, link: Link<Self::Reader, Self::Writer>)
        ensures { told self.new ≡ Closed link ∷ told self.old };
}
