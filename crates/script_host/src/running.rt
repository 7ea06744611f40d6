//! Servers that were started.

use std::net::Net;
use std::process::{Child, OpenProcess, Processes};

/// A server that was started. Where it is dropped, it is ended and awaited.
pub(crate) struct Running<R: Net + Processes> {
    pub(crate) inc: u32,
    pub(crate) port: u16,
    pub(crate) stream: Option<R::Stream>,
    pub(crate) child: Child<R::Started>,
}

impl<R: Net + Processes> Drop for Running<R> {
    fn drop(self) {
        let Running {
            inc: _,
            port: _,
            stream,
            mut child,
        } = self;
        drop(stream);
        let _ = child.kill();
        let _ = child.wait();
    }
}
