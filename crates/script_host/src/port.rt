//! The first line of a server, which has its port.

use std::io::{self, ErrorKind, Read};
use std::os::unix::net::UnixStream;
use std::time::{Clock, Duration, Instant};

/// The most digits of a port, and its line feed.
const LINE: usize = 6;

/// Reads a byte, where it comes before so long is over since then.
fn read_byte<R: Clock>(
    rt: &R,
    stdout: &UnixStream,
    began: &Instant,
    limit: Duration,
) -> io::Result<u8> {
    let left = limit.saturating_sub(began.elapsed(rt)?);
    if left.is_zero() {
        return Err(ErrorKind::TimedOut.into());
    }
    stdout.set_read_timeout(Some(left))?;
    let mut from = stdout;
    let mut byte = [0u8];
    from.read_exact(&mut byte)?;
    Ok(byte[0])
}

/// Reads a port's digits and a line feed, and nothing behind it, where all of it comes in that time.
pub(crate) fn read_port<R: Clock>(rt: &R, stdout: &UnixStream, limit: Duration) -> Option<u16> {
    let began = Instant::now(rt).ok()?;
    let mut port = 0u32;
    for place in 0..LINE {
        match read_byte(rt, stdout, &began, limit).ok()? {
            b'\n' if place > 0 && port > 0 => return u16::try_from(port).ok(),
            digit @ b'0'..=b'9' => port = port
                .wrapping_mul(10)
                .wrapping_add(u32::from(digit - b'0')),
            _ => return None,
        }
    }
    None
}
