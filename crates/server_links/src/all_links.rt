//! A server over one link after another.

ghost use Rattle.server_links.specs.Events.{Closed};
ghost use Rattle.server_links.specs.Served.{HasStopped, HasWanted, IsNext};
ghost use Rattle.server_links.specs.Turns.{first_turn};
ghost use Rattle.std.specs.Prelude.{◌∷◌, IfOk, OnErr};

use crate::kinds::{Kind, kind_of_class, new_drawing, new_note, new_table};
use crate::link::{Pause, serve_link};
use crate::links::{Link, Links};
use crate::serving::Serving;
use object_core::tally::Tally;
use std::alloc::{AllocError, Global};
use std::io::{Read, Write};

/// The most links that a server serves, one after another.
pub const MOST_LINKS: u32 = 100;

/// Why a server serves no other link.
#[derive(Clone, Copy)]
pub enum Stop {
    /// None came.
    NoLink,
    /// It served as many as it may.
    MostLinks,
    /// The last one goes on, and the server stood still more than 2^63 times.
    Long,
}

/// Closes a link, and asks for the next one where fewer were served than may be.
fn next_link<L: Links>(
    links: &mut L,
    over: Link<L::Reader, L::Writer>,
    served: u32,
) -> Result<Link<L::Reader, L::Writer>, Stop>
    ensures { IsNext result served (Closed over ∷ L.told links.old) (L.told links.new) }
{
    links.close(over);
    if served >= MOST_LINKS {
        return Err(Stop::MostLinks);
    }
    match links.next() {
        Some(link) => Ok(link),
        None => Err(Stop::NoLink),
    }
}

/// Is the server of this session and incarnation, which may have so many activations, and each so many writes: serves
/// one link after another, until no other one comes. A call that wants a note, a table or a drawing gets a new one; one
/// that wants another object is passed over. A link that came is closed on every way out, and before the next one is
/// asked for.
///
/// Refused for want of memory alone: before a link was asked for, or on the last one. The links before that one were
/// served to their ends, and nothing was written on it of the frame that memory was wanted for.
pub fn serve_links<L: Links>(
    alloc: Global,
    tally: &Tally,
    links: &mut L,
    session: u32,
    inc: u32,
    numbers: u32,
) -> Result<Stop, AllocError>
    ensures stopped { IfOk result (λ stop. HasStopped stop L.Reader.remaining L.Writer.contents
        (first_turn session inc numbers) (L.told links.old) (L.told links.new)) }
    ensures wanting { OnErr result (HasWanted L.Reader.remaining L.Writer.contents (first_turn session inc numbers)
        (L.told links.old) (L.told links.new)) }
{
    let mut serving = Serving::new(alloc);
    serving.start(alloc, session, inc, numbers)?;
    let Some(mut link) = links.next() else {
        return Ok(Stop::NoLink);
    };
    let mut served = 0;
    for _ in 0..u64::MAX {
        let pause = match serve_link(alloc, &mut serving, &mut link.reader, &mut link.writer) {
            Ok(pause) => pause,
            Err(error) => {
                links.close(link);
                return Err(error);
            }
        };
        match pause {
            Pause::Wants(class) => {
                let offered = match kind_of_class(&class) {
                    Kind::Note => match new_note(alloc, tally) {
                        Ok(note) => serving.offer(alloc, note),
                        Err(error) => Err(error),
                    },
                    Kind::Table => match new_table(alloc, tally) {
                        Ok(table) => serving.offer(alloc, table),
                        Err(error) => Err(error),
                    },
                    Kind::Drawing => match new_drawing(alloc, tally) {
                        Ok(drawing) => serving.offer(alloc, drawing),
                        Err(error) => Err(error),
                    },
                    Kind::Other => Ok(()),
                };
                if let Err(error) = offered {
                    links.close(link);
                    return Err(error);
                }
                continue;
            }
            Pause::Long => continue,
            Pause::Over(_) => {}
        }
        served += 1;
        serving.begin(alloc);
        match next_link(links, link, served) {
            Ok(next) => link = next,
            Err(stop) => return Ok(stop),
        }
    }
    links.close(link);
    Ok(Stop::Long)
}
