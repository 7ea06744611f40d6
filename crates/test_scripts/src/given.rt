//! A server over links in memory, one after another.

ghost use Rattle.server_links.specs.Events.{Closed};
ghost use Rattle.std.specs.Prelude.{◌≡◌, ◌∷◌};

use crate::wire::{Inward, Outward};
use object_core::tally::Tally;
use script_model::values::Values;
use server_links::all_links::{Stop, serve_links};
use server_links::links::{Link, Links};
use std::alloc::{AllocError, Global};
use std::process::Abort;

/// A Turn, as bytes.
const TURN: &[u8] = b"OLCM\x02\x05\0\0\0\0";

/// So many links, on each of which a Turn comes and then nothing; and how many bytes were written on those that were
/// closed.
#[derive(Drop)]
struct Given {
    alloc: Global,
    left: u32,
    written: usize,
    told: Values<Option<Link<Inward, Outward>>, bool>,
}

fn new_link(alloc: Global) -> Result<Link<Inward, Outward>, AllocError> {
    let mut reader = Inward::new(alloc);
    reader.send(TURN)?;
    Ok(Link {
        reader,
        writer: Outward::new(alloc),
    })
}

impl Links for Given {
    type Reader = Inward;

    type Writer = Outward;

    ghost told = { λ l. l.told.items };

    fn next(&mut self) -> Option<Link<Inward, Outward>> {
        let link = if self.left == 0 {
            None
        } else {
            self.left -= 1;
            new_link(self.alloc).ok()
        };
        self.told = self.told.and(&link, &true);
        link
    }

    fn close(&mut self, link: Link<Inward, Outward>)
        ensures { self.new.told.items ≡ Closed link ∷ self.old.told.items }
    {
        let closed = Some(link);
        self.told = self.told.and(&closed, &false);
        if let Some(mut over) = closed {
            let mut into = [0u8; 32];
            self.written = self.written.saturating_add(over.writer.take(&mut into));
        }
    }
}

/// How a server ends to which so many links are made, and how many bytes it wrote.
fn ends(rt: &impl Abort, alloc: Global, links: u32) -> (&'static str, usize) {
    let tally = Tally::new(alloc).expect(rt, "memory");
    let mut given = Given {
        alloc,
        left: links,
        written: 0,
        told: Values::new(),
    };
    let stop = serve_links(alloc, &tally, &mut given, 1, 7, 10).expect(rt, "memory");
    let told = match stop {
        Stop::NoLink => "no link",
        Stop::MostLinks => "most links",
        Stop::Long => "long",
    };
    (told, given.written)
}

#[test]
fn links_are_served_one_after_another(rt: HostRuntime) {
    let (few, few_bytes) = ends(&rt, rt.alloc(), 3);
    let (many, many_bytes) = ends(&rt, rt.alloc(), 101);
    assert!(rt;
        few == "no link" && few_bytes == 30 && many == "most links" && many_bytes == 1_000,
        "{few} {few_bytes} {many} {many_bytes}"
    );
}
