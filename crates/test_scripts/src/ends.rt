//! A link of one server, to its end.

use server_links::link::{Pause, serve_link};
use server_links::serving::{End, Serving};
use std::alloc::Global;
use std::process::Abort;

/// How a link ends on which these bytes come, where these are written on it.
fn ends(rt: &impl Abort, alloc: Global, sent: &[u8], want: &[u8]) -> &'static str {
    let mut serving = Serving::new(alloc);
    serving.start(alloc, 1, 7, 10).expect(rt, "memory");
    serving.begin(alloc);
    let mut reader = sent;
    let mut writer = Vec::new(alloc);
    let pause = serve_link(alloc, &mut serving, &mut reader, &mut writer).expect(rt, "memory");
    if writer.as_slice() != want {
        return "other bytes";
    }
    match pause {
        Pause::Over(End::Closed) => "closed",
        Pause::Over(End::Faulty(_)) => "faulty",
        _ => "other",
    }
}

#[test]
fn a_link_is_served_to_its_end(rt: HostRuntime) {
    let one = b"OLCM\x02\x05\0\0\0\0";
    let two = b"OLCM\x02\x05\0\0\0\0OLCM\x02\x05\0\0\0\0";
    let other = b"OLCM\x02\x05\0\0\0\0OLCX";
    let closed = ends(&rt, rt.alloc(), two, two);
    let faulty = ends(&rt, rt.alloc(), other, one);
    assert!(rt;
        closed == "closed" && faulty == "faulty",
        "{closed} {faulty}"
    );
}
