//! Where the links of servers stand.

ghost use Rattle.script_links.specs.Links.{IsLinkAt, links_of};
ghost use Rattle.std.specs.Prelude.{◌≡◌, ◌<◌, IfNone, IfSome, length};

use script_links::links::Link;

/// Where the link of a server stands.
pub(crate) fn place_of(links: &[Link], inc: u32) -> Option<usize>
    ensures within { IfSome result (λ i. i < length links.now) }
    ensures there { IfSome result (λ i. IsLinkAt links.now i inc) }
    ensures none { IfNone result (links_of inc links.now ≡ 0) }
{
    for (place, link) in links.iter().enumerate() {
        if link.inc == inc {
            return Some(place);
        }
    }
    None
}
