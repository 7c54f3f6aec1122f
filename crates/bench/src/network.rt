//! The largest networks that a topology may have, with 1,024 ASes and 4,096 links: a ring of core
//! ASes; and two lines of children of one AS next to a ring.

ghost use Rattle.std.specs.Prelude.{◌<◌, ◌≤◌, ◌^◌};

use std::alloc::{AllocError, Global};
use worked::{Drawing, numbered, ring};

/// The number of ASes of a network; they are numbered from 1.
pub(crate) const ASES: u32 = 1024;

/// The number of links of a network; they are numbered from 0.
pub(crate) const LINKS: u32 = 4096;

/// The number of ASes of each of the two lines, with the core AS 1.
pub(crate) const LINE: u32 = 32;

/// The last AS of the first line.
pub(crate) const FIRST_END: u32 = LINE;

/// The last AS of the second line.
pub(crate) const SECOND_END: u32 = 2 * LINE - 1;

/// The first AS of the ring next to the lines.
const RING: u32 = 2 * LINE;

/// The AS at the first end of a link of the ring.
pub(crate) fn from(link: u32) -> u32
    ensures { result ≤ 1024 }
{
    link % ASES + 1
}

/// The interface at the first end of a link.
pub(crate) fn port(link: u32) -> u16 {
    (link % LINKS + 1) as u16
}

/// The ring as JSON.
pub(crate) fn text(alloc: Global) -> Result<String, AllocError> {
    ring(alloc, ASES, LINKS)
}

/// Two lines of children of AS 1, and a ring of the other ASes, as JSON. The links of the lines
/// come first; a link's interface at the parent has a number one larger than its own. The ASes of
/// the first line are listed from its end on, so that a path over both lines passes the ASes in
/// the order of the list.
pub(crate) fn lines(alloc: Global) -> Result<String, AllocError> {
    let mut drawing = Drawing::new(alloc);
    for place in 1..=ASES {
        let number = if place <= LINE {
            LINE + 1 - place
        } else {
            place
        };
        drawing.add_as(numbered(number), number == 1 || number >= RING, "6b")?;
    }
    for link in 0..SECOND_END - 1 {
        let child = link + 2;
        let parent = if child == FIRST_END + 1 { 1 } else { child - 1 };
        add_link(&mut drawing, "child", link, parent, child)?;
    }
    for link in SECOND_END - 1..LINKS {
        let (one, other) = (link % (ASES - RING), (link + 1) % (ASES - RING));
        add_link(&mut drawing, "core", link, RING + one, RING + other)?;
    }
    drawing.to_json(alloc)
}

/// Adds a link of a kind, from one AS to another.
fn add_link(
    drawing: &mut Drawing,
    kind: &str,
    link: u32,
    from: u32,
    to: u32,
) -> Result<(), AllocError> {
    let first = (numbered(from), u32::from(port(link)));
    drawing.add_link(kind, first, (numbered(to), 10_000 + link % LINKS))
}
