//! Networks as texts: two of those in `examples/`, and such as are made for a number of ASes.

ghost use Rattle.std.specs.Prelude.{◌<◌};

use isd_as::IsdAs;
use std::alloc::{AllocError, Global};

/// A core AS, its child, and the child's child, each with one router.
pub fn row() -> &'static str {
    concat!(
        r#"{"ases":[{"ia":"1-ff00:0:110","core":true,"exp":63,"key":"6130","routers":1},"#,
        r#"{"ia":"1-ff00:0:111","core":false,"exp":63,"key":"6131","routers":1},"#,
        r#"{"ia":"1-ff00:0:112","core":false,"exp":63,"key":"6132","routers":1}],"#,
        r#""links":[{"kind":"child","a":{"ia":"1-ff00:0:110","if":1,"router":0},"#,
        r#""b":{"ia":"1-ff00:0:111","if":1,"router":0}},"#,
        r#"{"kind":"child","a":{"ia":"1-ff00:0:111","if":2,"router":0},"#,
        r#""b":{"ia":"1-ff00:0:112","if":1,"router":0}}]}"#,
    )
}

/// Two core ASes with a link between them, each with a child and a child's child.
pub fn pair() -> &'static str {
    concat!(
        r#"{"ases":[{"ia":"1-ff00:0:110","core":true,"exp":63,"key":"6b","routers":2},"#,
        r#"{"ia":"1-ff00:0:111","core":false,"exp":63,"key":"6b","routers":2},"#,
        r#"{"ia":"1-ff00:0:112","core":false,"exp":63,"key":"6b","routers":2},"#,
        r#"{"ia":"2-ff00:0:210","core":true,"exp":63,"key":"6b","routers":2},"#,
        r#"{"ia":"2-ff00:0:211","core":false,"exp":63,"key":"6b","routers":2},"#,
        r#"{"ia":"2-ff00:0:212","core":false,"exp":63,"key":"6b","routers":2}],"#,
        r#""links":[{"kind":"child","a":{"ia":"1-ff00:0:110","if":1,"router":0},"#,
        r#""b":{"ia":"1-ff00:0:111","if":1,"router":0}},"#,
        r#"{"kind":"child","a":{"ia":"1-ff00:0:111","if":2,"router":1},"#,
        r#""b":{"ia":"1-ff00:0:112","if":1,"router":0}},"#,
        r#"{"kind":"core","a":{"ia":"1-ff00:0:110","if":2,"router":1},"#,
        r#""b":{"ia":"2-ff00:0:210","if":1,"router":0}},"#,
        r#"{"kind":"child","a":{"ia":"2-ff00:0:210","if":2,"router":1},"#,
        r#""b":{"ia":"2-ff00:0:211","if":1,"router":0}},"#,
        r#"{"kind":"child","a":{"ia":"2-ff00:0:211","if":2,"router":1},"#,
        r#""b":{"ia":"2-ff00:0:212","if":1,"router":0}}]}"#,
    )
}

/// The end of a link: an AS, and the number of its interface.
pub type End = (IsdAs, u32);

/// A topology under way. Each AS has one router, and each hop the expiry 63.
#[derive(Drop)]
pub struct Drawing {
    ases: String,
    links: String,
}

impl Drawing {
    /// Without an AS.
    pub fn new(alloc: Global) -> Drawing {
        Drawing {
            ases: String::new(alloc),
            links: String::new(alloc),
        }
    }

    /// Adds an AS, core or not, with a key in hexadecimal digits.
    pub fn add_as(&mut self, ia: IsdAs, is_core: bool, key: &str) -> Result<(), AllocError> {
        let comma = if self.ases.is_empty() { "" } else { "," };
        write!(
            self.ases,
            r#"{comma}{{"ia":"{ia}","core":{is_core},"exp":63,"key":"{key}","routers":1}}"#
        )
    }

    /// Adds a link of a kind, `core` or `child`, from one end to the other.
    pub fn add_link(&mut self, kind: &str, from: End, to: End) -> Result<(), AllocError> {
        let comma = if self.links.is_empty() { "" } else { "," };
        write!(self.links, r#"{comma}{{"kind":"{kind}""#)?;
        self.add_end('a', from)?;
        self.add_end('b', to)?;
        write!(self.links, "}}")
    }

    /// Adds an end of the link under way.
    fn add_end(&mut self, name: char, end: End) -> Result<(), AllocError> {
        write!(
            self.links,
            r#","{name}":{{"ia":"{}","if":{},"router":0}}"#,
            end.0, end.1
        )
    }

    /// The topology as JSON.
    pub fn to_json(&self, alloc: Global) -> Result<String, AllocError> {
        let (ases, links) = (self.ases.as_str(), self.links.as_str());
        format!(in alloc; r#"{{"ases":[{ases}],"links":[{links}]}}"#)
    }
}

/// The AS of this number in ISD 1.
pub fn numbered(number: u32) -> IsdAs {
    IsdAs::from_number((1 << 48) + u64::from(number))
}

/// A ring of core ASes with several links between neighbours. The ASes are numbered from 1, and the
/// interfaces at the first ends of the links too; those at the second ends from 10,000.
pub fn ring(alloc: Global, ases: u32, links: u32) -> Result<String, AllocError>
    requires { 0 < ases }
{
    let mut drawing = Drawing::new(alloc);
    for number in 0..ases {
        drawing.add_as(numbered(number + 1), true, "6b")?;
    }
    for link in 0..links {
        let (one, other) = (link % ases, (link % ases + 1) % ases);
        let from = (numbered(one + 1), link + 1);
        let to = (numbered(other + 1), 10_000 + link % 50_000);
        drawing.add_link("core", from, to)?;
    }
    drawing.to_json(alloc)
}

/// ASes in a line, numbered from 1: a core AS, its child, the child's child, and so on. Interface 1
/// of each leads up, and interface 2 down.
pub fn line(alloc: Global, ases: u32) -> Result<String, AllocError> {
    let mut drawing = Drawing::new(alloc);
    for number in 1..=ases {
        drawing.add_as(numbered(number), number == 1, "6b")?;
    }
    for number in 1..ases {
        drawing.add_link("child", (numbered(number), 2), (numbered(number + 1), 1))?;
    }
    drawing.to_json(alloc)
}
