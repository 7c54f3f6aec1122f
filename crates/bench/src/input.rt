//! The input of works, from standard input: lines of a tag and a text.

use anyhow::{Context, Result, bail};
use isd_as::{IfId, IsdAs};
use path_segment::Segment;
use router_step::Arrival;
use std::alloc::Global;
use std::io;
use worked::{pair, row};

/// A piece of a path: from one entry of a segment to another, in construction direction or against
/// it.
#[derive(Drop)]
pub(crate) struct Stretch {
    pub(crate) segment: Segment,
    pub(crate) from: usize,
    pub(crate) to: usize,
    pub(crate) along: bool,
}

/// The values of the lines: a network, a packet on its way in it, its path, and a sequence.
#[derive(Drop)]
pub(crate) struct Input {
    pub(crate) topology: String,
    pub(crate) packet: Vec<u8>,
    /// The routers on the packet's way, each with the packet's arrival.
    pub(crate) stops: Vec<(IsdAs, u8, Arrival)>,
    pub(crate) source: IsdAs,
    pub(crate) destination: IsdAs,
    pub(crate) now: u32,
    pub(crate) header: Vec<u8>,
    pub(crate) stretches: Vec<Stretch>,
    pub(crate) sequence: String,
}

impl Input {
    /// The values of the lines of standard input.
    pub(crate) fn read<R: io::Input>(rt: &R, alloc: Global) -> Result<Input> {
        let mut input = Input {
            topology: String::new(alloc),
            packet: Vec::new(alloc),
            stops: Vec::new(alloc),
            source: IsdAs::from_number(0),
            destination: IsdAs::from_number(0),
            now: 0,
            header: Vec::new(alloc),
            stretches: Vec::new(alloc),
            sequence: String::new(alloc),
        };
        for line in rt.lines(alloc) {
            input.take(alloc, line?.as_str())?;
        }
        Ok(input)
    }

    /// Reads one line into these values.
    fn take(&mut self, alloc: Global, line: &str) -> Result<()> {
        let (tag, text) = line.split_once(' ').context("a line has a tag and a text")?;
        match tag {
            "topology" => self.topology = topology_of(text).to_string(alloc)?,
            "packet" => self.packet = hex::decode(alloc, text)?,
            "stop" => self.take_stop(text)?,
            "src" => self.source = IsdAs::parse(text)?,
            "dst" => self.destination = IsdAs::parse(text)?,
            "now" => self.now = text.parse::<u32>().context("now")?,
            "header" => self.header = hex::decode(alloc, text)?,
            "piece" => self.stretches.push(stretch_of(alloc, text)?)?,
            "sequence" => self.sequence = text.to_string(alloc)?,
            _ => bail!("a line has no such tag"),
        }
        Ok(())
    }

    /// Reads a stop: `IA ROUTER host`, `.. inside`, or `.. INTERFACE`.
    fn take_stop(&mut self, text: &str) -> Result<()> {
        let (ia, rest) = text.split_once(' ').context("a stop has an AS")?;
        let (router, way) = rest.split_once(' ').context("a stop has a router")?;
        let router = router.parse::<u8>().context("a router")?;
        self.stops
            .push((IsdAs::parse(ia)?, router, arrival_of(way)?))?;
        Ok(())
    }
}

/// The topology of this name among the examples, or the one that the text is.
fn topology_of(text: &str) -> &str {
    match text {
        "row" => row(),
        "pair" => pair(),
        _ => text,
    }
}

/// How a packet came: from a host, from inside the AS, or by the interface of this number.
fn arrival_of(text: &str) -> Result<Arrival> {
    match text {
        "host" => Ok(Arrival::FromHost),
        "inside" => Ok(Arrival::Inside),
        _ => {
            let number = text.parse::<u16>().context("an interface")?;
            Ok(Arrival::Link(IfId(number)))
        }
    }
}

/// A piece: `FROM TO true SEGMENT`, or `.. false ..`.
fn stretch_of(alloc: Global, text: &str) -> Result<Stretch> {
    let (from, rest) = text.split_once(' ').context("a piece has a first entry")?;
    let (to, rest) = rest.split_once(' ').context("a piece has a last entry")?;
    let (along, segment) = rest.split_once(' ').context("a piece has a direction")?;
    Ok(Stretch {
        segment: Segment::from_json(alloc, segment.as_bytes())?,
        from: from.parse::<usize>().context("an entry")?,
        to: to.parse::<usize>().context("an entry")?,
        along: along == "true",
    })
}
