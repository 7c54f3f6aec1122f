//! The replies to the lines of a run, of which the refusals count.

ghost use Rattle.std.specs.Prelude.{false};

use arrayvec::ArrayVec;
use std::{io, str};
use streams::Sink;

/// The most bytes that are kept of a reply; a refusal has fewer.
const MAX_KEPT: usize = 64;

/// The beginning of a reply.
type Front = ArrayVec<u8, MAX_KEPT>;

/// A sink for the replies to lines, each with the end of a line. It counts those that refuse their
/// line, and keeps the reply to a topology.
#[derive(Drop)]
pub(crate) struct Replies {
    lines: u64,
    refused: u64,
    first_refused: u64,
    topology: Front,
    front: Front,
}

impl Replies {
    /// No reply so far.
    pub(crate) fn new() -> Replies {
        Replies {
            lines: 0,
            refused: 0,
            first_refused: 0,
            topology: Front::new(),
            front: Front::new(),
        }
    }

    /// How many lines are refused. A topology is none of them.
    pub(crate) fn refused(&self) -> u64 {
        self.refused
    }

    /// The number of the first of them, from 1 on; 0 if there is none.
    pub(crate) fn first_refused(&self) -> u64 {
        self.first_refused
    }

    /// The refusal of the topology, as `no CODE Name`; empty if it is not refused.
    pub(crate) fn topology_refusal(&self) -> &str {
        match self.topology.strip_prefix(b"topology ".as_slice()) {
            Some(rest) if rest.starts_with(b"no ".as_slice()) => {
                str::from_utf8(rest).unwrap_or("")
            }
            _ => "",
        }
    }

    /// Counts the reply that has come to its end.
    fn end_line(&mut self) {
        self.lines = self.lines.saturating_add(1);
        if self.front.starts_with(b"no ".as_slice()) {
            self.refused = self.refused.saturating_add(1);
            if self.first_refused == 0 {
                self.first_refused = self.lines;
            }
        }
        if self.lines == 1 {
            self.topology = self.front.take();
        }
        self.front.clear();
    }

    /// Takes a byte of a reply.
    fn take(&mut self, byte: u8) {
        if byte == b'\n' {
            self.end_line();
        } else if !self.front.is_full() {
            self.front.push(byte);
        }
    }
}

impl Sink for Replies {
    ghost failed = { λ _. false };

    fn write(&mut self, bytes: &[u8]) -> io::Result<usize> {
        for byte in bytes {
            self.take(*byte);
        }
        Ok(bytes.len())
    }

    fn flush(&mut self) -> io::Result<()> {
        Ok(())
    }
}
