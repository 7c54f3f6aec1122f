//! A run whose datagrams are recorded line by line.

ghost use Rattle.std.specs.Prelude.{◌≡◌, ◌++◌, flat_map, [], true, false, IfOk, OnOk, option_map, option_and_then, slice_get};
ghost use Rattle.event_lines.specs.Answers.{Unbegun};
ghost use Rattle.event_lines.specs.Replies.{stage_behind};
ghost use Rattle.wire_packets.specs.File.{datagram_record, file_head};
ghost use Rattle.run_capture.specs.inner.Recording.{HasBegun, Records, before_in, datagrams_behind, seen_in};

use crate::hops::Hops;
use crate::turned::turned_by;
use event_lines::{AcceptedLines, LineRun, RunFault};
use forwarding::PacketLocation;
use json_fields::JsonRoom;
use network_core::{Net, Packet};
use scion_packet::PacketInfo;
use std::alloc::{AllocError, Global};
use wire_packets::empty_file;

/// What counts of the network before a line: the number of its packets, the packet to which the
/// line gives a turn, and where that is.
#[derive(Clone, Copy)]
pub(crate) struct Before {
    packets: usize,
    turned: Option<u32>,
    place: Option<PacketLocation>,
}

/// The packet of this number, if there is one.
fn packet_in(net: &Net, number: Option<u32>) -> Option<&Packet>
    ensures { option_map (λ p. p.now) result
        ≡ option_and_then (slice_get net.now.packets) number }
{
    match number {
        Some(number) => net.packet(number as usize),
        None => None,
    }
}

/// What counts of this network before a line that gives this packet a turn.
fn before_in(net: &Net, turned: Option<u32>) -> Before
    ensures { result ≡ before_in net.now turned }
{
    let place = match packet_in(net, turned) {
        Some(packet) => Some(packet.place()),
        None => None,
    };
    Before {
        packets: net.packets().len(),
        turned,
        place,
    }
}

/// What counts of a run before such a line.
fn seen_in(run: &LineRun, turned: Option<u32>) -> Option<Before>
    ensures { result ≡ seen_in (stage_behind run.now) turned }
{
    match run.net() {
        Some(net) => Some(before_in(net, turned)),
        None => None,
    }
}

/// A run whose datagrams are recorded: the run so far, and the file of its datagrams.
#[derive(Drop)]
pub(crate) struct Recorder {
    info: PacketInfo,
    run: LineRun,
    json: JsonRoom,
    file: Vec<u8>,
}

impl Recorder {
    /// A run that has not begun, whose packets say this besides.
    pub(crate) fn new(alloc: Global, info: &PacketInfo) -> Result<Self, AllocError>
        ensures info { IfOk result (λ recorder. recorder.info ≡ info.now) }
        ensures run { IfOk result (λ recorder. stage_behind recorder.run ≡ Unbegun) }
        ensures file { IfOk result (λ recorder. recorder.file.items ≡ file_head) }
    {
        Ok(Self {
            info: info.clone()?,
            run: LineRun::new(alloc),
            json: JsonRoom::new(alloc),
            file: empty_file(alloc)?,
        })
    }

    /// Whether the run has begun and no bytes follow the last end of a line.
    pub(crate) fn is_done(&self, left: &[u8]) -> bool
        ensures done { result ≡ true → (left.now ≡ []) × HasBegun (stage_behind self.now.run) }
        ensures more { result ≡ false → left.now ≡ [] → stage_behind self.now.run ≡ Unbegun }
    {
        match self.run.net() {
            Some(_) => left.is_empty(),
            None => false,
        }
    }

    /// The file of the datagrams so far.
    pub(crate) fn into_file(self) -> Vec<u8>
        ensures { result ≡ self.file }
    {
        let Self { file, .. } = self;
        file
    }

    /// Adds the records of a line's datagrams, once it was answered.
    fn push_behind(&mut self, alloc: Global, seen: Option<Before>) -> Result<(), AllocError>
        ensures file { OnOk result (self.new.file.items ≡ self.old.file.items
            ++ flat_map datagram_record
            (datagrams_behind self.old.info seen (stage_behind self.old.run))) }
        ensures run { self.new.run ≡ self.old.run }
        ensures info { self.new.info ≡ self.old.info }
    {
        let Some(seen) = seen else {
            return Ok(());
        };
        let Some(net) = self.run.net() else {
            return Ok(());
        };
        let hops = Hops {
            alloc,
            info: &self.info,
            net,
        };
        hops.push_departed(&mut self.file, net.packet(seen.packets))?;
        hops.push_moved(&mut self.file, seen.place, packet_in(net, seen.turned))
    }

    /// Answers a line, and adds the records of its datagrams.
    pub(crate) fn record(&mut self, alloc: Global, line: &[u8]) -> Result<(), RunFault>
        ensures file { Records result self.old.info (stage_behind self.old.run) line.now
            (stage_behind self.new.run) self.old.file.items self.new.file.items }
        ensures info { self.new.info ≡ self.old.info }
    {
        let turned = turned_by(alloc, &mut self.json, line)?;
        let seen = seen_in(&self.run, turned);
        self.run.answer(alloc, AcceptedLines::All, line)?;
        self.push_behind(alloc, seen)?;
        Ok(())
    }
}
