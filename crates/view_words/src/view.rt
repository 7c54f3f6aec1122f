//! What the words ask for.

use crate::report_words::ReportWords;
use beacon_lines::BeaconingOptions;
use network_view::Extent;
use scion_packet::PacketInfo;
use step_line::StepCommand;

/// What a view of a network is about. Its numbers are those of `scionet run`, from 0.
#[derive(Clone, Copy)]
pub enum Subject {
    /// A packet.
    Packet(u32),
    /// A path of an answer.
    Answer {
        /// The number of the answer.
        answer: u32,
        /// The number of the path in the answer.
        path: u32,
    },
}

/// The view that the words of the command line ask for.
#[derive(Drop)]
pub enum View {
    /// `packet`: the packet on standard input, at the router whose turn this is.
    Packet(StepCommand),
    /// `packet --whole`: the same of a whole packet.
    WholePacket(StepCommand),
    /// `packet --packet`: a packet of the network after the lines on standard input, at the router
    /// that has it.
    PacketOfRun(u32),
    /// `packet --packet --whole`: the same packet as a whole one that says this besides.
    WholePacketOfRun(PacketInfo, u32),
    /// `wrap`: a packet of the network after the lines on standard input, as a whole packet that
    /// says this besides.
    Wrap(PacketInfo, u32),
    /// `capture`: the capture of the run of these lines, whose packets say this besides.
    Capture(PacketInfo),
    /// `network`: a part of the network after the lines on standard input, and what is marked in
    /// it.
    Network(Extent, Option<Subject>),
    /// `path`: the path of a packet of that network, or of an answer.
    Path(Subject),
    /// `report`: the paths of that network.
    Report(ReportWords),
    /// `beacons`: a complete beaconing of the topology on standard input.
    Beacons(BeaconingOptions),
    /// `explain`: what is wrong with the lines on standard input that are refused.
    Explain {
        /// Whether each finding is a JSON object, and not a line of text.
        is_json: bool,
    },
}
