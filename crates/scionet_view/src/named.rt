//! What the words of a view name, as text.

use network_core::EventFault;
use network_view::{Centre, Extent};
use std::fmt;
use std::fmt::{Display, Formatter, Write};
use view_words::{ReportWords, Subject, View};

/// What a view names that is refused for this reason. Its text ends with a colon, or is empty.
#[derive(Drop)]
pub(crate) struct Named<'a> {
    pub(crate) view: &'a View,
    pub(crate) fault: EventFault,
}

/// Writes the name of a packet or of a path.
fn write_subject<W: Write>(f: &mut Formatter<W>, subject: Subject) -> fmt::Result {
    match subject {
        Subject::Packet(number) => write!(f, "packet {number}: "),
        Subject::Answer { answer, path } => write!(f, "path {path} of answer {answer}: "),
    }
}

/// Writes the name of the middle of a part of a network.
fn write_centre<W: Write>(f: &mut Formatter<W>, centre: Centre) -> fmt::Result {
    match centre {
        Centre::Whole => Ok(()),
        Centre::Core => f.write_str("the core: "),
        Centre::Isd(isd) => write!(f, "ISD {}: ", isd.0),
        Centre::As(ia) => write!(f, "{ia}: "),
    }
}

/// Writes what is named in a picture: its part, if the topology has it not, or what is marked.
fn write_picture<W: Write>(
    f: &mut Formatter<W>,
    extent: &Extent,
    subject: Option<Subject>,
    fault: EventFault,
) -> fmt::Result {
    if let EventFault::Topology(_) = fault {
        return write_centre(f, extent.centre);
    }
    match subject {
        Some(subject) => write_subject(f, subject),
        None => Ok(()),
    }
}

/// Writes the ASes that are named for a report.
fn write_report<W: Write>(f: &mut Formatter<W>, words: &ReportWords) -> fmt::Result {
    match (words.from, words.to) {
        (Some(from), Some(to)) => write!(f, "from {from} to {to}: "),
        (Some(from), None) => write!(f, "from {from}: "),
        (None, Some(to)) => write!(f, "to {to}: "),
        (None, None) => Ok(()),
    }
}

impl<'a> Display for Named<'a> {
    fn fmt<W: Write>(&self, f: &mut Formatter<W>) -> fmt::Result {
        match self.view {
            View::PacketOfRun(number) => write_subject(f, Subject::Packet(*number)),
            View::WholePacketOfRun(_, number) => write_subject(f, Subject::Packet(*number)),
            View::Wrap(_, number) => write_subject(f, Subject::Packet(*number)),
            View::Path(subject) => write_subject(f, *subject),
            View::Network(extent, subject) => write_picture(f, extent, *subject, self.fault),
            View::Report(words) => write_report(f, words),
            _ => Ok(()),
        }
    }
}
