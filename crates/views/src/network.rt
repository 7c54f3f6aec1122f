//! The network after some lines, as a picture.

ghost use Rattle.std.specs.Prelude.{◌≡◌, ◌||◌, IfOk, MatchResult, Ok, Err, option_map};
ghost use Rattle.std.specs.String.{string_bytes};
ghost use Rattle.event_lines.specs.Run.{is_read_fault};
ghost use Rattle.network_view.specs.Dot.{dot_of};
ghost use Rattle.views.specs.Reached.{Shows, said_of};
ghost use Rattle.views.specs.Network.{path_at, picture_of, marks_in, router_at};

use crate::network_after::{Said, network_after};
use combinator::Path;
use event_lines::RunFault;
use forwarding::PacketLocation;
use network_core::{EventFault, Net};
use network_view::{Extent, Router, has_central, network_dot};
use policy_expr::WalkHop;
use scion_topology::{Topology, TopologyFault};
use std::alloc::{AllocError, Global};
use streams::{Sink, Source};
use view_words::Subject;

/// The hops whose links a picture marks, and the router that it marks, if any.
type Marks<'n> = (&'n [WalkHop], Option<Router>);

/// The path of this number in the answer of this number, if there is one.
pub(crate) fn path_at(net: &Net, answer: u32, path: u32) -> Option<&Path>
    ensures { option_map (λ p. p.now) result ≡ path_at net.now answer path }
{
    match net.answer(answer as usize) {
        None => None,
        Some(paths) => paths.get(path as usize),
    }
}

/// The router that has a packet, or that refused it.
fn router_at(place: &PacketLocation) -> Option<Router>
    ensures { result ≡ router_at place.now }
{
    match *place {
        PacketLocation::AtRouter(stop) => Some(Router {
            ia: stop.ia,
            number: stop.router,
        }),
        PacketLocation::Refused(ia, number, _) => Some(Router { ia, number }),
        PacketLocation::Delivered | PacketLocation::Lost => None,
    }
}

/// The hops whose links a picture marks, and the router that it marks: those of the packet or of
/// the path that is named, if one is. [`EventFault::NoPacket`] or [`EventFault::NoAnswer`] if there
/// is no such packet or path.
fn marks_in(net: &Net, subject: Option<Subject>) -> Result<Marks<'_>, EventFault>
    ensures { MatchResult result (λ marks. marks_in net.now subject ≡ Ok (marks.0.now, marks.1))
        (λ fault. marks_in net.now subject ≡ Err fault) }
{
    match subject {
        None => Ok((&[], None)),
        Some(Subject::Packet(number)) => match net.packet(number as usize) {
            Some(packet) => Ok((packet.passed(), router_at(&packet.place()))),
            None => Err(EventFault::NoPacket),
        },
        Some(Subject::Answer { answer, path }) => match path_at(net, answer, path) {
            Some(path) => Ok((path.walk(), None)),
            None => Err(EventFault::NoAnswer),
        },
    }
}

/// The picture of a part of a network with these marks.
fn marked_picture(
    alloc: Global,
    topology: &Topology,
    extent: &Extent,
    marks: Marks<'_>,
) -> Result<String, AllocError>
    ensures { IfOk result (λ text. string_bytes text
        ≡ dot_of topology.now extent.now marks.entry.0.now marks.entry.1) }
{
    let (hops, at) = marks;
    network_dot(alloc, topology.ases(), topology.links(), extent, hops, at)
}

/// The picture of a part of a network, with the packet or the path marked that is named, if one is.
fn picture(
    alloc: Global,
    net: &Net,
    extent: &Extent,
    subject: Option<Subject>,
) -> Result<Said, AllocError>
    ensures { IfOk result (λ said. said_of said ≡ picture_of net.now extent.now subject) }
{
    let topology = net.topology();
    if !has_central(topology.ases(), &extent.centre) {
        return Ok(Err(EventFault::Topology(TopologyFault::UnknownAs)));
    }
    match marks_in(net, subject) {
        Ok(marks) => Ok(Ok(marked_picture(alloc, topology, extent, marks)?)),
        Err(fault) => Ok(Err(fault)),
    }
}

/// The picture of a part of the network after the lines of a source, with the packet or the path
/// marked that is named, if one is; [`TopologyFault::UnknownAs`] if the network has no AS around
/// which the part is, and then [`EventFault::NoPacket`] or [`EventFault::NoAnswer`] if there is no
/// such packet or path.
///
/// The faults are those of [`network_after`]; [`RunFault::Memory`] also if memory runs out for the
/// picture.
pub(crate) fn network_picture<S: Source, R: Sink>(
    alloc: Global,
    source: &mut S,
    replies: &mut R,
    extent: &Extent,
    subject: Option<Subject>,
) -> Result<Said, RunFault>
    ensures shows { Shows (λ net said. said ≡ picture_of net extent.now subject) result
        (S.left source.old) (S.left source.new) (R.held replies.old) (R.held replies.new) }
    ensures flag { S.failed source.new ≡ (S.failed source.old || is_read_fault result) }
{
    let said = {
        let net = network_after(alloc, source, replies)?;
        picture(alloc, &net, extent, subject)
    };
    Ok(said?)
}
