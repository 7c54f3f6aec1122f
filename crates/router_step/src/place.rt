//! The place of a packet on its path: the fields there, and the changes that a step makes.

ghost use Rattle.std.specs.Prelude.{◌≡◌, ℕ, ◌+◌, ◌<◌, true, false, length};
ghost use Rattle.path_header.specs.Borrowed.{value_of, rest_of};
ghost use Rattle.router_step.specs.Place.{way_in, way_out, with_seg_id, seg_id_on_arrival, moved_on, seg_id_on_leaving, header_on_leaving};
ghost use Rattle.router_step.specs.inner.Place.{here_in};

use crate::arrival::Arrival;
use crate::outcome::Outcome;
use hop_mac::next_beta;
use isd_as::IfId;
use path_header::{HeaderMut, HopField, InfoField, SegLens};

/// The place of a packet on its path, and the fields there: what a router reads of its header.
#[derive(Clone, Copy, Debug, PartialEq, Eq)]
pub(crate) struct Here {
    /// Whether the path came to this segment by a switch in this AS.
    pub(crate) switched: bool,
    /// The number of hop fields of each segment.
    pub(crate) lens: SegLens,
    /// The index of the info field.
    pub(crate) segment: usize,
    /// The index of the hop field.
    pub(crate) place: usize,
    /// The info field; that of the segment by which the packet came has the accumulator on arrival.
    pub(crate) info: InfoField,
    /// The hop field.
    pub(crate) hop: HopField,
}

/// The interfaces by which a packet on this segment enters the hop's AS and leaves it.
fn ways(info: &InfoField, hop: &HopField) -> (IfId, IfId)
    ensures enters { result.0 ≡ way_in info.now hop.now }
    ensures leaves { result.1 ≡ way_out info.now hop.now }
{
    if info.construction {
        (hop.cons_ingress, hop.cons_egress)
    } else {
        (hop.cons_egress, hop.cons_ingress)
    }
}

/// The interface by which a packet on this segment enters the hop's AS.
pub fn way_in(info: &InfoField, hop: &HopField) -> IfId
    ensures { result ≡ way_in info.now hop.now }
{
    ways(info, hop).0
}

/// The interface by which it leaves the AS.
pub fn way_out(info: &InfoField, hop: &HopField) -> IfId
    ensures { result ≡ way_out info.now hop.now }
{
    ways(info, hop).1
}

/// The accumulator on arrival. Over a link against construction direction, this hop's authenticator
/// is taken out of it.
pub fn seg_id_on_arrival(arrival: &Arrival, info: &InfoField, hop: &HopField) -> u16
    ensures { result ≡ seg_id_on_arrival arrival.now info.now hop.now }
{
    match *arrival {
        Arrival::Link(_) if !info.construction => next_beta(info.seg_id, &hop.mac),
        _ => info.seg_id,
    }
}

/// The accumulator on leaving over a link. In construction direction, this hop's authenticator is
/// put into it.
fn seg_id_on_leaving(info: &InfoField, hop: &HopField) -> u16
    ensures { result ≡ seg_id_on_leaving info.now hop.now }
{
    if info.construction {
        next_beta(info.seg_id, &hop.mac)
    } else {
        info.seg_id
    }
}

/// The first place of the next segment, for a packet at the last one of its segment.
// Inlined, as all of a step: `step_in_parts` says why.
#[inline(always)]
pub(crate) fn in_next_segment(here: &Here, header: &HeaderMut<'_>) -> Here
    requires infos { here.now.segment + 1 < length (value_of header.now).infos }
    requires hops { here.now.place + 1 < length (value_of header.now).hops }
    ensures { (seg_id : ℕ) → here.now ≡ here_in false (with_seg_id (value_of header.now) seg_id)
        → result ≡ here_in true (moved_on true (with_seg_id (value_of header.now) seg_id)) }
{
    header.known();
    Here {
        switched: true,
        lens: here.lens,
        segment: here.segment + 1,
        place: here.place + 1,
        info: header.info(here.segment + 1),
        hop: header.hop(here.place + 1),
    }
}

/// Sets the accumulator of the current info field, which has this index.
fn write_seg_id(segment: usize, seg_id: u16, header: &mut HeaderMut<'_>)
    requires { segment ≡ (value_of header.old).curr_inf }
    ensures value { value_of header.new ≡ with_seg_id (value_of header.old) seg_id }
    ensures rest { rest_of header.new ≡ rest_of header.old }
    ensures same_reference { header.new.bytes.ghost_name ≡ header.old.bytes.ghost_name }
{
    header.known();
    header.set_seg_id(segment, seg_id);
}

/// Sets the accumulator on arrival.
pub(crate) fn write_arrival(here: &Here, header: &mut HeaderMut<'_>)
    requires { here.now.segment ≡ (value_of header.old).curr_inf }
    ensures value { value_of header.new ≡ with_seg_id (value_of header.old) here.now.info.seg_id }
    ensures rest { rest_of header.new ≡ rest_of header.old }
    ensures same_reference { header.new.bytes.ghost_name ≡ header.old.bytes.ghost_name }
{
    write_seg_id(here.segment, here.info.seg_id, header);
}

/// Goes on to the place from which the packet leaves.
pub(crate) fn write_place(there: &Here, header: &mut HeaderMut<'_>)
    requires infos { there.now.segment < length (value_of header.old).infos }
    requires hops { there.now.place < length (value_of header.old).hops }
    ensures value { value_of header.new
        ≡ record (value_of header.old) {
          curr_inf = there.now.segment;
          curr_hf = there.now.place;
        } }
    ensures rest { rest_of header.new ≡ rest_of header.old }
    ensures same_reference { header.new.bytes.ghost_name ≡ header.old.bytes.ghost_name }
{
    header.set_indices(there.segment, there.place);
}

/// If the packet leaves over a link: sets the accumulator of the next hop, and goes on to its hop
/// field.
pub(crate) fn write_outcome(outcome: &Outcome, there: &Here, header: &mut HeaderMut<'_>)
    requires there { there.now ≡ here_in there.now.switched (value_of header.old) }
    requires more { (value_of header.old).curr_hf + 1 < length (value_of header.old).hops }
    ensures value { value_of header.new ≡ header_on_leaving outcome.now (value_of header.old) }
    ensures rest { rest_of header.new ≡ rest_of header.old }
    ensures same_reference { header.new.bytes.ghost_name ≡ header.old.bytes.ghost_name }
{
    match *outcome {
        Outcome::ToLink(_) => {
            let seg_id = seg_id_on_leaving(&there.info, &there.hop);
            header.known();
            header.set_indices(there.segment, there.place + 1);
            write_seg_id(there.segment, seg_id, header);
        }
        Outcome::ToRouter(_) | Outcome::Deliver => {}
    }
}
