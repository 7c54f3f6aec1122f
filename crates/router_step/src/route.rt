//! The step on the value of a path header: all checks first, then the changes.

#![tactic(auto, unfolding(crate::specs::Step::admitted_header, crate::specs::Step::at_path_end, crate::specs::Step::switches_here, crate::specs::Step::chosen_outcome, crate::specs::Step::step_of,))]

ghost use Rattle.std.specs.Prelude.{◌≡◌, ◌+◌, ◌<◌, true, false, length, if◌then◌else◌, OnOk, OnErr, IfOk};
ghost use Rattle.path_header.specs.Value.{HeaderValue, hop_count, segment_at};
ghost use Rattle.path_header.specs.Borrowed.{bytes_of, value_of, rest_of};
ghost use Rattle.refusal.specs.Refusal.{Gives};
ghost use Rattle.router_step.specs.Place.{current_info, current_hop, seg_id_on_arrival, header_on_arrival, moved_on};
ghost use Rattle.router_step.specs.Checks.{has_no_single, indices_fit, is_last};
ghost use Rattle.router_step.specs.Step.{admitted_header, at_path_end, switches_here, chosen_outcome, step_of};
ghost use Rattle.router_step.specs.inner.Place.{here_in};
ghost use Rattle.router_step.specs.inner.Step.{IsStepped};

use crate::arrival::Arrival;
use crate::checks::{
    destination_fits, has_no_single, is_over_link, is_start_right, kinds_fit, pass, source_fits,
    way_in_fits,
};
use crate::fault::Refusal;
use crate::outcome::Outcome;
use crate::place::{
    Here, in_next_segment, seg_id_on_arrival, way_out, write_arrival, write_outcome, write_place,
};
use isd_as::IsdAs;
use path_header::{HeaderMut, SegLens};
use scion_topology::RouterView;

/// Whether the indices fit the segment lengths and the way in which the packet came.
fn indices_fit(arrival: &Arrival, lens: SegLens, segment: usize, place: usize) -> bool
    requires { place < hop_count lens }
    ensures { (header : HeaderValue) → header.lens ≡ lens → header.curr_inf ≡ segment
        → header.curr_hf ≡ place → result ≡ indices_fit arrival.now header }
{
    segment == lens.segment_of(place) && has_no_single(lens) && is_start_right(arrival, place)
}

/// Steps 2 to 5: reads where the packet is, and checks the indices, the way in, and that the hop is
/// live and of this AS.
// Inlined, as `step_in_parts`.
#[inline(always)]
fn admit(
    view: &RouterView<'_>,
    now: u32,
    arrival: &Arrival,
    header: &HeaderMut<'_>,
) -> Result<Here, Refusal>
    ensures exact { Gives (λ _. header_on_arrival arrival.now (value_of header.now)) result
        (admitted_header view.now now arrival.now (value_of header.now)) }
    ensures here { IfOk result
        (λ here. here ≡ here_in false (header_on_arrival arrival.now (value_of header.now))) }
    ensures seg_id { let value = value_of header.now
        in IfOk result (λ here. here.info.seg_id
        ≡ seg_id_on_arrival arrival.now (current_info value) (current_hop value)) }
    ensures segment { let value = value_of header.now
        in OnOk result (value.curr_inf ≡ segment_at value.lens value.curr_hf) }
    ensures lens { OnOk result (has_no_single (value_of header.now).lens ≡ true) }
{
    let lens = header.seg_lens();
    let segment = header.curr_inf();
    let place = header.curr_hf();
    header.known();
    if !indices_fit(arrival, lens, segment, place) {
        return Err(Refusal::IndexMismatch);
    }
    let mut info = header.info(segment);
    let hop = header.hop(place);
    if !way_in_fits(view, arrival, &info, &hop) {
        return Err(Refusal::WrongIngress);
    }
    info.seg_id = seg_id_on_arrival(arrival, &info, &hop);
    pass(view, now, &info, &hop)?;
    Ok(Here {
        switched: false,
        lens,
        segment,
        place,
        info,
        hop,
    })
}

/// Steps 6 and 7: checks both addresses of a packet that is at the last hop of its path, or is not.
fn end(
    view: &RouterView<'_>,
    arrival: &Arrival,
    source: IsdAs,
    destination: IsdAs,
    last: bool,
) -> Result<(), Refusal>
    ensures { (header : HeaderValue) → is_last header ≡ last
        → Gives (λ _. last) result
        (at_path_end view.now arrival.now source destination header) }
{
    if !source_fits(view, arrival, source) {
        return Err(Refusal::SourceAs);
    }
    if !destination_fits(view, destination, last) {
        return Err(Refusal::DestinationAs);
    }
    Ok(())
}

/// Step 9: returns the place from which the packet leaves. Where the path switches to another
/// segment, that is the first place there, whose hop is checked too.
// Inlined, as `step_in_parts`.
#[inline(always)]
fn switch(
    view: &RouterView<'_>,
    now: u32,
    arrival: &Arrival,
    here: Here,
    header: &HeaderMut<'_>,
) -> Result<Here, Refusal>
    requires here { here ≡ here_in false (header_on_arrival arrival.now (value_of header.now)) }
    requires more { (value_of header.now).curr_hf + 1 < length (value_of header.now).hops }
    requires segment { let value = value_of header.now
        in value.curr_inf ≡ segment_at value.lens value.curr_hf }
    requires lens { has_no_single (value_of header.now).lens ≡ true }
    ensures exact { Gives (λ there. there.switched) result
        (switches_here view.now now arrival.now
        (header_on_arrival arrival.now (value_of header.now))) }
    ensures there { IfOk result (λ there. there ≡ here_in there.switched
        (moved_on there.switched (header_on_arrival arrival.now (value_of header.now)))) }
    ensures infos { let value = value_of header.now
        in IfOk result (λ there.
        value.curr_inf + (if there.switched then 1 else 0) < length value.infos) }
    ensures hops { let value = value_of header.now
        in IfOk result (λ there.
        value.curr_hf + (if there.switched then 1 else 0) + 1 < length value.hops) }
{
    header.known();
    if here.lens.segment_of(here.place + 1) == here.segment {
        return Ok(here);
    }
    if !is_over_link(arrival) {
        return Err(Refusal::SwitchInside);
    }
    let there = in_next_segment(&here, header);
    pass(view, now, &there.info, &there.hop)?;
    Ok(there)
}

/// Steps 10 to 13: chooses where the packet goes from this place.
// Inlined, as `step_in_parts`.
#[inline(always)]
fn leave(view: &RouterView<'_>, arrival: &Arrival, there: &Here) -> Result<Outcome, Refusal>
    ensures { result
        ≡ chosen_outcome view.now arrival.now there.now.switched there.now.info there.now.hop }
{
    let interface = way_out(&there.info, &there.hop);
    let Some(out) = view.entry(interface) else {
        return Err(Refusal::UnknownEgress);
    };
    if !kinds_fit(view, arrival, there.switched, out.kind) {
        return Err(Refusal::LinkKinds);
    }
    if out.router != view.router() {
        return Ok(Outcome::ToRouter(out.router));
    }
    if !out.up {
        return Err(Refusal::LinkDown);
    }
    Ok(Outcome::ToLink(interface))
}

/// One step on a path header in its bytes. After it they are the new header, or as they were if the
/// packet is refused.
// Inlined, as `step_in_parts`.
#[inline(always)]
pub(crate) fn step_header(
    view: &RouterView<'_>,
    now: u32,
    arrival: Arrival,
    source: IsdAs,
    destination: IsdAs,
    header: &mut HeaderMut<'_>,
) -> Result<Outcome, Refusal>
    ensures exact { let step = step_of view.now now arrival source destination (value_of header.old)
        in IsStepped step (value_of header.old) (value_of header.new) result }
    ensures refused { OnErr result (bytes_of header.new ≡ bytes_of header.old) }
    ensures rest { rest_of header.new ≡ rest_of header.old }
    ensures same_reference { header.new.bytes.ghost_name ≡ header.old.bytes.ghost_name }
{
    let arrival = &arrival;
    header.known();
    let here = admit(view, now, arrival, header)?;
    let last = here.place + 1 == here.lens.hop_count();
    end(view, arrival, source, destination, last)?;
    if last {
        write_arrival(&here, header);
        return Ok(Outcome::Deliver);
    }
    let there = switch(view, now, arrival, here, header)?;
    let outcome = leave(view, arrival, &there)?;
    write_arrival(&here, header);
    write_place(&there, header);
    write_outcome(&outcome, &there, header);
    Ok(outcome)
}
