//! The checks of a router on a packet, in their order.
#![tactic(auto, unfolding(crate::specs::Checks::checks_at, crate::specs::Checks::checks_of, crate::specs::Checks::end_checks, crate::specs::Checks::leave_checks, crate::specs::Checks::pass_checks, crate::specs::Checks::place_checks, crate::specs::Checks::switch_checks,))]

ghost use Rattle.std.specs.Prelude.{◌≡◌, ◌+◌, ◌<◌, ◌++◌, IfOk, OnOk, length};
ghost use Rattle.scion_topology.specs.View.{entry_of};
ghost use Rattle.router_step.specs.Place.{way_out};
ghost use Rattle.packet_view.specs.Checks.{checks_at, checks_of, end_checks, leave_by_checks, leave_checks, pass_checks, place_checks, switch_checks};

use crate::check::{Check, add_check, add_test};
use crate::sides::{
    destination_sides, header_sides, indices_sides, kinds_sides, link_sides, live_sides, mac_sides,
    owner_sides, source_sides, switch_sides, way_in_sides, way_out_sides,
};
use crate::situation::Situation;
use path_header::{HopField, InfoField};
use router_step::checks::{
    destination_fits, is_hop_live, is_mac_right, is_over_link, kinds_fit, source_fits, way_in_fits,
};
use router_step::{Arrival, Refusal, destination_in, read_header, source_in, way_out};
use scion_topology::{IfEntry, RouterView};
use std::alloc::{AllocError, Global};

/// Adds the checks of the packet's place and way in.
fn add_place(alloc: Global, at: &Situation<'_>, checks: &mut Vec<Check>) -> Result<(), AllocError>
    ensures { OnOk result (checks.new.items ≡ checks.old.items ++ place_checks at.entry.now) }
{
    let info = at.info();
    let hop = at.hop();
    let sides = indices_sides(at);
    let holds = at.has_right_indices();
    add_test(alloc, checks, &sides, holds, Refusal::IndexMismatch)?;
    let sides = way_in_sides(at, &info, &hop);
    let holds = way_in_fits(&at.view, &at.arrival, &info, &hop);
    add_test(alloc, checks, &sides, holds, Refusal::WrongIngress)
}

/// The numbers of the two checks of a hop.
#[derive(Clone, Copy)]
struct HopChecks {
    live: u8,
    mac: u8,
}

/// The checks of the hop at which the packet arrives.
const ON_ARRIVAL: HopChecks = HopChecks { live: 4, mac: 5 };

/// The checks of the hop after a switch.
const AFTER_SWITCH: HopChecks = HopChecks { live: 9, mac: 9 };

/// Adds the checks of a hop: that it is live, and that its authenticator is right.
fn add_pass(
    alloc: Global,
    numbers: HopChecks,
    at: &Situation<'_>,
    info: &InfoField,
    hop: &HopField,
    checks: &mut Vec<Check>,
) -> Result<(), AllocError>
    ensures { OnOk result (checks.new.items ≡ checks.old.items
        ++ pass_checks numbers.live numbers.mac at.entry.now.view at.entry.now.now info.now hop.now) }
{
    let sides = live_sides(numbers.live, at.now, info, hop);
    let holds = is_hop_live(at.now, info, hop);
    add_test(alloc, checks, &sides, holds, Refusal::Expired)?;
    let sides = mac_sides(numbers.mac, at, info, hop);
    let holds = is_mac_right(&at.view, info, hop);
    add_test(alloc, checks, &sides, holds, Refusal::BadMac)
}

/// Adds the checks of both addresses.
fn add_end(alloc: Global, at: &Situation<'_>, checks: &mut Vec<Check>) -> Result<(), AllocError>
    ensures { OnOk result (checks.new.items ≡ checks.old.items ++ end_checks at.entry.now) }
{
    let sides = source_sides(at);
    let holds = source_fits(&at.view, &at.arrival, at.source);
    add_test(alloc, checks, &sides, holds, Refusal::SourceAs)?;
    let sides = destination_sides(at);
    let holds = destination_fits(&at.view, at.destination, at.is_last());
    add_test(alloc, checks, &sides, holds, Refusal::DestinationAs)
}

/// Adds the checks of a switch to the next segment.
fn add_switch(alloc: Global, at: &Situation<'_>, checks: &mut Vec<Check>) -> Result<(), AllocError>
    requires { at.now.header.curr_hf + 1 < length at.now.header.hops }
    ensures { OnOk result (checks.new.items ≡ checks.old.items ++ switch_checks at.entry.now) }
{
    if !at.ends_segment() {
        return Ok(());
    }
    let sides = switch_sides(at);
    let holds = is_over_link(&at.arrival);
    add_test(alloc, checks, &sides, holds, Refusal::SwitchInside)?;
    let info = at.info_to_leave(true);
    let hop = at.hop_to_leave(true);
    add_pass(alloc, AFTER_SWITCH, at, &info, &hop, checks)
}

/// Adds the checks of the way out over this interface, behind the one that there is such an
/// interface.
fn add_leave_by(
    alloc: Global,
    at: &Situation<'_>,
    switched: bool,
    out: &IfEntry,
    checks: &mut Vec<Check>,
) -> Result<(), AllocError>
    ensures { OnOk result (checks.new.items ≡ checks.old.items
        ++ leave_by_checks at.entry.now.view at.entry.now.arrival switched out.now) }
{
    let sides = kinds_sides(at, switched, out.kind);
    let holds = kinds_fit(&at.view, &at.arrival, switched, out.kind);
    add_test(alloc, checks, &sides, holds, Refusal::LinkKinds)?;
    add_check(alloc, checks, &owner_sides(at, out), Ok(()))?;
    if out.router == at.view.router() {
        add_test(
            alloc,
            checks,
            &link_sides(out.up),
            out.up,
            Refusal::LinkDown,
        )
    } else {
        Ok(())
    }
}

/// Adds the checks of the way out, from this info and hop field.
fn add_leave(
    alloc: Global,
    at: &Situation<'_>,
    switched: bool,
    info: &InfoField,
    hop: &HopField,
    checks: &mut Vec<Check>,
) -> Result<(), AllocError>
    ensures { let out = entry_of at.entry.now.view (way_out info.now hop.now) in
        OnOk result (checks.new.items ≡ checks.old.items
        ++ leave_checks at.entry.now.view at.entry.now.arrival switched info.now hop.now out) }
{
    let sides = way_out_sides(at, info, hop);
    match at.view.entry(way_out(info, hop)) {
        None => add_check(alloc, checks, &sides, Err(Refusal::UnknownEgress)),
        Some(out) => {
            add_check(alloc, checks, &sides, Ok(()))?;
            add_leave_by(alloc, at, switched, out, checks)
        }
    }
}

/// Adds the checks of a packet with a path header.
fn add_checks(alloc: Global, at: &Situation<'_>, checks: &mut Vec<Check>) -> Result<(), AllocError>
    ensures { OnOk result (checks.new.items ≡ checks.old.items ++ checks_at at.entry.now) }
{
    add_place(alloc, at, checks)?;
    add_pass(
        alloc,
        ON_ARRIVAL,
        at,
        &at.info_on_arrival(),
        &at.hop(),
        checks,
    )?;
    add_end(alloc, at, checks)?;
    if at.is_last() {
        return Ok(());
    }
    add_switch(alloc, at, checks)?;
    let switched = at.ends_segment();
    let info = at.info_to_leave(switched);
    let hop = at.hop_to_leave(switched);
    add_leave(alloc, at, switched, &info, &hop, checks)
}

/// The checks that a router with this view makes at the second `now` on a packet that came to it by
/// `arrival`.
pub(crate) fn checks_of(
    alloc: Global,
    view: RouterView<'_>,
    now: u32,
    arrival: Arrival,
    packet: &[u8],
) -> Result<Vec<Check>, AllocError>
    ensures { IfOk result (λ checks. checks.items ≡ checks_of view.entry now arrival packet.now) }
{
    let mut checks = Vec::new(alloc);
    let sides = header_sides(packet);
    match read_header(packet) {
        Ok((header, _)) => {
            add_check(alloc, &mut checks, &sides, Ok(()))?;
            let at = Situation {
                view,
                now,
                arrival,
                source: source_in(packet),
                destination: destination_in(packet),
                header,
            };
            add_checks(alloc, &at, &mut checks)?;
        }
        Err(refusal) => add_check(alloc, &mut checks, &sides, Err(refusal))?,
    }
    Ok(checks)
}
