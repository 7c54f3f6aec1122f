//! A router's turn on a whole packet.

#![tactic(auto, unfolding(crate::specs::Turn::whole_packet_step))]

ghost use Rattle.std.specs.Prelude.{◌≡◌};
ghost use Rattle.scion_packet.specs.Turn.{whole_packet_step, IsTurned};

use crate::checking::check_headers;
use crate::fault::TurnRefusal;
use crate::layout::{COMMON_LEN, HOSTS_START};
use router_step::{Arrival, Outcome, step_in_parts};
use scion_topology::RouterView;

/// One turn of the router with this view, at the second `now`, on a whole packet that came to it by
/// `arrival`. It returns where the packet goes and changes its path header, or returns the first
/// check that fails: the refusals of [`crate::read`], and then those of [`router_step::step`]
/// behind [`router_step::Refusal::BadHeader`].
///
/// After a refusal every byte is as before; else only bytes of the path header change. The call
/// takes no memory, and looks neither at the hosts' addresses nor at the payload: extensions pass
/// as they are.
pub fn turn(
    view: &RouterView<'_>,
    now: u32,
    arrival: Arrival,
    packet: &mut [u8],
) -> Result<Outcome, TurnRefusal>
    // The exact outcome or refusal, and every byte of the packet after it.
    ensures exact { let turn = whole_packet_step view.now now arrival packet.old
        in IsTurned turn packet.old packet.new result }
{
    let place = match check_headers(packet) {
        Ok(place) => place,
        Err(fault) => return Err(TurnRefusal::Packet(fault)),
    };
    let (front, rest) = packet.split_at_mut(place);
    match step_in_parts(view, now, arrival, &front[COMMON_LEN..HOSTS_START], rest) {
        Ok(outcome) => Ok(outcome),
        Err(refusal) => Err(TurnRefusal::Step(refusal)),
    }
}
