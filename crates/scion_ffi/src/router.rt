//! The step of a router on a packet in the host's memory.

ghost use Rattle.std.specs.Prelude.{◌≡◌};
ghost use Rattle.scion_topology.specs.View.{View};
ghost use Rattle.scion_ffi.specs.Step.{IsStepAnswered, step_at, step_told};

use crate::answer::{ScionAnswer, bad_call, outcome_answer, refusal_answer};
use crate::parts::{arrival_of, room, view};
use crate::records::ScionRouter;
use router_step::step;
use scion_topology::RouterView;

/// One step of the router with this view on a packet that came in this way.
pub(crate) fn step_packet(
    view: &RouterView<'_>,
    now: u32,
    arrival: u8,
    interface: u16,
    packet: &mut [u8],
) -> ScionAnswer
    ensures { IsStepAnswered (step_at view.now now arrival interface packet.old)
        packet.old packet.new result }
{
    let Some(arrival) = arrival_of(arrival, interface) else {
        return bad_call();
    };
    match step(view, now, arrival, packet) {
        Ok(outcome) => outcome_answer(outcome),
        Err(refusal) => refusal_answer(refusal),
    }
}

/// One step of this router at the second `now` on a packet, in place.
///
/// `arrival` is 0 for a packet from a host of the AS, 1 for one from another router of the AS, and
/// 2 for one that came over the link at `interface`. The answer says where the packet goes; then
/// only bytes of its path header have changed, and its length has not. Else it is the first of
/// these refusals, and every byte is as before: there is no such kind or state, or there are too
/// many interfaces (9); there is no such router (11 or 13); there is no such way in (9); the router
/// refuses the packet (90 to 100). The time is bounded, since there are at most 256 interfaces and
/// 64 hop fields.
#[unsafe(no_mangle)]
pub extern "C" fn scion_step(
    router: &ScionRouter<'_>,
    now: u32,
    arrival: u8,
    interface: u16,
    packet: &mut [u8],
) -> ScionAnswer
    ensures { IsStepAnswered (step_told router.now now arrival interface packet.old)
        packet.old packet.new result }
{
    let mut room = room();
    match view(&mut room, router) {
        Ok(view) => step_packet(&view, now, arrival, interface, packet),
        Err(refusal) => refusal,
    }
}
