//! The steps of a router on many packets; its parts are read once for all of them.
#![tactic(auto, unfolding(crate::specs::Packets::packet_after))]

ghost use Rattle.std.specs.Prelude.{◌≡◌, map};
ghost use Rattle.scion_topology.specs.View.{View};
ghost use Rattle.scion_ffi.specs.Packets.{AreStepsAnswered, packet_after, packets_told};

use crate::answer::{DONE, ScionAnswer, plain};
use crate::parts::{room, view};
use crate::records::{ScionPacket, ScionRouter};
use crate::router::step_packet;
use scion_topology::RouterView;

/// One step on a packet, whose answer is written into its record.
fn step_one(view: &RouterView<'_>, now: u32, packet: &mut ScionPacket<'_>)
    ensures { packet.new ≡ packet_after view.now now packet.old }
{
    packet.answer = step_packet(view, now, packet.arrival, packet.interface, packet.bytes);
}

/// One step on each packet, in their order.
fn step_each(view: &RouterView<'_>, now: u32, packets: &mut [ScionPacket<'_>])
    ensures { packets.new ≡ map (packet_after view.now now) packets.old }
{
    for packet in packets.iter_mut() {
        step_one(view, now, packet);
    }
}

/// One step of the router on each packet, each with an answer as of [`crate::scion_step`].
///
/// The router's keys are hashed once for all packets, so that a step costs two compressions of a
/// hash instead of four. The answer of the call is 0 if the steps were done. Else it says why there
/// is no such router (9, 11 or 13); then every packet is as before, also its answer.
#[unsafe(no_mangle)]
pub extern "C" fn scion_step_all(
    router: &ScionRouter<'_>,
    now: u32,
    packets: &mut [ScionPacket<'_>],
) -> ScionAnswer
    ensures { AreStepsAnswered (packets_told router.now now packets.old)
        packets.old packets.new result }
{
    let mut room = room();
    match view(&mut room, router) {
        Ok(view) => {
            step_each(&view, now, packets);
            plain(DONE)
        }
        Err(refusal) => refusal,
    }
}
