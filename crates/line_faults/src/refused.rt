//! Events that are refused: what of the event is meant.

ghost use Rattle.std.specs.Prelude.{◌≡◌, ◌++◌, OnOk, Some};
ghost use Rattle.line_faults.specs.inner.Meaning.{member_said, site_of};

use crate::found::push_found;
use crate::history::{History, Makers, address_at, interface_at, number_at};
use crate::place::{Place, push_place};
use crate::said::Said;
use crate::sentence::{own_subject, push_sentence};
use forwarding::{PacketLocation, RouterStop};
use isd_as::{IfId, IsdAs};
use network_core::Net;
use scion_topology::{Link, Topology};
use serde_json::Value;
use std::alloc::AllocError;
use std::fmt::Write;

/// The most interfaces of an AS that are shown.
const MAX_INTERFACES: usize = 16;

/// What is known where a line stands: the network after it, what the lines before it have made, and
/// where the packet was whose turn it is.
#[derive(Clone, Copy)]
pub(crate) struct Context<'a> {
    pub(crate) net: Option<&'a Net>,
    pub(crate) history: &'a History,
    pub(crate) stop: Option<RouterStop>,
}

/// Whether the answer is there that an event names.
fn is_answered(context: &Context<'_>, event: &Value) -> bool {
    match (context.net, number_at(event, "ask")) {
        (Some(net), Some(number)) => net.answer(number).is_some(),
        _ => false,
    }
}

/// Adds that a refusal of this number is about this member of an event, its sentence, and what is
/// known of the network beside.
pub(crate) fn push_refused(
    why: &mut Said,
    line: Place<'_>,
    context: &Context<'_>,
    code: usize,
    event: &Value,
    member: &str,
) -> Result<(), AllocError>
    ensures { OnOk result
        (member_said why.new ≡ Some ((site_of line.entry).front ++ member.now)) }
{
    push_place(why, line, member)?;
    push_found(why, line, event.get(member))?;
    why.text.push_str(": ")?;
    push_sentence(&mut why.text, code)?;
    match context.net {
        Some(net) => push_detail(&mut why.text, net, context.history, code, event),
        None => Ok(()),
    }
}

/// Adds which member of an event its own refusal of this number is about, its sentence, and what is
/// known of the network beside.
pub(crate) fn push_own_refusal(
    why: &mut Said,
    line: Place<'_>,
    context: &Context<'_>,
    code: usize,
    event: &Value,
) -> Result<(), AllocError> {
    let member = match code {
        133 if is_answered(context, event) => "path",
        _ => own_subject(code),
    };
    push_refused(why, line, context, code, event, member)
}

/// Adds what is known of the network beside a refusal.
fn push_detail(
    text: &mut String,
    net: &Net,
    history: &History,
    code: usize,
    event: &Value,
) -> Result<(), AllocError> {
    match code {
        14 | 40 => push_unlisted(text, net.topology(), event),
        17 => push_interfaces(text, net.topology(), event),
        41 => {
            push_interfaces(text, net.topology(), event)?;
            push_other_end(text, net.topology(), event)
        }
        42 => push_down(text, net, history, event),
        44 => push_far_end(text, net, event),
        130 => {
            push_made(text, "packets", net.packets().len())?;
            push_lack(text, history.packets, number_at(event, "packet"))
        }
        131 => push_place_of(text, net, event),
        132 => {
            push_made(text, "beacons", net.beacons().len())?;
            push_lack(text, history.beacons, number_at(event, "beacon"))
        }
        133 => push_answer(text, net, history, event),
        134 => write!(text, "; it is second {}", net.now()),
        136 => push_len(text, net, event),
        _ => Ok(()),
    }
}

/// Adds that the topology has no such AS, if it has none.
fn push_unlisted(text: &mut String, topology: &Topology, event: &Value) -> Result<(), AllocError> {
    match address_at(event, "ia") {
        Some(ia) if topology.as_info(ia).is_err() => {
            write!(text, "; the topology has no AS {ia}")
        }
        _ => Ok(()),
    }
}

/// The interface of a link in an AS, if it has one there.
fn interface_of(link: &Link, ia: IsdAs) -> Option<IfId> {
    if link.a.ia == ia {
        Some(link.a.number)
    } else if link.b.ia == ia {
        Some(link.b.number)
    } else {
        None
    }
}

/// Adds the first interfaces of the event's AS.
fn push_interfaces(
    text: &mut String,
    topology: &Topology,
    event: &Value,
) -> Result<(), AllocError> {
    let Some(ia) = address_at(event, "ia") else {
        return Ok(());
    };
    write!(text, "; interfaces of {ia}:")?;
    let mut left = MAX_INTERFACES;
    for link in topology.links() {
        let Some(number) = interface_of(link, ia) else {
            continue;
        };
        if left == 0 {
            return text.push_str(" ..");
        }
        write!(text, " {number}")?;
        left -= 1;
    }
    if left == MAX_INTERFACES {
        return text.push_str(" none");
    }
    Ok(())
}

/// Adds that the way out of an event is the interface at the other end of a link of its AS, if it
/// is.
fn push_other_end(text: &mut String, topology: &Topology, event: &Value) -> Result<(), AllocError> {
    let (Some(ia), Some(egress)) = (address_at(event, "ia"), interface_at(event, "egress")) else {
        return Ok(());
    };
    for link in topology.links() {
        let (near, far) = if link.a.ia == ia {
            (link.a, link.b)
        } else {
            (link.b, link.a)
        };
        if near.ia == ia && far.number == egress {
            return write!(
                text,
                "; {egress} is the interface of {}, to which {} leads",
                far.ia, near.number
            );
        }
    }
    Ok(())
}

/// Adds a link that is down, by one of its ends, and the line that cut it.
pub(crate) fn push_link(
    text: &mut String,
    net: &Net,
    history: &History,
    ia: IsdAs,
    interface: IfId,
) -> Result<(), AllocError> {
    write!(text, "; the link {ia}#{interface}")?;
    if let Ok((far, other)) = net.topology().far_end(ia, interface) {
        write!(text, "~{far}#{other}")?;
    }
    match history.cut_at(ia, interface) {
        Some(line) => write!(text, " is down since line {line}"),
        None => text.push_str(" is down"),
    }
}

/// Whether the link at this interface is down.
pub(crate) fn is_down(net: &Net, ia: IsdAs, interface: IfId) -> bool {
    match net.topology().interface(ia, interface) {
        Ok(entry) => !entry.up,
        Err(_) => false,
    }
}

/// Adds the link of an event on a beacon that is down: that by which it goes on, or that by which
/// it came.
fn push_down(
    text: &mut String,
    net: &Net,
    history: &History,
    event: &Value,
) -> Result<(), AllocError> {
    if let (Some(ia), Some(egress)) = (address_at(event, "ia"), interface_at(event, "egress")) {
        if is_down(net, ia, egress) {
            return push_link(text, net, history, ia, egress);
        }
    }
    let last = number_at(event, "beacon")
        .and_then(|number| net.beacons().get(number))
        .and_then(|beacon| beacon.entries().last());
    match last {
        Some(entry) => push_link(text, net, history, entry.ia, entry.cons_egress),
        None => Ok(()),
    }
}

/// Adds the AS to which the event's beacon leads.
fn push_far_end(text: &mut String, net: &Net, event: &Value) -> Result<(), AllocError> {
    let Some(number) = number_at(event, "beacon") else {
        return Ok(());
    };
    let Some(beacon) = net.beacons().get(number) else {
        return Ok(());
    };
    let Some(entry) = beacon.entries().last() else {
        return Ok(());
    };
    match net.topology().far_end(entry.ia, entry.cons_egress) {
        Ok((ia, _)) => write!(text, "; beacon {number} leads to {ia}"),
        Err(_) => Ok(()),
    }
}

/// Adds how many of these were made before.
fn push_made(text: &mut String, what: &str, count: usize) -> Result<(), AllocError> {
    write!(text, "; {what} before this line: {count}")
}

/// Adds the refused line because of which there is no such packet or beacon, if that is the cause.
fn push_lack(text: &mut String, makers: Makers, number: Option<usize>) -> Result<(), AllocError> {
    match number.and_then(|number| makers.cause_of_lack(number)) {
        Some(line) => write!(text, "; line {line} was to make one, and was refused"),
        None => Ok(()),
    }
}

/// Adds where the event's packet ended.
fn push_place_of(text: &mut String, net: &Net, event: &Value) -> Result<(), AllocError> {
    let Some(packet) = number_at(event, "packet").and_then(|number| net.packet(number)) else {
        return Ok(());
    };
    match packet.place() {
        PacketLocation::AtRouter(_) => Ok(()),
        PacketLocation::Delivered => text.push_str("; it was delivered"),
        PacketLocation::Refused(ia, router, cause) => {
            write!(text, "; router {router} of {ia} refused it: {cause}")
        }
        PacketLocation::Lost => text.push_str("; it was lost"),
    }
}

/// Adds how many answers there are, or how many paths the event's answer has.
fn push_answer(
    text: &mut String,
    net: &Net,
    history: &History,
    event: &Value,
) -> Result<(), AllocError> {
    match number_at(event, "ask").and_then(|number| net.answer(number)) {
        Some(answer) => write!(text, "; paths of this answer: {}", answer.len()),
        None => push_made(text, "answers", history.answers),
    }
}

/// Adds how many bytes the event's packet has.
fn push_len(text: &mut String, net: &Net, event: &Value) -> Result<(), AllocError> {
    match number_at(event, "packet").and_then(|number| net.packet(number)) {
        Some(packet) => write!(text, "; bytes of this packet: {}", packet.bytes().len()),
        None => Ok(()),
    }
}
