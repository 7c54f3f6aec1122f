//! Replies to lines, and the events that happen.
//!
//! Each reply is written into one that is blank before it. Where memory runs out, that has a
//! beginning of the text.
#![tactic(auto, unfolding(crate::specs::Line::line_in, crate::specs::Line::line_with_word, crate::specs::Line::said_by))]

ghost use Rattle.std.specs.Prelude.{None, OnOk, Some};
ghost use Rattle.std.specs.String.{string_bytes};
ghost use Rattle.json_fields.specs.Documents.{node_data};
ghost use Rattle.network_core.specs.Event as events;
ghost use Rattle.event_lines.specs.AcceptedLines.{accepted_as};
ghost use Rattle.event_lines.specs.Line.{Happens, Shows, ask_line, back_line, line_in, plain_lines, read_among, read_by, rotate_line, said_by, send_line};
ghost use Rattle.event_lines.specs.inner.Seen.{IsBlank, TellsRefusal, line_value};
ghost use Rattle.event_lines.specs.Replies.{Replies};

use crate::accepted::AcceptedLines;
use crate::fields::{read_bytes, read_options};
use crate::line::{Line, ask, back, plain, rotate, send};
use crate::text::{LineReply, push_bad_line, push_outcome, push_packet, push_reply};
use forwarding::TurnReply;
use json_fields::{Document, JsonRoom, Node};
use network_core::{Event, Net, Reply};
use policy_expr::OwnedOptionText;
use std::alloc::{AllocError, Global};

/// Does an event, and writes its reply.
#[tactic(auto, using(crate::proofs::Tells::outcome_tells))]
fn happen(
    alloc: Global,
    net: &mut Net,
    event: &Event<'_>,
    reply: &mut LineReply,
) -> Result<(), AllocError>
    requires { IsBlank reply.old }
    ensures told { OnOk result (Replies net.old (Some (Happens (events.event_value event.now)))
        (string_bytes reply.new.text) net.new) }
    ensures refusal { OnOk result (TellsRefusal reply.new) }
{
    let answered = net.step(alloc, event)?;
    if let Reply::Turned(TurnReply::Went(outcome)) = answered {
        return push_outcome(&mut reply.text, outcome);
    }
    push_reply(reply, net, answered)
}

/// Writes the reply to a bad line.
fn answer_bad_line(net: &Net, reply: &mut LineReply) -> Result<(), AllocError>
    requires { IsBlank reply.old }
    ensures told { OnOk result (Replies net.now None (string_bytes reply.new.text) net.now) }
    ensures refusal { OnOk result (TellsRefusal reply.new) }
{
    push_bad_line(reply)
}

/// Writes the reply to a line that shows a packet.
fn answer_shown(net: &Net, packet: u32, reply: &mut LineReply) -> Result<(), AllocError>
    requires { IsBlank reply.old }
    ensures told { OnOk result (Replies net.now (Some (Shows packet)) (string_bytes reply.new.text)
        net.now) }
    ensures refusal { OnOk result (TellsRefusal reply.new) }
{
    push_packet(reply, net.packet(packet as usize))
}

/// Writes the reply to a line.
fn answer(
    alloc: Global,
    net: &mut Net,
    line: &Line<'_>,
    reply: &mut LineReply,
) -> Result<(), AllocError>
    requires { IsBlank reply.old }
    ensures told { OnOk result (Replies net.old (Some (line_value line.now))
        (string_bytes reply.new.text) net.new) }
    ensures refusal { OnOk result (TellsRefusal reply.new) }
{
    match line {
        Line::Happens(event) => happen(alloc, net, event, reply),
        Line::Show { packet } => answer_shown(net, *packet, reply),
    }
}

/// Writes the reply to a line if it is accepted, else the reply to a bad line.
fn answer_accepted(
    alloc: Global,
    accepted: AcceptedLines,
    net: &mut Net,
    line: &Line<'_>,
    reply: &mut LineReply,
) -> Result<(), AllocError>
    requires { IsBlank reply.old }
    ensures told { OnOk result (Replies net.old (accepted_as accepted (Some (line_value line.now)))
        (string_bytes reply.new.text) net.new) }
    ensures refusal { OnOk result (TellsRefusal reply.new) }
{
    if accepted.accepts(line) {
        answer(alloc, net, line, reply)
    } else {
        answer_bad_line(net, reply)
    }
}

/// Writes the reply to a line of a word whose lines have neither bytes nor texts.
fn answer_plain(
    alloc: Global,
    accepted: AcceptedLines,
    net: &mut Net,
    word: &str,
    object: &Node<'_, '_>,
    reply: &mut LineReply,
) -> Result<(), AllocError>
    requires { IsBlank reply.old }
    ensures told { OnOk result (Replies net.old
        (accepted_as accepted (read_among plain_lines word.now (node_data object.now)))
        (string_bytes reply.new.text) net.new) }
    ensures refusal { OnOk result (TellsRefusal reply.new) }
{
    match plain(word, object) {
        Some(line) => answer_accepted(alloc, accepted, net, &line, reply),
        None => answer_bad_line(net, reply),
    }
}

/// Writes the reply to a line that asks for paths. Its policies are owned first, and then borrowed.
fn answer_ask(
    alloc: Global,
    accepted: AcceptedLines,
    net: &mut Net,
    object: &Node<'_, '_>,
    reply: &mut LineReply,
) -> Result<(), AllocError>
    requires { IsBlank reply.old }
    ensures told { OnOk result (Replies net.old
        (accepted_as accepted (read_by ask_line (node_data object.now)))
        (string_bytes reply.new.text) net.new) }
    ensures refusal { OnOk result (TellsRefusal reply.new) }
{
    let Some(options) = read_options(alloc, object)? else {
        return answer_bad_line(net, reply);
    };
    let lent = OwnedOptionText::lend_all(alloc, &options)?;
    match ask(object, &lent) {
        Some(line) => answer_accepted(alloc, accepted, net, &line, reply),
        None => answer_bad_line(net, reply),
    }
}

/// Writes the reply to a line that sends a packet. Its payload is decoded first, and then borrowed.
fn answer_send(
    alloc: Global,
    accepted: AcceptedLines,
    net: &mut Net,
    object: &Node<'_, '_>,
    reply: &mut LineReply,
) -> Result<(), AllocError>
    requires { IsBlank reply.old }
    ensures told { OnOk result (Replies net.old
        (accepted_as accepted (read_by send_line (node_data object.now)))
        (string_bytes reply.new.text) net.new) }
    ensures refusal { OnOk result (TellsRefusal reply.new) }
{
    let Some(payload) = read_bytes(alloc, object, "payload")? else {
        return answer_bad_line(net, reply);
    };
    match send(object, &payload) {
        Some(line) => answer_accepted(alloc, accepted, net, &line, reply),
        None => answer_bad_line(net, reply),
    }
}

/// Writes the reply to a line that sends a packet back.
fn answer_back(
    alloc: Global,
    accepted: AcceptedLines,
    net: &mut Net,
    object: &Node<'_, '_>,
    reply: &mut LineReply,
) -> Result<(), AllocError>
    requires { IsBlank reply.old }
    ensures told { OnOk result (Replies net.old
        (accepted_as accepted (read_by back_line (node_data object.now)))
        (string_bytes reply.new.text) net.new) }
    ensures refusal { OnOk result (TellsRefusal reply.new) }
{
    let Some(payload) = read_bytes(alloc, object, "payload")? else {
        return answer_bad_line(net, reply);
    };
    match back(object, &payload) {
        Some(line) => answer_accepted(alloc, accepted, net, &line, reply),
        None => answer_bad_line(net, reply),
    }
}

/// Writes the reply to a line that takes a key into use.
fn answer_rotate(
    alloc: Global,
    accepted: AcceptedLines,
    net: &mut Net,
    object: &Node<'_, '_>,
    reply: &mut LineReply,
) -> Result<(), AllocError>
    requires { IsBlank reply.old }
    ensures told { OnOk result (Replies net.old
        (accepted_as accepted (read_by rotate_line (node_data object.now)))
        (string_bytes reply.new.text) net.new) }
    ensures refusal { OnOk result (TellsRefusal reply.new) }
{
    let Some(key) = read_bytes(alloc, object, "key")? else {
        return answer_bad_line(net, reply);
    };
    match rotate(object, &key) {
        Some(line) => answer_accepted(alloc, accepted, net, &line, reply),
        None => answer_bad_line(net, reply),
    }
}

/// Writes the reply to a JSON object.
fn answer_object(
    alloc: Global,
    accepted: AcceptedLines,
    net: &mut Net,
    object: &Node<'_, '_>,
    reply: &mut LineReply,
) -> Result<(), AllocError>
    requires { IsBlank reply.old }
    ensures told { OnOk result (Replies net.old (accepted_as accepted (said_by (node_data object.now)))
        (string_bytes reply.new.text) net.new) }
    ensures refusal { OnOk result (TellsRefusal reply.new) }
{
    let Some(word) = object.text("do") else {
        return answer_bad_line(net, reply);
    };
    match word {
        "ask" => answer_ask(alloc, accepted, net, object, reply),
        "send" => answer_send(alloc, accepted, net, object, reply),
        "back" => answer_back(alloc, accepted, net, object, reply),
        "rotate" => answer_rotate(alloc, accepted, net, object, reply),
        _ => answer_plain(alloc, accepted, net, word, object, reply),
    }
}

/// Writes the reply to a line without its end, in a run that accepts these lines. A line is bad if
/// it is not accepted, or if it has none of the forms that `docs/lines.md` lists: it is no JSON, or
/// the member `do` is missing or has an unknown word, or a member of the word is missing or has
/// another form.
///
/// It takes the time and memory of the line's event, and more in proportion to its bytes.
pub(crate) fn answer_line(
    alloc: Global,
    accepted: AcceptedLines,
    room: &mut JsonRoom,
    net: &mut Net,
    bytes: &[u8],
    reply: &mut LineReply,
) -> Result<(), AllocError>
    requires { IsBlank reply.old }
    ensures told { OnOk result (Replies net.old (accepted_as accepted (line_in bytes.now))
        (string_bytes reply.new.text) net.new) }
    ensures refusal { OnOk result (TellsRefusal reply.new) }
{
    match Document::read(alloc, room, bytes)? {
        Some(document) => answer_object(alloc, accepted, net, &document.root(), reply),
        None => answer_bad_line(net, reply),
    }
}
