//! The texts of replies to events and about packets.
//!
//! A reply is written behind a text that is kept from line to line, so that it needs no memory of
//! its own once that text has room.

ghost use Rattle.std.specs.Prelude.{◌≡◌, ◌++◌, IfOk, IfSome, None, OnOk, Some, flat_map, option_map, true};
ghost use Rattle.std.specs.String.{string_bytes};
ghost use Rattle.refusal.specs.Fault.{is_word};
ghost use Rattle.network_core.specs.Fault.{code_and_name};
ghost use Rattle.event_lines.specs.Refusals.{bad_line_refusal, coded, refusal_of, refusal_shown};
ghost use Rattle.event_lines.specs.inner.Seen.{IsBlank};
ghost use Rattle.event_lines.specs.Text.{answer_in, answer_text, bad_line, fault_text, hop_text, hops_text, kinds_text, letter, outcome_text, packet_text, passed_text, path_text, paths_of, place_text, reply_text, turn_text};

use combinator::Path;
use forwarding::{PacketLocation, TurnReply};
use network_core::{EventFault, Net, Packet, Reply};
use path_verifier::{PieceKind, Pieces};
use policy_expr::WalkHop;
use refusal::NumberedFault;
use router_step::Outcome;
use std::alloc::{AllocError, Global};
use std::fmt::Write;

/// A reply: its text, and the number and the name of the refusal that it tells, if it tells one.
#[derive(Drop)]
pub(crate) struct LineReply {
    pub(crate) text: String,
    pub(crate) refusal: Option<(u16, &'static str)>,
}

impl LineReply {
    /// A reply without text.
    pub(crate) fn new(alloc: Global) -> Self
        ensures { IsBlank result }
    {
        Self {
            text: String::new(alloc),
            refusal: None,
        }
    }

    /// Takes the text and the refusal away.
    pub(crate) fn clear(&mut self)
        ensures { IsBlank self.new }
    {
        self.text.clear();
        self.refusal = None;
    }
}

/// Adds a hop.
fn push_hop(text: &mut String, hop: &WalkHop) -> Result<(), AllocError>
    ensures { OnOk result (string_bytes text.new ≡ string_bytes text.old ++ hop_text hop.now) }
{
    write!(text, "{}#{},{}", hop.ia, hop.ingress, hop.egress)
}

/// Adds the hops, separated by spaces.
fn push_hops(text: &mut String, hops: &[WalkHop]) -> Result<(), AllocError>
    ensures { OnOk result (string_bytes text.new ≡ string_bytes text.old ++ hops_text hops.now) }
{
    let Some((first, later)) = hops.split_first() else {
        return Ok(());
    };
    push_hop(text, first)?;
    for one in later {
        text.push_str(" ")?;
        push_hop(text, one)?;
    }
    Ok(())
}

/// The text of hops: `ISD-AS#INGRESS,EGRESS`, separated by spaces.
pub fn hops_text(alloc: Global, hops: &[WalkHop]) -> Result<String, AllocError>
    ensures { IfOk result (λ text. string_bytes text ≡ hops_text hops.now) }
{
    let mut text = String::new(alloc);
    push_hops(&mut text, hops)?;
    Ok(text)
}

/// The letter for a kind of piece.
fn letter(kind: PieceKind) -> &'static str
    ensures { result.now ≡ letter kind }
{
    match kind {
        PieceKind::Up => "U",
        PieceKind::Core => "C",
        PieceKind::Down => "D",
    }
}

/// The kind of a path of these pieces, as `UCD`: `U` for an up piece, `C` for a core piece, and `D`
/// for a down piece, in order of travel.
pub fn kinds_text(alloc: Global, pieces: &Pieces<'_>) -> Result<String, AllocError>
    ensures { IfOk result (λ text. string_bytes text ≡ kinds_text pieces.now) }
{
    let mut text = String::new(alloc);
    for place in 0..pieces.len() {
        let piece = pieces.get(place).unwrap();
        text.push_str(letter(piece.kind()))?;
    }
    Ok(text)
}

/// Adds the outcome of a router's step.
pub(crate) fn push_outcome(text: &mut String, outcome: Outcome) -> Result<(), AllocError>
    ensures { OnOk result (string_bytes text.new ≡ string_bytes text.old ++ outcome_text outcome) }
{
    match outcome {
        Outcome::ToLink(interface) => write!(text, "link {interface}"),
        Outcome::ToRouter(router) => write!(text, "router {router}"),
        Outcome::Deliver => text.push_str("delivered"),
    }
}

/// Adds the reply of a turn, and the refusal of the packet, if there is one.
fn push_turn(reply: &mut LineReply, turned: TurnReply) -> Result<(), AllocError>
    requires none { reply.old.refusal ≡ None }
    ensures added { OnOk result
        (string_bytes reply.new.text ≡ string_bytes reply.old.text ++ turn_text turned) }
    ensures refusal { OnOk result (coded reply.new.refusal ≡ refusal_of (Reply.Turned turned)) }
    ensures named { IfSome (refusal_of (Reply.Turned turned)) (λ one. is_word one.1 ≡ true) }
{
    match turned {
        TurnReply::Went(outcome) => push_outcome(&mut reply.text, outcome),
        TurnReply::Refused(cause) => {
            reply.refusal = Some(cause.code_and_name());
            reply.text.push_str("refused ")?;
            cause.push_to(&mut reply.text)
        }
        TurnReply::Still => reply.text.push_str("ok"),
    }
}

/// Adds the refusal of an event.
fn push_fault(reply: &mut LineReply, fault: EventFault) -> Result<(), AllocError>
    ensures added { OnOk result
        (string_bytes reply.new.text ≡ string_bytes reply.old.text ++ fault_text fault) }
    ensures refusal { OnOk result (coded reply.new.refusal ≡ Some (code_and_name fault)) }
    ensures named { is_word (code_and_name fault).1 ≡ true }
{
    let (code, name) = fault.code_and_name();
    reply.refusal = Some((code, name));
    write!(reply.text, "no {code} {name}")
}

/// Adds the reply to a bad line.
pub(crate) fn push_bad_line(reply: &mut LineReply) -> Result<(), AllocError>
    ensures added { OnOk result
        (string_bytes reply.new.text ≡ string_bytes reply.old.text ++ bad_line) }
    ensures refusal { OnOk result (coded reply.new.refusal ≡ bad_line_refusal) }
{
    reply.refusal = Some((140, "BadLine"));
    reply.text.push_str("no 140 BadLine")
}

/// Adds the walk of each path of an answer.
fn push_paths(text: &mut String, paths: &[Path]) -> Result<(), AllocError>
    ensures { OnOk result (string_bytes text.new
        ≡ string_bytes text.old ++ flat_map path_text paths.now) }
{
    for path in paths {
        text.push_str("; ")?;
        push_hops(text, path.walk())?;
    }
    Ok(())
}

/// Adds the reply with an answer of this number.
fn push_answer(text: &mut String, number: usize, paths: &[Path]) -> Result<(), AllocError>
    ensures { OnOk result (string_bytes text.new
        ≡ string_bytes text.old ++ answer_text number paths.now) }
{
    write!(text, "ask {number} {}", paths.len())?;
    push_paths(text, paths)
}

/// The paths of the answer of this number.
fn paths_in(net: &Net, number: usize) -> &[Path]
    ensures { result.now ≡ paths_of (answer_in net.now number) }
{
    match net.answer(number) {
        Some(list) => list.paths(),
        None => &[],
    }
}

/// Adds the reply to an event, in the network after it, and the refusal that it tells, if it tells
/// one.
pub(crate) fn push_reply(
    reply: &mut LineReply,
    net: &Net,
    answered: Reply,
) -> Result<(), AllocError>
    requires none { reply.old.refusal ≡ None }
    ensures added { OnOk result (string_bytes reply.new.text
        ≡ string_bytes reply.old.text ++ reply_text net.now answered) }
    ensures refusal { OnOk result (coded reply.new.refusal ≡ refusal_of answered) }
    ensures named { IfSome (refusal_of answered) (λ one. is_word one.1 ≡ true) }
{
    let text = &mut reply.text;
    match answered {
        Reply::Done => text.push_str("ok"),
        Reply::Begun(beacon) => write!(text, "beacon {beacon}"),
        Reply::Registered(true) => text.push_str("segment new"),
        Reply::Registered(false) => text.push_str("segment known"),
        Reply::Swept(count) => write!(text, "swept {count}"),
        Reply::Answered(number) => push_answer(text, number, paths_in(net, number)),
        Reply::Sent(packet) => write!(text, "packet {packet}"),
        Reply::Turned(turned) => push_turn(reply, turned),
        Reply::Refused(cause) => push_fault(reply, cause),
    }
}

/// Adds the place of a packet.
fn push_place(text: &mut String, place: PacketLocation) -> Result<(), AllocError>
    ensures { OnOk result (string_bytes text.new ≡ string_bytes text.old ++ place_text place) }
{
    match place {
        PacketLocation::AtRouter(stop) => write!(text, "at {} {}", stop.ia, stop.router),
        PacketLocation::Delivered => text.push_str("delivered"),
        PacketLocation::Refused(ia, router, cause) => {
            write!(text, "refused {ia} {router} ")?;
            cause.push_to(text)
        }
        PacketLocation::Lost => text.push_str("lost"),
    }
}

/// Adds the hops that a packet has passed.
fn push_passed(text: &mut String, passed: &[WalkHop]) -> Result<(), AllocError>
    ensures { OnOk result (string_bytes text.new
        ≡ string_bytes text.old ++ passed_text passed.now) }
{
    if passed.is_empty() {
        return Ok(());
    }
    text.push_str("; ")?;
    push_hops(text, passed)
}

/// Adds the reply about a packet: its place, and the hops that it has passed; or the refusal, if
/// there is no packet.
pub(crate) fn push_packet(reply: &mut LineReply, packet: Option<&Packet>) -> Result<(), AllocError>
    requires none { reply.old.refusal ≡ None }
    ensures added { OnOk result (string_bytes reply.new.text
        ≡ string_bytes reply.old.text ++ packet_text (option_map (λ p. p.now) packet.entry)) }
    ensures refusal { OnOk result (coded reply.new.refusal
        ≡ refusal_shown (option_map (λ p. p.now) packet.entry)) }
{
    match packet {
        None => push_fault(reply, EventFault::NoPacket),
        Some(packet) => {
            push_place(&mut reply.text, packet.place())?;
            push_passed(&mut reply.text, packet.passed())
        }
    }
}
