//! The table of lines, and their values.
#![tactic(auto, unfolding(crate::specs::Line::plain_lines))]

ghost use Rattle.std.specs.Prelude.{◌≡◌, None, Some, codes, map, option_map};
ghost use Rattle.json_fields.specs.Documents.{node_data};
ghost use Rattle.event_lines.specs.Line.{ask_line, back_line, bytes_at, line_words, members_of, options_in, plain_lines, read_among, read_by, rotate_line, send_line, traffic_lines};
ghost use Rattle.event_lines.specs.Members.{member_value};
ghost use Rattle.event_lines.specs.inner.Seen.{line_value};

use crate::fields::{interface, read_address, read_u8, read_u16, read_u32};
use crate::members::{BYTE, LONG, Member, MemberForm, SHORT};
use json_fields::Node;
use network_core::Event;
use policy_expr::OptionText;

/// The words of lines, in the order in which they are told.
static WORDS: [&str; 15] = [
    "tick",
    "originate",
    "extend",
    "terminate",
    "sweep",
    "ask",
    "send",
    "back",
    "turn",
    "lose",
    "alter",
    "cut",
    "mend",
    "rotate",
    "show",
];

static TICK: [Member; 1] = [Member("now", LONG)];

static ORIGINATE: [Member; 3] = [
    Member("ia", MemberForm::Address),
    Member("egress", SHORT),
    Member("beta0", SHORT),
];

static EXTEND: [Member; 3] = [
    Member("beacon", LONG),
    Member("ia", MemberForm::Address),
    Member("egress", SHORT),
];

static TERMINATE: [Member; 2] = [Member("beacon", LONG), Member("ia", MemberForm::Address)];

static SWEEP: [Member; 0] = [];

static ASK: [Member; 3] = [
    Member("src", MemberForm::Address),
    Member("dst", MemberForm::Address),
    Member("limit", MemberForm::Limit),
];

static SEND: [Member; 3] = [
    Member("payload", MemberForm::Bytes),
    Member("ask", LONG),
    Member("path", LONG),
];

static BACK: [Member; 2] = [Member("payload", MemberForm::Bytes), Member("packet", LONG)];

/// Of `turn`, `lose` and `show`.
static PACKET: [Member; 1] = [Member("packet", LONG)];

static ALTER: [Member; 3] = [
    Member("packet", LONG),
    Member("at", LONG),
    Member("xor", BYTE),
];

/// Of `cut` and `mend`.
static INTERFACE: [Member; 2] = [Member("ia", MemberForm::Address), Member("if", SHORT)];

static ROTATE: [Member; 2] = [
    Member("key", MemberForm::Bytes),
    Member("ia", MemberForm::Address),
];

/// The words of lines, in the order in which they are told.
pub fn line_words() -> &'static [&'static str]
    ensures { map (λ word. word.now) result.now ≡ line_words }
{
    &WORDS
}

/// The members of the lines with this word, in the order in which they are looked for; `None` if no
/// line has the word. The policy of a request is not among them.
///
/// What stands above a word is in `docs/lines.md`, too: what happens, and how it is answered.
#[tactic(auto, unfolding(crate::specs::Line::members_of, crate::specs::Line::plain_lines, crate::specs::Line::traffic_lines))]
pub fn members_of(word: &str) -> Option<&'static [Member]>
    ensures { option_map (λ members. map member_value members.now) result ≡ members_of word.now }
{
    match word {
        // it becomes second `now` | `ok`
        "tick" => Some(&TICK),
        // a core AS begins a beacon over its interface `egress`, with this first accumulator, at
        // the current second | `beacon N`
        "originate" => Some(&ORIGINATE),
        // the AS to which this beacon leads passes it on over its interface `egress`, as a new
        // beacon | `beacon N`
        "extend" => Some(&EXTEND),
        // the AS to which the beacon leads ends it; its segment is registered | `segment new`, or
        // `segment known` if an equal one is stored
        "terminate" => Some(&TERMINATE),
        // segments that are no longer live leave the store | `swept N`: how many
        "sweep" => Some(&SWEEP),
        // paths are looked for, at most `limit` | `ask N COUNT`, and then `; WALK` for each path,
        // best first
        "ask" => Some(&ASK),
        // a packet is sent by this path of this answer | `packet N`
        "send" => Some(&SEND),
        // a delivered packet is answered by its way back | `packet N`
        "back" => Some(&BACK),
        // the router that has the packet makes its turn | as below
        "turn" => Some(&PACKET),
        // the packet is lost | `ok`
        "lose" => Some(&PACKET),
        // the packet's byte number `at` is changed by exclusive or with `xor` | `ok`
        "alter" => Some(&ALTER),
        // the link at this interface goes down | `ok`
        "cut" => Some(&INTERFACE),
        // the link at this interface goes up again | `ok`
        "mend" => Some(&INTERFACE),
        // the AS takes another key, and still accepts the one before it | `ok`
        "rotate" => Some(&ROTATE),
        // nothing; the place of the packet is told | as below
        "show" => Some(&PACKET),
        _ => None,
    }
}

/// The value of a line.
#[derive(Clone, Copy)]
pub(crate) enum Line<'a> {
    /// An event that happens in the network.
    Happens(Event<'a>),
    /// `show`: the place of a packet and the hops that it has passed are shown.
    Show {
        /// The number of the packet.
        packet: u32,
    },
}

/// The line that asks for paths, with its policy options.
pub(crate) fn ask<'a>(object: &Node<'_, '_>, options: &'a [OptionText<'a>]) -> Option<Line<'a>>
    requires { options_in (node_data object.now) ≡ Some options.now }
    ensures { option_map line_value result ≡ read_by ask_line (node_data object.now) }
{
    Some(Line::Happens(Event::Ask {
        src: read_address(object, "src")?,
        dst: read_address(object, "dst")?,
        limit: read_u32(object, "limit")?,
        options,
    }))
}

/// The line that sends a packet on a path of an answer, with its payload.
pub(crate) fn send<'a>(object: &Node<'_, '_>, payload: &'a [u8]) -> Option<Line<'a>>
    requires { bytes_at (codes "payload") (node_data object.now) ≡ Some payload.now }
    ensures { option_map line_value result ≡ read_by send_line (node_data object.now) }
{
    Some(Line::Happens(Event::Send {
        ask: read_u32(object, "ask")?,
        path: read_u32(object, "path")?,
        payload,
    }))
}

/// The line that sends a packet back, with its payload.
pub(crate) fn back<'a>(object: &Node<'_, '_>, payload: &'a [u8]) -> Option<Line<'a>>
    requires { bytes_at (codes "payload") (node_data object.now) ≡ Some payload.now }
    ensures { option_map line_value result ≡ read_by back_line (node_data object.now) }
{
    Some(Line::Happens(Event::Back {
        packet: read_u32(object, "packet")?,
        payload,
    }))
}

/// The line that takes a key into use.
pub(crate) fn rotate<'a>(object: &Node<'_, '_>, key: &'a [u8]) -> Option<Line<'a>>
    requires { bytes_at (codes "key") (node_data object.now) ≡ Some key.now }
    ensures { option_map line_value result ≡ read_by rotate_line (node_data object.now) }
{
    Some(Line::Happens(Event::RotateKey {
        ia: read_address(object, "ia")?,
        key,
    }))
}

/// A line without bytes and without texts.
pub(crate) fn plain<'a>(word: &str, object: &Node<'_, '_>) -> Option<Line<'a>>
    ensures { option_map line_value result
        ≡ read_among plain_lines word.now (node_data object.now) }
{
    match word {
        "tick" => Some(Line::Happens(Event::Tick {
            now: read_u32(object, "now")?,
        })),
        "originate" => Some(Line::Happens(Event::Originate {
            ia: read_address(object, "ia")?,
            egress: interface(object, "egress")?,
            beta0: read_u16(object, "beta0")?,
        })),
        "extend" => Some(Line::Happens(Event::Extend {
            beacon: read_u32(object, "beacon")?,
            ia: read_address(object, "ia")?,
            egress: interface(object, "egress")?,
        })),
        "terminate" => Some(Line::Happens(Event::Terminate {
            beacon: read_u32(object, "beacon")?,
            ia: read_address(object, "ia")?,
        })),
        "sweep" => Some(Line::Happens(Event::Sweep)),
        _ => traffic(word, object),
    }
}

/// A line about a packet or a link, without bytes and without texts.
#[tactic(auto, unfolding(crate::specs::Line::traffic_lines))]
fn traffic<'a>(word: &str, object: &Node<'_, '_>) -> Option<Line<'a>>
    ensures { option_map line_value result
        ≡ read_among traffic_lines word.now (node_data object.now) }
{
    match word {
        "turn" => Some(Line::Happens(Event::Turn {
            packet: read_u32(object, "packet")?,
        })),
        "lose" => Some(Line::Happens(Event::Lose {
            packet: read_u32(object, "packet")?,
        })),
        "alter" => Some(Line::Happens(Event::Alter {
            packet: read_u32(object, "packet")?,
            at: read_u32(object, "at")?,
            xor: read_u8(object, "xor")?,
        })),
        "cut" => Some(Line::Happens(Event::CutLink {
            ia: read_address(object, "ia")?,
            interface: interface(object, "if")?,
        })),
        "mend" => Some(Line::Happens(Event::MendLink {
            ia: read_address(object, "ia")?,
            interface: interface(object, "if")?,
        })),
        "show" => Some(Line::Show {
            packet: read_u32(object, "packet")?,
        }),
        _ => None,
    }
}
