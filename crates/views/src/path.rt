//! The path of a packet of the network after some lines, as text.
#![tactic(auto, unfolding(crate::specs::Path::numbered_piece, crate::specs::Path::piece_kind_name))]

ghost use Rattle.std.specs.Prelude.{◌≡◌, ◌||◌, ◌++◌, IfOk, OnOk, length, option_map, slice_get};
ghost use Rattle.std.specs.String.{string_bytes};
ghost use Rattle.path_verifier.specs.Piece.{HasRange};
ghost use Rattle.network_core.specs.Value.{asked_at};
ghost use Rattle.event_lines.specs.Run.{is_read_fault};
ghost use Rattle.views.specs.Reached.{Shows, said_of};
ghost use Rattle.views.specs.Path.{TellsPacket, TellsPath, piece_kind_name, path_lines, piece_line_at, numbered_piece, piece_lines};

use crate::network_after::{Said, network_after};
use event_lines::{RunFault, hops_text, kinds_text};
use network_core::{EventFault, Packet, Sent};
use packet_view::fields_text;
use path_verifier::{Piece, PieceKind, VerifiedPath, lend_all, verify};
use std::alloc::{AllocError, Global};
use streams::{Sink, Source};

/// The name of a kind of piece.
fn piece_kind_name(kind: PieceKind) -> &'static str
    ensures { result.now ≡ piece_kind_name kind }
{
    match kind {
        PieceKind::Up => "up",
        PieceKind::Core => "core",
        PieceKind::Down => "down",
    }
}

/// The line of the piece of this number: its kind, and the ASes in which it begins and ends.
fn numbered_piece(alloc: Global, number: usize, piece: &Piece<'_>) -> Result<String, AllocError>
    requires { HasRange piece.now }
    ensures { IfOk result (λ text. string_bytes text ≡ numbered_piece number piece.now) }
{
    let kind = piece_kind_name(piece.kind());
    let from = piece.begins_in();
    let to = piece.ends_in();
    format!(in alloc; "piece {number} {kind} from {from} to {to}\n")
}

/// Adds the line of the piece of this number of a path, if there is one.
fn add_piece(
    alloc: Global,
    text: &mut String,
    path: &VerifiedPath<'_, '_, Global>,
    number: usize,
) -> Result<(), AllocError>
    ensures { OnOk result (string_bytes text.new
        ≡ string_bytes text.old ++ piece_line_at path.entry.now.pieces number) }
{
    path.known();
    match path.pieces().get(number) {
        Some(piece) => text.push_str(numbered_piece(alloc, number, piece)?.as_str()),
        None => Ok(()),
    }
}

/// The pieces of a path.
// Opened here and below alone: what is told of a packet cites these by their names.
#[tactic(auto, unfolding(crate::specs::Path::piece_lines, packet_view::specs::Fields::each_below))]
fn piece_lines(alloc: Global, path: &VerifiedPath<'_, '_, Global>) -> Result<String, AllocError>
    ensures { IfOk result (λ text. string_bytes text
        ≡ piece_lines path.entry.now.pieces (length path.entry.now.pieces)) }
{
    let mut text = String::new(alloc);
    for number in 0..path.pieces().len() {
        add_piece(alloc, &mut text, path, number)?;
    }
    Ok(text)
}

/// What is said of a path: its pieces, its kind, its walk, and the last second at which all of its
/// hops are live.
#[tactic(auto, unfolding(crate::specs::Path::path_lines))]
fn path_lines(
    alloc: Global,
    path: &VerifiedPath<'_, '_, Global>,
    last: u64,
) -> Result<String, AllocError>
    ensures { IfOk result (λ text. string_bytes text ≡ path_lines path.entry.now.pieces last) }
{
    let pieces = piece_lines(alloc, path)?;
    let kind = kinds_text(alloc, path.pieces())?;
    let walk = hops_text(alloc, path.walk())?;
    format!(in alloc;
        "{}kind {}\nwalk {}\nlive up to second {last}\n",
        pieces.as_str(),
        kind.as_str(),
        walk.as_str()
    )
}

/// What is said of a path, which is live up to the half second at which its first hop expires.
#[tactic(auto, using(crate::proofs::Paths::tells_path))]
pub(crate) fn verified_text(
    alloc: Global,
    path: &VerifiedPath<'_, '_, Global>,
) -> Result<String, AllocError>
    ensures { IfOk result (λ text. TellsPath path.entry.now.pieces (string_bytes text)) }
{
    path_lines(alloc, path, path.expiry() / 2)
}

/// The path of a shipment.
fn path_of(sent: &Sent) -> VerifiedPath<'_, '_, Global>
    ensures { result ≡ asked_at 0 sent.now.way }
{
    sent.known();
    let pieces = lend_all(sent.pieces());
    // It was accepted at some second, and so at second 0: no hop is refused for being too early.
    let verified = verify(
        &pieces,
        sent.header(),
        sent.source(),
        sent.destination(),
        0,
        sent.policy(),
    );
    verified.unwrap()
}

/// What is said of the path of a packet and then its fields, if there is one.
fn packet_text(alloc: Global, packet: Option<&Packet>) -> Result<Said, AllocError>
    ensures { IfOk result (λ said. TellsPacket (option_map (λ p. p.now) packet.entry)
        (said_of said)) }
{
    let Some(packet) = packet else {
        return Ok(Err(EventFault::NoPacket));
    };
    let path = path_of(packet.sent());
    let mut text = verified_text(alloc, &path)?;
    text.push_str(fields_text(alloc, packet.bytes())?.as_str())?;
    Ok(Ok(text))
}

/// What is said of the path of the packet of this number, in the network after the lines of a
/// source, and then its fields as they are then; [`EventFault::NoPacket`] if there is no such
/// packet.
///
/// The faults are those of [`network_after`]; [`RunFault::Memory`] also if memory runs out for the
/// text.
pub(crate) fn packet_path<S: Source, R: Sink>(
    alloc: Global,
    source: &mut S,
    replies: &mut R,
    number: u32,
) -> Result<Said, RunFault>
    ensures shows { Shows (λ net. TellsPacket (slice_get net.packets number)) result
        (S.left source.old) (S.left source.new) (R.held replies.old) (R.held replies.new) }
    ensures flag { S.failed source.new ≡ (S.failed source.old || is_read_fault result) }
{
    let said = {
        let net = network_after(alloc, source, replies)?;
        packet_text(alloc, net.packet(number as usize))
    };
    Ok(said?)
}
