//! The text of an answer.
#![tactic(auto, unfolding(crate::specs::Text::accepted_json, crate::specs::Text::answer_json, crate::specs::Text::place_in_list,))]

ghost use Rattle.std.specs.Prelude.{◌≡◌, ◌++◌, codes, All, IfOk, OnOk};
ghost use Rattle.std.specs.List.{join_by};
ghost use Rattle.std.specs.String.{string_bytes};
ghost use Rattle.hex.specs.Hex.{encode_lower};
ghost use Rattle.path_header.specs.Spelling.{spelling};
ghost use Rattle.event_lines.specs.Text.{hops_text, kinds_text};
ghost use Rattle.path_verifier.specs.Piece.{HasRange};
ghost use Rattle.path_requests.specs.Text.{accepted_json, answer_json, option_json, path_json, piece_json, place_in_list, truth_json};

use crate::expiry::{path_expiry, verified_expiry};
use combinator::{OwnedPiece, Path, PathList};
use event_lines::{hops_text, kinds_text};
use path_header::{Header, MAX_HEADER_LEN, encode};
use path_segment::Segment;
use path_verifier::{VerifiedPath, lend_all};
use std::alloc::{AllocError, Global};

/// The place of the first of these segments that equals this one.
fn place_in_list(segment: &Segment, segments: &[Segment]) -> usize
    ensures { result ≡ place_in_list segment.now segments.now }
{
    for i in 0..segments.len() {
        if segments[i].is_same(segment) {
            return i;
        }
    }
    segments.len()
}

/// True or false.
fn truth(is_so: bool) -> &'static str
    ensures { result.now ≡ truth_json is_so }
{
    if is_so { "true" } else { "false" }
}

/// A piece.
// Opened here alone: lists of pieces are told by the definition's name.
#[tactic(auto, unfolding(crate::specs::Text::piece_json))]
fn piece(alloc: Global, segments: &[Segment], piece: &OwnedPiece) -> Result<String, AllocError>
    ensures { IfOk result (λ text. string_bytes text ≡ piece_json segments.now piece.now) }
{
    let (along, place) = (truth(piece.along), place_in_list(&piece.segment, segments));
    format!(in alloc;
        "{{\"along\":{},\"from\":{},\"segment\":{},\"to\":{}}}",
        along, piece.from, place, piece.to
    )
}

/// Adds pieces, separated by commas.
fn push_pieces(
    alloc: Global,
    text: &mut String,
    segments: &[Segment],
    pieces: &[OwnedPiece],
) -> Result<(), AllocError>
    ensures { OnOk result (string_bytes text.new ≡ string_bytes text.old
        ++ join_by (piece_json segments.now) (codes ",") pieces.now) }
{
    let Some((first, later)) = pieces.split_first() else {
        return Ok(());
    };
    text.push_str(piece(alloc, segments, first)?.as_str())?;
    for one in later {
        text.push_str(",")?;
        text.push_str(piece(alloc, segments, one)?.as_str())?;
    }
    Ok(())
}

/// Pieces, separated by commas.
fn pieces(alloc: Global, segments: &[Segment], pieces: &[OwnedPiece]) -> Result<String, AllocError>
    ensures { IfOk result (λ text. string_bytes text
        ≡ join_by (piece_json segments.now) (codes ",") pieces.now) }
{
    let mut text = String::new(alloc);
    push_pieces(alloc, &mut text, segments, pieces)?;
    Ok(text)
}

/// A header in hexadecimal.
fn header(alloc: Global, header: &Header) -> Result<String, AllocError>
    ensures { IfOk result (λ text. string_bytes text ≡ encode_lower (spelling header.now)) }
{
    let mut room = [0u8; MAX_HEADER_LEN];
    let _ = header.encoded_len();
    let len = encode(header, &mut room).unwrap();
    hex::encode(alloc, &room[..len])
}

/// A path.
// As for a piece.
#[tactic(auto, unfolding(crate::specs::Text::path_json))]
fn path(alloc: Global, segments: &[Segment], path: &Path) -> Result<String, AllocError>
    requires { All HasRange path.now.pieces }
    ensures { IfOk result (λ text. string_bytes text ≡ path_json segments.now path.now) }
{
    let expiry = path_expiry(path.pieces());
    let header = header(alloc, path.header())?;
    let kinds = kinds_text(alloc, &lend_all(path.pieces()))?;
    let pieces = pieces(alloc, segments, path.pieces())?;
    let walk = hops_text(alloc, path.walk())?;
    format!(in alloc;
        "{{\"expiry\":{},\"header\":\"{}\",\"kind\":\"{}\",\"pieces\":[{}],\"walk\":\"{}\"}}",
        expiry,
        header.as_str(),
        kinds.as_str(),
        pieces.as_str(),
        walk.as_str()
    )
}

/// Adds paths, separated by commas.
fn push_paths(
    alloc: Global,
    text: &mut String,
    segments: &[Segment],
    paths: &[Path],
) -> Result<(), AllocError>
    requires { All (λ path. All HasRange path.pieces) paths.now }
    ensures { OnOk result (string_bytes text.new ≡ string_bytes text.old
        ++ join_by (path_json segments.now) (codes ",") paths.now) }
{
    let Some((first, later)) = paths.split_first() else {
        return Ok(());
    };
    text.push_str(path(alloc, segments, first)?.as_str())?;
    for one in later {
        text.push_str(",")?;
        text.push_str(path(alloc, segments, one)?.as_str())?;
    }
    Ok(())
}

/// Adds the option that was used, if one was.
fn push_option(text: &mut String, used: Option<usize>) -> Result<(), AllocError>
    ensures { OnOk result
        (string_bytes text.new ≡ string_bytes text.old ++ option_json used) }
{
    if let Some(option) = used {
        write!(text, "\"option\":{option},")?;
    }
    Ok(())
}

/// An answer.
pub(crate) fn answer(
    alloc: Global,
    segments: &[Segment],
    list: &PathList,
) -> Result<String, AllocError>
    requires { All (λ path. All HasRange path.pieces) list.now.paths }
    ensures { IfOk result (λ text. string_bytes text ≡ answer_json segments.now list.now) }
{
    let mut text = String::from_str(alloc, "{")?;
    push_option(&mut text, list.option())?;
    text.push_str("\"paths\":[")?;
    push_paths(alloc, &mut text, segments, list.paths())?;
    text.push_str("]}")?;
    Ok(text)
}

/// A path that may be sent.
pub(crate) fn verified_path(
    alloc: Global,
    path: &VerifiedPath<'_, '_, Global>,
) -> Result<String, AllocError>
    ensures { IfOk result (λ text. string_bytes text ≡ accepted_json path.entry.now.pieces) }
{
    let kinds = kinds_text(alloc, path.pieces())?;
    let walk = hops_text(alloc, path.walk())?;
    format!(in alloc;
        "{{\"expiry\":{},\"kind\":\"{}\",\"walk\":\"{}\"}}",
        verified_expiry(path),
        kinds.as_str(),
        walk.as_str()
    )
}
