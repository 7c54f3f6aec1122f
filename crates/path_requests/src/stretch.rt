//! The pieces of a request to verify a path.
#![tactic(auto, unfolding(crate::specs::Stretch::piece_at))]

ghost use Rattle.std.specs.Prelude.{◌≡◌, ◌≤◌, length, option_map, IfErr, IfOk, IsOk};
ghost use Rattle.json_fields.specs.Documents.{list_items, node_data};
ghost use Rattle.json_fields.specs.Fields.{items_at};
ghost use Rattle.path_verifier.specs.declared.fault.VerifyFault.TheVariants.{PieceCount};
ghost use Rattle.path_requests.specs.Stretch.{piece_at};

use event_lines::fields::read_u32;
use json_fields::{Node, NodeList};
use path_segment::Segment;
use path_verifier::{Piece, Pieces, VerifyFault};
use std::alloc::{AllocError, Global};

/// A piece of one of these segments, if the value is one.
fn piece<'s>(segments: &'s [Segment], object: &Node<'_, '_>) -> Option<Piece<'s>>
    ensures { result ≡ piece_at segments.now (node_data object.now) }
{
    let place = read_u32(object, "segment")?;
    let segment = segments.get(place as usize)?;
    let from = read_u32(object, "from")? as usize;
    let to = read_u32(object, "to")? as usize;
    let along = object.truth("along")?;
    Some(Piece {
        segment,
        from,
        to,
        along,
    })
}

/// The pieces of a list, if each is one.
pub(crate) fn pieces<'s>(
    alloc: Global,
    segments: &'s [Segment],
    values: NodeList<'_, '_>,
) -> Result<Option<Vec<Piece<'s>>>, AllocError>
    ensures { IfOk result (λ o. option_map (λ v. v.items) o
        ≡ items_at (piece_at segments.now) (list_items values.entry)) }
{
    let mut pieces = Vec::new(alloc);
    let mut left = values;
    while let Some((value, later)) = left.split_first() {
        let Some(piece) = piece(segments, &value) else {
            return Ok(None);
        };
        pieces.push(piece)?;
        left = later;
    }
    Ok(Some(pieces))
}

/// The pieces of a path, unless there are more than three.
pub(crate) fn join<'s>(list: &[Piece<'s>]) -> Result<Pieces<'s>, VerifyFault>
    ensures value { IfOk result (λ pieces. pieces ≡ list.now) }
    ensures few { IsOk result → length list.now ≤ 3 }
    ensures only { length list.now ≤ 3 → IsOk result }
    ensures fault { IfErr result (λ fault. fault ≡ PieceCount) }
{
    let mut pieces = Pieces::new();
    for piece in list {
        pieces.push(Piece {
            segment: piece.segment,
            from: piece.from,
            to: piece.to,
            along: piece.along,
        })?;
    }
    Ok(pieces)
}
