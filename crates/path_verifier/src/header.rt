#![tactic(auto, unfolding(crate::specs::Header::header_of))]

ghost use Rattle.std.specs.Prelude.{◌≡◌, ◌+◌, ◌<◌, ◌≤◌, ◌++◌, length, map};
ghost use Rattle.std.specs.List.{AllByRecursion, flat_map};
ghost use Rattle.path_header.specs.Value.{IsHeader, lens_from};
ghost use Rattle.path_header.specs.Building.{first_header};
ghost use Rattle.path_verifier.specs.PieceSlots.{pieces_in};
ghost use Rattle.path_verifier.specs.Piece.{HasRange};
ghost use Rattle.path_verifier.specs.Header.{field_of, fields_of, info_of, header_of, len_of, total_hops};
ghost use Rattle.path_verifier.specs.inner.Header.{HaveSixBits};

use crate::piece::Piece;
use crate::pieces::PieceSlots;
use arrayvec::ArrayVec;
use path_header::{Header, HopField, InfoField, MAX_HOPS};
use path_segment::Entry;

/// The header of these pieces, with the packet at the first info and hop field.
pub(crate) fn header_of(held: &PieceSlots<'_>) -> Header
    requires some { 0 < length (pieces_in held.now) }
    requires ranges { AllByRecursion HasRange (pieces_in held.now) }
    requires few { total_hops (pieces_in held.now) ≤ 64 }
    ensures { result ≡ header_of (pieces_in held.now) }
{
    header_of_lists(lens_of(held), infos_of(held), fields_of_all(held))
}

/// The header of these lengths and fields.
fn header_of_lists(
    lens: [u8; 3],
    infos: ArrayVec<InfoField, 3>,
    fields: ArrayVec<HopField, MAX_HOPS>,
) -> Header
    requires { IsHeader (first_header (lens_from lens) infos.items fields.items) }
    ensures { result ≡ first_header (lens_from lens) infos.items fields.items }
{
    Header::of_lists(lens, infos, fields).unwrap()
}

/// The number of hop fields of each piece, and 0 for each missing piece.
fn lens_of(held: &PieceSlots<'_>) -> [u8; 3]
    requires { AllByRecursion HasRange (pieces_in held.now) }
    ensures value { lens_from result ≡ lens_from (map len_of (pieces_in held.now)) }
    ensures few { HaveSixBits (lens_from result) }
{
    match held {
        PieceSlots::Zero => [0, 0, 0],
        PieceSlots::One(first) => [len_of(first), 0, 0],
        PieceSlots::Two(first, second) => [len_of(first), len_of(second), 0],
        PieceSlots::Three(first, second, third) => [len_of(first), len_of(second), len_of(third)],
    }
}

/// The number of hop fields of a piece.
fn len_of(piece: &Piece<'_>) -> u8
    requires { HasRange piece.now }
    ensures value { result ≡ len_of piece.now }
    ensures few { result < 64 }
{
    piece.len() as u8
}

/// The info field of each piece.
fn infos_of(held: &PieceSlots<'_>) -> ArrayVec<InfoField, 3>
    requires { AllByRecursion HasRange (pieces_in held.now) }
    ensures { result.items ≡ map info_of (pieces_in held.now) }
{
    let mut infos = ArrayVec::new();
    match held {
        PieceSlots::Zero => {}
        PieceSlots::One(first) => infos.push(info_of(first)),
        PieceSlots::Two(first, second) => {
            infos.push(info_of(first));
            infos.push(info_of(second));
        }
        PieceSlots::Three(first, second, third) => {
            infos.push(info_of(first));
            infos.push(info_of(second));
            infos.push(info_of(third));
        }
    }
    infos
}

/// The info field of a piece: its direction, the accumulator at the first entry travelled, and the
/// segment's timestamp.
pub fn info_of(piece: &Piece<'_>) -> InfoField
    requires { HasRange piece.now }
    ensures { result ≡ info_of piece.now }
{
    InfoField {
        construction: piece.along,
        seg_id: piece.segment.beta_at(piece.first_place()),
        timestamp: piece.segment.timestamp(),
    }
}

/// The hop fields of all pieces.
fn fields_of_all(held: &PieceSlots<'_>) -> ArrayVec<HopField, MAX_HOPS>
    requires ranges { AllByRecursion HasRange (pieces_in held.now) }
    requires few { total_hops (pieces_in held.now) ≤ 64 }
    ensures { result.items ≡ flat_map fields_of (pieces_in held.now) }
{
    let mut fields = ArrayVec::new();
    match held {
        PieceSlots::Zero => {}
        PieceSlots::One(first) => push_fields(&mut fields, first),
        PieceSlots::Two(first, second) => {
            push_fields(&mut fields, first);
            push_fields(&mut fields, second);
        }
        PieceSlots::Three(first, second, third) => {
            push_fields(&mut fields, first);
            push_fields(&mut fields, second);
            push_fields(&mut fields, third);
        }
    }
    fields
}

/// Adds the hop fields of a piece at the end.
fn push_fields(fields: &mut ArrayVec<HopField, MAX_HOPS>, piece: &Piece<'_>)
    requires range { HasRange piece.now }
    requires few { length fields.old.items + len_of piece.now ≤ 64 }
    ensures fields { fields.new.items ≡ fields.old.items ++ fields_of piece.now }
    ensures len { length fields.new.items ≡ length fields.old.items + len_of piece.now }
{
    for place in 0..piece.len() {
        fields.push(field_of(piece.entry(place)));
    }
}

/// The hop field of an entry.
pub fn field_of(entry: &Entry) -> HopField
    ensures { result ≡ field_of entry.now }
{
    HopField {
        exp_time: entry.exp_time,
        cons_ingress: entry.cons_ingress,
        cons_egress: entry.cons_egress,
        mac: entry.mac,
    }
}
