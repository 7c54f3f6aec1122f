use isd_as::IsdAs;
use path_header::{Header, decode};
use path_segment::{SegKind, Segment};
use path_verifier::{PieceKind, Pieces, VerifyFault, verify};
use policy_expr::{Denied, Policy};
use std::alloc::Global;
use std::test::Fail;
use worked::{at, entry, header_of, hop, piece, pieces_of, policy};

/// The worked segment, from 1-ff00:0:110 down to 1-ff00:0:111.
fn worked_segment(alloc: Global) -> Result<Segment, Fail> {
    let entries = vec![in alloc;
        entry(at(1, 0x110), 0, 1, [0xa1, 0xa2, 0xa3, 0xa4, 0xa5, 0xa6]),
        entry(at(1, 0x111), 2, 0, [0xb1, 0xb2, 0xb3, 0xb4, 0xb5, 0xb6]),
    ]?;
    Ok(Segment::new(SegKind::Intra, 100, 4660, entries)?)
}

/// The header of its way up, with this accumulator.
fn worked_header(seg_id: [u8; 2]) -> Result<Header, Fail> {
    let [high, low] = seg_id;
    let bytes = [
        0x00, 0x00, 0x20, 0x00, 0x00, 0x00, high, low, 0x00, 0x00, 0x00, 0x64, 0x00, 0x3f, 0x00,
        0x02, 0x00, 0x00, 0xb1, 0xb2, 0xb3, 0xb4, 0xb5, 0xb6, 0x00, 0x3f, 0x00, 0x00, 0x00, 0x01,
        0xa1, 0xa2, 0xa3, 0xa4, 0xa5, 0xa6,
    ];
    let (header, _) = decode(&bytes)?;
    Ok(header)
}

/// The refusal of a path, if it is refused.
fn refusal(
    pieces: &Pieces<'_>,
    header: &Header,
    src: IsdAs,
    dst: IsdAs,
    now: u32,
    policy: &Policy<Global>,
) -> Option<VerifyFault> {
    verify(pieces, header, src, dst, now, policy).err()
}

#[test]
fn the_worked_path_is_accepted(rt: HostRuntime) -> Result<(), Fail> {
    let alloc = rt.alloc();
    let segment = worked_segment(alloc)?;
    let header = worked_header([0xb3, 0x96])?;
    let mut pieces = Pieces::new();
    pieces.push(piece(&segment, 0, 1, false))?;
    let policy = policy(alloc, &[], "")?;
    let path = verify(&pieces, &header, at(1, 0x111), at(1, 0x110), 100, &policy)?;
    let walk = [hop(at(1, 0x111), 0, 2), hop(at(1, 0x110), 1, 0)];
    assert!(rt; path.walk() == walk.as_slice());
    assert!(rt; path.header().is_same(&header));
    assert_eq!(rt; path.pieces().len(), 1);
    assert_eq!(rt; path.expiry(), 43_400);
    Ok(())
}

/// A change of the worked path: the number of its pieces, their last place, the destination, the
/// second, the accumulator, the texts of the policy, and the fault that it gives.
type Change = (
    usize,
    usize,
    u16,
    u32,
    [u8; 2],
    &'static [&'static str],
    &'static str,
    VerifyFault,
);

static CHANGES: [Change; 8] = [
    (
        0,
        1,
        0x110,
        100,
        [0xb3, 0x96],
        &[],
        "",
        VerifyFault::PieceCount,
    ),
    (1, 2, 0x110, 100, [0xb3, 0x96], &[], "", VerifyFault::Range),
    (2, 1, 0x110, 100, [0xb3, 0x96], &[], "", VerifyFault::Kinds),
    (
        1,
        1,
        0x112,
        100,
        [0xb3, 0x96],
        &[],
        "",
        VerifyFault::Destination,
    ),
    (
        1,
        1,
        0x110,
        21_701,
        [0xb3, 0x96],
        &[],
        "",
        VerifyFault::Expired,
    ),
    (
        1,
        1,
        0x110,
        100,
        [0x12, 0x34],
        &[],
        "",
        VerifyFault::HeaderDiffers,
    ),
    (
        1,
        1,
        0x110,
        100,
        [0xb3, 0x96],
        DENIED,
        "",
        VerifyFault::AclDenied(SECOND_HOP),
    ),
    (
        1,
        1,
        0x110,
        100,
        [0xb3, 0x96],
        &[],
        "0",
        VerifyFault::SequenceMismatch,
    ),
];

/// The texts of a list that denies the second hop of the worked path, by its first entry.
const DENIED: &[&str] = &["- 1-ff00:0:110", "+"];

const SECOND_HOP: Denied = Denied { hop: 1, entry: 0 };

/// The refusal of the worked path after one change.
fn refusal_of_changed(alloc: Global, change: &Change) -> Result<Option<VerifyFault>, Fail> {
    let (count, to, dst, now, seg_id, acl, sequence, _) = *change;
    let policy = policy(alloc, acl, sequence)?;
    let segment = &worked_segment(alloc)?;
    let header = worked_header(seg_id)?;
    let mut pieces = Pieces::new();
    for _ in 0..count {
        pieces.push(piece(segment, 0, to, false))?;
    }
    Ok(refusal(&pieces, &header, at(1, 0x111), at(1, dst), now, &policy))
}

/// The first denied hop is named, with the entry that denies it.
#[test]
fn one_change_of_the_worked_path_gives_its_fault(rt: HostRuntime) -> Result<(), Fail> {
    for change in &CHANGES {
        assert_eq!(rt; refusal_of_changed(rt.alloc(), change)?, Some(change.7));
    }
    Ok(())
}

/// Whether the piece at a place is of this kind.
fn is_kind(pieces: &Pieces<'_>, place: usize, kind: PieceKind) -> bool {
    pieces.get(place).is_some_and(|piece| piece.kind() == kind)
}

#[test]
fn a_fourth_piece_is_refused(rt: HostRuntime) -> Result<(), Fail> {
    let segment = worked_segment(rt.alloc())?;
    let segment = &segment;
    let mut pieces = Pieces::new();
    assert!(rt; pieces.is_empty());
    pieces.push(piece(segment, 0, 1, true))?;
    pieces.push(piece(segment, 0, 1, false))?;
    pieces.push(piece(segment, 0, 1, false))?;
    let fourth = pieces.push(piece(segment, 0, 1, false));
    assert_eq!(rt; fourth, Err(VerifyFault::PieceCount));
    assert_eq!(rt; pieces.len(), 3);
    assert!(rt; is_kind(&pieces, 0, PieceKind::Down));
    assert!(rt; is_kind(&pieces, 1, PieceKind::Up));
    assert!(rt; pieces.get(3).is_none());
    Ok(())
}

/// A segment of this many ASes, the first 1-ff00:0:1, and the numbers of those after it from this
/// one on.
fn long(alloc: Global, first: u16, count: u16) -> Result<Segment, Fail> {
    let mut entries = vec![in alloc; entry(at(1, 1), 0, 2, [1; 6])]?;
    for place in 1..count {
        let egress = if place + 1 < count { 2 } else { 0 };
        entries.push(entry(at(1, first.saturating_add(place)), 1, egress, [2; 6]))?;
    }
    Ok(Segment::new(SegKind::Intra, 1000, 7, entries)?)
}

/// The refusal of a path with 32 ASes up and this many down, whose last AS has this number, with
/// the header of 32 and 32 hop fields.
fn refusal_of_long(alloc: Global, count: u16, last: u16) -> Result<Option<VerifyFault>, Fail> {
    let (up, full) = (long(alloc, 0x100, 32)?, long(alloc, 0x200, 32)?);
    let header = header_of(alloc, [32, 32, 0], &[(&up, 0, false), (&full, 0, true)])?;
    let down = long(alloc, 0x200, count)?;
    let pieces = pieces_of(&[(&up, 0, false), (&down, 0, true)])?;
    let policy = policy(alloc, &[], "")?;
    Ok(refusal(&pieces, &header, at(1, 0x11f), at(1, last), 1000, &policy))
}

#[test]
fn a_path_has_at_most_64_hop_fields(rt: HostRuntime) -> Result<(), Fail> {
    assert_eq!(rt; refusal_of_long(rt.alloc(), 32, 0x21f)?, None);
    let refusal = refusal_of_long(rt.alloc(), 33, 0x220)?;
    assert_eq!(rt; refusal, Some(VerifyFault::TooManyHops));
    Ok(())
}
