use isd_as::IfId;
use path_header::{Header, HeaderFault, HeaderMut, HopField, InfoField, decode, encode};
use std::process::Abort;
use std::test::Fail;

/// A path of one segment of two hop fields, travelled in construction direction, at its second hop.
const WORKED: [u8; 36] = [
    0x01, 0x00, 0x20, 0x00, 0x01, 0x00, 0x12, 0x34, 0x00, 0x00, 0x00, 0x64, 0x00, 0x3f, 0x00, 0x00,
    0x00, 0x01, 0xa1, 0xa2, 0xa3, 0xa4, 0xa5, 0xa6, 0x00, 0x3f, 0x00, 0x02, 0x00, 0x00, 0xb1, 0xb2,
    0xb3, 0xb4, 0xb5, 0xb6,
];

/// The way back of [`WORKED`].
const BACK: [u8; 36] = [
    0x00, 0x00, 0x20, 0x00, 0x00, 0x00, 0x12, 0x34, 0x00, 0x00, 0x00, 0x64, 0x00, 0x3f, 0x00, 0x02,
    0x00, 0x00, 0xb1, 0xb2, 0xb3, 0xb4, 0xb5, 0xb6, 0x00, 0x3f, 0x00, 0x00, 0x00, 0x01, 0xa1, 0xa2,
    0xa3, 0xa4, 0xa5, 0xa6,
];

/// A path up the segment of [`WORKED`], as it leaves its first AS.
const UP: [u8; 36] = [
    0x00, 0x00, 0x20, 0x00, 0x00, 0x00, 0xb3, 0x96, 0x00, 0x00, 0x00, 0x64, 0x00, 0x3f, 0x00, 0x02,
    0x00, 0x00, 0xb1, 0xb2, 0xb3, 0xb4, 0xb5, 0xb6, 0x00, 0x3f, 0x00, 0x00, 0x00, 0x01, 0xa1, 0xa2,
    0xa3, 0xa4, 0xa5, 0xa6,
];

const UP_INFO: InfoField = InfoField {
    construction: false,
    seg_id: 0xb396,
    timestamp: 100,
};

const LEAF_HOP: HopField = HopField {
    exp_time: 63,
    cons_ingress: IfId(2),
    cons_egress: IfId(0),
    mac: [0xb1, 0xb2, 0xb3, 0xb4, 0xb5, 0xb6],
};

const CORE_HOP: HopField = HopField {
    exp_time: 63,
    cons_ingress: IfId(0),
    cons_egress: IfId(1),
    mac: [0xa1, 0xa2, 0xa3, 0xa4, 0xa5, 0xa6],
};

/// The refusal of [`WORKED`] with some bytes changed, and cut to a length; behind it are zeros.
fn refusal_of_changed(changes: &[(usize, u8)], len: usize) -> Option<HeaderFault> {
    let mut bytes = [0; 48];
    for (byte, value) in bytes.iter_mut().zip(&WORKED) {
        *byte = *value;
    }
    for (at, value) in changes {
        if let Some(byte) = bytes.get_mut(*at) {
            *byte = *value;
        }
    }
    decode(&bytes[..len.min(48)]).err()
}

/// Bytes of [`WORKED`] that are changed, the length to which it is cut, and the refusal.
static CASES: [(&[(usize, u8)], usize, Option<HeaderFault>); 30] = [
    (&[], 36, None),
    (&[(36, 0xff), (47, 0xff)], 48, None),
    (&[], 35, Some(HeaderFault::Short)),
    (&[], 0, Some(HeaderFault::Short)),
    // the meta field: Short, Reserved, SegLens, TooManyHops, and Short again
    (&[(1, 0xfc), (2, 0x00)], 3, Some(HeaderFault::Short)),
    (&[(1, 0x04)], 36, Some(HeaderFault::Reserved)),
    (&[(1, 0x80), (2, 0x00)], 36, Some(HeaderFault::Reserved)),
    (
        &[(1, 0x0a), (2, 0x1f), (3, 0xff)],
        36,
        Some(HeaderFault::Reserved),
    ),
    (
        &[(0, 0xff), (1, 0x20), (4, 0x02), (12, 0x01)],
        35,
        Some(HeaderFault::Reserved),
    ),
    (&[(2, 0x00)], 36, Some(HeaderFault::SegLens)),
    (
        &[(0, 0xff), (3, 0x01), (4, 0x02), (12, 0x01)],
        36,
        Some(HeaderFault::SegLens),
    ),
    (
        &[(1, 0x00), (2, 0x0f), (3, 0xff)],
        4,
        Some(HeaderFault::SegLens),
    ),
    (
        &[(0, 0xff), (1, 0x02), (2, 0x18), (4, 0x02), (6, 0x01)],
        48,
        Some(HeaderFault::TooManyHops),
    ),
    (
        &[(1, 0x03), (2, 0xf0), (3, 0x40)],
        4,
        Some(HeaderFault::Short),
    ),
    (
        &[(0, 0xff), (4, 0x02), (5, 0x01), (12, 0x01)],
        35,
        Some(HeaderFault::Short),
    ),
    // the fields in order, and the indices after them
    (&[(4, 0x02)], 36, Some(HeaderFault::PeerFlag)),
    (&[(4, 0x86), (5, 0x01)], 36, Some(HeaderFault::PeerFlag)),
    (
        &[(0, 0x3f), (4, 0x03), (12, 0x02)],
        36,
        Some(HeaderFault::PeerFlag),
    ),
    (&[(4, 0x04), (12, 0x01)], 36, Some(HeaderFault::Reserved)),
    (&[(0, 0xc0), (5, 0x01)], 36, Some(HeaderFault::Reserved)),
    (&[(12, 0x01)], 36, Some(HeaderFault::AlertFlag)),
    (&[(24, 0x02)], 36, Some(HeaderFault::AlertFlag)),
    (&[(0, 0x40), (24, 0x06)], 36, Some(HeaderFault::AlertFlag)),
    (&[(12, 0x80), (24, 0x02)], 36, Some(HeaderFault::Reserved)),
    (&[(0, 0x40), (24, 0x04)], 36, Some(HeaderFault::Reserved)),
    (&[(0, 0x40)], 36, Some(HeaderFault::BadIndex)),
    (&[(0, 0x02)], 36, Some(HeaderFault::BadIndex)),
    // two segments of one hop each
    (
        &[(2, 0x10), (3, 0x40), (5, 0x01), (12, 0x02)],
        44,
        Some(HeaderFault::Reserved),
    ),
    (
        &[(2, 0x10), (3, 0x40), (4, 0x02), (13, 0x01)],
        44,
        Some(HeaderFault::PeerFlag),
    ),
    (
        &[
            (0, 0x80),
            (2, 0x10),
            (3, 0x40),
            (13, 0x00),
            (20, 0x00),
            (32, 0x00),
        ],
        44,
        Some(HeaderFault::BadIndex),
    ),
];

#[test]
fn the_first_refusal_is_reported(rt: HostRuntime) {
    for (changes, len, refusal) in &CASES {
        assert_eq!(rt; refusal_of_changed(changes, *len), *refusal);
    }
}

#[test]
fn a_new_header_has_its_bytes(rt: HostRuntime) -> Result<(), Fail> {
    let hops = [LEAF_HOP, CORE_HOP];
    let header = Header::new([2, 0, 0], &[UP_INFO], &hops)?;
    let mut room = [0xff; 48];
    assert_eq!(rt; encode(&header, &mut room)?, 36);
    assert_eq!(rt; &room[..36], UP.as_slice());
    assert_eq!(rt; room[36], 0xff);
    let rows = [
        ([0, 2, 0], 2, HeaderFault::SegLens),
        ([0, 2, 0], 1, HeaderFault::SegLens),
        ([2, 0, 1], 2, HeaderFault::SegLens),
        ([64, 64, 0], 2, HeaderFault::SegLens),
        ([33, 32, 0], 2, HeaderFault::TooManyHops),
        ([2, 0, 0], 1, HeaderFault::Short),
        ([1, 1, 0], 2, HeaderFault::Short),
    ];
    for (lens, count, fault) in rows {
        let header = Header::new(lens, &[UP_INFO], &hops[..count.min(2)]);
        assert_eq!(rt; header.err(), Some(fault));
    }
    Ok(())
}

/// The first four bytes of a header that takes 124.
fn meta_of(header: &Header) -> Result<[u8; 4], HeaderFault> {
    let mut room = [0; 124];
    if encode(header, &mut room)? != 124 {
        return Err(HeaderFault::Short);
    }
    Ok([room[0], room[1], room[2], room[3]])
}

#[test]
fn indices_and_lengths_have_their_bits(rt: HostRuntime) -> Result<(), Fail> {
    let mut header = Header::new([3, 2, 3], &[UP_INFO; 3], &[LEAF_HOP; 8])?;
    assert_eq!(rt; meta_of(&header)?, [0x00, 0x00, 0x30, 0x83]);
    if header.info_count() > 1 && header.hop_count() > 3 {
        header.set_indices(1, 3);
        assert!(rt; header.segment_of(2) == 0);
        assert!(rt; header.segment_of(3) == 1);
    }
    assert_eq!(rt; meta_of(&header)?, [0x43, 0x00, 0x30, 0x83]);
    Ok(())
}

/// Asserts the values of the header of [`WORKED`].
fn expect_worked(rt: &impl Abort, header: &Header) {
    assert!(rt; header.curr_inf() == 0);
    assert!(rt; header.curr_hf() == 1);
    assert!(rt; header.seg_lens().first == 2);
    assert!(rt; header.info(header.curr_inf()) == header.current_info());
    assert!(rt; header.hop(header.curr_hf()) == header.current_hop());
    assert!(rt; header.current_hop() == LEAF_HOP);
}

/// Asserts that a header is written as [`BACK`], and not at all if the room is too small.
fn expect_back(rt: &impl Abort, header: &Header) -> Result<(), HeaderFault> {
    let mut room = [0xee; 36];
    assert_eq!(rt;
        encode(header, &mut room[..35]),
        Err(HeaderFault::RoomTooSmall)
    );
    assert!(rt; room == [0xee; 36]);
    assert_eq!(rt; encode(header, &mut room)?, header.encoded_len());
    assert_eq!(rt; room, BACK);
    Ok(())
}

#[test]
fn a_header_is_read_and_reversed(rt: HostRuntime) -> Result<(), Fail> {
    let (mut header, len) = decode(&WORKED)?;
    assert_eq!(rt; len, 36);
    expect_worked(&rt, &header);
    let before = header.clone()?;
    header.reverse();
    assert!(rt; !header.is_same(&before));
    expect_back(&rt, &header)?;
    header.set_seg_id(0, 0xb396);
    assert_eq!(rt; header.current_info(), UP_INFO);
    Ok(())
}

/// [`UP`] with some of its bytes set to others.
fn up_with(changes: &[(usize, u8)]) -> [u8; 36] {
    let mut bytes = UP;
    for (at, value) in changes {
        if let Some(byte) = bytes.get_mut(*at) {
            *byte = *value;
        }
    }
    bytes
}

#[test]
fn indices_are_set_where_they_stand(rt: HostRuntime) -> Result<(), Fail> {
    let mut bytes = UP;
    let mut header = HeaderMut::new(&mut bytes)?;
    if header.info_count() > 0 && header.hop_count() > 1 {
        header.set_indices(0, 1);
    }
    assert_eq!(rt; (header.curr_inf(), header.curr_hf()), (0, 1));
    assert_eq!(rt; header.current_hop(), CORE_HOP);
    assert_eq!(rt; bytes, up_with(&[(0, 0x01)]));
    Ok(())
}

#[test]
fn an_accumulator_is_set_where_it_stands(rt: HostRuntime) -> Result<(), Fail> {
    let mut bytes = UP;
    let mut header = HeaderMut::new(&mut bytes)?;
    assert_eq!(rt; header.seg_lens().first, 2);
    assert_eq!(rt; header.current_info(), UP_INFO);
    if header.info_count() > 0 {
        header.set_seg_id(0, 0x1234);
    }
    assert_eq!(rt; header.current_info().seg_id, 0x1234);
    assert_eq!(rt; bytes, up_with(&[(6, 0x12), (7, 0x34)]));
    Ok(())
}

/// The bytes of the longest header, 796, and of the longest payload of a run, 1,024.
const ROOM: usize = 1_820;

/// The first bytes of a header with some of them changed, and a payload behind it.
fn room_with(changes: &[(usize, u8)]) -> [u8; ROOM] {
    let mut room = [0xee; ROOM];
    for (byte, value) in room.iter_mut().zip(&up_with(changes)) {
        *byte = *value;
    }
    room
}

/// Each refusal of a header in borrowed bytes, in rooms that end within its first field, within its
/// last, behind it, behind some bytes more, and behind a payload: there a header that says to be
/// longer is read from what follows. No contract says that the bytes stay.
#[test]
fn refused_bytes_stay(rt: HostRuntime) {
    let rows: [(&[(usize, u8)], HeaderFault, HeaderFault, HeaderFault); 7] = [
        (
            &[(1, 0x03), (2, 0xf0), (3, 0x40)],
            HeaderFault::Short,
            HeaderFault::Short,
            HeaderFault::Reserved,
        ),
        (
            &[(1, 0x04)],
            HeaderFault::Reserved,
            HeaderFault::Reserved,
            HeaderFault::Reserved,
        ),
        (
            &[(4, 0x02)],
            HeaderFault::Short,
            HeaderFault::PeerFlag,
            HeaderFault::PeerFlag,
        ),
        (
            &[(12, 0x01)],
            HeaderFault::Short,
            HeaderFault::AlertFlag,
            HeaderFault::AlertFlag,
        ),
        (
            &[(2, 0x00)],
            HeaderFault::SegLens,
            HeaderFault::SegLens,
            HeaderFault::SegLens,
        ),
        (
            &[(1, 0x02), (2, 0x18)],
            HeaderFault::TooManyHops,
            HeaderFault::TooManyHops,
            HeaderFault::TooManyHops,
        ),
        (
            &[(0, 0x40)],
            HeaderFault::Short,
            HeaderFault::BadIndex,
            HeaderFault::BadIndex,
        ),
    ];
    for (changes, cut, whole, behind) in rows {
        let lens = [
            (3, HeaderFault::Short),
            (35, cut),
            (36, whole),
            (48, whole),
            (ROOM, behind),
        ];
        for (len, fault) in lens {
            let mut room = room_with(changes);
            assert_eq!(rt;
                HeaderMut::new(&mut room[..len.min(ROOM)]).err(),
                Some(fault)
            );
            assert_eq!(rt; room, room_with(changes));
        }
    }
}
