use crate::store::{are_same, register_copy, worked};
use isd_as::{IfId, IsdAs};
use path_segment::{Beacon, Entry, SegKind, Segment, SegmentError, SegmentFault};
use path_server::PathStore;
use refusal::OrMemory;
use std::alloc::{AllocError, Global};
use std::process::Abort;
use std::test::Fail;

/// The text of the worked segment.
fn text() -> &'static str {
    "{\"beta0\":4660,\"entries\":[{\"egress\":1,\"exp\":63,\"ia\":\"1-ff00:0:110\",\"ingress\":0,\
    \"mac\":\"a1a2a3a4a5a6\"},{\"egress\":0,\"exp\":63,\"ia\":\"1-ff00:0:111\",\"ingress\":2,\
    \"mac\":\"b1b2b3b4b5b6\"}],\"kind\":\"intra\",\"timestamp\":100}"
}

/// The same segment with other spacing, another order of names, capital digits and more members.
fn other_text() -> &'static str {
    " {\"timestamp\" : 100,\n\"more\":[1.5, null], \"kind\":\"intra\", \
    \"entries\":[ {\"ia\":\"1-FF00:0:0110\", \"mac\":\"A1a2A3a4A5a6\",\"ingress\":0, \"egress\":1, \
    \"exp\":63, \"x\":{}},\t{\"mac\":\"B1B2B3B4B5B6\",\"exp\":63,\"egress\":0,\"ingress\":2,\
    \"ia\":\"1-ff00:0:111\"} ], \"beta0\":4660 }\r\n"
}

/// The first entry of the worked segment.
pub(crate) fn first_entry() -> Entry {
    Entry {
        ia: IsdAs::from_number(0x0001_ff00_0000_0110),
        cons_ingress: IfId(0),
        cons_egress: IfId(1),
        exp_time: 63,
        mac: [0xa1, 0xa2, 0xa3, 0xa4, 0xa5, 0xa6],
    }
}

/// Its last entry.
pub(crate) fn last_entry() -> Entry {
    Entry {
        ia: IsdAs::from_number(0x0001_ff00_0000_0111),
        cons_ingress: IfId(2),
        cons_egress: IfId(0),
        exp_time: 63,
        mac: [0xb1, 0xb2, 0xb3, 0xb4, 0xb5, 0xb6],
    }
}

/// An entry of the AS of this number.
fn entry(ia: u64, ingress: u16, egress: u16) -> Entry {
    Entry {
        ia: IsdAs::from_number(ia),
        cons_ingress: IfId(ingress),
        cons_egress: IfId(egress),
        ..first_entry()
    }
}

/// The refusal of a call, if it was refused.
fn refusal<T: Drop>(answer: Result<T, SegmentError>) -> Result<Option<SegmentFault>, Fail> {
    match answer {
        Ok(_) => Ok(None),
        Err(OrMemory::Refused(fault)) => Ok(Some(fault)),
        Err(OrMemory::Memory) => Err(Fail::from(AllocError)),
    }
}

/// Asserts the values of the worked segment.
fn expect_worked(rt: &impl Abort, segment: &Segment) {
    assert!(rt; segment.kind() == SegKind::Intra);
    assert!(rt; segment.timestamp() == 100);
    assert!(rt; segment.beta0() == 4660);
    assert!(rt; segment.entries().len() == 2);
    let betas = [segment.beta_at(0), segment.beta_at(1), segment.beta_at(2)];
    assert_eq!(rt; betas, [0x1234, 0xb396, 0x0224]);
    assert_eq!(rt; segment.least_expiry(0, 1), 43_400);
    assert!(rt; segment.is_live(0));
    assert!(rt; segment.is_live(21_700));
    assert!(rt; !segment.is_live(21_701));
}

/// Whether the text is that of the segment.
fn is_text_of(alloc: Global, segment: &Segment, text: &str) -> Result<bool, Fail> {
    Ok(Segment::from_json(alloc, text.as_bytes())?.is_same(segment))
}

#[test]
fn a_segment_has_its_values_and_its_text(rt: HostRuntime) -> Result<(), Fail> {
    let alloc = rt.alloc();
    let segment = worked(alloc, 4660)?;
    expect_worked(&rt, &segment);
    assert_eq!(rt; segment.to_json(alloc)?.as_str(), text());
    assert!(rt; is_text_of(alloc, &segment, text())?);
    assert!(rt; is_text_of(alloc, &segment, other_text())?);
    Ok(())
}

/// The beacon of the worked segment's first entry, and the segment that it becomes.
#[test]
fn a_beacon_becomes_a_segment(rt: HostRuntime) -> Result<(), Fail> {
    let alloc = rt.alloc();
    let beacon = Beacon::first(alloc, SegKind::Intra, 100, 4660, first_entry())?;
    assert!(rt; beacon.kind() == SegKind::Intra);
    assert!(rt; beacon.timestamp() == 100);
    assert!(rt; beacon.beta0() == 4660);
    assert!(rt; beacon.beta_at(1) == 0xb396);
    assert!(rt; beacon.try_clone(alloc)?.is_same(&beacon));
    let segment = beacon.finish(alloc, last_entry())?;
    assert!(rt; segment.is_same(&Segment::from_json(alloc, text().as_bytes())?));
    Ok(())
}

/// This number of entries, which are a segment if there are neither too few nor too many.
fn entries_of(alloc: Global, count: u16) -> Result<Vec<Entry>, Fail> {
    let mut entries = Vec::new(alloc);
    for i in 0..count {
        let egress = if i < count - 1 { 1 } else { 0 };
        entries.push(entry(u64::from(i), i, egress))?;
    }
    Ok(entries)
}

#[test]
fn a_segment_has_2_to_63_entries(rt: HostRuntime) -> Result<(), Fail> {
    let rows = [
        (0, Some(SegmentFault::TooShort)),
        (1, Some(SegmentFault::TooShort)),
        (2, None),
        (63, None),
        (64, Some(SegmentFault::TooLong)),
    ];
    for (count, fault) in rows {
        let entries = entries_of(rt.alloc(), count)?;
        let answer = Segment::new(SegKind::Core, 0, 0, entries);
        assert_eq!(rt; refusal(answer)?, fault);
    }
    Ok(())
}

/// A beacon of one entry.
fn short_beacon(alloc: Global) -> Result<Beacon, Fail> {
    Ok(Beacon::first(alloc, SegKind::Core, 0, 0, entry(0, 0, 1))?)
}

/// A beacon of 62 entries takes no further one but the last of its segment.
#[test]
fn a_beacon_has_at_most_62_entries(rt: HostRuntime) -> Result<(), Fail> {
    let alloc = rt.alloc();
    let mut beacon = short_beacon(alloc)?;
    for i in 1..62 {
        beacon = beacon.with_entry(alloc, entry(i, 1, 1))?;
    }
    assert_eq!(rt; beacon.entries().len(), 62);
    let longer = beacon.with_entry(alloc, entry(0, 0, 0));
    assert_eq!(rt; refusal(longer)?, Some(SegmentFault::TooLong));
    let segment = beacon.finish(alloc, entry(62, 1, 0))?;
    assert_eq!(rt; segment.entries().len(), 63);
    Ok(())
}

/// Each entry is refused as the first of a beacon, and some as its second or as the last of a
/// segment; interfaces are looked at before the AS.
#[test]
fn interfaces_are_0_where_a_segment_begins_and_ends(rt: HostRuntime) -> Result<(), Fail> {
    let alloc = rt.alloc();
    let (ends, twice) = (Some(SegmentFault::BadEnds), Some(SegmentFault::Loop));
    let rows = [
        (0, 0, 0, ends, ends),
        (0, 1, 1, twice, ends),
        (0, 1, 0, ends, twice),
        (1, 1, 1, None, ends),
        (1, 0, 0, ends, ends),
    ];
    let beacon = short_beacon(alloc)?;
    for (ia, ingress, egress, next, last) in rows {
        let one = entry(ia, ingress, egress);
        let first = Beacon::first(alloc, SegKind::Core, 0, 0, one);
        assert_eq!(rt; refusal(first)?, ends);
        assert_eq!(rt; refusal(beacon.with_entry(alloc, one))?, next);
        assert_eq!(rt; refusal(beacon.finish(alloc, one))?, last);
    }
    Ok(())
}

/// The refusal of a text with a part of it replaced.
fn refusal_of_changed(
    alloc: Global,
    text: &str,
    part: &str,
    other: &str,
) -> Result<Option<SegmentFault>, Fail> {
    let (front, back) = text.split_once(part).ok_or("the part to change is there")?;
    let text = format!(in alloc; "{front}{other}{back}")?;
    refusal(Segment::from_json(alloc, text.as_bytes()))
}

/// Parts of the worked text, and replacements with which it is still that of a segment.
static LAWFUL_CHANGES: [(&str, &str); 6] = [
    ("intra", "core"),
    ("4660", "65535"),
    (":100", ":4294967295"),
    ("63", "255"),
    ("1-ff00:0:110", "0-0"),
    ("a1a2", "A1a2"),
];

/// Parts of the worked text, and replacements with which it does not have the form of a segment.
static UNLAWFUL_CHANGES: [(&str, &str); 24] = [
    ("{\"beta0\"", "\"beta0\""),
    ("intra", "up"),
    ("\"intra\"", "null"),
    ("\"kind\"", "\"kin\""),
    ("4660", "65536"),
    ("4660", "4660.0"),
    ("4660", "-1"),
    ("\"beta0\"", "\"beta\""),
    (":100", ":4294967296"),
    ("timestamp", "time"),
    ("entries", "entry"),
    ("[{", "[[],{"),
    ("\"egress\":1", "\"egress\":65536"),
    ("egress", "out"),
    ("\"ingress\":2", "\"ingress\":65536"),
    ("ingress", "in"),
    ("63", "256"),
    ("exp", "life"),
    ("1-ff00:0:110", "1-ff00:0"),
    ("ia", "as"),
    ("a1a2", "a1"),
    ("a1a2", "a1a2a"),
    ("a1a2", "g1a2"),
    ("mac", "code"),
];

/// Parts of the worked text, and replacements with which it breaks a rule of segments.
static BROKEN_RULES: [(&str, &str, SegmentFault); 4] = [
    (
        ",{\"egress\":0",
        "],\"x\":[{\"egress\":0",
        SegmentFault::TooShort,
    ),
    ("\"ingress\":0", "\"ingress\":1", SegmentFault::BadEnds),
    ("\"egress\":1", "\"egress\":0", SegmentFault::BadEnds),
    ("0:110", "0:111", SegmentFault::Loop),
];

/// Members that are absent, of another type or out of range come before the rules, and those in
/// their order.
#[test]
fn the_first_refusal_of_a_text_is_given(rt: HostRuntime) -> Result<(), Fail> {
    let alloc = rt.alloc();
    for (part, other) in &LAWFUL_CHANGES {
        assert_eq!(rt;
            refusal_of_changed(alloc, text(), part, other)?,
            None,
            "{other}"
        );
    }
    let no_form = Some(SegmentFault::NotJson);
    for (part, other) in &UNLAWFUL_CHANGES {
        assert_eq!(rt;
            refusal_of_changed(alloc, text(), part, other)?,
            no_form,
            "{other}"
        );
    }
    for (part, other, fault) in &BROKEN_RULES {
        assert_eq!(rt;
            refusal_of_changed(alloc, text(), part, other)?,
            Some(*fault),
            "{other}"
        );
    }
    let texts: [&[u8]; 4] = [b"", b"[]", b"{}", &[0x22, 0xff, 0x22]];
    for text in texts {
        assert_eq!(rt; refusal(Segment::from_json(alloc, text))?, no_form);
    }
    Ok(())
}

/// Asserts that a store keeps a segment, and that a lookup from its last AS and a copy of what is
/// found have it.
fn expect_kept(
    rt: &impl Abort,
    alloc: Global,
    segment: &Segment,
    src: IsdAs,
    dst: IsdAs,
) -> Result<(), Fail> {
    let mut store = PathStore::new(alloc);
    assert_eq!(rt; register_copy(&mut store, segment, 100)?, Ok(true));
    let set = store.segments_for(alloc, src, dst, 100)?;
    assert!(rt; are_same(set.ups(), &[segment]));
    assert!(rt; are_same(set.try_clone(alloc)?.ups(), &[segment]));
    Ok(())
}

/// It is written, read, copied, stored and found; its text with one entry more is refused.
#[test]
fn a_segment_of_63_entries_is_one_like_any_other(rt: HostRuntime) -> Result<(), Fail> {
    let alloc = rt.alloc();
    let segment = Segment::new(SegKind::Intra, 100, 7, entries_of(alloc, 63)?)?;
    assert!(rt; segment.try_clone()?.is_same(&segment));
    let text = segment.to_json(alloc)?;
    assert!(rt; is_text_of(alloc, &segment, text.as_str())?);
    let (first, last) = (IsdAs::from_number(0), IsdAs::from_number(62));
    expect_kept(&rt, alloc, &segment, last, first)?;
    let more = "},{\"egress\":0,\"exp\":63,\"ia\":\"0-63\",\"ingress\":1,\
                \"mac\":\"000000000000\"}],";
    let longer = refusal_of_changed(alloc, text.as_str(), "}],", more)?;
    assert_eq!(rt; longer, Some(SegmentFault::TooLong));
    Ok(())
}
