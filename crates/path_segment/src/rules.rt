#![tactic(auto, unfolding(crate::specs::Rules::beacon_fault, crate::specs::Rules::first_fault, crate::specs::Rules::last_fault, crate::specs::Rules::next_fault, crate::specs::Rules::segment_fault,))]

ghost use Rattle.std.specs.Prelude.{◌≡◌, ◌==◌, ◌∷◌, [], ◌++◌, None};
ghost use Rattle.std.specs.List.{list_any, list_all};
ghost use Rattle.path_segment.specs.Rules.{has_way_in, has_way_out, begins_well, ends_well, names_as_twice, beacon_fault, first_fault, next_fault, last_fault, segment_fault};

use crate::entry::Entry;
use crate::fault::SegmentFault;
use isd_as::{IfId, IsdAs};

/// The largest number of entries of a beacon. A segment may have one more: that of its last AS.
pub const MAX_BEACON_LEN: usize = 62;

/// The largest number of entries of a segment.
pub const MAX_SEGMENT_LEN: usize = 63;

/// The first rule that a segment of these entries breaks.
pub(crate) fn fault_of_segment(entries: &[Entry]) -> Option<SegmentFault>
    ensures { result ≡ segment_fault entries.now }
{
    if entries.len() < 2 {
        Some(SegmentFault::TooShort)
    } else if entries.len() > MAX_SEGMENT_LEN {
        Some(SegmentFault::TooLong)
    } else if !(do_begin_well(entries) && do_end_well(entries)) {
        Some(SegmentFault::BadEnds)
    } else if is_any_named_twice(entries) {
        Some(SegmentFault::Loop)
    } else {
        None
    }
}

/// The first rule that a beacon of this one entry breaks.
pub(crate) fn fault_of_first(entry: &Entry) -> Option<SegmentFault>
    ensures step { result ≡ first_fault entry.now }
    ensures whole { result ≡ beacon_fault (entry.now ∷ []) }
{
    if comes_in(entry) || !goes_out(entry) {
        Some(SegmentFault::BadEnds)
    } else {
        None
    }
}

/// The first rule that a beacon breaks if this entry is added. Its other entries keep the rules, so
/// only the new entry is checked.
pub(crate) fn fault_of_next(entries: &[Entry], entry: &Entry) -> Option<SegmentFault>
    requires { beacon_fault entries.now ≡ None }
    ensures step { result ≡ next_fault entries.now entry.now }
    ensures whole { result ≡ beacon_fault (entries.now ++ entry.now ∷ []) }
{
    fault_at_next(entries, entry)
}

fn fault_at_next(entries: &[Entry], entry: &Entry) -> Option<SegmentFault>
    ensures { result ≡ next_fault entries.now entry.now }
{
    if entries.len() >= MAX_BEACON_LEN {
        Some(SegmentFault::TooLong)
    } else if !(comes_in(entry) && goes_out(entry)) {
        Some(SegmentFault::BadEnds)
    } else if is_in(entries, entry.ia) {
        Some(SegmentFault::Loop)
    } else {
        None
    }
}

/// The first rule that a segment breaks that consists of a beacon's entries and this last one. The
/// beacon's entries keep the rules, so only the new entry is checked.
pub(crate) fn fault_of_last(entries: &[Entry], entry: &Entry) -> Option<SegmentFault>
    requires { beacon_fault entries.now ≡ None }
    ensures step { result ≡ last_fault entries.now entry.now }
    ensures whole { result ≡ segment_fault (entries.now ++ entry.now ∷ []) }
{
    fault_at_last(entries, entry)
}

fn fault_at_last(entries: &[Entry], entry: &Entry) -> Option<SegmentFault>
    ensures { result ≡ last_fault entries.now entry.now }
{
    if !comes_in(entry) || goes_out(entry) {
        Some(SegmentFault::BadEnds)
    } else if is_in(entries, entry.ia) {
        Some(SegmentFault::Loop)
    } else {
        None
    }
}

/// Whether an entry has an interface towards the entry before it.
fn comes_in(entry: &Entry) -> bool
    ensures { result ≡ has_way_in entry.now }
{
    entry.cons_ingress != IfId::NONE
}

/// Whether an entry has an interface towards the entry after it.
fn goes_out(entry: &Entry) -> bool
    ensures { result ≡ has_way_out entry.now }
{
    entry.cons_egress != IfId::NONE
}

/// Whether each entry has an interface towards the entry before it.
fn are_all_coming_in(entries: &[Entry]) -> bool
    ensures { result ≡ list_all has_way_in entries.now }
{
    entries.iter().all(|entry| comes_in(entry))
}

/// Whether the first entry has no way in, and each later one has a way in.
fn do_begin_well(entries: &[Entry]) -> bool
    ensures { result ≡ begins_well entries.now }
{
    match entries {
        [] => true,
        [first, later @ ..] => !comes_in(first) && are_all_coming_in(later),
    }
}

/// Whether the last entry has no way out, and each earlier one has a way out.
fn do_end_well(entries: &[Entry]) -> bool
    ensures { result ≡ ends_well entries.now }
{
    match entries {
        [] => true,
        [last] => !goes_out(last),
        [entry, later @ ..] => goes_out(entry) && do_end_well(later),
    }
}

/// Whether an entry is of this AS.
fn is_in(entries: &[Entry], ia: IsdAs) -> bool
    ensures { result ≡ list_any (λ other. other.ia == ia) entries.now }
{
    entries.iter().any(|entry| entry.ia == ia)
}

/// Whether two entries are of one AS.
fn is_any_named_twice(entries: &[Entry]) -> bool
    ensures { result ≡ names_as_twice entries.now }
{
    let mut rest = entries;
    while let Some((entry, later)) = rest.split_first() {
        if is_in(later, entry.ia) {
            return true;
        }
        rest = later;
    }
    false
}
