//! Laws of segments: each is the contract of a function that does nothing.

ghost use Rattle.std.specs.Prelude.{◌≡◌, ℕ, ◌+◌, ◌*◌, ◌^◌, ◌<◌, ◌≤◌, ◌↔◌, List, [], ◌∷◌, ◌++◌, Some, None, All, IsTrue, length, slice_get, slice_index};
ghost use Rattle.hop_mac.specs.Hop.{beta_after};
ghost use Rattle.hop_mac.specs.Lifetime.{IsLive};
ghost use Rattle.path_segment.specs.declared.entry.Entry.{Entry};
ghost use Rattle.path_segment.specs.declared.kind.SegKind.{SegKind};
ghost use Rattle.path_segment.specs.Chain.{Chain, with_last, beta_of, IsLeastExpiry, IsChainLive};
ghost use Rattle.path_segment.specs.Tests.{is_live, is_same, same_kind};
ghost use Rattle.path_segment.specs.Rules.{AreOfBeacon, AreOfSegment, beacon_fault, next_fault, last_fault, segment_fault};

use crate::segment::Segment;

/// The first accumulator of a chain is `beta0`; each further one comes from the one before and the
/// authenticator of its entry. A further entry at the end changes none of them.
pub fn accumulators_are_chained()
    ensures first { (chain : Chain) → beta_of chain 0 ≡ chain.beta0 }
    ensures next { (chain : Chain) (i : ℕ) (entry : Entry) → slice_get chain.entries i ≡ Some entry
        → beta_of chain (i + 1) ≡ beta_after (beta_of chain i) entry.mac }
    ensures kept { (chain : Chain) (i : ℕ) (entry : Entry) → i ≤ length chain.entries
        → beta_of (with_last chain entry) i ≡ beta_of chain i }
{}

/// The tests of the rules find no fault if and only if the rules hold.
pub fn rules_are_kept()
    ensures beacon { (entries : List Entry) → (beacon_fault entries ≡ None) ↔ AreOfBeacon entries }
    ensures segment { (entries : List Entry) → (segment_fault entries ≡ None)
        ↔ AreOfSegment entries }
{}

/// Entries have exactly one earliest expiry, and all of them are live up to it and not after it.
pub fn live_up_to_least_expiry()
    ensures one { (timestamp least other : ℕ) (entries : List Entry)
        → IsLeastExpiry timestamp entries least → IsLeastExpiry timestamp entries other → least
        ≡ other }
    ensures live { (timestamp least now : ℕ) (entries : List Entry)
        → IsLeastExpiry timestamp entries least
        → All (λ entry. IsLive timestamp entry.exp_time now) entries ↔ (2 * now ≤ least) }
{}

/// What the tests of liveness and of equality mean.
pub fn tests_are_plain()
    ensures live { (now : ℕ) (chain : Chain) → IsTrue (is_live now chain) ↔ IsChainLive chain now }
    ensures kind { (one other : SegKind) → IsTrue (same_kind one other) ↔ (one ≡ other) }
    ensures same { (one other : Chain) → IsTrue (is_same one other) ↔ (one ≡ other) }
{}

/// If a beacon's entries keep the rules, only the new entry has to be checked when one is added.
pub fn the_new_entry_alone_is_judged()
    ensures next { (entries : List Entry) (entry : Entry) → beacon_fault entries ≡ None
        → next_fault entries entry ≡ beacon_fault (entries ++ (entry ∷ [])) }
    ensures last { (entries : List Entry) (entry : Entry) → beacon_fault entries ≡ None
        → last_fault entries entry ≡ segment_fault (entries ++ (entry ∷ [])) }
{}

/// Every accumulator of a chain has 16 bits, if the first has and the authenticators consist of
/// bytes.
pub fn accumulators_are_small()
    ensures { (chain : Chain) (i : ℕ) → chain.beta0 < 2 ^ 16
        → All (λ entry. (k : ℕ) → slice_index entry.mac k < 256) chain.entries
        → beta_of chain i < 2 ^ 16 }
{}

/// A segment may go to another thread, and several threads may read one.
pub fn segments_cross_threads(segment: &Segment) {
    crosses_threads(segment)
}

/// The type of the value may cross threads.
fn crosses_threads<T: Send + Sync>(_value: &T) {}
