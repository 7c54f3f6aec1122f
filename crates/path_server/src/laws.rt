//! Laws of path stores: each is the contract of a function that does nothing.

ghost use Rattle.std.specs.Prelude.{◌≡◌, ◌≢◌, ◌↔◌, ◌⊎◌, ℕ, ◌≤◌, List, ◌++◌, AllPairs, Contains, count_by, fold, IsTrue};
ghost use Rattle.path_segment.specs.Chain.{Chain, IsChainLive, first_as, last_as};
ghost use Rattle.path_server.specs.Segment.{is_alike};
ghost use Rattle.path_server.specs.Store.{Operation, answer_to, IsRegisterAnswer, with_registered, live_segments, expired_count, after_operation, store_of};
ghost use Rattle.path_server.specs.Lookup.{segments_for, LeadsTo, IsReached, LeadsBetween};

/// What `is_alike` means: equal kinds, first ASes and last ASes.
pub fn alike_is_plain()
    ensures { (one other : Chain) → IsTrue (is_alike one other)
        ↔ ((one.kind ≡ other.kind) × (first_as one ≡ first_as other)
        × (last_as one ≡ last_as other)) }
{}

/// What the answers of registering mean.
pub fn answers_are_plain()
    ensures { (segments : List Chain) (segment : Chain) (now : ℕ)
        → IsRegisterAnswer segments segment now (answer_to segments segment now) }
{}

/// Registering a segment keeps all that is there and adds nothing else.
pub fn registering_adds_the_segment_alone()
    ensures kept { (segments : List Chain) (segment : Chain) (now : ℕ) (other : Chain)
        → Contains segments other → Contains (with_registered segments segment now) other }
    ensures added { (segments : List Chain) (segment : Chain) (now : ℕ) (other : Chain)
        → Contains (with_registered segments segment now) other → Contains segments other
        ⊎ (segment ≡ other) }
{}

/// A sweep keeps exactly the live segments, and another one at the same second removes nothing.
pub fn sweeps_keep_the_live()
    ensures kept { (segments : List Chain) (now : ℕ) (segment : Chain)
        → Contains (live_segments segments now) segment
        ↔ (Contains segments segment × IsChainLive segment now) }
    ensures again { (segments : List Chain) (now : ℕ)
        → live_segments (live_segments segments now) now
        ≡ live_segments segments now }
    ensures none { (segments : List Chain) (now : ℕ)
        → expired_count (live_segments segments now) now ≡ 0 }
{}

/// In a store that operations made, no two segments are equal, and at most 32 have the same kind,
/// first AS and last AS.
pub fn stores_are_bounded()
    ensures distinct { (operations : List Operation)
        → AllPairs (λ one other. one ≢ other) (store_of operations) }
    ensures few { (operations : List Operation) (segment : Chain)
        → count_by (is_alike segment) (store_of operations) ≤ 32 }
{}

/// Further operations start from the store that the operations before made.
pub fn stores_go_on()
    ensures { (operations more : List Operation) → store_of (operations ++ more)
        ≡ fold after_operation (store_of operations) more }
{}

/// What a lookup returns.
pub fn selections_are_plain()
    ensures ups { (segments : List Chain) (src dst now : ℕ) (segment : Chain)
        → Contains (segments_for segments src dst now).ups segment
        ↔ LeadsTo segments src now segment }
    ensures downs { (segments : List Chain) (src dst now : ℕ) (segment : Chain)
        → Contains (segments_for segments src dst now).downs segment
        ↔ LeadsTo segments dst now segment }
    ensures cores { (segments : List Chain) (src dst now : ℕ) (segment : Chain)
        → Contains (segments_for segments src dst now).cores segment
        ↔ LeadsBetween segments (IsReached src (segments_for segments src dst now).ups)
        (IsReached dst (segments_for segments src dst now).downs) now segment }
{}
