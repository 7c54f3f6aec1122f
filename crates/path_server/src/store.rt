#![tactic(auto, unfolding(crate::specs::Lookup::segments_for, crate::specs::Store::live_segments, crate::specs::Store::with_registered,))]

ghost use Rattle.std.specs.Prelude.{◌≡◌, ◌↔◌, [], ◌∷◌, ◌++◌, ◌≤◌, ◌*◌, vec_capacity, true, Ok, length, filter, vec_len, All, IfErr, IfOk, IsTrue, OnErr, OnOk};
ghost use Rattle.path_segment.specs.Chain.{IsChainLive};
ghost use Rattle.path_segment.specs.Tests.{is_live};
ghost use Rattle.path_server.specs.Expiry.{IsEarliestExpiry};
ghost use Rattle.path_server.specs.Fault.{Registers};
ghost use Rattle.path_server.specs.Index.{IsIndex};
ghost use Rattle.path_server.specs.inner.Blocks.{joined};
ghost use Rattle.path_server.specs.Store.{answer_to, with_registered, live_segments, expired_count, after_operation, TakesIn};
ghost use Rattle.path_server.specs.Lookup.{segments_for};

use crate::blocks::{Blocks, find_in};
use crate::ends::Ends;
use crate::expiry::{least_expiry, least_expiry_of};
use crate::fault::{StoreError, StoreFault};
use crate::lookup::{Copying, ases_reached, copies_at, core_places_between, places_ending_in};
use crate::op::StoreOp;
use crate::same_ends::answer_to;
use crate::set::SegmentSet;
use crate::sweeps::{count_all, make_count_room};
use isd_as::IsdAs;
use path_segment::Segment;
use refusal::OrMemory;
use std::alloc::{AllocError, Global};
use std::marker::Model;

/// The known path segments, in the order of registration.
///
/// An index finds them: it has their places, ordered by kind, last AS, first AS and registration.
/// Lookups of up and down segments know only the last AS, so the last AS comes before the first.
///
/// The store also has the earliest expiry of its segments, in half seconds, or the largest number
/// if there are none: up to then a sweep has nothing to remove, and after it a sweep removes one.
/// It has room for the counts that a sweep makes.
#[derive(Debug, Drop)]
pub struct PathStore {
    segments: Vec<Segment>,
    index: Blocks,
    counts: Vec<usize>,
    least_expiry: u64,
    ghost agreed: { IsIndex segments.items (joined index.blocks.items) },
    ghost room: { length segments.items ≤ 8 * vec_capacity counts },
    ghost earliest: { IsEarliestExpiry segments.items least_expiry },
}

impl Model for PathStore {
    ghost use Rattle.std.specs.Prelude.{List};
    ghost use Rattle.path_segment.specs.Chain.{Chain};

    ghost Value = { List Chain };

    ghost view = { λ s. s.segments.items };
}

impl PathStore {
    /// An empty store; its memory is taken from `alloc`.
    pub fn new(alloc: Global) -> PathStore
        ensures { result ≡ [] }
    {
        PathStore {
            segments: Vec::new(alloc),
            index: Blocks::new(alloc),
            counts: Vec::new(alloc),
            least_expiry: u64::MAX,
        }
    }

    /// The number of segments.
    pub fn len(&self) -> usize
        ensures { result ≡ length self.now }
    {
        self.segments.len()
    }

    /// Whether there are no segments.
    pub fn is_empty(&self) -> bool
        ensures { IsTrue result ↔ (self.now ≡ []) }
    {
        self.segments.is_empty()
    }

    /// The segments, in order of registration.
    pub fn segments(&self) -> &[Segment]
        ensures { result.now ≡ self.now }
    {
        &self.segments
    }

    /// Registers a segment at the second `now`, at the end of the list, and returns whether it is
    /// new. If an equal one is there, nothing changes.
    ///
    /// The first of these refusals is returned, together with the segment: [`StoreFault::Expired`]
    /// if it is not live at `now`; [`StoreFault::Full`] if it is new and the store has 32 segments
    /// of its kind, first AS and last AS. Running out of memory also returns the segment, and is
    /// possible only if it was to be stored.
    ///
    /// It reads the ends of some segments, as many as a binary search does, and the segments of
    /// that kind and those ends. In the index it moves at most the places of one block.
    pub fn register(&mut self, segment: Segment, now: u32) -> Result<bool, (Segment, StoreError)>
        ensures answer { Registers segment result (answer_to self.old segment now) }
        ensures taken { OnOk result (self.new ≡ with_registered self.old segment now) }
        ensures kept { OnErr result (self.new ≡ self.old) }
    {
        match self.answer_to(&segment, now) {
            Err(fault) => Err((segment, OrMemory::Refused(fault))),
            Ok(false) => Ok(false),
            Ok(true) => match self.take_in(segment) {
                Ok(()) => Ok(true),
                Err(segment) => Err((segment, OrMemory::Memory)),
            },
        }
    }

    /// The answer to a registration, before memory is requested.
    fn answer_to(&self, segment: &Segment, now: u32) -> Result<bool, StoreFault>
        ensures { result ≡ answer_to self.now segment.now now }
    {
        answer_to(&self.segments, self.index.all(), segment, now)
    }

    /// Adds a segment at the end. If memory runs out, it is returned.
    fn take_in(&mut self, segment: Segment) -> Result<(), Segment>
        ensures taken { OnOk result (self.new ≡ self.old ++ segment ∷ []) }
        ensures kept { OnErr result (self.new ≡ self.old) }
        ensures back { IfErr result (λ back. back ≡ segment) }
    {
        let spot = find_in(&self.segments, self.index.all(), Ends::of(&segment));
        let Ok(spot) = self.index.make_room(spot) else {
            return Err(segment);
        };
        let place = self.segments.len();
        let Ok(()) = make_count_room(&mut self.counts, place + 1) else {
            return Err(segment);
        };
        let expiry = least_expiry(&segment);
        if let Err(refused) = self.segments.push(segment) {
            return Err(refused.value);
        }
        self.index.put(spot, place);
        self.least_expiry = self.least_expiry.min(expiry);
        Ok(())
    }

    /// Removes the segments that are not live at the second `now`, and returns their number.
    ///
    /// If there are none, it reads no segment. Else it goes once through the segments and once
    /// through the index, where it reads up to 8 segments for each place. It takes no memory.
    pub fn sweep(&mut self, now: u32) -> usize
        ensures kept { self.new ≡ live_segments self.old now }
        ensures count { result ≡ expired_count self.old now }
    {
        if self.are_all_live(now) {
            return 0;
        }
        self.remove_expired(now)
    }

    /// Whether the second `now` is not later than the earliest expiry, so that no segment has
    /// expired.
    fn are_all_live(&self, now: u32) -> bool
        ensures { IsTrue result → All (λ segment. IsChainLive segment now) self.now }
    {
        2 * u64::from(now) <= self.least_expiry
    }

    /// Removes the segments that are not live at the second `now`, and returns their number.
    #[tactic(auto, using(crate::proofs::Counts::left_out), unfolding(crate::specs::Store::live_segments))]
    fn remove_expired(&mut self, now: u32) -> usize
        ensures kept { self.new ≡ live_segments self.old now }
        ensures count { result ≡ expired_count self.old now }
    {
        let before = self.segments.len();
        count_all(&self.segments, now, &mut self.counts);
        self.index.sweep(&self.segments, &self.counts, now);
        keep_live(&mut self.segments, now);
        self.least_expiry = least_expiry_of(&self.segments);
        before - self.segments.len()
    }

    /// Does one operation. If the store would refuse a registration, nothing changes.
    ///
    /// Running out of memory is possible only if a new segment was to be stored. The store keeps a
    /// copy of it, which shares its parts.
    pub fn apply(&mut self, operation: &StoreOp) -> Result<(), AllocError>
        ensures done { OnOk result (self.new ≡ after_operation self.old operation.now) }
        ensures kept { OnErr result (self.new ≡ self.old) }
        ensures wanted { OnErr result (TakesIn operation.now self.old) }
    {
        match operation {
            StoreOp::Register(segment, now) => self.register_copy(segment, *now),
            StoreOp::Sweep(now) => {
                self.sweep(*now);
                Ok(())
            }
        }
    }

    /// Stores a copy of a segment if it is new at the second `now`.
    fn register_copy(&mut self, segment: &Segment, now: u32) -> Result<(), AllocError>
        ensures done { OnOk result (self.new ≡ with_registered self.old segment.now now) }
        ensures kept { OnErr result (self.new ≡ self.old) }
        ensures wanted { OnErr result (answer_to self.old segment.now now ≡ Ok true) }
    {
        match self.answer_to(segment, now) {
            Ok(true) => match self.take_in(segment.try_clone()?) {
                Ok(()) => Ok(()),
                Err(_) => Err(AllocError),
            },
            Ok(false) | Err(_) => Ok(()),
        }
    }

    /// Copies of the segments of which paths from `src` to `dst` can be made, all live at the
    /// second `now`: the intra segments that end in `src`, those that end in `dst`, and the core
    /// segments between the two sides, in either direction.
    ///
    /// The side of `src` is `src` itself and the ASes in which its segments begin; likewise for
    /// `dst`.
    ///
    /// The copies share the parts of the store's segments. It searches the index once for each side
    /// and once for each AS of both sides, and the core segments that end in an AS of one side once
    /// for each AS of the other. A search reads the ends of some segments, as many as a binary
    /// search does. Apart from that its time and memory grow with the number of segments that have
    /// these ends, live or not. [`AllocError`] if memory runs out.
    pub fn segments_for(
        &self,
        alloc: Global,
        src: IsdAs,
        dst: IsdAs,
        now: u32,
    ) -> Result<SegmentSet, AllocError>
        ensures { IfOk result (λ set. set ≡ segments_for self.now src dst now) }
    {
        self.selection(alloc, src, dst, now, Copying::Shared)
    }

    /// As [`PathStore::segments_for`], with copies that have parts of their own: threads that use
    /// them do not wait for those that use the store's segments or other copies.
    pub fn unshared_segments_for(
        &self,
        alloc: Global,
        src: IsdAs,
        dst: IsdAs,
        now: u32,
    ) -> Result<SegmentSet, AllocError>
        ensures { IfOk result (λ set. set ≡ segments_for self.now src dst now) }
    {
        self.selection(alloc, src, dst, now, Copying::Unshared)
    }

    /// Copies of the segments of which paths from `src` to `dst` can be made, all live at the
    /// second `now`.
    fn selection(
        &self,
        alloc: Global,
        src: IsdAs,
        dst: IsdAs,
        now: u32,
        copying: Copying,
    ) -> Result<SegmentSet, AllocError>
        ensures { IfOk result (λ set. set ≡ segments_for self.now src dst now) }
    {
        let (segments, index) = (&self.segments, self.index.all());
        let into_source = places_ending_in(alloc, segments, index, src, now)?;
        let ups = copies_at(alloc, segments, &into_source, copying)?;
        let into_destination = places_ending_in(alloc, segments, index, dst, now)?;
        let downs = copies_at(alloc, segments, &into_destination, copying)?;
        let near = ases_reached(alloc, src, &ups)?;
        let far = ases_reached(alloc, dst, &downs)?;
        let between = core_places_between(alloc, segments, index, &near, &far, now)?;
        let cores = copies_at(alloc, segments, &between, copying)?;
        Ok(SegmentSet {
            ups,
            cores,
            downs,
            moment: now,
        })
    }
}

/// Removes the segments that are not live at the second `now`.
fn keep_live(segments: &mut Vec<Segment>, now: u32)
    ensures kept { segments.new.items ≡ filter (is_live now) segments.old.items }
    ensures fewer { vec_len segments.new ≤ vec_len segments.old }
{
    segments.retain(|segment| segment.is_live(now));
}
