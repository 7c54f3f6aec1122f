ghost use Rattle.std.specs.Prelude.{◌≡◌, ◌≤◌, ◌∷◌, [], length, nat_le, IfOk, IsTrue, ◌↔◌};
ghost use Rattle.path_segment.specs.Chain.{chain_of, with_last, beta_of};
ghost use Rattle.refusal.specs.Refusal.{Answers, unless};
ghost use Rattle.path_segment.specs.Rules.{AreOfBeacon, IsBeacon, first_fault, next_fault, last_fault, beacon_of, segment_of};

use crate::chain::{are_same, beta_after_all, clone_entries, with_one_more};
use crate::entry::Entry;
use crate::fault::SegmentError;
use crate::kind::SegKind;
use crate::rules::{MAX_BEACON_LEN, fault_of_first, fault_of_last, fault_of_next};
use crate::segment::{Parts, Segment};
use refusal::OrMemory;
use std::alloc::{AllocError, Global};
use std::marker::Model;

/// A segment under way: 1 to 62 entries, each with a way out to the next AS.
///
/// Its type keeps the rules: only the first entry has no way in, and no two entries are of one AS.
#[derive(Debug, Drop)]
pub struct Beacon {
    kind: SegKind,
    timestamp: u32,
    beta0: u16,
    entries: Vec<Entry>,
}

impl Model for Beacon {
    ghost use Rattle.path_segment.specs.Chain.{Chain, chain_of};
    ghost use Rattle.path_segment.specs.Rules.{IsBeacon};

    ghost Value = { Chain };

    ghost view = { λ b. chain_of b.kind b.timestamp b.beta0 b.entries.items };

    ghost invariant = { λ b. IsBeacon (chain_of b.kind b.timestamp b.beta0 b.entries.items) };
}

impl Beacon {
    /// The beacon of its first AS. `timestamp` is in seconds; `beta0` is the accumulator under
    /// which the first hop is authenticated.
    ///
    /// [`SegmentFault::BadEnds`] if the entry has a way in or no way out; else memory may run out.
    pub fn first(
        alloc: Global,
        kind: SegKind,
        timestamp: u32,
        beta0: u16,
        entry: Entry,
    ) -> Result<Beacon, SegmentError>
        // The beacon of this entry, or the first rule that it breaks.
        ensures whole { Answers (λ b. b) result
            (beacon_of (chain_of kind timestamp beta0 (entry ∷ []))) }
        // Which rule that is, from the entry alone.
        ensures step { Answers (λ b. b) result
            (unless (first_fault entry) (chain_of kind timestamp beta0 (entry ∷ []))) }
    {
        if let Some(fault) = fault_of_first(&entry) {
            return Err(OrMemory::Refused(fault));
        }
        let mut entries = Vec::with_capacity(alloc, 1)?;
        entries.push(entry)?;
        Ok(Beacon {
            kind,
            timestamp,
            beta0,
            entries,
        })
    }

    /// The beacon with one more entry, by which the entry's AS passes it on.
    ///
    /// The first of these refusals is returned: [`SegmentFault::TooLong`] if the beacon has 62
    /// entries, [`SegmentFault::BadEnds`] if the entry has no way in or no way out,
    /// [`SegmentFault::Loop`] if the beacon already has an entry of its AS. Memory can run out only
    /// if none of them is due.
    pub fn with_entry(&self, alloc: Global, entry: Entry) -> Result<Beacon, SegmentError>
        // The beacon of these entries, or the first rule that they break.
        ensures whole { Answers (λ b. b) result (beacon_of (with_last self.now entry)) }
        // Which rule that is, from the new entry.
        ensures step { Answers (λ b. b) result
            (unless (next_fault self.now.entries entry) (with_last self.now entry)) }
    {
        if let Some(fault) = fault_of_next(&self.entries, &entry) {
            return Err(OrMemory::Refused(fault));
        }
        let entries = with_one_more(alloc, &self.entries, &entry)?;
        Ok(Beacon {
            kind: self.kind,
            timestamp: self.timestamp,
            beta0: self.beta0,
            entries,
        })
    }

    /// The segment that ends with this entry.
    ///
    /// The first of these refusals is returned: [`SegmentFault::BadEnds`] if the entry has no way
    /// in or has a way out, [`SegmentFault::Loop`] if the beacon already has an entry of its AS.
    /// Memory can run out only if neither is due.
    pub fn finish(&self, alloc: Global, entry: Entry) -> Result<Segment, SegmentError>
        // The segment of these entries, or the first rule that they break.
        ensures whole { Answers (λ s. s) result (segment_of (with_last self.now entry)) }
        // Which rule that is, from the new entry.
        ensures step { Answers (λ s. s) result
            (unless (last_fault self.now.entries entry) (with_last self.now entry)) }
    {
        if let Some(fault) = fault_of_last(&self.entries, &entry) {
            return Err(OrMemory::Refused(fault));
        }
        let entries = with_one_more(alloc, &self.entries, &entry)?;
        Ok(Segment::of(Parts {
            kind: self.kind,
            timestamp: self.timestamp,
            beta0: self.beta0,
            entries,
        })?)
    }

    /// Whether it has 62 entries, so that it can only be ended and not be passed on.
    pub fn is_full(&self) -> bool
        ensures { result ≡ nat_le 62 (length self.now.entries) }
    {
        self.entries.len() >= MAX_BEACON_LEN
    }

    /// A copy of this beacon, unless memory runs out.
    pub fn try_clone(&self, alloc: Global) -> Result<Beacon, AllocError>
        ensures { IfOk result (λ b. b ≡ self.now) }
    {
        let entries = clone_entries(alloc, &self.entries)?;
        Ok(Beacon {
            kind: self.kind,
            timestamp: self.timestamp,
            beta0: self.beta0,
            entries,
        })
    }

    /// Whether both beacons have the same kind, timestamp, first accumulator and entries.
    pub fn is_same(&self, other: &Beacon) -> bool
        ensures { IsTrue result ↔ (self.now ≡ other.now) }
    {
        self.kind == other.kind
            && self.timestamp == other.timestamp
            && self.beta0 == other.beta0
            && are_same(&self.entries, &other.entries)
    }

    /// The kind of links that it follows.
    pub fn kind(&self) -> SegKind
        ensures { result ≡ self.now.kind }
    {
        self.kind
    }

    /// When it was begun, in seconds.
    pub fn timestamp(&self) -> u32
        ensures { result ≡ self.now.timestamp }
    {
        self.timestamp
    }

    /// The accumulator under which its first hop is authenticated.
    pub fn beta0(&self) -> u16
        ensures { result ≡ self.now.beta0 }
    {
        self.beta0
    }

    /// Its entries, in construction order, which keep the rules of beacons.
    pub fn entries(&self) -> &[Entry]
        ensures value { result.now ≡ self.now.entries }
        ensures kept { IsBeacon self.now }
        ensures rules { AreOfBeacon self.now.entries }
    {
        &self.entries
    }

    /// The accumulator under which the entry at place `i` is authenticated; at the place after the
    /// last entry, the accumulator for the next entry.
    pub fn beta_at(&self, i: usize) -> u16
        requires { i ≤ length self.now.entries }
        ensures { result ≡ beta_of self.now i }
    {
        beta_after_all(self.beta0, &self.entries[..i])
    }
}
