#![tactic(auto, unfolding(crate::specs::Chain::first_as, crate::specs::Chain::last_as))]

ghost use Rattle.std.specs.Prelude.{◌≡◌, ◌<◌, ◌≤◌, ◌↔◌, length, IfOk, OnOk, IsTrue, MatchResult};
ghost use Rattle.refusal.specs.Refusal.{Answers};
ghost use Rattle.refusal.specs.declared.fault.OrMemory.TheVariants.{Memory};
ghost use Rattle.path_segment.specs.Chain.{chain_of, beta_of, between, first_as, last_as, IsLeastExpiry, IsChainLive};
ghost use Rattle.path_segment.specs.Rules.{AreOfSegment, IsSegment, segment_of};
ghost use Rattle.path_segment.specs.Tests.{is_live, is_same};

use crate::chain::{are_live, are_same, beta_after_all, clone_entries, least_expiry_of};
use crate::entry::Entry;
use crate::fault::{SegmentError, SegmentFault};
use crate::kind::SegKind;
use crate::rules::fault_of_segment;
use isd_as::IsdAs;
use refusal::OrMemory;
use std::alloc::{AllocError, Global};
use std::marker::Model;
use std::sync::Arc;

/// A path segment: 2 to 63 entries, in the direction in which it was made.
///
/// Its type keeps the rules: only the first entry has no way in, only the last has no way out, and
/// no two entries are of one AS. Copies by [`Segment::try_clone`] share its parts.
#[derive(Debug, Drop)]
pub struct Segment {
    parts: Arc<Parts>,
}

/// The parts of a segment.
#[derive(Debug, Drop)]
pub(crate) struct Parts {
    pub(crate) kind: SegKind,
    pub(crate) timestamp: u32,
    pub(crate) beta0: u16,
    pub(crate) entries: Vec<Entry>,
}

impl Model for Segment {
    ghost use Rattle.std.specs.Arc.{arc_value};
    ghost use Rattle.path_segment.specs.Chain.{Chain, chain_of};
    ghost use Rattle.path_segment.specs.Rules.{IsSegment};

    ghost Value = { Chain };

    ghost view = { λ s. let parts = arc_value s.parts in
        chain_of parts.kind parts.timestamp parts.beta0 parts.entries.items };

    ghost invariant = { λ s. let parts = arc_value s.parts in
        IsSegment (chain_of parts.kind parts.timestamp parts.beta0 parts.entries.items) };
}

impl Segment {
    /// The segment of these parts. `timestamp` is in seconds; `beta0` is the accumulator under
    /// which the first hop is authenticated.
    ///
    /// The first of these refusals is returned: [`SegmentFault::TooShort`] for fewer than 2
    /// entries; [`SegmentFault::TooLong`] for more than 63; [`SegmentFault::BadEnds`] if the first
    /// entry has a way in or a later one has none, or if the last has a way out or an earlier one
    /// has none; [`SegmentFault::Loop`] if two entries are of one AS. Memory can run out only if
    /// none of them is due; it is taken where the entries took theirs.
    pub fn new(
        kind: SegKind,
        timestamp: u32,
        beta0: u16,
        entries: Vec<Entry>,
    ) -> Result<Segment, SegmentError>
        // The entries of a segment that is returned keep the rules.
        ensures found { OnOk result (AreOfSegment entries.items) }
        // If the entries keep the rules, the segment is returned, unless memory runs out.
        ensures only { AreOfSegment entries.items → MatchResult result
            (λ s. s ≡ chain_of kind timestamp beta0 entries.items) (λ e. e ≡ Memory) }
        // The segment, or the first rule that the entries break.
        ensures whole { Answers (λ s. s) result
            (segment_of (chain_of kind timestamp beta0 entries.items)) }
    {
        if let Some(fault) = fault_of_segment(&entries) {
            return Err(OrMemory::Refused(fault));
        }
        Ok(Segment::of(Parts {
            kind,
            timestamp,
            beta0,
            entries,
        })?)
    }

    /// The segment of these parts, unless memory runs out.
    pub(crate) fn of(parts: Parts) -> Result<Segment, AllocError>
        requires { IsSegment
            (chain_of parts.kind parts.timestamp parts.beta0 parts.entries.items) }
        ensures { IfOk result (λ s.
            s ≡ chain_of parts.kind parts.timestamp parts.beta0 parts.entries.items) }
    {
        let alloc = *parts.entries.allocator();
        let parts = Arc::new(alloc, parts)?;
        Ok(Segment { parts })
    }

    /// A copy of this segment that shares its parts. It takes no memory; [`AllocError`] comes only
    /// if as many copies share them as can be counted.
    pub fn try_clone(&self) -> Result<Segment, AllocError>
        ensures { IfOk result (λ s. s ≡ self.now) }
    {
        let parts = Arc::try_clone(&self.parts)?;
        Ok(Segment { parts })
    }

    /// A copy of this segment with parts of its own, unless memory runs out. Threads that use it
    /// do not wait for those that use this segment.
    pub fn unshared_copy(&self, alloc: Global) -> Result<Segment, AllocError>
        ensures { IfOk result (λ s. s ≡ self.now) }
    {
        Segment::of(Parts {
            kind: self.parts.kind,
            timestamp: self.parts.timestamp,
            beta0: self.parts.beta0,
            entries: clone_entries(alloc, &self.parts.entries)?,
        })
    }

    /// Whether both segments have the same kind, timestamp, first accumulator and entries.
    pub fn is_same(&self, other: &Segment) -> bool
        ensures fact { IsTrue result ↔ (self.now ≡ other.now) }
        ensures test { result ≡ is_same self.now other.now }
    {
        self.has_parts_of(other)
    }

    /// Whether both segments have the same parts.
    fn has_parts_of(&self, other: &Segment) -> bool
        ensures { IsTrue result ↔ (self.now ≡ other.now) }
    {
        self.parts.kind == other.parts.kind
            && self.parts.timestamp == other.parts.timestamp
            && self.parts.beta0 == other.parts.beta0
            && are_same(&self.parts.entries, &other.parts.entries)
    }

    /// The kind of links that it follows.
    pub fn kind(&self) -> SegKind
        ensures { result ≡ self.now.kind }
    {
        self.parts.kind
    }

    /// When its beacon was begun, in seconds.
    pub fn timestamp(&self) -> u32
        ensures { result ≡ self.now.timestamp }
    {
        self.parts.timestamp
    }

    /// The accumulator under which its first hop is authenticated.
    pub fn beta0(&self) -> u16
        ensures { result ≡ self.now.beta0 }
    {
        self.parts.beta0
    }

    /// Its entries, in construction order, which keep the rules of segments.
    pub fn entries(&self) -> &[Entry]
        ensures value { result.now ≡ self.now.entries }
        ensures kept { IsSegment self.now }
        ensures rules { AreOfSegment self.now.entries }
    {
        &self.parts.entries
    }

    /// The AS in which it begins.
    pub fn first_as(&self) -> IsdAs
        ensures { result ≡ first_as self.now }
    {
        self.entries().first().unwrap().ia
    }

    /// The AS in which it ends.
    pub fn last_as(&self) -> IsdAs
        ensures { result ≡ last_as self.now }
    {
        self.entries().last().unwrap().ia
    }

    /// The accumulator under which the entry at place `i` is authenticated; at the place after the
    /// last entry, the accumulator after all entries.
    pub fn beta_at(&self, i: usize) -> u16
        requires { i ≤ length self.now.entries }
        ensures { result ≡ beta_of self.now i }
    {
        beta_after_all(self.parts.beta0, &self.parts.entries[..i])
    }

    /// The earliest expiry, in half seconds, of the hops from place `a` to place `b`, both
    /// included.
    pub fn least_expiry(&self, a: usize, b: usize) -> u64
        requires order { a ≤ b }
        requires within { b < length self.now.entries }
        ensures { IsLeastExpiry self.now.timestamp (between a b self.now.entries) result }
    {
        least_expiry_of(self.parts.timestamp, &self.parts.entries[a..b + 1])
    }

    /// Whether every hop is live at the second `now`.
    pub fn is_live(&self, now: u32) -> bool
        ensures fact { IsTrue result ↔ IsChainLive self.now now }
        ensures test { result ≡ is_live now self.now }
    {
        self.is_each_hop_live(now)
    }

    /// Whether every hop is live at the second `now`.
    fn is_each_hop_live(&self, now: u32) -> bool
        ensures { IsTrue result ↔ IsChainLive self.now now }
    {
        are_live(self.parts.timestamp, &self.parts.entries, now)
    }
}
