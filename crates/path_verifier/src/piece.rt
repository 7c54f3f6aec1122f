#![tactic(auto, unfolding(crate::specs::Piece::begins_in, crate::specs::Piece::ends_in))]

ghost use Rattle.std.specs.Prelude.{◌≡◌, ◌↔◌, ◌+◌, ◌-◌, ◌<◌, ◌≤◌, All, length, slice_get, Some, IsTrue};
ghost use Rattle.hop_mac.specs.Lifetime.{IsLive};
ghost use Rattle.path_segment.specs.Chain.{between, IsLeastExpiry};
ghost use Rattle.path_verifier.specs.Piece.{HasRange, kind_of, entries_of, travelled_entries, first_place, begins_in, ends_in};
ghost use Rattle.path_verifier.specs.Accepted.{IsCore};
ghost use Rattle.path_verifier.specs.Turned.{turned_piece};

use crate::kind::PieceKind;
use hop_mac::hop_is_live;
use isd_as::IsdAs;
use path_segment::{Entry, SegKind, Segment};
use std::marker::Model;

/// A piece of a segment on a path: the entries from one place to a later one, both included,
/// travelled in one of the two directions.
#[derive(Debug, Drop)]
pub struct Piece<'s> {
    /// The segment.
    pub segment: &'s Segment,
    /// The place in the segment of the piece's first entry, in construction order.
    pub from: usize,
    /// The place in the segment of the piece's last entry.
    pub to: usize,
    /// Whether it is travelled in the direction in which the segment was made.
    pub along: bool,
}

impl<'s> Model for Piece<'s> {
    ghost use Rattle.path_verifier.specs.Piece.{PieceValue};

    ghost Value = { PieceValue };

    ghost view = { λ p. record {
      segment = p.segment.now;
      from = p.from;
      to = p.to;
      along = p.along;
    } };
}

impl<'s> Piece<'s> {
    /// Its kind: up, core or down.
    pub fn kind(&self) -> PieceKind
        ensures { result ≡ kind_of self.now }
    {
        match (self.segment.kind(), self.along) {
            (SegKind::Core, _) => PieceKind::Core,
            (SegKind::Intra, true) => PieceKind::Down,
            (SegKind::Intra, false) => PieceKind::Up,
        }
    }

    /// The same entries of the same segment, travelled in the other direction.
    pub fn turned(&self) -> Piece<'s>
        ensures { result ≡ turned_piece self.now }
    {
        Piece {
            segment: self.segment,
            from: self.from,
            to: self.to,
            along: !self.along,
        }
    }

    /// Whether its places are the places of two entries of its segment, the first before the second
    /// in construction order. `begins_in` and `ends_in` need this.
    pub fn has_range(&self) -> bool
        ensures { IsTrue result ↔ HasRange self.now }
    {
        self.from < self.to && self.to < self.segment.entries().len()
    }

    /// Whether it is a core piece.
    pub(crate) fn is_core(&self) -> bool
        ensures { IsTrue result ↔ IsCore self.now }
    {
        matches!(self.kind(), PieceKind::Core)
    }

    /// Whether it has the first entry of its segment.
    pub(crate) fn begins_first(&self) -> bool
        ensures { IsTrue result ↔ (self.now.from ≡ 0) }
    {
        self.from == 0
    }

    /// Whether it lacks the first entry of its segment.
    pub(crate) fn begins_later(&self) -> bool
        ensures { IsTrue result ↔ (0 < self.now.from) }
    {
        self.from > 0
    }

    /// Whether it has the last entry of its segment.
    pub(crate) fn ends_last(&self) -> bool
        requires { HasRange self.now }
        ensures { IsTrue result ↔ (self.now.to + 1 ≡ length self.now.segment.entries) }
    {
        let segment = self.segment;
        self.to == segment.entries().len() - 1
    }

    /// The AS in which it begins, in order of travel.
    pub fn begins_in(&self) -> IsdAs
        requires { HasRange self.now }
        ensures { result ≡ begins_in self.now }
    {
        self.entry(0).ia
    }

    /// The AS in which it ends, in order of travel.
    pub fn ends_in(&self) -> IsdAs
        requires { HasRange self.now }
        ensures { result ≡ ends_in self.now }
    {
        self.entry(self.len() - 1).ia
    }

    /// Whether each of its hops is live at the second `now`.
    pub(crate) fn is_live(&self, now: u32) -> bool
        requires { HasRange self.now }
        ensures { IsTrue result ↔ All
            (λ entry. IsLive self.now.segment.timestamp entry.exp_time now) (entries_of self.now) }
    {
        are_live(self.segment.timestamp(), self.entries(), now)
    }

    /// Its entries, in construction order.
    pub(crate) fn entries(&self) -> &'s [Entry]
        requires { HasRange self.now }
        ensures { result.now ≡ entries_of self.now }
    {
        let segment = self.segment;
        let (from, to) = (self.from, self.to);
        cut(segment.entries(), from, to)
    }

    /// The half second at which the first of its hops expires.
    pub(crate) fn expiry(&self) -> u64
        requires { HasRange self.now }
        ensures { IsLeastExpiry self.now.segment.timestamp (entries_of self.now) result }
    {
        self.segment.least_expiry(self.from, self.to)
    }

    /// The place in the segment of the first entry travelled.
    pub(crate) fn first_place(&self) -> usize
        ensures { result ≡ first_place self.now }
    {
        if self.along { self.from } else { self.to }
    }

    /// The number of its entries, which is that of its hop fields: 2 to 63.
    #[tactic(auto, using(crate::proofs::Entries::length_travelled))]
    pub fn len(&self) -> usize
        requires { HasRange self.now }
        ensures value { result ≡ length (travelled_entries self.now) }
        ensures few { result ≤ 63 }
    {
        let segment = self.segment;
        let (from, to) = (self.from, self.to);
        count(segment.entries(), from, to)
    }

    /// The entry at this place in order of travel, from 0.
    pub fn entry(&self, place: usize) -> &'s Entry
        requires range { HasRange self.now }
        requires within { place < length (travelled_entries self.now) }
        ensures { slice_get (travelled_entries self.now) place ≡ Some result.now }
    {
        let segment = self.segment;
        let at = if self.along {
            self.from + place
        } else {
            self.to - place
        };
        &segment.entries()[at]
    }

    /// A copy of this piece.
    pub(crate) fn again(&self) -> Piece<'s>
        ensures { result ≡ self.now }
    {
        Piece {
            segment: self.segment,
            from: self.from,
            to: self.to,
            along: self.along,
        }
    }
}

/// The number of entries from one place to another, both included.
fn count(entries: &[Entry], from: usize, to: usize) -> usize
    requires order { from < to }
    requires within { to < length entries.now }
    requires few { length entries.now ≤ 63 }
    ensures value { result ≡ to + 1 - from }
    ensures few { result ≤ 63 }
{
    to + 1 - from
}

/// The entries from one place to another, both included.
#[tactic(auto, using(crate::proofs::Entries::take_between))]
fn cut(entries: &[Entry], from: usize, to: usize) -> &[Entry]
    requires order { from < to }
    requires within { to < length entries.now }
    ensures { result.now ≡ between from to entries.now }
{
    &entries[from..to + 1]
}

/// Whether each of these entries is live at the second `now`.
fn are_live(timestamp: u32, entries: &[Entry], now: u32) -> bool
    ensures { IsTrue result
        ↔ All (λ entry. IsLive timestamp entry.exp_time now) entries.now }
{
    entries
        .iter()
        .all(|entry| hop_is_live(timestamp, entry.exp_time, now))
}
