ghost use Rattle.std.specs.Prelude.{◌≡◌, ◌↔◌, ◌<◌, ◌≤◌, ◌+◌, ◌∷◌, ◌++◌, [], length, All, IsTrue, IsFalse, List, take};
ghost use Rattle.std.specs.Ordering.{nat_cmp};
ghost use Rattle.std.specs.Cmp.Lexicographic.{slice_cmp};
ghost use Rattle.path_header.specs.Spelling.{HopFits, hop_spelling};
ghost use Rattle.path_segment.specs.Chain.{IsLeastExpiry};
ghost use Rattle.policy_expr.specs.declared.hop.WalkHop.{WalkHop};
ghost use Rattle.path_verifier.specs.Piece.{HasRange, begins_in, ends_in, entries_of, kind_of};
ghost use Rattle.path_verifier.specs.Walk.{hops_of, left_by};
ghost use Rattle.path_verifier.specs.Header.{field_of, len_of};
ghost use Rattle.path_verifier.specs.Accepted.{LastTo};
ghost use Rattle.combinator.specs.inner.Alike.{AreAlike, AreSameHops, GoesOn, IsUsable};
ghost use Rattle.combinator.specs.inner.Group.{fields_cmp, hop_bytes};
ghost use Rattle.combinator.specs.inner.UsablePieces.{info_number, piece_of, piece_cmp, kind_rank, rank_of};
ghost use Rattle.combinator.specs.inner.Search.{HasFields};

use isd_as::IsdAs;
use path_header::{hop_bytes, info_bytes};
use path_segment::{Entry, Segment};
use path_verifier::{Piece, PieceKind, field_of, info_of};
use policy_expr::WalkHop;
use std::cmp::Ordering;
use std::marker::Model;

/// A piece of a segment, with what the search reads of it: the ASes in which it begins and ends in
/// order of travel, its rank, a number made of its hops, the number that its info field spells, and
/// its expiry in half seconds.
#[derive(Drop)]
pub(crate) struct UsablePiece<'s> {
    piece: Piece<'s>,
    begins: IsdAs,
    ends: IsdAs,
    rank: u8,
    hops: u64,
    info: u64,
    expiry: u64,
}

impl<'s> Model for UsablePiece<'s> {
    ghost use Rattle.std.specs.Prelude.{◌≡◌};
    ghost use Rattle.path_segment.specs.Chain.{IsLeastExpiry};
    ghost use Rattle.path_verifier.specs.Piece.{PieceValue, begins_in, ends_in, entries_of};
    ghost use Rattle.combinator.specs.inner.Alike.{IsUsable};
    ghost use Rattle.combinator.specs.inner.Search.{HasFields};
    ghost use Rattle.combinator.specs.inner.UsablePieces.{info_number, rank_of};

    ghost Value = { PieceValue };

    ghost view = { λ l. l.piece };

    ghost invariant = { λ l. IsUsable l.piece × (l.begins ≡ begins_in l.piece)
        × (l.ends ≡ ends_in l.piece) × (l.rank ≡ rank_of l.piece) × HasFields l.piece
        × (l.info ≡ info_number l.piece)
        × IsLeastExpiry l.piece.segment.timestamp (entries_of l.piece) l.expiry };
}

impl<'s> UsablePiece<'s> {
    /// The piece from one place of a segment to a later one; of a core segment it is the whole.
    pub(crate) fn new(segment: &'s Segment, from: usize, to: usize, along: bool) -> UsablePiece<'s>
        requires usable { IsUsable (piece_of segment.now from to along) }
        requires fits { All (λ entry. HopFits (field_of entry)) segment.now.entries }
        ensures { result ≡ piece_of segment.entry.now from to along }
    {
        let piece = Piece {
            segment,
            from,
            to,
            along,
        };
        let begins = piece.begins_in();
        let ends = piece.ends_in();
        let rank = rank_of(&piece);
        let hops = hops_number_of(&piece);
        let info = info_number_of(&piece);
        let expiry = segment.least_expiry(from, to);
        UsablePiece {
            piece,
            begins,
            ends,
            rank,
            hops,
            info,
            expiry,
        }
    }

    /// A copy of the piece.
    pub(crate) fn piece(&self) -> Piece<'s>
        ensures value { result ≡ self.now }
        ensures range { HasRange self.now }
    {
        let piece = &self.piece;
        Piece {
            segment: piece.segment,
            from: piece.from,
            to: piece.to,
            along: piece.along,
        }
    }

    /// Does nothing; its contract tells the caller that the piece may occur in a path, and that the
    /// numbers of its fields fit into their bits.
    pub(crate) fn known(&self)
        ensures usable { IsUsable self.now }
        ensures fields { HasFields self.now }
    {
        let _ = &self.piece;
    }

    /// The AS in which it begins.
    pub(crate) fn begins(&self) -> IsdAs
        ensures { result ≡ begins_in self.now }
    {
        self.begins
    }

    /// The AS in which it ends.
    pub(crate) fn ends(&self) -> IsdAs
        ensures { result ≡ ends_in self.now }
    {
        self.ends
    }

    /// Its kind: up, core or down.
    pub(crate) fn kind(&self) -> PieceKind
        ensures { result ≡ kind_of self.now }
    {
        self.piece.kind()
    }

    /// The number that the bytes of its info field spell.
    pub(crate) fn info(&self) -> u64
        ensures { result ≡ info_number self.now }
    {
        self.info
    }

    /// The half second at which the first of its hops expires.
    pub(crate) fn expiry(&self) -> u64
        ensures { IsLeastExpiry self.now.segment.timestamp (entries_of self.now) result }
    {
        self.expiry
    }

    /// The number of its hop fields.
    pub(crate) fn len(&self) -> usize
        ensures value { result ≡ len_of self.now }
        ensures some { 2 ≤ result }
        ensures few { result ≤ 63 }
    {
        self.piece.len()
    }

    /// Whether it lasts to this half second.
    pub(crate) fn lasts_to(&self, half: u64) -> bool
        ensures { IsTrue result ↔ LastTo half (self.now ∷ []) }
    {
        half <= self.expiry
    }

    /// Compares this piece with another one so that sorting puts those with the same hops side by
    /// side: by the AS in which it begins, its rank, the number of its hops, and its info field.
    pub(crate) fn compare_hops(&self, other: &UsablePiece<'_>) -> Ordering {
        let begins = self.begins.number().cmp(&other.begins.number());
        begins
            .then(self.rank.cmp(&other.rank))
            .then(self.hops.cmp(&other.hops))
            .then(self.info.cmp(&other.info))
    }

    /// A number by which pieces from one AS stand in the order of their first two hops.
    pub(crate) fn walk_key(&self) -> u128 {
        let (first, second) = (self.piece.hop(0), self.piece.hop(1));
        (u128::from(first.egress.0) << 96)
            | (u128::from(second.ia.number()) << 32)
            | (u128::from(second.ingress.0) << 16)
            | u128::from(second.egress.0)
    }

    /// Compares this piece with another one in the order of the search: by the AS in which it
    /// begins, then by its rank, then by its info field.
    #[tactic(auto, unfolding(crate::specs::inner::UsablePieces::piece_cmp))]
    pub(crate) fn compare(&self, other: &UsablePiece<'_>) -> Ordering
        ensures { result ≡ piece_cmp self.now other.now }
    {
        match self.begins.number().cmp(&other.begins.number()) {
            Ordering::Equal => match self.rank.cmp(&other.rank) {
                Ordering::Equal => self.info.cmp(&other.info),
                decided => decided,
            },
            decided => decided,
        }
    }

    /// Compares pieces of one length by info field and hop fields.
    pub(crate) fn compare_fields(&self, other: &UsablePiece<'_>) -> Ordering
        requires { len_of self.now ≡ len_of other.now }
        ensures { result ≡ fields_cmp self.now other.now }
    {
        match self.info.cmp(&other.info) {
            Ordering::Equal => self.compare_hop_fields(other),
            decided => decided,
        }
    }

    /// Compares pieces of one length by hop fields.
    pub(crate) fn compare_hop_fields(&self, other: &UsablePiece<'_>) -> Ordering
        requires { len_of self.now ≡ len_of other.now }
        ensures { result ≡ slice_cmp nat_cmp (hop_bytes self.now) (hop_bytes other.now) }
    {
        compare_hop_fields(&self.piece, &other.piece)
    }
}

impl<'s> UsablePiece<'s> {
    /// Whether both pieces put the same hops into a walk and are lawful in the same places.
    pub(crate) fn is_alike(&self, other: &UsablePiece<'_>) -> bool
        ensures { IsTrue result → AreAlike self.now other.now }
    {
        if self.hops != other.hops || self.rank != other.rank || self.begins != other.begins {
            return false;
        }
        if begins_first(&self.piece) != begins_first(&other.piece) {
            return false;
        }
        have_same_hops(&self.piece, &other.piece)
    }

    /// Whether a walk goes on, from the hop at this place, by the hops of the piece.
    pub(crate) fn goes_on(&self, walk: &[WalkHop], place: usize) -> bool
        ensures { IsFalse result → (past rest : List WalkHop) (here : WalkHop)
            → walk.now ≡ past ++ here ∷ rest → length past ≡ place
            → ¬ (GoesOn (hops_of self.now) here rest) }
    {
        if place >= walk.len() {
            return true;
        }
        walk[place].egress == self.piece.hop(0).egress
            && begins_with(&walk[place + 1..], &self.piece)
    }
}

/// Whether a piece has the first entry of its segment.
fn begins_first(piece: &Piece<'_>) -> bool
    ensures { IsTrue result ↔ (piece.now.from ≡ 0) }
{
    piece.from == 0
}

/// Whether pieces of one length that begin in one AS have the same hops, whatever the first way in
/// and the last way out.
fn have_same_hops(one: &Piece<'_>, other: &Piece<'_>) -> bool
    requires range { HasRange one.now }
    requires also { HasRange other.now }
    requires len { len_of one.now ≡ len_of other.now }
    requires begins { begins_in one.now ≡ begins_in other.now }
    ensures { IsTrue result → AreSameHops (hops_of one.now) (hops_of other.now) }
{
    for place in 1..one.len() {
        if one.hop(place - 1).egress != other.hop(place - 1).egress {
            return false;
        }
        let (hop, next) = (one.hop(place), other.hop(place));
        if hop.ia != next.ia || hop.ingress != next.ingress {
            return false;
        }
    }
    true
}

/// Whether the rest of a walk begins with the later hops of a piece, whatever the last way out.
fn begins_with(rest: &[WalkHop], piece: &Piece<'_>) -> bool
    requires { HasRange piece.now }
    ensures { IsFalse result → (hop : WalkHop) (later : List WalkHop)
        → hops_of piece.now ≡ hop ∷ later
        → ¬ (left_by 0 (take (length later) rest.now) ≡ left_by 0 later) }
{
    let len = piece.len();
    if rest.len() < len - 1 {
        return false;
    }
    for place in 1..len {
        let (there, hop) = (rest[place - 1], piece.hop(place));
        if there.ia != hop.ia || there.ingress != hop.ingress {
            return false;
        }
        if place + 1 < len && there.egress != hop.egress {
            return false;
        }
    }
    true
}

/// A number that pieces with the same hops have, if both or none have their segment's first entry,
/// and others hardly ever.
fn hops_number_of(piece: &Piece<'_>) -> u64
    requires { HasRange piece.now }
{
    let mut number = u64::from(begins_first(piece));
    let mut from = piece.hop(0);
    for place in 1..piece.len() {
        let to = piece.hop(place);
        number = mixed(number ^ to.ia.number());
        number = mixed(number ^ (u64::from(from.egress.0) << 16) ^ u64::from(to.ingress.0));
        from = to;
    }
    number
}

/// One step of a number that tells hops apart.
fn mixed(number: u64) -> u64 {
    // The golden ratio as a fraction of 2^64: an odd number whose bits are spread evenly.
    const GOLDEN: u64 = 0x9E37_79B9_7F4A_7C15;
    let product = number.wrapping_mul(GOLDEN);
    product ^ (product >> 32)
}

/// Compares pieces of one length by hop fields.
fn compare_hop_fields(one: &Piece<'_>, other: &Piece<'_>) -> Ordering
    requires range { HasRange one.now }
    requires also { HasRange other.now }
    requires same { len_of one.now ≡ len_of other.now }
    ensures { result ≡ slice_cmp nat_cmp (hop_bytes one.now) (hop_bytes other.now) }
{
    for place in 0..one.len() {
        match compare_bytes(one.entry(place), other.entry(place)) {
            Ordering::Equal => {}
            decided => return decided,
        }
    }
    Ordering::Equal
}

/// Compares the hop fields of entries by their bytes.
fn compare_bytes(one: &Entry, other: &Entry) -> Ordering
    ensures value { result ≡ slice_cmp nat_cmp (hop_spelling (field_of one.now))
        (hop_spelling (field_of other.now)) }
    ensures same { length (hop_spelling (field_of one.now))
        ≡ length (hop_spelling (field_of other.now)) }
{
    let mine = hop_bytes(field_of(one));
    let theirs = hop_bytes(field_of(other));
    mine.as_slice().cmp(theirs.as_slice())
}

/// Where a piece stands among those that begin in its AS: pieces that end in the destination come
/// first, since with them paths are short; then short pieces.
fn rank_of(piece: &Piece<'_>) -> u8
    requires { HasRange piece.now }
    ensures { result ≡ rank_of piece.now }
{
    kind_rank(piece.kind()) * 64 + piece.len() as u8
}

/// The place of a kind among pieces that begin in one AS.
fn kind_rank(kind: PieceKind) -> u8
    ensures value { result ≡ kind_rank kind }
    ensures few { result ≤ 2 }
{
    match kind {
        PieceKind::Down => 0,
        PieceKind::Up => 1,
        PieceKind::Core => 2,
    }
}

/// The number that the bytes of a piece's info field spell. The numbers of all its fields fit into
/// their bits.
#[tactic(auto, unfolding(crate::specs::inner::Search::HasFields))]
fn info_number_of(piece: &Piece<'_>) -> u64
    requires range { HasRange piece.now }
    requires fits { All (λ entry. HopFits (field_of entry)) piece.now.segment.entries }
    ensures value { result ≡ info_number piece.now }
    ensures fields { HasFields piece.now }
{
    let _ = piece.segment.entries();
    u64::from_be_bytes(info_bytes(&info_of(piece)))
}

/// Tells the caller that the numbers of the hop fields of these entries fit into their bits.
pub(crate) fn know_hops(entries: &[Entry])
    ensures { All (λ entry. HopFits (field_of entry)) entries.now }
{
    for entry in entries {
        let _ = hop_bytes(field_of(entry));
    }
}

/// Tells the caller that these pieces may occur in a path, and that the numbers of their fields fit
/// into their bits.
pub(crate) fn know_all(pieces: &[UsablePiece<'_>])
    ensures usable { All IsUsable pieces.now }
    ensures fields { All HasFields pieces.now }
{
    for piece in pieces {
        piece.known();
    }
}
