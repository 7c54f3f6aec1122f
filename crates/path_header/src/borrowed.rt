ghost use Rattle.std.specs.Prelude.{◌≡◌, ◌≤◌, true, length, take};
ghost use Rattle.path_header.specs.Value.{IsHeader, header_len};
ghost use Rattle.path_header.specs.Spelling.{SpellsHeader};
ghost use Rattle.path_header.specs.Shown.{has_header, header_at_front};

use crate::checking::{check, check_len};
use crate::fault::HeaderFault;
use crate::fields::{HopField, InfoField};
use crate::lens::{HOP_LEN, INFO_LEN, META_LEN, SegLens};
use crate::meta::Meta;
use crate::reading::{hop_in, info_in, meta_in, word_of};
use crate::writing::put;

/// Where the accumulator of the first info field begins.
const SEG_ID_START: usize = META_LEN + 2;

/// Does nothing; its contract tells the caller what holds for bytes that begin with a header.
pub(crate) fn begins(bytes: &[u8])
    requires { has_header bytes.now ≡ true }
    ensures header { IsHeader (header_at_front bytes.now) }
    ensures long { header_len (header_at_front bytes.now) ≤ length bytes.now }
    ensures spelled { SpellsHeader (take (header_len (header_at_front bytes.now)) bytes.now)
        (header_at_front bytes.now) }
{}

/// A path header in borrowed bytes, which begin with it. It is read and changed in place, without a
/// copy.
///
/// An invariant of the type says that the bytes begin with a header. Bytes after the header have no
/// effect.
#[derive(Drop)]
pub struct HeaderMut<'a> {
    pub(crate) bytes: &'a mut [u8],
    pub ghost begins: { has_header bytes.now ≡ true },
}

impl<'a> HeaderMut<'a> {
    ghost use Rattle.std.specs.Prelude.{◌≡◌, ℕ, ◌+◌, ◌*◌, ◌<◌, ◌≤◌, true, List, ◌++◌, length, take, drop, slice_get, slice_set, Some, IfOk, OnOk};
    ghost use Rattle.std.specs.Int.{w16, to_be_bytes};
    ghost use Rattle.refusal.specs.Refusal.{Gives};
    ghost use Rattle.path_header.specs.Value.{IsHeader, IsInSegment, header_len, segment_at};
    ghost use Rattle.path_header.specs.Spelling.{meta_of, SpellsHeader};
    ghost use Rattle.path_header.specs.Reading.{header_at};
    ghost use Rattle.path_header.specs.Shown.{without_value, len_at, has_header, header_at_front};
    ghost use Rattle.path_header.specs.Borrowed.{bytes_of, value_of, rest_of};

    /// The header at the front of these bytes, which it borrows; with the refusals of
    /// [`crate::decode`], in their order.
    ///
    /// Bytes that it refuses stay as they were; that is tested, and no clause says it. It takes no
    /// memory and reads each field once, at most 3 info and 64 hop fields.
    pub fn new(bytes: &'a mut [u8]) -> Result<HeaderMut<'a>, HeaderFault>
        ensures exact { Gives value_of result (header_at bytes.old) }
        ensures same_bytes { IfOk result (λ h. bytes_of h ≡ bytes.old) }
        ensures same_reference { IfOk result (λ h. h.bytes.ghost_name ≡ bytes.entry.ghost_name) }
    {
        HeaderMut::check(bytes)?;
        Ok(HeaderMut::checked(bytes))
    }

    /// Checks whether these bytes begin with a header, as [`HeaderMut::new`] does and with its
    /// refusals, but does not keep them borrowed.
    pub fn check(bytes: &[u8]) -> Result<(), HeaderFault>
        ensures { result ≡ without_value (header_at bytes.now) }
    {
        check(bytes)
    }

    /// Checks as [`HeaderMut::check`] does, and returns the length of the header in bytes.
    pub fn check_len(bytes: &[u8]) -> Result<usize, HeaderFault>
        ensures exact { result ≡ len_at bytes.now }
        ensures begins { OnOk result (has_header bytes.now ≡ true) }
        ensures len { IfOk result (λ n. n ≡ header_len (header_at_front bytes.now)) }
        ensures within { IfOk result (λ n. n ≤ length bytes.now) }
    {
        check_len(bytes)
    }

    /// The header at the front of these bytes, after a check found one there.
    pub fn checked(bytes: &'a mut [u8]) -> HeaderMut<'a>
        requires { has_header bytes.old ≡ true }
        ensures same_bytes { bytes_of result ≡ bytes.old }
        ensures same_reference { result.bytes.ghost_name ≡ bytes.entry.ghost_name }
    {
        HeaderMut { bytes }
    }

    /// Does nothing; its contract tells the caller that the bytes begin with a header of the
    /// grammar.
    pub fn known(&self)
        ensures header { IsHeader (value_of self.now) }
        ensures long { header_len (value_of self.now) ≤ length (bytes_of self.now) }
        ensures spelled { let len = header_len (value_of self.now) in
            SpellsHeader (take len (bytes_of self.now)) (value_of self.now) }
    {
        begins(self.bytes);
    }

    /// The meta field.
    #[tactic(auto, using(crate::proofs::Seen::meta_shown))]
    fn meta(&self) -> Meta
        ensures { result ≡ meta_of (value_of self.now) }
    {
        self.known();
        meta_in(word_of(self.bytes))
    }

    /// The index of the current info field.
    pub fn curr_inf(&self) -> usize
        ensures value { result ≡ (value_of self.now).curr_inf }
        ensures below { result < length (value_of self.now).infos }
        ensures bound { result < 3 }
    {
        self.known();
        usize::from(self.meta().curr_inf)
    }

    /// The index of the current hop field.
    pub fn curr_hf(&self) -> usize
        ensures value { result ≡ (value_of self.now).curr_hf }
        ensures below { result < length (value_of self.now).hops }
        ensures bound { result < 64 }
    {
        self.known();
        usize::from(self.meta().curr_hf)
    }

    /// The number of hop fields of each segment.
    pub fn seg_lens(&self) -> SegLens
        ensures { result ≡ (value_of self.now).lens }
    {
        self.meta().lens
    }

    /// The number of info fields, 1 to 3.
    pub fn info_count(&self) -> usize
        ensures value { result ≡ length (value_of self.now).infos }
        ensures some { 0 < result }
        ensures bound { result ≤ 3 }
    {
        self.known();
        self.meta().lens.info_count()
    }

    /// The number of hop fields, 1 to 64.
    pub fn hop_count(&self) -> usize
        ensures value { result ≡ length (value_of self.now).hops }
        ensures some { 0 < result }
        ensures bound { result ≤ 64 }
    {
        self.known();
        self.meta().lens.hop_count()
    }

    /// The info field of this index.
    #[tactic(auto, using(crate::proofs::Seen::info_shown))]
    pub fn info(&self, index: usize) -> InfoField
        requires { index < length (value_of self.now).infos }
        ensures { slice_get (value_of self.now).infos index ≡ Some result }
    {
        self.known();
        let (_, rest) = self.bytes.split_at(META_LEN + INFO_LEN * index);
        info_in(rest)
    }

    /// The hop field of this index.
    #[tactic(auto, using(crate::proofs::Seen::hop_shown))]
    pub fn hop(&self, index: usize) -> HopField
        requires { index < length (value_of self.now).hops }
        ensures { slice_get (value_of self.now).hops index ≡ Some result }
    {
        self.known();
        let start = META_LEN + INFO_LEN * self.info_count() + HOP_LEN * index;
        let (_, rest) = self.bytes.split_at(start);
        hop_in(rest)
    }

    /// The info field at which the packet is.
    pub fn current_info(&self) -> InfoField
        ensures { slice_get (value_of self.now).infos (value_of self.now).curr_inf ≡ Some result }
    {
        self.info(self.curr_inf())
    }

    /// The hop field at which the packet is.
    pub fn current_hop(&self) -> HopField
        ensures { slice_get (value_of self.now).hops (value_of self.now).curr_hf ≡ Some result }
    {
        self.hop(self.curr_hf())
    }

    /// The index of the info field of the segment to which this hop field belongs.
    pub fn segment_of(&self, hop: usize) -> usize
        requires { hop < length (value_of self.now).hops }
        ensures value { result ≡ segment_at (value_of self.now).lens hop }
        ensures segment { IsInSegment (value_of self.now).lens hop result }
        ensures below { result < length (value_of self.now).infos }
    {
        self.known();
        self.seg_lens().segment_of(hop)
    }

    /// Sets the accumulator of this info field; only its two bytes change.
    pub fn set_seg_id(&mut self, info: usize, seg_id: u16)
        requires { info < length (value_of self.old).infos }
        ensures value { (x : InfoField) → slice_get (value_of self.old).infos info ≡ Some x
            → value_of self.new
            ≡ record (value_of self.old) {
              infos = slice_set (value_of self.old).infos info
                  (record x { seg_id = seg_id });
            } }
        ensures bytes { bytes_of self.new
            ≡ take (6 + 8 * info) (bytes_of self.old) ++
            (to_be_bytes w16 seg_id ++ drop (8 + 8 * info) (bytes_of self.old)) }
        ensures rest { rest_of self.new ≡ rest_of self.old }
        ensures same_reference { self.new.bytes.ghost_name ≡ self.old.bytes.ghost_name }
    {
        self.known();
        put(
            self.bytes,
            SEG_ID_START + INFO_LEN * info,
            &seg_id.to_be_bytes(),
        );
    }

    /// Sets the current info field and the current hop field; only the first byte changes.
    pub fn set_indices(&mut self, info: usize, hop: usize)
        requires info_below { info < length (value_of self.old).infos }
        requires hop_below { hop < length (value_of self.old).hops }
        ensures value { value_of self.new
            ≡ record (value_of self.old) { curr_inf = info; curr_hf = hop } }
        ensures bytes { bytes_of self.new ≡ slice_set (bytes_of self.old) 0 (64 * info + hop) }
        ensures rest { rest_of self.new ≡ rest_of self.old }
        ensures same_reference { self.new.bytes.ghost_name ≡ self.old.bytes.ghost_name }
    {
        self.known();
        self.bytes[0] = (64 * info + hop) as u8;
    }
}
