ghost use Rattle.std.specs.Prelude.{◌≡◌, ℕ, ◌<◌, ◌≤◌, ◌↔◌, IsTrue, true, length, slice_get, slice_set, Some, Ok, IfOk};
ghost use Rattle.path_header.specs.Value.{IsHeader, IsInSegment, header_len, lens_from, segment_at};
ghost use Rattle.path_header.specs.Building.{first_header, new_header};
ghost use Rattle.path_header.specs.Shown.{has_header, header_at_front};

use crate::borrowed::begins;
use crate::fault::HeaderFault;
use crate::fields::{HopField, InfoField};
use crate::lens::{HOP_LEN, INFO_LEN, MAX_HOPS, META_LEN, SegLens};
use crate::reading::{add_hops, infos_in, meta_in, word_of};
use arrayvec::ArrayVec;
use std::marker::Model;

/// The largest number of bytes of a path header, 796: 4 of the meta field, 8 for each of three info
/// fields, and 12 for each of 64 hop fields.
pub const MAX_HEADER_LEN: usize = META_LEN + 3 * INFO_LEN + MAX_HOPS * HOP_LEN;

/// A path header: the fields of one to three segments, and the place of the packet on the path.
///
/// Invariants of the type: the numbers of fields are those of the segment lengths, and both indices
/// point to a field.
#[derive(Clone, Debug, Drop, PartialEq, Eq)]
pub struct Header {
    pub(crate) curr_inf: u8,
    pub(crate) curr_hf: u8,
    pub(crate) lens: SegLens,
    pub(crate) infos: ArrayVec<InfoField, 3>,
    pub(crate) hops: ArrayVec<HopField, MAX_HOPS>,
}

impl Model for Header {
    ghost use Rattle.path_header.specs.Value.{HeaderValue, IsHeader};

    ghost Value = { HeaderValue };

    ghost view = { λ a. record {
      curr_inf = a.curr_inf;
      curr_hf = a.curr_hf;
      lens = a.lens;
      infos = a.infos.items;
      hops = a.hops.items;
    } };

    ghost invariant = { λ a. IsHeader
        (record {
          curr_inf = a.curr_inf;
          curr_hf = a.curr_hf;
          lens = a.lens;
          infos = a.infos.items;
          hops = a.hops.items;
        }) };

    ghost inverse = { λ v. record {
      curr_inf = v.curr_inf;
      curr_hf = v.curr_hf;
      lens = v.lens;
      infos = record { items = v.infos };
      hops = record { items = v.hops };
    } };
}

impl Header {
    /// The header of these segment lengths and fields, with the packet at the first info and hop
    /// field.
    ///
    /// The first of these refusals is returned: [`HeaderFault::SegLens`] if the first length is 0,
    /// a length that is not 0 follows a 0, or a length is above 63; [`HeaderFault::TooManyHops`] if
    /// their sum is above 64; [`HeaderFault::Short`] if there is not one info field for each length
    /// that is not 0, or the number of hop fields is not the sum of the lengths.
    pub fn new(lens: [u8; 3], infos: &[InfoField], hops: &[HopField]) -> Result<Header, HeaderFault>
        // The header that is returned has these lengths and fields.
        ensures found { IfOk result (λ h. h ≡ first_header (lens_from lens) infos.now hops.now) }
        // If these lengths and fields are a header, it is returned.
        ensures only { let header = first_header (lens_from lens) infos.now hops.now in
            IsHeader header → result ≡ Ok header }
        // The exact result, with its refusal.
        ensures exact { result ≡ new_header (lens_from lens) infos.now hops.now }
    {
        let [first, second, third] = lens;
        Header::build(
            SegLens {
                first,
                second,
                third,
            },
            infos,
            hops,
        )
    }

    /// The header at the front of these bytes, after a check found one there.
    pub fn checked(bytes: &[u8]) -> Header
        requires { has_header bytes.now ≡ true }
        ensures { result ≡ header_at_front bytes.now }
    {
        begins(bytes);
        let meta = meta_in(word_of(bytes));
        let info_count = meta.lens.info_count();
        let (_, after_meta) = bytes.split_at(META_LEN);
        let (_, after_infos) = bytes.split_at(META_LEN + INFO_LEN * info_count);
        let infos = infos_in(after_meta, info_count);
        let mut hops = ArrayVec::new();
        add_hops(&mut hops, after_infos, meta.lens.hop_count());
        Header {
            curr_inf: meta.curr_inf,
            curr_hf: meta.curr_hf,
            lens: meta.lens,
            infos,
            hops,
        }
    }

    /// The header of these lengths and as many fields, with the packet at the first info and hop
    /// field.
    fn at_start(
        lens: SegLens,
        infos: ArrayVec<InfoField, 3>,
        hops: ArrayVec<HopField, MAX_HOPS>,
    ) -> Header
        requires { IsHeader (first_header lens infos.items hops.items) }
        ensures { result ≡ first_header lens infos.items hops.items }
    {
        Header {
            curr_inf: 0,
            curr_hf: 0,
            lens,
            infos,
            hops,
        }
    }

    /// The header of these lengths and fields, or why there is none.
    fn build(lens: SegLens, infos: &[InfoField], hops: &[HopField]) -> Result<Header, HeaderFault>
        ensures { result ≡ new_header lens infos.now hops.now }
    {
        let lens = lens.checked()?;
        if infos.len() != lens.info_count() || hops.len() != lens.hop_count() {
            return Err(HeaderFault::Short);
        }
        let infos = ArrayVec::try_from(infos).unwrap();
        let hops = ArrayVec::try_from(hops).unwrap();
        Ok(Header::at_start(lens, infos, hops))
    }

    /// [`Header::new`] for lists that have the room of a header: they are moved, and not copied.
    /// The refusals and their order are the same.
    pub fn of_lists(
        lens: [u8; 3],
        infos: ArrayVec<InfoField, 3>,
        hops: ArrayVec<HopField, MAX_HOPS>,
    ) -> Result<Header, HeaderFault>
        ensures { result ≡ new_header (lens_from lens) infos.items hops.items }
    {
        let [first, second, third] = lens;
        let lens = SegLens {
            first,
            second,
            third,
        }
        .checked()?;
        if infos.len() != lens.info_count() || hops.len() != lens.hop_count() {
            return Err(HeaderFault::Short);
        }
        Ok(Header::at_start(lens, infos, hops))
    }

    /// The index of the current info field.
    pub fn curr_inf(&self) -> usize
        ensures value { result ≡ self.now.curr_inf }
        ensures below { result < length self.now.infos }
        ensures bound { result < 3 }
    {
        usize::from(self.curr_inf)
    }

    /// The index of the current hop field.
    pub fn curr_hf(&self) -> usize
        ensures value { result ≡ self.now.curr_hf }
        ensures below { result < length self.now.hops }
        ensures bound { result < 64 }
    {
        usize::from(self.curr_hf)
    }

    /// The number of hop fields of each segment.
    pub fn seg_lens(&self) -> SegLens
        ensures { result ≡ self.now.lens }
    {
        self.lens
    }

    /// The number of info fields, 1 to 3.
    pub fn info_count(&self) -> usize
        ensures value { result ≡ length self.now.infos }
        ensures some { 0 < result }
        ensures bound { result ≤ 3 }
    {
        self.infos.len()
    }

    /// The number of hop fields, 1 to 64.
    pub fn hop_count(&self) -> usize
        ensures value { result ≡ length self.now.hops }
        ensures some { 0 < result }
        ensures bound { result ≤ 64 }
    {
        self.hops.len()
    }

    /// The info field of this index.
    pub fn info(&self, index: usize) -> InfoField
        requires { index < length self.now.infos }
        ensures { slice_get self.now.infos index ≡ Some result }
    {
        self.infos[index]
    }

    /// The hop field of this index.
    pub fn hop(&self, index: usize) -> HopField
        requires { index < length self.now.hops }
        ensures { slice_get self.now.hops index ≡ Some result }
    {
        self.hops[index]
    }

    /// The info field at which the packet is.
    pub fn current_info(&self) -> InfoField
        ensures { slice_get self.now.infos self.now.curr_inf ≡ Some result }
    {
        self.infos[usize::from(self.curr_inf)]
    }

    /// The hop field at which the packet is.
    pub fn current_hop(&self) -> HopField
        ensures { slice_get self.now.hops self.now.curr_hf ≡ Some result }
    {
        self.hops[usize::from(self.curr_hf)]
    }

    /// The index of the info field of the segment to which this hop field belongs.
    pub fn segment_of(&self, hop: usize) -> usize
        requires { hop < length self.now.hops }
        ensures value { result ≡ segment_at self.now.lens hop }
        ensures segment { IsInSegment self.now.lens hop result }
        ensures below { result < length self.now.infos }
    {
        self.lens.segment_of(hop)
    }

    /// The length of this header in bytes, 4 + 8 for each info field + 12 for each hop field.
    pub fn encoded_len(&self) -> usize
        ensures value { result ≡ header_len self.now }
        ensures bound { result ≤ 796 }
    {
        self.lens.encoded_len()
    }

    /// Sets the accumulator of this info field, and nothing else.
    pub fn set_seg_id(&mut self, info: usize, seg_id: u16)
        requires { info < length self.old.infos }
        ensures { (x : InfoField) → slice_get self.old.infos info ≡ Some x → self.new
            ≡ record self.old {
              infos = slice_set self.old.infos info
                  (record x { seg_id = seg_id });
            } }
    {
        self.infos[info].seg_id = seg_id;
    }

    /// Sets the current info field and the current hop field, and nothing else.
    pub fn set_indices(&mut self, info: usize, hop: usize)
        requires info_below { info < length self.old.infos }
        requires hop_below { hop < length self.old.hops }
        ensures { self.new ≡ record self.old { curr_inf = info; curr_hf = hop } }
    {
        // The type's invariants bound both indices; reading a field makes them known here.
        let _ = &self.lens;
        self.curr_inf = info as u8;
        self.curr_hf = hop as u8;
    }

    /// Whether both headers have the same indices, lengths and fields. `==` gives the same answer.
    pub fn is_same(&self, other: &Header) -> bool
        ensures { IsTrue result ↔ (self.now ≡ other.now) }
    {
        self == other
    }

    /// Does nothing; its contract tells the caller that this is a header of the grammar.
    pub fn known(&self)
        ensures { IsHeader self.now }
    {
        // Reading a field makes the type's invariants known here.
        let _ = &self.lens;
    }
}
