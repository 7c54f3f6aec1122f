ghost use Rattle.std.specs.Prelude.{◌≡◌, ℕ, ◌+◌, ◌*◌, ◌<◌, ◌≤◌, nat_lt, List, [], ◌++◌, length, take, Result, Ok, IfOk};
ghost use Rattle.path_header.specs.Value.{HeaderValue, AreLens, header_len, len_for};
ghost use Rattle.path_header.specs.Spelling.{SpellsHeader};
ghost use Rattle.path_header.specs.Reading.{word_at, reserved_bits, meta_from, meta_at, info_from, info_at, hop_from, hop_at, fields_at, read_at};
ghost use Rattle.refusal.specs.Refusal.{Gives};

use crate::borrowed::HeaderMut;
use crate::fault::HeaderFault;
use crate::fields::{HopField, InfoField};
use crate::header::Header;
use crate::lens::{HOP_LEN, INFO_LEN, MAX_HOPS, SegLens};
use crate::meta::Meta;
use arrayvec::ArrayVec;
use isd_as::IfId;

/// The path header at the front of these bytes, and its length in bytes.
///
/// Bytes after the header have no effect. The first of these refusals is returned:
/// [`HeaderFault::Short`] if there are fewer than 4 bytes; [`HeaderFault::Reserved`] if a reserved
/// bit of the meta field is set; [`HeaderFault::SegLens`] if the first length is 0 or a length that
/// is not 0 follows a 0; [`HeaderFault::TooManyHops`] if their sum is above 64; `Short` if the
/// bytes are fewer than the fields need; for each info field in order [`HeaderFault::PeerFlag`] if
/// its flag P is set, and `Reserved`; for each hop field in order [`HeaderFault::AlertFlag`] if its
/// flag I or E is set, and `Reserved`; [`HeaderFault::BadIndex`] if the current info or hop field
/// does not exist.
pub fn decode(bytes: &[u8]) -> Result<(Header, usize), HeaderFault>
    // The bytes up to the returned length are the spelling of the returned header.
    ensures found { IfOk result
        (λ r. (r.1 ≤ length bytes.now) × SpellsHeader (take r.1 bytes.now) r.0) }
    ensures len { IfOk result (λ r. r.1 ≡ header_len r.0) }
    // If the bytes begin with the spelling of a header, it is returned, whatever follows.
    ensures only { (v : HeaderValue) (text rest : List ℕ) → SpellsHeader text v
        → bytes.now ≡ text ++ rest
        → result ≡ Ok (v, header_len v) }
    // The exact result, with its refusal.
    ensures exact { result ≡ read_at bytes.now }
{
    let len = HeaderMut::check_len(bytes)?;
    Ok((Header::checked(bytes), len))
}

/// The number in the first four bytes.
pub(crate) fn word_of(bytes: &[u8]) -> u32
    requires { 4 ≤ length bytes.now }
    ensures { result ≡ word_at bytes.now }
{
    u32::from_be_bytes([bytes[0], bytes[1], bytes[2], bytes[3]])
}

/// Whether one of the six reserved bits of the meta field is set.
fn has_reserved(word: u32) -> bool
    ensures { result ≡ nat_lt 0 (reserved_bits word) }
{
    (word >> 18) % 64 > 0
}

/// The meta field as its number of 32 bits encodes it.
pub(crate) fn meta_in(word: u32) -> Meta
    ensures { result ≡ meta_from word }
{
    Meta {
        curr_inf: (word >> 30) as u8,
        curr_hf: ((word >> 24) % 64) as u8,
        lens: SegLens {
            first: ((word >> 12) % 64) as u8,
            second: ((word >> 6) % 64) as u8,
            third: (word % 64) as u8,
        },
    }
}

/// The meta field, if the bytes are long enough for the header that it begins.
#[tactic(auto, unfolding(crate::specs::Reading::meta_at))]
pub(crate) fn meta_of(bytes: &[u8]) -> Result<Meta, HeaderFault>
    ensures exact { result ≡ meta_at bytes.now }
    ensures lens { IfOk result (λ m. AreLens m.lens) }
    ensures long { IfOk result (λ m. len_for m.lens ≤ length bytes.now) }
{
    if bytes.len() < 4 {
        return Err(HeaderFault::Short);
    }
    let word = word_of(bytes);
    if has_reserved(word) {
        return Err(HeaderFault::Reserved);
    }
    let meta = meta_in(word);
    let lens = meta.lens.checked()?;
    if bytes.len() < lens.encoded_len() {
        return Err(HeaderFault::Short);
    }
    Ok(meta)
}

/// Checks that in the info field at the front no bit but the flag C is set in its first two bytes.
#[tactic(auto, unfolding(crate::specs::Reading::info_at))]
pub(crate) fn check_info(bytes: &[u8]) -> Result<(), HeaderFault>
    requires { 8 ≤ length bytes.now }
    ensures { Gives (λ _. info_from bytes.now) result (info_at bytes.now) }
{
    let flags = bytes[0];
    if flags & 2 > 0 {
        return Err(HeaderFault::PeerFlag);
    }
    if flags > 1 || bytes[1] > 0 {
        return Err(HeaderFault::Reserved);
    }
    Ok(())
}

/// The values in the info field at the front.
pub(crate) fn info_in(bytes: &[u8]) -> InfoField
    requires { 8 ≤ length bytes.now }
    ensures { result ≡ info_from bytes.now }
{
    InfoField {
        construction: bytes[0] == 1,
        seg_id: u16::from_be_bytes([bytes[2], bytes[3]]),
        timestamp: u32::from_be_bytes([bytes[4], bytes[5], bytes[6], bytes[7]]),
    }
}

/// Checks that in the hop field at the front no flag and no reserved bit is set.
#[tactic(auto, unfolding(crate::specs::Reading::hop_at))]
pub(crate) fn check_hop(bytes: &[u8]) -> Result<(), HeaderFault>
    requires { 12 ≤ length bytes.now }
    ensures { Gives (λ _. hop_from bytes.now) result (hop_at bytes.now) }
{
    let flags = bytes[0];
    if flags & 3 > 0 {
        return Err(HeaderFault::AlertFlag);
    }
    if flags > 0 {
        return Err(HeaderFault::Reserved);
    }
    Ok(())
}

/// The values in the hop field at the front.
pub(crate) fn hop_in(bytes: &[u8]) -> HopField
    requires { 12 ≤ length bytes.now }
    ensures { result ≡ hop_from bytes.now }
{
    HopField {
        exp_time: bytes[1],
        cons_ingress: IfId(u16::from_be_bytes([bytes[2], bytes[3]])),
        cons_egress: IfId(u16::from_be_bytes([bytes[4], bytes[5]])),
        mac: [bytes[6], bytes[7], bytes[8], bytes[9], bytes[10], bytes[11]],
    }
}

/// `count` info fields, one after another, which a check has passed.
pub(crate) fn infos_in(bytes: &[u8], count: usize) -> ArrayVec<InfoField, 3>
    requires few { count ≤ 3 }
    requires long { 8 * count ≤ length bytes.now }
    ensures len { length result.items ≡ count }
    ensures read { (infos : List InfoField) → fields_at info_at 8 count bytes.now ≡ Ok infos
        → result.items ≡ infos }
{
    let mut infos = ArrayVec::new();
    for i in 0..count {
        let (_, rest) = bytes.split_at(INFO_LEN * i);
        infos.push(info_in(rest));
    }
    infos
}

/// Adds `count` hop fields, one after another, which a check has passed, to an empty list.
// A list that it returned would be moved twice more; inlined, its loop runs out of registers.
#[inline(never)]
pub(crate) fn add_hops(hops: &mut ArrayVec<HopField, MAX_HOPS>, bytes: &[u8], count: usize)
    requires empty { hops.old.items ≡ [] }
    requires few { count ≤ 64 }
    requires long { 12 * count ≤ length bytes.now }
    ensures len { length hops.new.items ≡ count }
    ensures read { (all : List HopField) → fields_at hop_at 12 count bytes.now ≡ Ok all
        → hops.new.items ≡ all }
{
    for i in 0..count {
        let (_, rest) = bytes.split_at(HOP_LEN * i);
        hops.push(hop_in(rest));
    }
}
