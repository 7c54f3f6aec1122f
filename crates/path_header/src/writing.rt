ghost use Rattle.std.specs.Prelude.{◌≡◌, ◌+◌, ◌*◌, ◌≤◌, ◌↔◌, ◌++◌, length, take, drop, IsOk, IfOk, IfErr};
ghost use Rattle.std.specs.Int.{w32, to_be_bytes};
ghost use Rattle.std.specs.List.{flat_map, AllByRecursion};
ghost use Rattle.path_header.specs.Value.{header_len};
ghost use Rattle.path_header.specs.Spelling.{meta_of, meta_word, info_spelling, hop_spelling, InfoFits, HopFits, SpellsHeader};

use crate::fault::HeaderFault;
use crate::fields::{HopField, InfoField};
use crate::header::Header;
use crate::lens::{HOP_LEN, INFO_LEN, META_LEN};

/// Writes the encoding of this header to the front of the room, and returns its length in bytes.
///
/// The bytes after it stay as they were. [`HeaderFault::RoomTooSmall`] if the room has fewer than
/// [`Header::encoded_len`] bytes; the room stays as it was then.
pub fn encode(header: &Header, room: &mut [u8]) -> Result<usize, HeaderFault>
    ensures fits { IsOk result ↔ (header_len header.now ≤ length room.old) }
    ensures len { IfOk result (λ n. n ≡ header_len header.now) }
    ensures spelled { IfOk result (λ n. SpellsHeader (take n room.new) header.now) }
    ensures rest { IfOk result (λ n. drop n room.new ≡ drop n room.old) }
    ensures err { IfErr result (λ e. (e ≡ HeaderFault.RoomTooSmall) × (room.new ≡ room.old)) }
{
    let len = header.encoded_len();
    if room.len() < len {
        return Err(HeaderFault::RoomTooSmall);
    }
    put_header(room, header);
    Ok(len)
}

/// Writes the parts of this header to the front of the room, one after another.
fn put_header(room: &mut [u8], header: &Header)
    requires { header_len header.now ≤ length room.old }
    ensures spelled { SpellsHeader (take (header_len header.now) room.new) header.now }
    ensures rest { drop (header_len header.now) room.new ≡ drop (header_len header.now) room.old }
{
    put(room, 0, &meta_bytes(header));
    put_infos(room, META_LEN, &header.infos);
    put_hops(room, META_LEN + INFO_LEN * header.infos.len(), &header.hops);
}

/// Writes these bytes to this place of the room.
pub(crate) fn put(room: &mut [u8], at: usize, part: &[u8])
    requires { at + length part.now ≤ length room.old }
    ensures { room.new ≡ take at room.old ++ (part.now ++ drop (at + length part.now) room.old) }
{
    room[at..at + part.len()].copy_from_slice(part);
}

/// The bytes of this header's meta field.
fn meta_bytes(header: &Header) -> [u8; 4]
    ensures { result ≡ to_be_bytes w32 (meta_word (meta_of header.now)) }
{
    let indices = (u32::from(header.curr_inf) << 30) + (u32::from(header.curr_hf) << 24);
    let lens = (u32::from(header.lens.first) << 12)
        + (u32::from(header.lens.second) << 6)
        + u32::from(header.lens.third);
    (indices + lens).to_be_bytes()
}

/// The 8 bytes of an info field in a header.
pub fn info_bytes(info: &InfoField) -> [u8; 8]
    ensures text { result ≡ info_spelling info.now }
    ensures fits { InfoFits info.now }
{
    let id = info.seg_id.to_be_bytes();
    let time = info.timestamp.to_be_bytes();
    [
        u8::from(info.construction),
        0,
        id[0],
        id[1],
        time[0],
        time[1],
        time[2],
        time[3],
    ]
}

/// The 12 bytes of a hop field in a header.
pub fn hop_bytes(hop: HopField) -> [u8; 12]
    ensures text { result ≡ hop_spelling hop }
    ensures fits { HopFits hop }
{
    let ingress = hop.cons_ingress.number().to_be_bytes();
    let egress = hop.cons_egress.number().to_be_bytes();
    let mac = hop.mac;
    [
        0,
        hop.exp_time,
        ingress[0],
        ingress[1],
        egress[0],
        egress[1],
        mac[0],
        mac[1],
        mac[2],
        mac[3],
        mac[4],
        mac[5],
    ]
}

/// Writes the bytes of info fields to this place of the room.
fn put_infos(room: &mut [u8], at: usize, infos: &[InfoField])
    requires { at + 8 * length infos.now ≤ length room.old }
    ensures text { room.new
        ≡ take at room.old ++
        (flat_map info_spelling infos.now ++ drop (at + 8 * length infos.now) room.old) }
    ensures len { length (flat_map info_spelling infos.now) ≡ 8 * length infos.now }
    ensures fits { AllByRecursion InfoFits infos.now }
{
    for (i, info) in infos.iter().enumerate() {
        put(room, at + INFO_LEN * i, &info_bytes(info));
    }
}

/// Writes the bytes of hop fields to this place of the room.
fn put_hops(room: &mut [u8], at: usize, hops: &[HopField])
    requires { at + 12 * length hops.now ≤ length room.old }
    ensures text { room.new
        ≡ take at room.old ++
        (flat_map hop_spelling hops.now ++ drop (at + 12 * length hops.now) room.old) }
    ensures len { length (flat_map hop_spelling hops.now) ≡ 12 * length hops.now }
    ensures fits { AllByRecursion HopFits hops.now }
{
    for (i, hop) in hops.iter().enumerate() {
        put(room, at + HOP_LEN * i, &hop_bytes(*hop));
    }
}
