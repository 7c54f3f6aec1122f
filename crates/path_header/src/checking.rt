//! Checks whether bytes begin with a path header, without building lists of its fields.

ghost use Rattle.std.specs.Prelude.{◌≡◌, ◌*◌, ◌≤◌, length, IfOk};
ghost use Rattle.path_header.specs.Reading.{info_at, hop_at, fields_at, header_at};
ghost use Rattle.path_header.specs.Shown.{without_value, len_at};

use crate::fault::HeaderFault;
use crate::lens::{HOP_LEN, INFO_LEN, META_LEN};
use crate::reading::{check_hop, check_info, meta_of};

/// Checks `count` info fields, one after another.
fn check_infos(bytes: &[u8], count: usize) -> Result<(), HeaderFault>
    requires few { count ≤ 3 }
    requires long { 8 * count ≤ length bytes.now }
    ensures { result ≡ without_value (fields_at info_at 8 count bytes.now) }
{
    for i in 0..count {
        let (_, rest) = bytes.split_at(INFO_LEN * i);
        check_info(rest)?;
    }
    Ok(())
}

/// Checks `count` hop fields, one after another.
// Not inlined: among the values of its callers the loop runs out of registers.
#[inline(never)]
fn check_hops(bytes: &[u8], count: usize) -> Result<(), HeaderFault>
    requires few { count ≤ 64 }
    requires long { 12 * count ≤ length bytes.now }
    ensures { result ≡ without_value (fields_at hop_at 12 count bytes.now) }
{
    for i in 0..count {
        let (_, rest) = bytes.split_at(HOP_LEN * i);
        check_hop(rest)?;
    }
    Ok(())
}

/// Checks whether the bytes begin with a path header, with the refusals of [`crate::decode`], and
/// returns the length of the header.
// Inlined: out of line a turn of a router takes 26 instructions more where two calls check headers.
#[inline(always)]
#[tactic(auto, unfolding(crate::specs::Reading::header_at))]
pub(crate) fn check_len(bytes: &[u8]) -> Result<usize, HeaderFault>
    ensures exact { result ≡ len_at bytes.now }
    ensures within { IfOk result (λ n. n ≤ length bytes.now) }
{
    let meta = meta_of(bytes)?;
    let info_count = meta.lens.info_count();
    let hop_count = meta.lens.hop_count();
    let (_, after_meta) = bytes.split_at(META_LEN);
    check_infos(after_meta, info_count)?;
    let (_, after_infos) = bytes.split_at(META_LEN + INFO_LEN * info_count);
    check_hops(after_infos, hop_count)?;
    if usize::from(meta.curr_inf) >= info_count || usize::from(meta.curr_hf) >= hop_count {
        return Err(HeaderFault::BadIndex);
    }
    Ok(meta.lens.encoded_len())
}

/// Checks whether the bytes begin with a path header, with the refusals of [`crate::decode`].
#[tactic(auto, unfolding(crate::specs::Reading::header_at))]
pub(crate) fn check(bytes: &[u8]) -> Result<(), HeaderFault>
    ensures { result ≡ without_value (header_at bytes.now) }
{
    check_len(bytes)?;
    Ok(())
}
