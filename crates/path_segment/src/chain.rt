ghost use Rattle.std.specs.Prelude.{◌≡◌, ◌+◌, ◌<◌, ◌++◌, ◌∷◌, [], length, IfOk, IsTrue, ◌↔◌, All};
ghost use Rattle.hop_mac.specs.Lifetime.{IsLive};
ghost use Rattle.path_segment.specs.Chain.{beta_over, IsLeastExpiry};

use crate::entry::Entry;
use hop_mac::{expiry, hop_is_live, next_beta};
use std::alloc::{AllocError, Global};

/// The accumulator after these entries, if it is `beta0` before them.
pub(crate) fn beta_after_all(beta0: u16, entries: &[Entry]) -> u16
    ensures { result ≡ beta_over beta0 entries.now }
{
    let mut beta = beta0;
    for entry in entries {
        beta = next_beta(beta, &entry.mac);
    }
    beta
}

/// The earliest expiry of these entries, in half seconds.
pub(crate) fn least_expiry_of(timestamp: u32, entries: &[Entry]) -> u64
    requires { 0 < length entries.now }
    ensures { IsLeastExpiry timestamp entries.now result }
{
    let expiries = entries
        .iter()
        .map(|entry| expiry(timestamp, entry.exp_time));
    expiries.min().unwrap()
}

/// Whether every entry is live at the second `now`.
pub(crate) fn are_live(timestamp: u32, entries: &[Entry], now: u32) -> bool
    ensures { IsTrue result ↔ All (λ entry. IsLive timestamp entry.exp_time now) entries.now }
{
    entries
        .iter()
        .all(|entry| hop_is_live(timestamp, entry.exp_time, now))
}

/// A copy of these entries.
pub(crate) fn clone_entries(alloc: Global, entries: &[Entry]) -> Result<Vec<Entry>, AllocError>
    ensures { IfOk result (λ copy. copy.items ≡ entries.now) }
{
    let mut copy = Vec::with_capacity(alloc, entries.len())?;
    copy.extend_from_slice(entries)?;
    Ok(copy)
}

/// A copy of these entries with one more at the end.
pub(crate) fn with_one_more(
    alloc: Global,
    entries: &[Entry],
    last: &Entry,
) -> Result<Vec<Entry>, AllocError>
    ensures { IfOk result (λ more. more.items ≡ entries.now ++ last.now ∷ []) }
{
    let mut more = Vec::with_capacity(alloc, entries.len() + 1)?;
    more.extend_from_slice(entries)?;
    more.push(*last)?;
    Ok(more)
}

/// Whether both are the same entries in the same order.
pub(crate) fn are_same(entries: &[Entry], others: &[Entry]) -> bool
    ensures { IsTrue result ↔ (entries.now ≡ others.now) }
{
    entries == others
}
