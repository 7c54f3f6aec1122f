//! Keeps paths in the order of an answer, up to its limit.

ghost use Rattle.std.specs.Prelude.{◌≡◌, ◌≤◌, length, All, IfSome, IfNone, IsTrue, OnOk};
ghost use Rattle.combinator.specs.Candidate.{Question, PathValue};
ghost use Rattle.combinator.specs.Order.{path_cmp};
ghost use Rattle.combinator.specs.Answer.{IsBest};
ghost use Rattle.combinator.specs.inner.Placed.{Tied, InOrder, IsGap, Met};

use crate::found::Found;
use std::alloc::AllocError;
use std::cmp::Ordering;

/// Adds a path to those in order; at most `limit` are kept. A path that comes behind these, or is
/// among them, is not added.
pub(crate) fn take_in<'a, 's>(
    ordered: &mut Vec<Found<'a, 's>>,
    found: Found<'a, 's>,
    limit: usize,
) -> Result<(), AllocError>
    requires order { InOrder path_cmp ordered.old.items }
    requires few { length ordered.old.items ≤ limit }
    ensures order { OnOk result (InOrder path_cmp ordered.new.items) }
    ensures few { OnOk result (length ordered.new.items ≤ limit) }
    ensures met { OnOk result (Met path_cmp limit ordered.new.items found.entry) }
    ensures others { OnOk result ((path : PathValue) → Met path_cmp limit ordered.old.items path
        → Met path_cmp limit ordered.new.items path) }
    ensures best { OnOk result ((question : Question) → All (IsBest question) ordered.old.items
        → IsBest question found.entry → All (IsBest question) ordered.new.items) }
{
    let Some(place) = place_in(ordered, &found) else {
        return Ok(());
    };
    if place >= limit {
        return Ok(());
    }
    ordered.insert(place, found)?;
    ordered.truncate(limit);
    Ok(())
}

/// Whether a path is among those in order, or these are `limit` paths that come before it.
pub(crate) fn is_met(ordered: &[Found<'_, '_>], found: &Found<'_, '_>, limit: usize) -> bool
    requires order { InOrder path_cmp ordered.now }
    requires few { length ordered.now ≤ limit }
    ensures { IsTrue result → Met path_cmp limit ordered.now found.now }
{
    match place_in(ordered, found) {
        Some(place) => place >= limit,
        None => true,
    }
}

/// The place where a path belongs, or nothing if a path with the same header and walk is there.
fn place_in(ordered: &[Found<'_, '_>], found: &Found<'_, '_>) -> Option<usize>
    requires { InOrder path_cmp ordered.now }
    ensures tied { IfNone result (Tied path_cmp found.now ordered.now) }
    ensures within { IfSome result (λ place. place ≤ length ordered.now) }
    ensures gap { IfSome result (IsGap path_cmp found.now ordered.now) }
{
    let mut low = 0;
    let mut high = ordered.len();
    while low < high {
        let middle = low + (high - low) / 2;
        match ordered[middle].compare(found) {
            Ordering::Less => low = middle + 1,
            Ordering::Equal => return None,
            Ordering::Greater => high = middle,
        }
    }
    Some(low)
}
