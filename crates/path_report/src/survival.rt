//! How many links may be lost before there is no path.

ghost use Rattle.std.specs.Prelude.{◌≡◌, ◌∷◌, ◌++◌, [], ◌<◌, ◌≤◌, false, true, length, take, IfNone, IfOk, IfSome};
ghost use Rattle.path_report.specs.inner.Cuts.{CanCut, CannotCut, DoSurvive, IsFirstUnmet, are_met, crosses_at, is_met};

use crate::open_walk::OpenWalk;
use std::alloc::{AllocError, Global};

/// The most lost links that are looked at.
pub(crate) const MAX_LOST: usize = 3;

/// Whether a walk crosses the link at a place.
pub(crate) fn crosses_at(walk: &OpenWalk<'_>, place: usize) -> bool
    ensures { result ≡ crosses_at place walk.now }
{
    walk.places.contains(&place)
}

/// Whether a walk crosses one of the links at these places.
fn is_met(walk: &OpenWalk<'_>, lost: &[usize]) -> bool
    ensures { result ≡ is_met lost.now walk.now }
{
    lost.iter().any(|place| crosses_at(walk, *place))
}

/// The place of the first walk that crosses none of the links at these places; all before `from`
/// cross one.
fn first_unmet(walks: &[OpenWalk<'_>], from: usize, lost: &[usize]) -> Option<usize>
    requires within { from ≤ length walks.now }
    requires met { are_met lost.now (take from walks.now) ≡ true }
    ensures none { IfNone result (are_met lost.now walks.now ≡ true) }
    ensures some { IfSome result (IsFirstUnmet lost.now walks.now) }
{
    let mut place = from;
    while place < walks.len() {
        if !is_met(&walks[place], lost) {
            return Some(place);
        }
        place += 1;
    }
    None
}

/// These places and one more.
fn with_place(alloc: Global, lost: &[usize], place: usize) -> Result<Vec<usize>, AllocError>
    ensures { IfOk result (λ longer. longer.items ≡ lost.now ++ place ∷ []) }
{
    let mut longer = Vec::from_slice(alloc, lost)?;
    longer.push(place)?;
    Ok(longer)
}

/// Whether the links at these places and at most `more` others can be chosen so that each walk
/// crosses one of them; all before `from` cross one of these. One of the others has to be of the
/// first walk that crosses none: so it takes the time of the walks behind for each of h others of a
/// walk of h links, `more` times over.
fn can_cut(
    alloc: Global,
    walks: &[OpenWalk<'_>],
    from: usize,
    lost: &[usize],
    more: usize,
) -> Result<bool, AllocError>
    requires within { from ≤ length walks.now }
    requires met { are_met lost.now (take from walks.now) ≡ true }
    ensures yes { IfOk result (λ is. is ≡ true → CanCut walks.now lost.now more) }
    ensures no { IfOk result (λ is. is ≡ false → CannotCut walks.now lost.now more) }
{
    let Some(unmet) = first_unmet(walks, from, lost) else {
        return Ok(true);
    };
    let walk = &walks[unmet];
    if more == 0 {
        return Ok(false);
    }
    for place in &walk.places {
        let longer = with_place(alloc, lost, *place)?;
        let is_cut = can_cut(alloc, walks, unmet, &longer, more - 1)?;
        if is_cut {
            return Ok(true);
        }
    }
    Ok(false)
}

/// The most links, up to [`MAX_LOST`], whose loss always leaves one of the walks.
pub(crate) fn losses_survived(alloc: Global, walks: &[OpenWalk<'_>]) -> Result<usize, AllocError>
    requires { 0 < length walks.now }
    ensures { IfOk result (DoSurvive walks.now) }
{
    let mut survived = 0;
    while survived < MAX_LOST {
        let is_cut = can_cut(alloc, walks, 0, &[], survived + 1)?;
        if is_cut {
            return Ok(survived);
        }
        survived += 1;
    }
    Ok(MAX_LOST)
}
