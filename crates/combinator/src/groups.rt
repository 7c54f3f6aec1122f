//! All groups of a request.

ghost use Rattle.std.specs.Prelude.{◌≡◌, ◌<◌, ◌≤◌, length, filter, take, All, IfOk, OnOk, Some, slice_get};
ghost use Rattle.std.specs.List.{AllWithin};
ghost use Rattle.std.specs.List.Sorted.{IsNonDecreasingBy, IsPermutation};
ghost use Rattle.path_verifier.specs.Piece.{PieceValue};
ghost use Rattle.combinator.specs.inner.Alike.{AreAlike};
ghost use Rattle.combinator.specs.inner.Group.{begins_with, group_begins};
ghost use Rattle.combinator.specs.inner.Over.{AreGroupsOf};

use crate::group::Group;
use crate::usable_piece::UsablePiece;
use isd_as::IsdAs;
use std::alloc::{AllocError, Global};
use std::marker::Model;

/// The groups of a request's usable pieces, sorted by the ASes in which they begin.
#[derive(Drop)]
pub(crate) struct Groups<'a, 's> {
    sorted: Vec<Group<'a, 's>>,
}

impl<'a, 's> Model for Groups<'a, 's> {
    ghost use Rattle.std.specs.Prelude.{List};
    ghost use Rattle.std.specs.List.Sorted.{IsNonDecreasingBy, IsPermutation};
    ghost use Rattle.combinator.specs.inner.Group.{GroupValue, group_begins};

    ghost Value = { List GroupValue };

    ghost view = { λ g. g.sorted.items };

    ghost invariant = { λ g. IsNonDecreasingBy group_begins g.sorted.items };
}

impl<'a, 's> Groups<'a, 's> {
    /// The groups of these pieces, in the order in which a search for the first paths takes them.
    pub(crate) fn of(
        alloc: Global,
        pieces: &'a [UsablePiece<'s>],
    ) -> Result<Groups<'a, 's>, AllocError>
        ensures { IfOk result (λ groups. AreGroupsOf groups pieces.entry.now) }
    {
        let mut sorted = groups_of(alloc, pieces)?;
        put_in_order(&mut sorted);
        Ok(Groups { sorted })
    }

    /// The groups of these pieces, in an order in which walks are met nearly in order.
    pub(crate) fn in_walk_order(
        alloc: Global,
        pieces: &'a [UsablePiece<'s>],
    ) -> Result<Groups<'a, 's>, AllocError>
        ensures { IfOk result (λ groups. AreGroupsOf groups pieces.entry.now) }
    {
        let mut sorted = groups_of(alloc, pieces)?;
        put_in_walk_order(&mut sorted)?;
        Ok(Groups { sorted })
    }

    /// The groups that begin in this AS, in the order in which the search takes them.
    pub(crate) fn groups_from(&self, at: IsdAs) -> &[Group<'a, 's>]
        ensures { result.now ≡ filter (begins_with at) self.now }
    {
        part_from(&self.sorted, at)
    }
}

/// The groups of these pieces: those that are alike and stand side by side.
fn groups_of<'a, 's>(
    alloc: Global,
    pieces: &'a [UsablePiece<'s>],
) -> Result<Vec<Group<'a, 's>>, AllocError>
    ensures { IfOk result (λ groups. AreGroupsOf groups.items pieces.entry.now) }
{
    let mut groups = Vec::new(alloc);
    let mut start = 0;
    while start < pieces.len() {
        let rest = &pieces[start..];
        let count = count_alike(rest);
        groups.push(Group::of(&rest[0], &rest[..count]))?;
        start += count;
    }
    Ok(groups)
}

/// The number of pieces from the first one on that are like the first one.
fn count_alike(pieces: &[UsablePiece<'_>]) -> usize
    requires { 0 < length pieces.now }
    ensures some { 0 < result }
    ensures within { result ≤ length pieces.now }
    ensures alike { (head : PieceValue) → slice_get pieces.now 0 ≡ Some head
        → All (AreAlike head) (take result pieces.now) }
{
    let head = &pieces[0];
    let mut count = 1;
    while count < pieces.len() && head.is_alike(&pieces[count]) {
        count += 1;
    }
    count
}

/// Puts groups in the order in which the search takes them: by the ASes in which they begin, and of
/// one AS those first with which paths are short. The search ends early if it meets the first paths
/// early.
fn put_in_order(groups: &mut Vec<Group<'_, '_>>)
    ensures same { IsPermutation groups.old.items groups.new.items }
    ensures sorted { IsNonDecreasingBy group_begins groups.new.items }
{
    groups.sort_unstable_by(|one, other| one.compare(other));
}

/// Puts groups in the order of the ASes in which they begin, and those of one AS in the order of
/// their hops.
fn put_in_walk_order(groups: &mut Vec<Group<'_, '_>>) -> Result<(), AllocError>
    ensures same { IsPermutation groups.old.items groups.new.items }
    ensures sorted { OnOk result (IsNonDecreasingBy group_begins groups.new.items) }
{
    groups.sort_by_cached_key(|group| group.walk_key())?;
    groups.sort_by(|one, other| one.compare_begins(other))
}

/// The part of sorted groups that begin in this AS.
fn part_from<'g, 'a, 's>(groups: &'g [Group<'a, 's>], at: IsdAs) -> &'g [Group<'a, 's>]
    requires { IsNonDecreasingBy group_begins groups.now }
    ensures { result.now ≡ filter (begins_with at) groups.now }
{
    let (_, rest) = groups.split_at(count_below(groups, at));
    &rest[..count_to(rest, at)]
}

/// The number of groups that begin in ASes below this one.
fn count_below(groups: &[Group<'_, '_>], at: IsdAs) -> usize
    requires { IsNonDecreasingBy group_begins groups.now }
    ensures within { result ≤ length groups.now }
    ensures below { AllWithin (λ group. group_begins group < at) groups.now 0 result }
    ensures rest { AllWithin (λ group. at ≤ group_begins group) groups.now result
        (length groups.now) }
{
    groups.partition_point(|group| group.begins().number() < at.number())
}

/// The number of groups that begin in this AS or in ASes below it.
fn count_to(groups: &[Group<'_, '_>], at: IsdAs) -> usize
    requires { IsNonDecreasingBy group_begins groups.now }
    ensures within { result ≤ length groups.now }
    ensures below { AllWithin (λ group. group_begins group ≤ at) groups.now 0 result }
    ensures rest { AllWithin (λ group. at < group_begins group) groups.now result
        (length groups.now) }
{
    groups.partition_point(|group| group.begins().number() <= at.number())
}
