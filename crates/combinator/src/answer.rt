ghost use Rattle.std.specs.Prelude.{◌≡◌, ◌↔◌, [], length, map, All, option_map, slice_get, IfOk, IsTrue, OnOk};
ghost use Rattle.path_verifier.specs.Accepted.{Request};
ghost use Rattle.combinator.specs.Candidate.{AreSpelled, IsCandidate, path_with, question_of};
ghost use Rattle.combinator.specs.Answer.{IsAnswer};
ghost use Rattle.combinator.specs.inner.Over.{MaySearch};

use crate::combiner::Combiner;
use crate::found::Found;
use crate::groups::Groups;
use crate::request::PathRequest;
use crate::search::first_paths;
use isd_as::IsdAs;
use path_server::SegmentSet;
use path_verifier::VerifiedPath;
use policy_expr::Policy;
use std::alloc::{AllocError, Allocator, Global};
use std::marker::Model;

/// Paths that may be sent, in the order of an answer. They borrow the segments of which they are
/// made.
#[derive(Drop)]
pub struct Paths<'s, 'p, A: Allocator + Clone> {
    pub(crate) found: Vec<VerifiedPath<'s, 'p, A>>,
}

impl<'s, 'p, A: Allocator + Clone> Model for Paths<'s, 'p, A> {
    ghost use Rattle.std.specs.Prelude.{List, map};
    ghost use Rattle.path_verifier.specs.Accepted.{Request};
    ghost use Rattle.combinator.specs.Candidate.{PathValue, path_with};

    ghost Value = { List PathValue };

    ghost view = { λ p. map (λ (path : Request). path_with path.pieces path.header) p.found.items };
}

impl<'s, 'p, A: Allocator + Clone> Paths<'s, 'p, A> {
    /// No paths.
    pub(crate) fn none(alloc: Global) -> Paths<'s, 'p, A>
        ensures { result ≡ [] }
    {
        Paths {
            found: Vec::new(alloc),
        }
    }

    /// The number of paths.
    pub fn len(&self) -> usize
        ensures { result ≡ length self.now }
    {
        self.found.len()
    }

    /// Whether there is no path.
    pub fn is_empty(&self) -> bool
        ensures { IsTrue result ↔ (self.now ≡ []) }
    {
        self.found.is_empty()
    }

    /// The path at this place, from 0.
    pub fn get(&self, place: usize) -> Option<&VerifiedPath<'s, 'p, A>>
        ensures { option_map (λ path. record {
          pieces = path.now.pieces;
          header = path.now.header;
        }) result ≡ slice_get self.now place }
    {
        self.found.get(place)
    }
}

/// The paths from `src` to `dst` that can be made of the segments of a set and may be sent at the
/// set's second under a policy. For each walk there is one path: the one that expires last, and
/// among those the one with the smallest header bytes. The paths are ordered by number of hop
/// fields, header bytes and walk, and the first `limit` of them are returned.
///
/// What it costs: a segment to `src` or `dst` gives at most 62 usable pieces, those with that AS at
/// their end, and a core segment gives two. Pieces that put the same hops into a walk are one
/// group. With P pieces of h hops, which are at most 63, making and sorting pieces and groups takes
/// about P (h + log P) steps. With g groups there are at most g + g² + g³ lists of groups; those
/// that meet are tried, up, core and down in this order, but for those that surely come behind
/// `limit` known paths. Each of them takes a look at the pieces of its groups; one whose best path
/// may be among the first also h steps of the verifier and what the policy takes; and one that is
/// allowed also h steps for each group that begins where a hop of its walk does and leaves it by
/// the walk's way. Paths are made for the answer alone. The memory is that of P pieces of 80 bytes,
/// g groups of 40, and `limit` paths of some 2,300 bytes each.
///
/// [`AllocError`] if memory runs out.
pub fn paths_between<'s, 'p, A: Allocator + Clone>(
    alloc: Global,
    set: &'s SegmentSet,
    src: IsdAs,
    dst: IsdAs,
    policy: &'p Policy<A>,
    limit: usize,
) -> Result<Paths<'s, 'p, A>, AllocError>
    ensures answer { IfOk result
        (IsAnswer (question_of set.entry.now src dst policy.entry.now) limit) }
    // The header of each path that may be sent is one of the grammar.
    ensures spelled { OnOk result
        (AreSpelled (question_of set.entry.now src dst policy.entry.now)) }
{
    let combiner = Combiner::of(alloc, set, src, dst)?;
    combiner.paths(alloc, policy, limit)
}

/// The answer to a question, of these groups.
pub(crate) fn answer<'a, 's, 'p, A: Allocator + Clone>(
    alloc: Global,
    ask: &PathRequest<'s, 'p, A>,
    groups: &Groups<'a, 's>,
    limit: usize,
) -> Result<Paths<'s, 'p, A>, AllocError>
    requires search { MaySearch ask.now groups.now }
    ensures answer { IfOk result (IsAnswer ask.now limit) }
    ensures spelled { OnOk result (AreSpelled ask.now) }
{
    let first = first_paths(alloc, &*ask, groups, limit)?;
    Ok(Paths {
        found: verified_paths(alloc, ask, &first)?,
    })
}

/// The paths that were found, each of which may be sent.
fn verified_paths<'s, 'p, A: Allocator + Clone>(
    alloc: Global,
    ask: &PathRequest<'s, 'p, A>,
    found: &[Found<'_, 's>],
) -> Result<Vec<VerifiedPath<'s, 'p, A>>, AllocError>
    requires { All (IsCandidate ask.now) found.now }
    ensures { IfOk result (λ paths. map (λ (path : Request). path_with path.pieces path.header)
        paths.items ≡ found.now) }
{
    let mut paths = Vec::with_capacity(alloc, found.len())?;
    for path in found {
        paths.push(ask.verified(path))?;
    }
    Ok(paths)
}
