ghost use Rattle.std.specs.Prelude.{◌≡◌, ◌↔◌, ◌≤◌, [], length, map, option_map, slice_get, IfOk, IsOk, IsTrue};
ghost use Rattle.path_verifier.specs.Walk.{walk_of};
ghost use Rattle.path_verifier.specs.Accepted.{Request};
ghost use Rattle.combinator.specs.Candidate.{MaySend, path_with};

use crate::choice::Choice;
use path_header::Header;
use path_verifier::{OwnedPiece, Pieces, VerifiedPath, lend_all, to_owned_pieces};
use policy_expr::WalkHop;
use std::alloc::{AllocError, Allocator, Global};
use std::marker::Model;

/// A path that owns its parts: its pieces with their segments, its header and its walk. An
/// invariant of the type says that the verifier's rules accept it at some second and under some
/// policy.
#[derive(Drop)]
pub struct Path {
    pieces: Vec<OwnedPiece>,
    header: Header,
    walk: Vec<WalkHop>,
}

impl Model for Path {
    ghost use Rattle.std.specs.Prelude.{◌≡◌};
    ghost use Rattle.path_verifier.specs.Walk.{walk_of};
    ghost use Rattle.combinator.specs.Candidate.{PathValue, path_with, MaySend};

    ghost Value = { PathValue };

    ghost view = { λ p. path_with p.pieces.items p.header };

    ghost invariant = { λ p. MaySend (path_with p.pieces.items p.header)
        × (p.walk.items ≡ walk_of p.pieces.items) };
}

impl Path {
    /// A path of copies of these pieces, of this header and of the pieces' walk, unless memory runs
    /// out.
    pub fn new(
        alloc: Global,
        pieces: &Pieces<'_>,
        header: &Header,
        walk: &[WalkHop],
    ) -> Result<Path, AllocError>
        requires sent { MaySend (path_with pieces.now header.now) }
        requires walk { walk.now ≡ walk_of pieces.now }
        ensures { IfOk result (λ own. own ≡ path_with pieces.now header.now) }
    {
        Ok(Path {
            pieces: to_owned_pieces(alloc, pieces)?,
            header: header.clone()?,
            walk: Vec::from_slice(alloc, walk)?,
        })
    }

    /// The pieces, in order of travel.
    pub fn pieces(&self) -> &[OwnedPiece]
        ensures value { result.now ≡ self.now.pieces }
        ensures few { length result.now ≤ 3 }
    {
        &self.pieces
    }

    /// The header of a packet that is sent on it.
    pub fn header(&self) -> &Header
        ensures { result.now ≡ self.now.header }
    {
        &self.header
    }

    /// The walk: its hops in order of travel, at most 64.
    pub fn walk(&self) -> &[WalkHop]
        ensures { result.now ≡ walk_of self.now.pieces }
    {
        &self.walk
    }

    /// Does nothing; its contract tells the caller that the path may be sent.
    pub fn known(&self)
        ensures { MaySend self.now }
    {
        // Reading a field makes the type's invariants known here.
        let _ = &self.pieces;
    }

    /// A copy of this path, unless memory runs out.
    pub fn try_clone(&self, alloc: Global) -> Result<Path, AllocError>
        ensures { IfOk result (λ own. own ≡ self.now) }
    {
        Path::new(alloc, &lend_all(&self.pieces), &self.header, &self.walk)
    }
}

/// The answer to a request: the paths in their order, and which policy option was used.
#[derive(Drop)]
pub struct PathList {
    option: Option<usize>,
    paths: Vec<Path>,
}

impl Model for PathList {
    ghost use Rattle.combinator.specs.Answer.{AnswerValue};

    ghost Value = { AnswerValue };

    ghost view = { λ l. record { used = l.option; paths = l.paths.items } };
}

impl PathList {
    /// An answer of these paths, in this order, and of the place of the used policy option.
    pub fn new(option: Option<usize>, paths: Vec<Path>) -> PathList
        ensures { result ≡ record { used = option; paths = paths.items } }
    {
        PathList { option, paths }
    }

    /// Copies of the chosen paths, unless memory runs out.
    pub(crate) fn of<A: Allocator + Clone>(
        alloc: Global,
        choice: &Choice<'_, '_, A>,
    ) -> Result<PathList, AllocError>
        ensures used { IfOk result (λ list. list.used ≡ choice.now.used) }
        ensures paths { IfOk result (λ list. list.paths ≡ choice.now.paths) }
    {
        let paths = own_paths(alloc, &choice.paths().found)?;
        Ok(PathList::new(choice.option(), paths))
    }

    /// The number of paths.
    pub fn len(&self) -> usize
        ensures { result ≡ length self.now.paths }
    {
        self.paths.len()
    }

    /// Whether there is no path.
    pub fn is_empty(&self) -> bool
        ensures { IsTrue result ↔ (self.now.paths ≡ []) }
    {
        self.paths.is_empty()
    }

    /// The paths, in their order.
    pub fn paths(&self) -> &[Path]
        ensures { result.now ≡ self.now.paths }
    {
        &self.paths
    }

    /// The path at this place, from 0.
    pub fn get(&self, place: usize) -> Option<&Path>
        ensures { option_map (λ path. path.now) result ≡ slice_get self.now.paths place }
    {
        self.paths.get(place)
    }

    /// The place of the used policy option in the list of options, or `None` if no option leaves a
    /// path.
    pub fn option(&self) -> Option<usize>
        ensures { result ≡ self.now.used }
    {
        self.option
    }

    /// A copy of this answer, unless memory runs out; an answer without paths takes none.
    pub fn try_clone(&self, alloc: Global) -> Result<PathList, AllocError>
        ensures same { IfOk result (λ own. own ≡ self.now) }
        ensures empty { self.now.paths ≡ [] → IsOk result }
    {
        let mut paths = Vec::with_capacity(alloc, self.paths.len())?;
        for path in &self.paths {
            paths.push(path.try_clone(alloc)?)?;
        }
        Ok(PathList::new(self.option, paths))
    }
}

/// Copies of these paths, unless memory runs out.
fn own_paths<A: Allocator + Clone>(
    alloc: Global,
    paths: &[VerifiedPath<'_, '_, A>],
) -> Result<Vec<Path>, AllocError>
    ensures { IfOk result (λ own. own.items
        ≡ map (λ (path : Request). path_with path.pieces path.header) paths.now) }
{
    let mut own = Vec::with_capacity(alloc, paths.len())?;
    for path in paths {
        own.push(own_path(alloc, path)?)?;
    }
    Ok(own)
}

/// A copy of a path, unless memory runs out.
fn own_path<A: Allocator + Clone>(
    alloc: Global,
    path: &VerifiedPath<'_, '_, A>,
) -> Result<Path, AllocError>
    ensures { IfOk result (λ own. own ≡ path_with path.entry.now.pieces path.entry.now.header) }
{
    path.known();
    Path::new(alloc, path.pieces(), path.header(), path.walk())
}
