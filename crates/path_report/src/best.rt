//! The best open path.

ghost use Rattle.std.specs.Prelude.{IfOk};
ghost use Rattle.path_report.specs.Paths.{open_paths};
ghost use Rattle.path_report.specs.Pair.{TellsFirst, TellsPath};

use crate::open_walk::is_open;
use combinator::Paths;
use path_verifier::VerifiedPath;
use scion_topology::Topology;
use std::alloc::{AllocError, Global};

/// What is said of a path.
#[derive(Clone, Copy)]
pub(crate) struct BestPath {
    /// The number of its hops.
    pub(crate) hops: usize,
    /// The last second at which all of its hops are live.
    pub(crate) last: u64,
}

/// What is said of a path.
fn best_path(path: &VerifiedPath<'_, '_, Global>) -> BestPath
    ensures { TellsPath path.entry.now.pieces result }
{
    BestPath {
        hops: path.walk().len(),
        last: path.expiry() / 2,
    }
}

/// What is said of the first path whose links are all up, if there is one.
pub(crate) fn first_open(
    alloc: Global,
    topology: &Topology,
    paths: &Paths<'_, '_, Global>,
) -> Result<Option<BestPath>, AllocError>
    ensures { IfOk result (TellsFirst (open_paths topology.now.links paths.now)) }
{
    for place in 0..paths.len() {
        let path = paths.get(place).unwrap();
        let is_up = is_open(alloc, topology, path.walk())?;
        if is_up {
            return Ok(Some(best_path(path)));
        }
    }
    Ok(None)
}
