ghost use Rattle.std.specs.Prelude.{◌≡◌, IfOk};

use crate::lookup::clone_segments;
use path_segment::Segment;
use std::alloc::{AllocError, Global};
use std::marker::Model;

/// The segments that a lookup found for a source and a destination: copies of the live segments of
/// which paths between them can be made, each list in the order of registration.
#[derive(Debug, Drop)]
pub struct SegmentSet {
    pub(crate) ups: Vec<Segment>,
    pub(crate) cores: Vec<Segment>,
    pub(crate) downs: Vec<Segment>,
    pub(crate) moment: u32,
}

impl Model for SegmentSet {
    ghost use Rattle.path_server.specs.Lookup.{Selection};

    ghost Value = { Selection };

    ghost view = { λ s. record {
      ups = s.ups.items;
      cores = s.cores.items;
      downs = s.downs.items;
      moment = s.moment;
    } };
}

impl SegmentSet {
    /// The intra segments that end in the source.
    pub fn ups(&self) -> &[Segment]
        ensures { result.now ≡ self.now.ups }
    {
        &self.ups
    }

    /// The core segments with one end on the side of the source and the other end on the side of
    /// the destination, in either direction. A side is its AS and the ASes in which [`Self::ups`],
    /// or [`Self::downs`], begin.
    pub fn cores(&self) -> &[Segment]
        ensures { result.now ≡ self.now.cores }
    {
        &self.cores
    }

    /// The intra segments that end in the destination.
    pub fn downs(&self) -> &[Segment]
        ensures { result.now ≡ self.now.downs }
    {
        &self.downs
    }

    /// The second for which the segments were looked up.
    pub fn now(&self) -> u32
        ensures { result ≡ self.now.moment }
    {
        self.moment
    }

    /// A copy of this set, unless memory runs out.
    pub fn try_clone(&self, alloc: Global) -> Result<SegmentSet, AllocError>
        ensures { IfOk result (λ set. set ≡ self.now) }
    {
        Ok(SegmentSet {
            ups: clone_segments(alloc, &self.ups)?,
            cores: clone_segments(alloc, &self.cores)?,
            downs: clone_segments(alloc, &self.downs)?,
            moment: self.moment,
        })
    }
}
