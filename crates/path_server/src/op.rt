use path_segment::Segment;

/// An operation on a store, with the second at which it happens.
#[derive(Debug, Drop)]
pub enum StoreOp {
    /// Stores the segment, unless the store refuses it.
    Register(Segment, u32),
    /// Removes the segments that are not live.
    Sweep(u32),
}
