use path_server::MAX_ALIKE;

/// The most segments of one kind between the same two ASes.
pub const MAX_PER_PAIR: usize = MAX_ALIKE;

/// Which segments a beaconing makes, and when.
#[derive(Clone, Copy)]
pub struct BeaconingOptions {
    /// How many beacons of one origin an AS ends and passes on: the first that reach it, shorter
    /// ones first. More than [`MAX_PER_PAIR`] count as that many.
    pub per_pair: usize,
    /// The most entries of a core segment.
    pub core_len: usize,
    /// The second at which all beacons are begun.
    pub now: u32,
}
