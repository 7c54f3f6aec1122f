//! An edition of a board. It occurs only in contracts: the code makes no value of it.

use path_server::StoreOp;

/// The state of what is published after one publishing step: the number of the edition, and all
/// operations published with it. The opening edition has number 0 and no operations. In contracts
/// the array is a list of any length, and the number has no largest value.
pub struct Edition {
    number: u64,
    operations: [StoreOp; 0],
}
