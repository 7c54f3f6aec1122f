//! The account of a pass. Its types occur only in contracts: the code makes no value of them, and
//! their numbers have no largest value.

use std::collections::LinkedList;

/// A share of the knowledge about an inbox: some pieces of a whole that was halved a number of
/// times.
pub(crate) struct Share {
    pieces: u64,
    halvings: u64,
}

/// The tally of a pass: its share, and the values that were put in and taken out with it.
pub(crate) struct Tally<T> {
    share: Share,
    put: LinkedList<T>,
    taken: LinkedList<T>,
}

/// The roles of a pass: whether it is that of the first sender, of the second one, or of the
/// receiver, and the values that were put in and taken out in these roles.
pub(crate) struct Roles<T> {
    one: bool,
    two: bool,
    takes: bool,
    first: LinkedList<T>,
    second: LinkedList<T>,
    taken: LinkedList<T>,
}

/// The account of a pass: its tally and its roles.
pub(crate) struct Account<T> {
    tally: Tally<T>,
    roles: Roles<T>,
}
