/// The kind of a piece of a path.
#[derive(Clone, Copy, Debug, PartialEq, Eq)]
pub enum PieceKind {
    /// A piece of an intra segment, travelled up to the core: against construction direction.
    Up,
    /// A piece of a core segment, in either direction.
    Core,
    /// A piece of an intra segment, travelled down from the core: in construction direction.
    Down,
}
