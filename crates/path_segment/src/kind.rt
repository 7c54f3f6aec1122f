/// The kind of links that a segment follows.
#[derive(Clone, Copy, Debug, PartialEq, Eq)]
pub enum SegKind {
    /// Links between core ASes.
    Core,
    /// Links from a core AS down to its children, within one ISD.
    Intra,
}
