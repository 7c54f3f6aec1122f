use isd_as::IfId;

/// The kind of a link, seen from one of its ends: what the AS at the far end is to this one.
#[derive(Clone, Copy, Debug, PartialEq, Eq)]
pub enum LinkKind {
    /// Another core AS.
    Core,
    /// A parent of this AS.
    Parent,
    /// A child of this AS.
    Child,
}

/// An interface of an AS.
#[derive(Clone, Copy, Debug, PartialEq, Eq)]
pub struct IfEntry {
    /// Its number.
    pub number: IfId,
    /// The kind of its link, seen from this AS.
    pub kind: LinkKind,
    /// The number of the router that owns this interface.
    pub router: u8,
    /// Whether the link is up.
    pub up: bool,
}
