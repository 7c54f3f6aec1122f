use crate::lens::SegLens;

/// The meta field, the first four bytes of a path header.
#[derive(Clone, Copy, Debug, PartialEq, Eq)]
pub(crate) struct Meta {
    /// The index of the current info field.
    pub(crate) curr_inf: u8,
    /// The index of the current hop field.
    pub(crate) curr_hf: u8,
    /// The number of hop fields of each segment.
    pub(crate) lens: SegLens,
}
