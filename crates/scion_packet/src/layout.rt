//! Where the fields of the headers in front of the path header stand.

/// The length of the common header; behind it begins the address header.
pub(crate) const COMMON_LEN: usize = 12;

/// The place of the hosts' addresses, behind those of the ASes.
pub(crate) const HOSTS_START: usize = 28;

/// The place of the next header's number.
pub(crate) const NEXT_HEADER: usize = 4;

/// The place of the length of all headers, in units of [`LENGTH_UNIT`].
pub(crate) const HEADER_LENGTH: usize = 5;

/// The place of the first of two bytes with the payload's length.
pub(crate) const PAYLOAD_LENGTH: usize = 6;

/// The place of the path's type.
pub(crate) const PATH_TYPE: usize = 8;

/// The place of the types and lengths of both hosts' addresses.
pub(crate) const HOST_TYPES: usize = 9;

/// The place of the first of two reserved bytes.
pub(crate) const RESERVED: usize = 10;

/// The unit of lengths in bytes: that of all headers, and those of the hosts' addresses.
pub(crate) const LENGTH_UNIT: usize = 4;

/// The type of a SCION path.
pub(crate) const SCION_PATH: u8 = 1;

/// The number of bits of a flow's number.
pub(crate) const FLOW_BITS: u32 = 20;

/// The largest number of bytes in a payload.
pub(crate) const MAX_PAYLOAD: usize = 65_535;
