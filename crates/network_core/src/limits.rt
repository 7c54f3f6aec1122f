//! The limits of a network.

/// The largest number of beacons, of answers, and of packets.
pub const MAX_OBJECTS: usize = 1_000_000;

/// The largest number of bytes of a payload.
pub const MAX_PAYLOAD_LEN: usize = 1024;
