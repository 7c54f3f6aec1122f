//! What a whole packet says, as records of C.

/// The address of a host.
#[repr(C)]
#[derive(Clone, Copy)]
pub struct ScionHost {
    /// Its type, 0 to 3: 0 for IPv4 and IPv6, 1 for a service.
    pub kind: u8,
    /// The number of its bytes: 4, 8, 12 or 16.
    pub len: u8,
    /// Its bytes, and others behind them.
    pub bytes: [u8; 16],
}

/// What a whole packet says besides its path and its payload.
#[repr(C)]
#[derive(Clone, Copy)]
pub struct ScionPacketInfo {
    /// The address of the destination AS.
    pub destination: u64,
    /// The address of the source AS.
    pub source: u64,
    /// The flow, below 2^20.
    pub flow_id: u32,
    /// Two reserved bytes, as a number.
    pub reserved: u16,
    /// Where the path header begins; it is not looked at where a packet is written.
    pub path_start: u16,
    /// The traffic class.
    pub traffic_class: u8,
    /// The number of the protocol with which the payload begins.
    pub next_header: u8,
    /// The address of the destination host.
    pub destination_host: ScionHost,
    /// The address of the source host.
    pub source_host: ScionHost,
}
