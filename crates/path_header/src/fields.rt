ghost use Rattle.std.specs.Prelude.{◌≡◌, replicate};

use isd_as::IfId;

/// The info field of a segment in a path header.
#[derive(Clone, Copy, Debug, Default, PartialEq, Eq)]
pub struct InfoField {
    /// Whether the path follows the segment in the direction in which it was made (the flag C).
    pub construction: bool,
    /// The accumulator of the segment's authenticators at the current hop (SegID).
    pub seg_id: u16,
    /// When the segment was made, in seconds since 1970.
    pub timestamp: u32,
}

/// The hop field of an AS in a path header.
///
/// A path in construction direction enters the AS by `cons_ingress` and leaves it by `cons_egress`;
/// a path against it enters by `cons_egress` and leaves by `cons_ingress`.
#[derive(Clone, Copy, Debug, PartialEq, Eq)]
pub struct HopField {
    /// How long this hop is live, from the segment's timestamp on: 337.5 seconds times `exp_time` +
    /// 1, so a day for 255.
    pub exp_time: u8,
    /// The interface to the AS before this one, in construction direction.
    pub cons_ingress: IfId,
    /// The interface to the AS after this one, in construction direction.
    pub cons_egress: IfId,
    /// The authenticator by which the AS recognizes this hop as its own.
    pub mac: [u8; 6],
}

/// A hop field of zeros, which means no hop.
impl Default for HopField {
    ghost is_default = { λ x. x
        ≡ record { exp_time = 0; cons_ingress = 0; cons_egress = 0; mac = replicate 6 0 } };

    fn default() -> HopField {
        HopField {
            exp_time: 0,
            cons_ingress: IfId::NONE,
            cons_egress: IfId::NONE,
            mac: [0; 6],
        }
    }
}
