ghost use Rattle.std.specs.Prelude.{◌≡◌, ◌≤◌, length};
ghost use Rattle.hop_mac.specs.Hop.{input_of, authenticator, beta_after};

use crate::key::MacKey;

/// What the authenticator of a hop is computed from, beside the key of its AS.
#[derive(Clone, Copy, Debug, PartialEq, Eq)]
pub struct HopInput {
    /// The accumulator with which the hop is authenticated.
    pub beta: u16,
    /// When the segment was made, in seconds since 1970.
    pub timestamp: u32,
    /// How long the hop is live from then on: 337.5 seconds times `exp_time` + 1.
    pub exp_time: u8,
    /// The interface to the AS before this one, in construction direction.
    pub cons_ingress: u16,
    /// The interface to the AS after this one, in construction direction.
    pub cons_egress: u16,
}

impl HopInput {
    /// The 16 bytes over which the authenticator is computed, as [`mac_input`] returns them.
    #[inline(always)]
    pub fn bytes(&self) -> [u8; 16]
        ensures { result
            ≡ input_of self.now.beta self.now.timestamp self.now.exp_time self.now.cons_ingress
            self.now.cons_egress }
    {
        let [b0, b1] = self.beta.to_be_bytes();
        let [t0, t1, t2, t3] = self.timestamp.to_be_bytes();
        let exp_time = self.exp_time;
        let [i0, i1] = self.cons_ingress.to_be_bytes();
        let [e0, e1] = self.cons_egress.to_be_bytes();
        [
            0, 0, b0, b1, t0, t1, t2, t3, 0, exp_time, i0, i1, e0, e1, 0, 0,
        ]
    }
}

/// The 16 bytes over which a hop's authenticator is computed: the accumulator `beta`, the
/// timestamp of the segment, and the hop's expiry and interfaces as its AS made them.
pub fn mac_input(
    beta: u16,
    timestamp: u32,
    exp_time: u8,
    cons_ingress: u16,
    cons_egress: u16,
) -> [u8; 16]
    ensures { result ≡ input_of beta timestamp exp_time cons_ingress cons_egress }
{
    HopInput {
        beta,
        timestamp,
        exp_time,
        cons_ingress,
        cons_egress,
    }
    .bytes()
}

/// The authenticator of a hop under a key of at most 64 bytes: the first 6 bytes of HMAC-SHA-256
/// of [`mac_input`].
///
/// For values that are one already, and for a key that is used more than once, see
/// [`MacKey::hop_mac`].
pub fn hop_mac(
    key: &[u8],
    beta: u16,
    timestamp: u32,
    exp_time: u8,
    cons_ingress: u16,
    cons_egress: u16,
) -> [u8; 6]
    requires { length key.now ≤ 64 }
    ensures { result ≡ authenticator key.now beta timestamp exp_time cons_ingress cons_egress }
{
    let input = HopInput {
        beta,
        timestamp,
        exp_time,
        cons_ingress,
        cons_egress,
    };
    MacKey::new(key).hop_mac(&input)
}

/// The accumulator after a hop with this authenticator: `beta`, exclusive or the first two bytes of
/// the authenticator.
///
/// The same step also leads back from the accumulator after a hop to the one before it.
pub fn next_beta(beta: u16, mac: &[u8; 6]) -> u16
    ensures { result ≡ beta_after beta mac.now }
{
    beta ^ u16::from_be_bytes([mac[0], mac[1]])
}
