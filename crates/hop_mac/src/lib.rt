//! The authenticator of a hop, its chain from hop to hop, and the time at which a hop expires.
//!
//! An AS authenticates its hop under a key of its own. The authenticator is the first 6 bytes of
//! HMAC-SHA-256 over 16 bytes, which hold the hop's values and an accumulator. The accumulator of
//! the next hop is that of this hop, exclusive or the first two bytes of its authenticator. So the
//! hops of a segment are chained, and can't be taken apart and joined anew. No call takes memory.
#![tactic(auto)]

mod hmac;
mod hop;
mod key;
pub mod laws;
mod lifetime;

pub use hmac::hmac_sha256;
pub use hop::{HopInput, hop_mac, mac_input, next_beta};
pub use key::MacKey;
pub use lifetime::{expiry, hop_is_live};
