ghost use Rattle.std.specs.Prelude.{◌≡◌, ⊤, ℕ, List, ◌≤◌, ◌++◌, length, map, take, drop, replicate};
ghost use Rattle.sha2.specs.Hashers.{Holds256};
ghost use Rattle.sha2.specs.Sha256.{sha256};
ghost use Rattle.hop_mac.specs.Hmac.{hmac_under, masked_bytes, padded_key};
ghost use Rattle.hop_mac.specs.Hop.{authenticator_under};

use crate::hop::HopInput;
use sha2::{Digest, Sha256};
use std::alloc::AllocError;
use std::marker::Model;

const BLOCK_LEN: usize = 64;

const INNER_MASK: u8 = 0x36;

const OUTER_MASK: u8 = 0x5c;

/// A key prepared for HMAC-SHA-256: the two hash states after the padded and masked key, so that a
/// short text costs two compressions instead of four.
///
/// In clauses its value is the 64 bytes of the padded key.
#[derive(Drop)]
pub struct MacKey {
    block: [u8; 64],
    inner: Sha256,
    outer: Sha256,
}

impl Model for MacKey {
    ghost use Rattle.std.specs.Prelude.{ℕ, List};
    ghost use Rattle.sha2.specs.Hashers.{Holds256};
    ghost use Rattle.hop_mac.specs.Hmac.{masked_bytes};

    ghost Value = { List ℕ };

    ghost view = { λ key. key.block };

    ghost invariant = { λ key. Holds256 key.inner (masked_bytes 0x36 key.block)
        × Holds256 key.outer (masked_bytes 0x5c key.block) };
}

impl Clone for MacKey {
    ghost is_clone = { λ key other. other ≡ key };

    ghost is_infallible = { λ _. ⊤ };

    /// A copy of this key; it takes no memory and never fails.
    fn clone(&self) -> Result<MacKey, AllocError> {
        Ok(MacKey {
            block: self.block,
            inner: self.inner.clone()?,
            outer: self.outer.clone()?,
        })
    }
}

impl MacKey {
    /// The key of these bytes, at most 64.
    pub fn new(key: &[u8]) -> MacKey
        requires { length key.now ≤ 64 }
        ensures { result ≡ padded_key key.now }
    {
        let block = padded_block(key);
        let mut inner = Sha256::new();
        inner.update(masked_block(&block, INNER_MASK).as_slice());
        let mut outer = Sha256::new();
        outer.update(masked_block(&block, OUTER_MASK).as_slice());
        MacKey {
            block,
            inner,
            outer,
        }
    }

    /// HMAC-SHA-256 of a text under this key.
    pub fn mac(&self, text: &[u8]) -> [u8; 32]
        ensures { result ≡ hmac_under self.now text.now }
    {
        let inner = digest_behind(&self.inner, text);
        digest_behind(&self.outer, inner.as_slice())
    }

    /// The authenticator of a hop under this key, as [`hop_mac`](crate::hop_mac) returns it.
    #[inline(always)]
    pub fn hop_mac(&self, hop: &HopInput) -> [u8; 6]
        ensures { result
            ≡ authenticator_under self.now hop.now.beta hop.now.timestamp hop.now.exp_time
            hop.now.cons_ingress hop.now.cons_egress }
    {
        self.authenticator_of(&hop.bytes())
    }

    /// The authenticator of the 16 bytes of a hop. Its code is made once, for a text whose length
    /// is known, so that no router pays for copies between two functions.
    #[inline(never)]
    fn authenticator_of(&self, input: &[u8; 16]) -> [u8; 6]
        ensures { result ≡ take 6 (hmac_under self.now input.now) }
    {
        first_six(&self.mac(input.as_slice()))
    }
}

/// The first 6 bytes of a code.
fn first_six(code: &[u8; 32]) -> [u8; 6]
    ensures { result ≡ take 6 code.now }
{
    [code[0], code[1], code[2], code[3], code[4], code[5]]
}

/// The digest of a message that goes on with this text behind what the hash state holds.
#[inline(always)]
fn digest_behind(state: &Sha256, text: &[u8]) -> [u8; 32]
    ensures { (front : List ℕ) → Holds256 state.now front → result ≡ sha256 (front ++ text.now) }
{
    let mut hasher = state.clone().unwrap();
    hasher.update(text);
    hasher.finalize()
}

/// The key, filled up with zeros to a block of 64 bytes.
fn padded_block(key: &[u8]) -> [u8; 64]
    requires { length key.now ≤ 64 }
    ensures { result ≡ padded_key key.now }
{
    let mut block = [0u8; BLOCK_LEN];
    block[..key.len()].copy_from_slice(key);
    block
}

/// Each byte of a block combined with the mask by exclusive or.
fn masked_block(block: &[u8; 64], mask: u8) -> [u8; 64]
    ensures { result ≡ masked_bytes mask block.now }
{
    let mut masked = *block;
    for byte in masked.iter_mut() {
        *byte ^= mask;
    }
    masked
}
