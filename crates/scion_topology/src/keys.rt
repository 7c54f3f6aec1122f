ghost use Rattle.std.specs.Prelude.{◌≡◌, true, IfOk, Some, None, slice_get};
ghost use Rattle.std.specs.List.{list_any};
ghost use Rattle.std.specs.Option.{option_copied};
ghost use Rattle.std.specs.Str.{bytes_eq};
ghost use Rattle.hop_mac.specs.Hop.{authenticator};
ghost use Rattle.scion_topology.specs.Keys.{accepted_keys, is_key, key_from, key_in_use, keys_of, renewed_keys};

use crate::fault::TopologyFault;
use arrayvec::ArrayVec;
use hop_mac::{HopInput, MacKey};
use std::marker::Model;
use std::mem;

/// The largest number of bytes of a key.
pub const MAX_KEY_LEN: usize = 64;

/// A key of an AS, of 1 to 64 bytes. In clauses its value is its bytes.
///
/// It also holds the hash states of the key, so that each authenticator costs two compressions.
#[derive(Drop)]
pub struct Key {
    bytes: ArrayVec<u8, MAX_KEY_LEN>,
    ready: MacKey,
}

impl Model for Key {
    ghost use Rattle.std.specs.Prelude.{◌≡◌, ℕ, List, true};
    ghost use Rattle.hop_mac.specs.Hmac.{padded_key};
    ghost use Rattle.scion_topology.specs.Keys.{is_key};

    ghost Value = { List ℕ };

    ghost view = { λ k. k.bytes.items };

    ghost invariant = { λ k. (k.ready ≡ padded_key k.bytes.items) × (is_key k.bytes.items ≡ true) };
}

impl Key {
    /// The key of these bytes: [`TopologyFault::BadField`] if there are none or more than 64.
    #[tactic(auto, unfolding(crate::specs::Keys::key_from))]
    pub fn new(bytes: &[u8]) -> Result<Key, TopologyFault>
        ensures value { result ≡ key_from bytes.now }
        ensures fits { IfOk result (λ key. is_key key ≡ true) }
    {
        if bytes.is_empty() {
            return Err(TopologyFault::BadField);
        }
        let Ok(kept) = ArrayVec::try_from(bytes) else {
            return Err(TopologyFault::BadField);
        };
        Ok(Key {
            bytes: kept,
            ready: MacKey::new(bytes),
        })
    }

    /// Its bytes.
    pub(crate) fn bytes(&self) -> &[u8]
        ensures { result.now ≡ self.now }
    {
        &self.bytes
    }

    /// The authenticator of a hop under this key.
    // Inlined, as `RouterView::authenticates`.
    #[inline(always)]
    pub fn hop_mac(&self, hop: &HopInput) -> [u8; 6]
        ensures { result
            ≡ authenticator self.now hop.now.beta hop.now.timestamp hop.now.exp_time
            hop.now.cons_ingress hop.now.cons_egress }
    {
        self.ready.hop_mac(hop)
    }
}

/// The keys that an AS accepts: the key in use, and the one before it if there is one. In clauses
/// the value is the list of them, the key in use first.
#[derive(Drop)]
pub struct Keys {
    current: Key,
    previous: Option<Key>,
}

impl Model for Keys {
    ghost use Rattle.std.specs.Prelude.{ℕ, List};
    ghost use Rattle.scion_topology.specs.Keys.{accepted_keys};

    ghost Value = { List (List ℕ) };

    ghost view = { λ k. accepted_keys k.current k.previous };
}

impl Keys {
    /// The keys of an AS, from the key in use and the one before it: [`TopologyFault::BadField`] if
    /// either is empty or has more than 64 bytes.
    #[tactic(auto, unfolding(crate::specs::Keys::keys_of, crate::specs::Keys::key_from))]
    pub fn new(key: &[u8], previous: Option<&[u8]>) -> Result<Keys, TopologyFault>
        ensures { result ≡ keys_of key.now (option_copied previous.entry) }
    {
        let current = Key::new(key)?;
        let previous = match previous {
            Some(bytes) => Some(Key::new(bytes)?),
            None => None,
        };
        Ok(Keys { current, previous })
    }

    /// An AS's first key.
    pub(crate) fn first(key: Key) -> Keys
        ensures { result ≡ accepted_keys key None }
    {
        Keys {
            current: key,
            previous: None,
        }
    }

    /// The key in use, under which the AS makes authenticators.
    pub fn in_use(&self) -> &Key
        ensures value { result.now ≡ key_in_use self.now }
        ensures first { slice_get self.now 0 ≡ Some result.now }
    {
        &self.current
    }

    /// The key that was in use before, if there is one.
    pub fn before(&self) -> Option<&Key>
        ensures { option_copied result ≡ slice_get self.now 1 }
    {
        self.previous.as_ref()
    }

    /// Takes another key into use. The key in use until now becomes the one before, and the older
    /// one is dropped.
    pub(crate) fn renew(&mut self, key: Key)
        ensures { self.new ≡ renewed_keys key self.old }
    {
        self.previous = Some(mem::replace(&mut self.current, key));
    }

    /// Whether `mac` is the authenticator of this hop under one of the keys. The key before is
    /// tried only if the key in use does not fit.
    // Inlined, as `RouterView::authenticates`.
    #[inline(always)]
    pub(crate) fn authenticate(&self, mac: &[u8; 6], hop: &HopInput) -> bool
        ensures { result ≡ list_any (λ key. bytes_eq mac.now
            (authenticator key hop.now.beta hop.now.timestamp hop.now.exp_time
            hop.now.cons_ingress hop.now.cons_egress)) self.now }
    {
        if *mac == self.current.hop_mac(hop) {
            return true;
        }
        match &self.previous {
            Some(key) => *mac == key.hop_mac(hop),
            None => false,
        }
    }
}
