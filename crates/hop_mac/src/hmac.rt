ghost use Rattle.std.specs.Prelude.{◌≡◌, ◌≤◌, length};
ghost use Rattle.hop_mac.specs.Hmac.{hmac};

use crate::key::MacKey;

/// HMAC-SHA-256 of a text under a key of at most 64 bytes (RFC 2104).
///
/// For a key that is used more than once, a [`MacKey`] is faster.
pub fn hmac_sha256(key: &[u8], text: &[u8]) -> [u8; 32]
    requires { length key.now ≤ 64 }
    ensures { result ≡ hmac key.now text.now }
{
    MacKey::new(key).mac(text)
}
