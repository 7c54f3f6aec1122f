//! Laws of hop authenticators: each is the contract of a function that does nothing.

ghost use Rattle.std.specs.Prelude.{◌≡◌, ℕ, List, ◌<◌, ◌^◌, length};
ghost use Rattle.hop_mac.specs.Hmac.{padded_key};
ghost use Rattle.hop_mac.specs.Hop.{beta_after};

/// A key of one whole block needs no padding.
pub fn key_of_a_block_is_itself()
    ensures { (block : List ℕ) → length block ≡ 64 → padded_key block ≡ block }
{}

/// The step of the chain undoes itself: with the same authenticator it leads from the accumulator
/// after a hop back to the one before it.
pub fn step_undone()
    ensures { (beta : ℕ) (mac : List ℕ) → beta_after (beta_after beta mac) mac ≡ beta }
{}
