ghost use Rattle.std.specs.Prelude.{◌≡◌, ◌↔◌, IsTrue};
ghost use Rattle.hop_mac.specs.Lifetime.{expiry_of, IsLive, is_live_at};

/// The half second at which a hop expires: `exp_time` + 1 times 337.5 seconds after the timestamp
/// of its segment, which is in seconds.
pub fn expiry(timestamp: u32, exp_time: u8) -> u64
    ensures { result ≡ expiry_of timestamp exp_time }
{
    2 * u64::from(timestamp) + 675 * (1 + u64::from(exp_time))
}

/// Whether a hop is live at the second `now`, that is, `now` is not later than its expiry. A hop is
/// not refused for being too early.
pub fn hop_is_live(timestamp: u32, exp_time: u8, now: u32) -> bool
    ensures fact { IsTrue result ↔ IsLive timestamp exp_time now }
    ensures test { result ≡ is_live_at timestamp exp_time now }
{
    2 * u64::from(now) <= expiry(timestamp, exp_time)
}
