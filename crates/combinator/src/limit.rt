ghost use Rattle.std.specs.Prelude.{◌≡◌, ◌<◌, IsTrue};
ghost use Rattle.combinator.specs.Answer.{is_limit};

/// The largest number of paths of a request.
pub const MAX_PATHS: usize = 64;

/// The number and the name of the refusal of another number of paths, in every type of refusals.
pub const BAD_LIMIT: (u16, &str) = (137, "BadLimit");

/// Whether a request may be for at most this number of paths: 1 to 64.
pub fn is_limit(limit: usize) -> bool
    ensures value { result ≡ is_limit limit }
    ensures some { IsTrue result → 0 < limit }
{
    (1..=MAX_PATHS).contains(&limit)
}
