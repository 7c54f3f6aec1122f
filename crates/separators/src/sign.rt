//! Cutting a text at a sign.

ghost use Rattle.std.specs.Prelude.{◌≡◌, ◌==◌, ◌<◌, false, true, MatchOption};
ghost use Rattle.std.specs.List.{after_first, before_first, list_any};

/// The text before the first such sign, which is an ASCII character, and the text after it; `None`
/// if the text does not have the sign. Its time is linear in the text.
pub fn cut(text: &str, sign: char) -> Option<(&str, &str)>
    requires { sign < 128 }
    ensures { MatchOption result (list_any (λ b. b == sign) text.now ≡ false)
        (λ parts. (list_any (λ b. b == sign) text.now ≡ true)
        × (parts.0.now ≡ before_first (λ b. b == sign) text.now)
        × (parts.1.now ≡ after_first (λ b. b == sign) text.now)) }
{
    text.split_once(sign)
}
