ghost use Rattle.std.specs.Prelude.{◌≡◌, ◌<◌, [], ◌∷◌, drop, length, MatchOption};
ghost use Rattle.std.specs.List.{prefix_len};
ghost use Rattle.std.specs.Str.{IsAscii};
ghost use Rattle.policy_expr.specs.Predicate.{predicate_at};
ghost use Rattle.policy_expr.specs.Tokens.{is_mark, read_token, sign_token, tokens};

use crate::hop::HopPred;
use separators::bytes::trim_start;

/// A token of a sequence's text.
#[derive(Clone, Copy, Debug, Default, PartialEq, Eq)]
pub(crate) enum Token {
    /// A predicate.
    Hop(HopPred),
    /// `?`
    Optional,
    /// `+`
    OnceOrMore,
    /// `*`
    Repeated,
    /// `|`
    Or,
    /// `(`
    Open,
    /// `)`
    Close,
    /// A text that looks like a predicate and is none, or a character that is no sign.
    #[default]
    Other,
}

/// The first token of the text, and the text after it.
pub(crate) fn next_token(text: &[u8]) -> Option<(Token, &[u8])>
    ensures { MatchOption result (tokens text.now ≡ [])
        (λ found. (tokens text.now ≡ found.0 ∷ tokens found.1.now)
        × (length found.1.now < length text.now)) }
{
    let text = trim_start(text);
    let Some((first, behind)) = text.split_first() else {
        return None;
    };
    if !is_mark_byte(*first) {
        return Some((token_of_sign(*first), behind));
    }
    let rest = behind_marks(text);
    let run = &text[..text.len() - rest.len()];
    Some((token_of_run(run), rest))
}

/// The text after the characters of predicates with which it begins.
fn behind_marks(text: &[u8]) -> &[u8]
    ensures { result.now ≡ drop (prefix_len is_mark text.now) text.now }
{
    let mut rest = text;
    while let Some((byte, behind)) = rest.split_first() {
        if !is_mark_byte(*byte) {
            return rest;
        }
        rest = behind;
    }
    rest
}

/// Whether the byte is a character of predicates.
fn is_mark_byte(byte: u8) -> bool
    ensures { result ≡ is_mark byte }
{
    matches!(byte, b'0'..=b'9' | b'a'..=b'f' | b'A'..=b'F' | b'-' | b':' | b'#' | b',')
}

/// The token of a character that is a sign.
fn token_of_sign(byte: u8) -> Token
    ensures { result ≡ sign_token byte }
{
    match byte {
        b'?' => Token::Optional,
        b'+' => Token::OnceOrMore,
        b'*' => Token::Repeated,
        b'|' => Token::Or,
        b'(' => Token::Open,
        b')' => Token::Close,
        _ => Token::Other,
    }
}

/// The token of a run of characters of predicates.
fn token_of_run(run: &[u8]) -> Token
    requires { IsAscii run.now }
    ensures { result ≡ read_token (predicate_at run.now) }
{
    match HopPred::parse(str::from_utf8(run).unwrap()) {
        Ok(pred) => Token::Hop(pred),
        Err(_) => Token::Other,
    }
}
