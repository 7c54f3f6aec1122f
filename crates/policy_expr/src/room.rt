ghost use Rattle.std.specs.Prelude.{◌≡◌, [], ◌∷◌, ◌++◌, MatchOption};
ghost use Rattle.policy_expr.specs.Tokens.{tokens};
ghost use Rattle.policy_expr.specs.inner.Views.{remaining};

use crate::token::{Token, next_token};
use arrayvec::ArrayVec;

/// How many tokens of a text are cut only once: a sequence of 256 nodes has at most 256 besides its
/// parentheses, and few sequences have more than 32 of those.
const ROOM_LEN: usize = 288;

/// A room for the first tokens of a text, so that each is read only once.
pub(crate) type Room = ArrayVec<Token, ROOM_LEN>;

/// Adds the first tokens of the text to an empty room, and returns the text after them.
pub(crate) fn fill<'t>(room: &mut Room, text: &'t str) -> &'t [u8]
    requires { room.old.items ≡ [] }
    ensures { tokens text.now ≡ room.new.items ++ tokens result.now }
{
    let mut rest = text.as_bytes();
    while !room.is_full() {
        let Some((token, behind)) = next_token(rest) else {
            return rest;
        };
        room.push(token);
        rest = behind;
    }
    rest
}

/// The tokens that are still to be taken: some that were cut from the text, and then those of the
/// rest of the text.
#[derive(Clone, Copy)]
pub(crate) struct Tokens<'t> {
    pub(crate) known: &'t [Token],
    pub(crate) rest: &'t [u8],
}

impl<'t> Tokens<'t> {
    /// The tokens of a text, with none cut from it yet.
    pub(crate) fn of(text: &'t str) -> Tokens<'t>
        ensures { remaining result ≡ tokens text.now }
    {
        Tokens {
            known: &[],
            rest: text.as_bytes(),
        }
    }

    /// The first token, and those after it.
    pub(crate) fn next(self) -> Option<(Token, Tokens<'t>)>
        ensures { MatchOption result (remaining self.entry ≡ [])
            (λ found. remaining self.entry ≡ found.0 ∷ remaining found.1) }
    {
        match self.known.split_first() {
            Some((token, known)) => {
                let rest = self.rest;
                Some((*token, Tokens { known, rest }))
            }
            None => match next_token(self.rest) {
                Some((token, rest)) => Some((token, Tokens { known: &[], rest })),
                None => None,
            },
        }
    }
}
