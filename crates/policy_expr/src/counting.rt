ghost use Rattle.std.specs.Prelude.{◌≡◌, ℕ, [], ◌∷◌, List, Some, IfOk, IfErr};
ghost use Rattle.std.specs.Result.{result_err};
ghost use Rattle.refusal.specs.Refusal.{Judges};
ghost use Rattle.policy_expr.specs.declared.token.Token.{Token};
ghost use Rattle.policy_expr.specs.Tokens.{tokens};
ghost use Rattle.policy_expr.specs.Reading.{fault_at, sequence_at};
ghost use Rattle.policy_expr.specs.inner.Views.{remaining, weight_of};

use crate::fault::PolicyFault;
use crate::room::Tokens;
use crate::token::Token;

/// The largest number of parentheses open at once.
pub const MAX_NESTING: usize = 32;

/// The largest number of nodes of a sequence.
pub const MAX_NODES: usize = 256;

/// The weight of the tokens of the largest sequence. A predicate weighs 2 and a sign after an item
/// weighs 1; the sum is one more than the number of nodes.
const MAX_WEIGHT: usize = MAX_NODES + 1;

/// The first refusal of a sequence's text with these tokens. Takes no memory.
pub(crate) fn check_tokens(all: Tokens<'_>) -> Result<(), PolicyFault>
    ensures { (text : List ℕ) → tokens text ≡ remaining all.entry
        → Judges result (sequence_at text) }
{
    let mut place = Place {
        depth: 0,
        has_item: false,
    };
    let mut weight = 0;
    let mut rest = all;
    while let Some((token, behind)) = rest.next() {
        place = place.behind(&token)?;
        weight = (weight + weight_of(&token)).min(MAX_WEIGHT + 1);
        rest = behind;
    }
    check_end(place.depth, place.has_item)?;
    if weight > MAX_WEIGHT {
        return Err(PolicyFault::TooLarge);
    }
    Ok(())
}

/// What a token adds to the weight of a sequence.
fn weight_of(token: &Token) -> usize
    ensures { result ≡ weight_of token.now }
{
    match token {
        Token::Hop(_) => 2,
        Token::Or | Token::Open | Token::Close | Token::Other => 0,
        // A sign after an item.
        _ => 1,
    }
}

/// A state while the text of a sequence is checked.
#[derive(Clone, Copy)]
struct Place {
    /// The number of open parentheses.
    depth: usize,
    /// Whether an item stands right before, so that the next token need not begin one.
    has_item: bool,
}

impl Place {
    /// The state after one more token.
    fn behind(self, token: &Token) -> Result<Place, PolicyFault>
        ensures goes_on { IfOk result (λ next. (later : List Token)
            → fault_at self.depth self.has_item (token.now ∷ later)
            ≡ fault_at next.depth next.has_item later) }
        ensures fault { IfErr result (λ fault. (later : List Token)
            → fault_at self.depth self.has_item (token.now ∷ later) ≡ Some fault) }
    {
        let Place { depth, has_item } = self;
        match token {
            Token::Hop(_) => Ok(Place {
                depth,
                has_item: true,
            }),
            Token::Open if depth < MAX_NESTING => Ok(Place {
                depth: depth + 1,
                has_item: false,
            }),
            Token::Open => Err(PolicyFault::TooDeep),
            _ if !has_item => Err(PolicyFault::BadPredicate),
            Token::Or => Ok(Place {
                depth,
                has_item: false,
            }),
            Token::Close if depth == 0 => Err(PolicyFault::Unbalanced),
            Token::Close => Ok(Place {
                depth: depth - 1,
                has_item: true,
            }),
            Token::Other => Err(PolicyFault::BadPredicate),
            // A sign after an item.
            _ => Ok(self),
        }
    }
}

/// Whether a sequence may end in this state.
fn check_end(depth: usize, has_item: bool) -> Result<(), PolicyFault>
    ensures { result_err result ≡ fault_at depth has_item [] }
{
    if !has_item {
        return Err(PolicyFault::UnexpectedEnd);
    }
    if depth > 0 {
        return Err(PolicyFault::Unbalanced);
    }
    Ok(())
}
