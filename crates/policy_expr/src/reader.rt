ghost use Rattle.std.specs.Prelude.{◌≡◌, [], ◌∷◌, List, None, Some, Ok, IfOk, IsOk, OnOk, option_map};
ghost use Rattle.policy_expr.specs.declared.token.Token.{Token};
ghost use Rattle.policy_expr.specs.declared.token.Token.TheVariants as signs;
ghost use Rattle.policy_expr.specs.Language.{tree_of};
ghost use Rattle.policy_expr.specs.Reading.{item_behind, new_level, read_rest, whole};
ghost use Rattle.policy_expr.specs.inner.Views.{GoesOn, CanGoOn, gives, gives_behind, joined_by, level_of, remaining};

use crate::node::{SeqNode, box_both, box_node};
use crate::room::Tokens;
use crate::token::Token;
use std::alloc::{AllocError, Allocator};
use std::mem;

/// What was read before the next item since the last open parenthesis.
#[derive(Drop)]
pub(crate) struct Level<A: Allocator> {
    /// The part that the next item follows.
    before: Option<SeqNode<A>>,
    /// The alternatives to which the next item is added.
    choices: Option<SeqNode<A>>,
}

impl<A: Allocator> Level<A> {
    /// A level at which nothing was read.
    fn new() -> Level<A>
        ensures { level_of result ≡ new_level }
    {
        Level {
            before: None,
            choices: None,
        }
    }
}

impl<A: Allocator + Clone> Level<A> {
    /// Takes all that was read at this level, with this item at its end, as one tree.
    fn whole(&mut self, alloc: &A, item: SeqNode<A>) -> Result<SeqNode<A>, AllocError>
        ensures tree { IfOk result (λ node. tree_of node
            ≡ whole (level_of self.old) (tree_of item)) }
        ensures left { OnOk result (level_of self.new ≡ new_level) }
    {
        let item = join(alloc, Joint::Alternative, self.choices.take(), item)?;
        join(alloc, Joint::Following, self.before.take(), item)
    }
}

/// How an item is joined with what was read before it.
#[derive(Clone, Copy)]
pub(crate) enum Joint {
    /// As one more alternative.
    Alternative,
    /// As the part that follows.
    Following,
}

/// The item, joined with what was read before it, if there is something.
fn join<A: Allocator + Clone>(
    alloc: &A,
    joint: Joint,
    before: Option<SeqNode<A>>,
    item: SeqNode<A>,
) -> Result<SeqNode<A>, AllocError>
    ensures { IfOk result (λ node. tree_of node
        ≡ item_behind (joined_by joint) (option_map tree_of before) (tree_of item)) }
{
    let Some(before) = before else {
        return Ok(item);
    };
    let (before, item) = box_both(alloc, before, item)?;
    match joint {
        Joint::Alternative => Ok(SeqNode::Or(before, item)),
        Joint::Following => Ok(SeqNode::Then(before, item)),
    }
}

/// The state of reading the text of a sequence, which was judged and has no refusal. After an error
/// it is of no use.
#[derive(Drop)]
pub(crate) struct Reader<A: Allocator> {
    alloc: A,
    levels: Vec<Level<A>, A>,
    level: Level<A>,
    item: Option<SeqNode<A>>,
}

impl<A: Allocator + Clone> Reader<A> {
    /// The state before the first token.
    fn new(alloc: A) -> Result<Reader<A>, AllocError>
        ensures { IfOk result (λ reader. (rest : List Token)
            → gives reader rest ≡ read_rest [] new_level None rest) }
    {
        let levels = Vec::new(alloc.clone()?);
        Ok(Reader {
            alloc,
            levels,
            level: Level::new(),
            item: None,
        })
    }

    /// Reads all these tokens.
    fn read(&mut self, all: Tokens<'_>) -> Result<SeqNode<A>, AllocError>
        requires { IsOk (gives self.old (remaining all)) }
        ensures { IfOk result (λ node. gives self.old (remaining all.entry) ≡ Ok (tree_of node)) }
    {
        let mut rest = all;
        while let Some((token, behind)) = rest.next() {
            self.take(token)?;
            rest = behind;
        }
        self.end()
    }

    /// Takes one more token.
    fn take(&mut self, token: Token) -> Result<(), AllocError>
        requires { CanGoOn (λ rest. gives self.old (token ∷ rest)) }
        ensures { OnOk result (GoesOn (λ rest. gives self.old (token ∷ rest)) self.new) }
    {
        match self.item.take() {
            None => self.begin(token),
            Some(item) => self.go_on(item, token),
        }
    }

    /// Takes a token where an item has to come.
    fn begin(&mut self, token: Token) -> Result<(), AllocError>
        requires none { self.old.item ≡ None }
        requires lawful { CanGoOn (λ rest. gives self.old (token ∷ rest)) }
        ensures { OnOk result (GoesOn (λ rest. gives self.old (token ∷ rest)) self.new) }
    {
        match token {
            Token::Hop(pred) => {
                self.item = Some(SeqNode::Hop(pred));
                Ok(())
            }
            Token::Open => self.open(),
            // The text was judged before (`lawful`): an item begins with no other token. A type of
            // these two would have this arm where it is made.
            _ => unreachable!(),
        }
    }

    /// Takes a `(`.
    fn open(&mut self) -> Result<(), AllocError>
        requires none { self.old.item ≡ None }
        requires lawful { CanGoOn (λ rest. gives self.old (signs.Open ∷ rest)) }
        ensures { OnOk result (GoesOn (λ rest. gives self.old (signs.Open ∷ rest)) self.new) }
    {
        let outer = mem::replace(&mut self.level, Level::new());
        self.levels.push(outer)?;
        Ok(())
    }

    /// Takes a token after this item.
    fn go_on(&mut self, item: SeqNode<A>, token: Token) -> Result<(), AllocError>
        requires none { self.old.item ≡ None }
        requires lawful { CanGoOn (λ rest. gives_behind self.old (Some (tree_of item))
            (token ∷ rest)) }
        ensures { OnOk result
            (GoesOn (λ rest. gives_behind self.old (Some (tree_of item)) (token ∷ rest)) self.new) }
    {
        match token {
            Token::Optional => {
                self.item = Some(SeqNode::Optional(box_node(&self.alloc, item)?));
                Ok(())
            }
            Token::OnceOrMore => {
                self.item = Some(SeqNode::OnceOrMore(box_node(&self.alloc, item)?));
                Ok(())
            }
            Token::Repeated => {
                self.item = Some(SeqNode::Repeated(box_node(&self.alloc, item)?));
                Ok(())
            }
            Token::Or => {
                let before = self.level.choices.take();
                let choices = join(&self.alloc, Joint::Alternative, before, item)?;
                self.level.choices = Some(choices);
                Ok(())
            }
            Token::Close => self.close(item),
            // The text was judged before (`lawful`). The judge has to have this token, and reads
            // the same tokens.
            Token::Other => unreachable!(),
            Token::Hop(_) | Token::Open => {
                let before = self.level.whole(&self.alloc, item)?;
                self.level.before = Some(before);
                self.begin(token)
            }
        }
    }

    /// Takes a `)` after this item.
    fn close(&mut self, item: SeqNode<A>) -> Result<(), AllocError>
        requires { CanGoOn (λ rest. gives_behind self.old (Some (tree_of item))
            (signs.Close ∷ rest)) }
        ensures { OnOk result
            (GoesOn (λ rest. gives_behind self.old (Some (tree_of item)) (signs.Close ∷ rest))
            self.new) }
    {
        self.item = Some(self.level.whole(&self.alloc, item)?);
        self.level = self.levels.pop().unwrap();
        Ok(())
    }

    /// The tree, where the text ends.
    fn end(&mut self) -> Result<SeqNode<A>, AllocError>
        requires { IsOk (gives self.old []) }
        ensures { IfOk result (λ node. gives self.old [] ≡ Ok (tree_of node)) }
    {
        let item = self.item.take().unwrap();
        self.level.whole(&self.alloc, item)
    }
}

/// The tree of tokens that were judged to be those of a sequence.
pub(crate) fn read_tree<A: Allocator + Clone>(
    alloc: A,
    all: Tokens<'_>,
) -> Result<SeqNode<A>, AllocError>
    requires { IsOk (read_rest [] new_level None (remaining all)) }
    ensures { IfOk result
        (λ node. read_rest [] new_level None (remaining all.entry) ≡ Ok (tree_of node)) }
{
    let mut reader = Reader::new(alloc)?;
    reader.read(all)
}
