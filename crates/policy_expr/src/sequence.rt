ghost use Rattle.std.specs.Prelude.{◌≡◌, ◌↔◌, ◌≤◌, ℕ, List, IsTrue, IfErr, IfOk, IsOk, Ok};
ghost use Rattle.std.specs.String.{string_bytes};
ghost use Rattle.refusal.specs.Refusal.{Answers};
ghost use Rattle.policy_expr.specs.Language.{Lang, Tree, tree_of};
ghost use Rattle.policy_expr.specs.Printing.{IsSequence, sequence_text};
ghost use Rattle.policy_expr.specs.Grammar.{SpellsSequence};
ghost use Rattle.policy_expr.specs.Reading.{node_count, sequence_at, IsTextRefusal};
ghost use Rattle.policy_expr.specs.Tokens.{tokens};
ghost use Rattle.policy_expr.specs.inner.Views.{remaining};

use crate::counting::check_tokens;
use crate::fault::PolicyError;
use crate::hop::WalkHop;
use crate::node::SeqNode;
use crate::reader::read_tree;
use crate::room::{Room, Tokens, fill};
use crate::table::Table;
use std::alloc::{AllocError, Allocator};
use std::marker::Model;

/// From this length on, a text is read with a room for its tokens.
const LONG: usize = 64;

/// A sequence: a regular expression over hops, whose words are walks.
///
/// Its type keeps the rules: it has at most 256 nodes, and its text has at most 32 parentheses open
/// at once.
#[derive(Drop)]
pub struct Seq<A: Allocator + Clone> {
    // It stands first, and so is dropped first: else the C library would join the small blocks of
    // the tree, and the next sequence would have to cut them again.
    table: Table<A>,
    root: SeqNode<A>,
}

impl<A: Allocator + Clone> Model for Seq<A> {
    ghost use Rattle.policy_expr.specs.Code.{coded_tree};
    ghost use Rattle.policy_expr.specs.Language.{Tree, tree_of};
    ghost use Rattle.policy_expr.specs.Printing.{IsSequence};
    ghost use Rattle.policy_expr.specs.Table.{IsTableOf};

    ghost Value = { Tree };

    ghost coded = { coded_tree };

    ghost view = { λ s. tree_of s.root };

    ghost invariant = { λ s. IsSequence (tree_of s.root)
        × IsTableOf (tree_of s.root) s.table.lines.items s.table.ends };
}

impl<A: Allocator + Clone> Seq<A> {
    /// The sequence of a text.
    ///
    /// The text is read from left to right. Where an item has to come, the end of the text is
    /// [`PolicyFault::UnexpectedEnd`], a `(` with 32 open is [`PolicyFault::TooDeep`], and any
    /// other token that begins no item is [`PolicyFault::BadPredicate`]. After an item, a `)` with
    /// none open and the end with some open are [`PolicyFault::Unbalanced`], and an unknown
    /// character is [`PolicyFault::BadPredicate`]. A text without these faults is
    /// [`PolicyFault::TooLarge`] if it has more than 256 nodes. Memory can run out only if there is
    /// none of these faults.
    pub fn parse(alloc: A, text: &str) -> Result<Seq<A>, PolicyError>
        // The text is a spelling of the sequence that is returned.
        ensures found { IfOk result (λ s. SpellsSequence text.now s × (node_count s ≤ 256)) }
        // If the text is a spelling of a sequence, that is returned, or memory runs out.
        ensures only { (tree : Tree) → SpellsSequence text.now tree → node_count tree ≤ 256
            → Answers (λ s. s) result (Ok tree) }
        // The refusal, if the text is refused.
        ensures refused { IfErr result (IsTextRefusal text.now) }
        // All of this as one equation.
        ensures exact { Answers (λ s. s) result (sequence_at text.now) }
    {
        Seq::read(alloc, text)
    }

    /// The sequence of a text that was judged, and has no refusal.
    pub(crate) fn read_lawful(alloc: A, text: &str) -> Result<Seq<A>, AllocError>
        requires { IsOk (sequence_at text.now) }
        ensures { IfOk result (λ s. sequence_at text.now ≡ Ok s) }
    {
        Seq::of_lawful(alloc, Tokens::of(text))
    }

    /// Judges a text, and then reads it. The tokens of a short text are cut twice, which costs less
    /// than to clear a room.
    fn read(alloc: A, text: &str) -> Result<Seq<A>, PolicyError>
        ensures { Answers (λ s. s) result (sequence_at text.now) }
    {
        if text.len() < LONG {
            Seq::of_tokens(alloc, Tokens::of(text))
        } else {
            Seq::read_long(alloc, text)
        }
    }

    /// Judges a text, and then reads it. Each of its tokens is cut once.
    fn read_long(alloc: A, text: &str) -> Result<Seq<A>, PolicyError>
        ensures { Answers (λ s. s) result (sequence_at text.now) }
    {
        let mut room = Room::new();
        let rest = fill(&mut room, text);
        let known = room.as_slice();
        Seq::of_tokens(alloc, Tokens { known, rest })
    }

    /// Judges these tokens, and then makes a sequence of them.
    fn of_tokens(alloc: A, all: Tokens<'_>) -> Result<Seq<A>, PolicyError>
        requires { (text : List ℕ) × (tokens text ≡ remaining all) }
        ensures { (text : List ℕ) → tokens text ≡ remaining all.entry
            → Answers (λ s. s) result (sequence_at text) }
    {
        check_tokens(all)?;
        Ok(Seq::of_lawful(alloc, all)?)
    }

    /// Makes a sequence of the tokens of a text that has no refusal.
    fn of_lawful(alloc: A, all: Tokens<'_>) -> Result<Seq<A>, AllocError>
        requires { (text : List ℕ) × (tokens text ≡ remaining all) × IsOk (sequence_at text) }
        ensures { (text : List ℕ) → tokens text ≡ remaining all.entry
            → IfOk result (λ s. sequence_at text ≡ Ok s) }
    {
        let root = read_tree(alloc.clone()?, all)?;
        let table = Table::new(alloc, &root)?;
        Ok(Seq { table, root })
    }

    /// The node at the top of its tree. Takes no memory.
    pub fn root(&self) -> &SeqNode<A>
        ensures { tree_of result.now ≡ self.now }
    {
        &self.root
    }

    /// Its text, with no parentheses that the tree can do without. There is one space for following
    /// and no space around `|`. Addresses are in their canonical text; the ISD stands alone if the
    /// AS and the interfaces are wildcards. [`Seq::parse`] gives the sequence back. [`AllocError`]
    /// if memory runs out.
    pub fn print<B: Allocator>(&self, alloc: B) -> Result<String<B>, AllocError>
        ensures text { IfOk result (λ text. string_bytes text ≡ sequence_text self.now) }
        ensures again { IfOk result (λ text. sequence_at (string_bytes text) ≡ Ok self.now) }
    {
        let mut text = String::new(alloc);
        self.root.print_to(&mut text)?;
        Ok(text)
    }

    /// A copy of this sequence in another allocator, unless memory runs out.
    pub fn clone_in<B: Allocator + Clone>(&self, alloc: B) -> Result<Seq<B>, AllocError>
        ensures { IfOk result (λ s. s ≡ self.now) }
    {
        let root = self.root.clone_in(&alloc)?;
        let table = self.table.clone_in(alloc)?;
        Ok(Seq { table, root })
    }

    /// Whether the walk is a word of this sequence. It tries each hop with each predicate at most
    /// once; a walk of 64 hops takes at most 8,192 tries. Takes no memory.
    pub fn matches(&self, walk: &[WalkHop]) -> bool
        ensures { IsTrue result ↔ Lang self.now walk.now }
    {
        self.table.matches(walk)
    }
}
