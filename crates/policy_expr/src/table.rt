ghost use Rattle.std.specs.Prelude.{◌≡◌, ℕ, ◌+◌, ◌*◌, ◌≤◌, ◌<◌, ◌⊎◌, ◌↔◌, true, length, vec_len, IfOk, IsTrue};
ghost use Rattle.policy_expr.specs.Sets.{Has};
ghost use Rattle.policy_expr.specs.Table.{Accepts, Adds, IsTableOf, MayFollow, MeetsAt};
ghost use Rattle.policy_expr.specs.inner.Table.{IsThen, Links};
ghost use Rattle.policy_expr.specs.Reading.{node_count};
ghost use Rattle.policy_expr.specs.Language.{tree_of};

use crate::ends::Ends;
use crate::hop::{HopPred, WalkHop};
use crate::node::SeqNode;
use crate::pred_set::PredSet;
use std::alloc::{AllocError, Allocator};

/// A line of a table: a predicate, and the predicates that may come right behind it.
#[derive(Clone, Copy)]
pub(crate) struct Line {
    pub(crate) pred: HopPred,
    pub(crate) next: PredSet,
}

/// A sequence as a table: a line for each predicate, numbered from left to right; the predicates
/// that may come first and last; and whether the walk of no hops is a word.
#[derive(Drop)]
pub(crate) struct Table<A: Allocator> {
    pub(crate) lines: Vec<Line, A>,
    pub(crate) ends: Ends,
}

impl<A: Allocator> Table<A> {
    /// The table of a tree of at most 256 nodes.
    pub(crate) fn new<B: Allocator>(alloc: A, root: &SeqNode<B>) -> Result<Table<A>, AllocError>
        requires { node_count (tree_of root.now) ≤ 256 }
        ensures { IfOk result (λ table. IsTableOf (tree_of root.now) table.lines.items table.ends) }
    {
        let mut lines = Vec::new(alloc);
        let ends = root.add_lines(&mut lines)?;
        Ok(Table { lines, ends })
    }

    /// A copy of this table in another allocator.
    pub(crate) fn clone_in<B: Allocator>(&self, alloc: B) -> Result<Table<B>, AllocError>
        ensures { IfOk result
            (λ table. (table.lines.items ≡ self.now.lines.items) × (table.ends ≡ self.now.ends)) }
    {
        let mut lines = Vec::with_capacity(alloc, self.lines.len())?;
        lines.extend_from_slice(&self.lines)?;
        Ok(Table {
            lines,
            ends: self.ends,
        })
    }

    /// Whether the walk is a word of the table. It passes once over the hops, and tries each with
    /// each predicate at most once. Takes no memory.
    pub(crate) fn matches(&self, walk: &[WalkHop]) -> bool
        requires first { (k : ℕ) → Has self.now.ends.first k → k < length self.now.lines.items }
        requires next { (j k : ℕ) → MayFollow self.now.lines.items j k
            → k < length self.now.lines.items }
        ensures { IsTrue result ↔ Accepts self.now.lines.items self.now.ends walk.now }
    {
        let Some((end, before)) = walk.split_last() else {
            return self.ends.has_empty;
        };
        let mut wanted = self.ends.first;
        for hop in before {
            wanted = self.wanted_behind(wanted, hop);
        }
        self.does_one_match(wanted.and(self.ends.last), end)
    }

    /// The predicates that may come behind those of `wanted` that match the hop.
    fn wanted_behind(&self, wanted: PredSet, hop: &WalkHop) -> PredSet
        requires { (k : ℕ) → Has wanted k → k < vec_len self.now.lines }
        ensures { (j : ℕ) → Has result j
            ↔ ((k : ℕ) × Has wanted k × MeetsAt self.now.lines.items k hop.now
            × MayFollow self.now.lines.items k j) }
    {
        let mut next = PredSet::none();
        let mut rest = wanted.members();
        while let Some(number) = rest.next_low() {
            next = self.with_followers(number, hop, next);
        }
        while let Some(number) = rest.next_high() {
            next = self.with_followers(number, hop, next);
        }
        next
    }

    /// `next`, and if this predicate matches the hop also the predicates that may come behind it.
    fn with_followers(&self, number: usize, hop: &WalkHop, next: PredSet) -> PredSet
        requires { number < vec_len self.now.lines }
        ensures { (j : ℕ) → Has result j ↔ (Has next j
            ⊎ (MeetsAt self.now.lines.items number hop.now
            × MayFollow self.now.lines.items number j)) }
    {
        let line = &self.lines[number];
        if line.pred.matches(hop) {
            next.or(line.next)
        } else {
            next
        }
    }

    /// Whether one of these predicates matches the hop.
    fn does_one_match(&self, wanted: PredSet, hop: &WalkHop) -> bool
        requires { (k : ℕ) → Has wanted k → k < vec_len self.now.lines }
        ensures { IsTrue result
            ↔ ((k : ℕ) × Has wanted k × MeetsAt self.now.lines.items k hop.now) }
    {
        let mut rest = wanted.members();
        while let Some(number) = rest.next() {
            if self.lines[number].pred.matches(hop) {
                return true;
            }
        }
        false
    }
}

impl<A: Allocator> SeqNode<A> {
    /// Adds the lines of its predicates at the end.
    pub(crate) fn add_lines<B: Allocator>(
        &self,
        lines: &mut Vec<Line, B>,
    ) -> Result<Ends, AllocError>
        requires { 2 * vec_len lines.old + node_count (tree_of self.now) ≤ 256 }
        ensures { IfOk result
            (λ ends. Adds (tree_of self.now) lines.old.items lines.new.items ends) }
    {
        match self {
            SeqNode::Hop(pred) => {
                let only = PredSet::only(lines.len());
                let next = PredSet::none();
                lines.push(Line { pred: *pred, next })?;
                Ok(Ends::of_hop(only))
            }
            SeqNode::Then(front, back) => {
                let front = front.add_lines(lines)?;
                let back = back.add_lines(lines)?;
                Ok(followed(lines, front, back))
            }
            SeqNode::Or(one, other) => {
                let one = one.add_lines(lines)?;
                let other = other.add_lines(lines)?;
                Ok(one.or(other))
            }
            SeqNode::Optional(item) => {
                let item = item.add_lines(lines)?;
                Ok(item.or_nothing())
            }
            SeqNode::Repeated(item) => {
                let item = item.add_lines(lines)?;
                Ok(repeated(lines, item))
            }
            SeqNode::OnceOrMore(item) => {
                let item = item.add_lines(lines)?;
                Ok(once_or_more(lines, item))
            }
        }
    }
}

/// Lets the words of one part be followed by those of the other, and returns the ends of both
/// together.
fn followed<B: Allocator>(lines: &mut Vec<Line, B>, front: Ends, back: Ends) -> Ends
    requires { (k : ℕ) → Has front.last k → k < vec_len lines.old }
    ensures links { Links lines.old.items lines.new.items front.last back.first }
    ensures ends { IsThen front back result }
{
    link(lines, front.last, back.first);
    front.then(back)
}

/// Lets a part begin again behind its end, and returns the ends of any number of repetitions.
fn repeated<B: Allocator>(lines: &mut Vec<Line, B>, again: Ends) -> Ends
    requires { (k : ℕ) → Has again.last k → k < vec_len lines.old }
    ensures links { Links lines.old.items lines.new.items again.last again.first }
    ensures ends { result ≡ record again { has_empty = true } }
{
    link(lines, again.last, again.first);
    again.or_nothing()
}

/// Lets a part begin again behind its end, and returns the ends of at least one repetition.
fn once_or_more<B: Allocator>(lines: &mut Vec<Line, B>, once: Ends) -> Ends
    requires { (k : ℕ) → Has once.last k → k < vec_len lines.old }
    ensures links { Links lines.old.items lines.new.items once.last once.first }
    ensures ends { result ≡ once }
{
    link(lines, once.last, once.first);
    once
}

/// Lets each predicate of `last` be followed by each of `first`.
fn link(lines: &mut [Line], last: PredSet, first: PredSet)
    requires { (k : ℕ) → Has last k → k < length lines.old }
    ensures { Links lines.old lines.new last first }
{
    let mut rest = last.members();
    while let Some(number) = rest.next() {
        let line = &mut lines[number];
        line.next = line.next.or(first);
    }
}
