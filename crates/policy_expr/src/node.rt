ghost use Rattle.std.specs.Prelude.{◌≡◌, IfOk, Ok};
ghost use Rattle.policy_expr.specs.Language.{tree_of};

use crate::hop::HopPred;
use std::alloc::{AllocError, Allocator};

/// A node of a sequence, which is a regular expression over hops. Its parts are in boxes of an
/// allocator.
#[derive(Drop)]
pub enum SeqNode<A: Allocator> {
    /// One hop, matched by the predicate.
    Hop(HopPred),
    /// The first part followed by the second.
    Then(Box<SeqNode<A>, A>, Box<SeqNode<A>, A>),
    /// The first part or the second.
    Or(Box<SeqNode<A>, A>, Box<SeqNode<A>, A>),
    /// The item or nothing: `?`.
    Optional(Box<SeqNode<A>, A>),
    /// The item any number of times, or never: `*`.
    Repeated(Box<SeqNode<A>, A>),
    /// The item at least once: `+`.
    OnceOrMore(Box<SeqNode<A>, A>),
}

impl<A: Allocator + Clone> SeqNode<A> {
    /// A copy of this tree in another allocator, unless memory runs out.
    pub(crate) fn clone_in<B: Allocator + Clone>(&self, alloc: &B) -> Result<SeqNode<B>, AllocError>
        ensures { IfOk result (λ node. tree_of node ≡ tree_of self.now) }
    {
        match self {
            SeqNode::Hop(pred) => Ok(SeqNode::Hop(*pred)),
            SeqNode::Then(first, second) => {
                let first = box_result(alloc, first.clone_in(alloc))?;
                let second = box_result(alloc, second.clone_in(alloc))?;
                Ok(SeqNode::Then(first, second))
            }
            SeqNode::Or(first, second) => {
                let first = box_result(alloc, first.clone_in(alloc))?;
                let second = box_result(alloc, second.clone_in(alloc))?;
                Ok(SeqNode::Or(first, second))
            }
            SeqNode::Optional(item) => {
                Ok(SeqNode::Optional(box_result(alloc, item.clone_in(alloc))?))
            }
            SeqNode::Repeated(item) => {
                Ok(SeqNode::Repeated(box_result(alloc, item.clone_in(alloc))?))
            }
            SeqNode::OnceOrMore(item) => {
                Ok(SeqNode::OnceOrMore(box_result(alloc, item.clone_in(alloc))?))
            }
        }
    }
}

/// The node in a box of a copy of the allocator.
pub(crate) fn box_node<A: Allocator + Clone>(
    alloc: &A,
    node: SeqNode<A>,
) -> Result<Box<SeqNode<A>, A>, AllocError>
    ensures { IfOk result (λ b. b.value ≡ node) }
{
    Ok(Box::new(alloc.clone()?, node)?)
}

/// The node in a box, if there was memory for it.
fn box_result<A: Allocator + Clone>(
    alloc: &A,
    node: Result<SeqNode<A>, AllocError>,
) -> Result<Box<SeqNode<A>, A>, AllocError>
    ensures { IfOk result (λ b. node ≡ Ok b.value) }
{
    box_node(alloc, node?)
}

/// Both nodes in boxes.
pub(crate) fn box_both<A: Allocator + Clone>(
    alloc: &A,
    one: SeqNode<A>,
    other: SeqNode<A>,
) -> Result<(Box<SeqNode<A>, A>, Box<SeqNode<A>, A>), AllocError>
    ensures { IfOk result (λ boxes. (boxes.0.value ≡ one) × (boxes.1.value ≡ other)) }
{
    let one = box_node(alloc, one)?;
    Ok((one, box_node(alloc, other)?))
}
