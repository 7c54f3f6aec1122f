ghost use Rattle.std.specs.Prelude.{◌≡◌, ◌++◌, OnOk, Some};
ghost use Rattle.std.specs.String.{string_bytes};
ghost use Rattle.policy_expr.specs.Printing.{interfaces_text, predicate_text, sequence_text, printed_as};
ghost use Rattle.policy_expr.specs.Language.{tree_of};

use crate::hop::{HopPred, Interfaces};
use crate::node::SeqNode;
use std::alloc::{AllocError, Allocator};
use std::fmt;

impl fmt::Display for Interfaces {
    ghost output = { λ interfaces. Some (interfaces_text interfaces) };

    fn fmt<W: fmt::Write>(&self, f: &mut fmt::Formatter<W>) -> fmt::Result {
        match self {
            Interfaces::Any => Ok(()),
            Interfaces::Either(interface) => write!(f, "#{interface}"),
            Interfaces::Both(ingress, egress) => write!(f, "#{ingress},{egress}"),
        }
    }
}

impl fmt::Display for HopPred {
    ghost output = { λ pred. Some (predicate_text pred) };

    fn fmt<W: fmt::Write>(&self, f: &mut fmt::Formatter<W>) -> fmt::Result {
        if self.ia.as_number().is_wildcard() && self.interfaces == Interfaces::Any {
            write!(f, "{}", self.ia.isd())
        } else {
            write!(f, "{}{}", self.ia, self.interfaces)
        }
    }
}

/// How tightly a node binds: following least, `|` more, and all others most.
const FOLLOWING: u8 = 0;

const EITHER: u8 = 1;

const ITEM: u8 = 2;

impl<A: Allocator> SeqNode<A> {
    /// Adds its text at the end.
    #[cycle(printing)]
    pub(crate) fn print_to<B: Allocator>(&self, out: &mut String<B>) -> Result<(), AllocError>
        ensures { OnOk result
            (string_bytes out.new ≡ string_bytes out.old ++ sequence_text (tree_of self.now)) }
    {
        match self {
            SeqNode::Hop(pred) => write!(out, "{pred}"),
            SeqNode::Then(first, second) => {
                first.print_to(out)?;
                out.push(' ')?;
                second.print_in(EITHER, out)
            }
            SeqNode::Or(first, second) => {
                first.print_in(EITHER, out)?;
                out.push('|')?;
                second.print_in(ITEM, out)
            }
            SeqNode::Optional(item) => {
                item.print_in(ITEM, out)?;
                out.push('?')
            }
            SeqNode::Repeated(item) => {
                item.print_in(ITEM, out)?;
                out.push('*')
            }
            SeqNode::OnceOrMore(item) => {
                item.print_in(ITEM, out)?;
                out.push('+')
            }
        }
    }

    /// Adds its text at the end, in parentheses if it binds less tightly than `least`.
    #[cycle(printing)]
    fn print_in<B: Allocator>(&self, least: u8, out: &mut String<B>) -> Result<(), AllocError>
        ensures { OnOk result
            (string_bytes out.new ≡ string_bytes out.old ++ printed_as least (tree_of self.now)) }
    {
        let is_closed = match self {
            SeqNode::Then(_, _) => least > FOLLOWING,
            SeqNode::Or(_, _) => least > EITHER,
            _ => false,
        };
        if !is_closed {
            return self.print_to(out);
        }
        out.push('(')?;
        self.print_to(out)?;
        out.push(')')
    }
}
