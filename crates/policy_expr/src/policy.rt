#![tactic(auto, unfolding(crate::specs::Policy::policy_at))]

ghost use Rattle.std.specs.Prelude.{◌≡◌, ◌↔◌, None, Ok, option_map, IsOk, IsTrue, IfErr, IfOk};
ghost use Rattle.refusal.specs.Refusal.{Answers, if_there, Judges};
ghost use Rattle.policy_expr.specs.Reading.{sequence_at};
ghost use Rattle.policy_expr.specs.Acl.{acl_at};
ghost use Rattle.policy_expr.specs.Policy.{AllowsHops, DeniesHop, HasWord, policy_at, unblank};

use crate::acl::{Acl, Denied};
use crate::acl_text::AclText;
use crate::counting::check_tokens;
use crate::entry::check_acl;
use crate::fault::{PolicyError, PolicyFault};
use crate::hop::WalkHop;
use crate::room::Tokens;
use crate::sequence::Seq;
use separators::bytes::trim_start;
use std::alloc::{AllocError, Allocator};
use std::marker::Model;

/// The texts of a policy; each may be absent.
#[derive(Clone, Copy)]
pub struct PolicyText<'a> {
    /// The texts of the access control list.
    pub acl: Option<&'a AclText>,
    /// The text of the sequence.
    pub sequence: Option<&'a str>,
}

/// A path policy: an access control list and a sequence. Each may be absent, and then allows every
/// walk.
#[derive(Drop)]
pub struct Policy<A: Allocator + Clone> {
    acl: Option<Acl<A>>,
    sequence: Option<Seq<A>>,
}

impl<A: Allocator + Clone> Model for Policy<A> {
    ghost use Rattle.policy_expr.specs.Policy.{Rules};
    ghost use Rattle.policy_expr.specs.Code.{policy_codes};

    ghost Value = { Rules };

    ghost coded = { Prim.hlevel policy_codes };

    ghost view = { λ p. record { acl = p.acl; sequence = p.sequence } };
}

impl<A: Allocator + Clone> Policy<A> {
    /// The policy that allows every walk. Takes no memory.
    pub fn any() -> Policy<A>
        ensures { result ≡ record { acl = None; sequence = None } }
    {
        Policy {
            acl: None,
            sequence: None,
        }
    }

    /// The policy of these texts. A sequence of blanks alone counts as absent.
    ///
    /// The refusals are those of [`Acl::parse`], then those of [`Seq::parse`]. Memory can run out
    /// only if none of them is due.
    pub fn parse(alloc: A, text: &PolicyText<'_>) -> Result<Policy<A>, PolicyError>
        ensures { Answers (λ p. p) result
            (policy_at (option_map (λ t. t.now) text.now.acl)
            (option_map (λ t. t.now) text.now.sequence)) }
    {
        check_policy(text)?;
        Ok(Policy::read_lawful(alloc, text)?)
    }

    /// The policy of texts that were judged, and have no refusal.
    pub(crate) fn read_lawful(alloc: A, text: &PolicyText<'_>) -> Result<Policy<A>, AllocError>
        requires { IsOk
            (policy_at (option_map (λ t. t.now) text.now.acl)
            (option_map (λ t. t.now) text.now.sequence)) }
        ensures { IfOk result (λ p.
            policy_at (option_map (λ t. t.now) text.now.acl)
            (option_map (λ t. t.now) text.now.sequence) ≡ Ok p) }
    {
        let acl = match text.acl {
            None => None,
            Some(text) => Some(Acl::read_lawful(alloc.clone()?, text)?),
        };
        let sequence = match unblank(text.sequence) {
            None => None,
            Some(text) => Some(Seq::read_lawful(alloc, text)?),
        };
        Ok(Policy { acl, sequence })
    }

    /// The access control list, if there is one.
    pub fn acl(&self) -> Option<&Acl<A>>
        ensures { option_map (λ acl. acl.now) result ≡ self.now.acl }
    {
        self.acl.as_ref()
    }

    /// The sequence, if there is one.
    pub fn sequence(&self) -> Option<&Seq<A>>
        ensures { option_map (λ sequence. sequence.now) result ≡ self.now.sequence }
    {
        self.sequence.as_ref()
    }

    /// A copy of this policy in another allocator, unless memory runs out.
    pub fn clone_in<B: Allocator + Clone>(&self, alloc: B) -> Result<Policy<B>, AllocError>
        ensures { IfOk result (λ p. p ≡ self.now) }
    {
        let acl = match &self.acl {
            None => None,
            Some(acl) => Some(acl.clone_in(alloc.clone()?)?),
        };
        let sequence = match &self.sequence {
            None => None,
            Some(sequence) => Some(sequence.clone_in(alloc)?),
        };
        Ok(Policy { acl, sequence })
    }

    /// Succeeds if the list allows each hop of the walk; else returns the first denied hop and the
    /// entry that denies it. Takes no memory.
    pub fn verdict(&self, walk: &[WalkHop]) -> Result<(), Denied>
        ensures ok { IsOk result ↔ AllowsHops self.now.acl walk.now }
        ensures denied { IfErr result (λ denied. DeniesHop self.now.acl walk.now denied) }
    {
        match &self.acl {
            None => Ok(()),
            Some(acl) => acl.verdict(walk),
        }
    }

    /// Whether the walk is a word of the sequence. It tries each hop with each predicate at most
    /// once; a walk of 64 hops takes at most 8,192 tries. Takes no memory.
    pub fn matches(&self, walk: &[WalkHop]) -> bool
        ensures { IsTrue result ↔ HasWord self.now.sequence walk.now }
    {
        match &self.sequence {
            None => true,
            Some(sequence) => sequence.matches(walk),
        }
    }
}

/// The first refusal of a policy's texts. Takes no memory.
pub(crate) fn check_policy(text: &PolicyText<'_>) -> Result<(), PolicyFault>
    ensures { Judges result
        (policy_at (option_map (λ t. t.now) text.now.acl)
        (option_map (λ t. t.now) text.now.sequence)) }
{
    check_list(text.acl)?;
    check_sequence(unblank(text.sequence))
}

/// The first refusal of a list's texts, if there is a list.
fn check_list(text: Option<&AclText>) -> Result<(), PolicyFault>
    ensures { Judges result (if_there acl_at (option_map (λ t. t.now) text.entry)) }
{
    match text {
        None => Ok(()),
        Some(text) => check_acl(text),
    }
}

/// The first refusal of a sequence's text, if there is one.
fn check_sequence(text: Option<&str>) -> Result<(), PolicyFault>
    ensures { Judges result (if_there sequence_at (option_map (λ t. t.now) text.entry)) }
{
    match text {
        None => Ok(()),
        Some(text) => check_tokens(Tokens::of(text)),
    }
}

/// The text of a sequence; a text of blanks alone is no sequence.
fn unblank(text: Option<&str>) -> Option<&str>
    ensures { option_map (λ t. t.now) result ≡ unblank (option_map (λ t. t.now) text.entry) }
{
    text.filter(|text| !trim_start(text.as_bytes()).is_empty())
}
