#![tactic(auto, unfolding(crate::specs::Options::option_at, crate::specs::Options::options_at))]

ghost use Rattle.std.specs.Prelude.{◌≡◌, map, option_map, IfErr, IfOk, IsOk, Err, Ok};
ghost use Rattle.refusal.specs.Refusal.{Answers, each, Judges};
ghost use Rattle.policy_expr.specs.Options.{option_at, options_at};

use crate::option_fault::{OptionError, OptionFault};
use crate::policy::{Policy, PolicyText, check_policy};
use std::alloc::{AllocError, Allocator};
use std::marker::Model;

/// The largest number of options of a request.
pub const MAX_OPTIONS: usize = 16;

/// The texts of a policy, and its weight among the options of a request.
#[derive(Drop)]
pub struct OptionText<'a> {
    /// The texts.
    pub text: PolicyText<'a>,
    /// The weight: among the options that leave a path, the one with the largest weight is used.
    pub weight: u32,
}

impl<'a> Model for OptionText<'a> {
    ghost use Rattle.std.specs.Prelude.{option_map};
    ghost use Rattle.policy_expr.specs.Options.{OptionTexts};

    ghost Value = { OptionTexts };

    ghost view = { λ o. record {
      acl = option_map (λ t. t.now) o.text.acl;
      sequence = option_map (λ t. t.now) o.text.sequence;
      weight = o.weight;
    } };
}

impl<'a> OptionText<'a> {
    /// The first refusal of these texts, in the order of [`PolicyOption::parse_all`]. Takes no
    /// memory.
    pub(crate) fn check_all(texts: &[OptionText<'_>]) -> Result<(), OptionFault>
        ensures { Judges result (options_at texts.now) }
    {
        if texts.is_empty() || texts.len() > MAX_OPTIONS {
            return Err(OptionFault::OptionCount);
        }
        check_each(texts)
    }
}

/// The texts of a request's options that were judged: there are 1 to 16, and none has a refusal. So
/// they can be read as soon as there is memory.
#[derive(Drop)]
pub struct LawfulOptions<'a, 't> {
    texts: &'a [OptionText<'t>],
}

impl<'a, 't> Model for LawfulOptions<'a, 't> {
    ghost use Rattle.std.specs.Prelude.{List, IsOk};
    ghost use Rattle.policy_expr.specs.Options.{OptionTexts, options_at};

    ghost Value = { List OptionTexts };

    ghost view = { λ o. o.texts.now };

    ghost invariant = { λ o. IsOk (options_at o.texts.now) };
}

impl<'a, 't> LawfulOptions<'a, 't> {
    /// These texts, or their first refusal in the order of [`PolicyOption::parse_all`]. Takes no
    /// memory.
    pub fn check(texts: &'a [OptionText<'t>]) -> Result<LawfulOptions<'a, 't>, OptionFault>
        ensures ok { IfOk result (λ lawful. lawful ≡ texts.now) }
        ensures fault { IfErr result (λ fault. options_at texts.now ≡ Err fault) }
    {
        OptionText::check_all(texts)?;
        Ok(LawfulOptions { texts })
    }

    /// The texts, in their order.
    pub fn texts(&self) -> &[OptionText<'t>]
        ensures value { result.now ≡ self.now }
        ensures lawful { IsOk (options_at self.now) }
    {
        self.texts
    }

    /// The options of these texts, in their order, unless memory runs out.
    // The lemma drops the count of the texts, which is right, from what all of them are read as.
    #[tactic(auto, using(crate::proofs::Weighed::options_are))]
    pub fn read<A: Allocator + Clone>(
        &self,
        alloc: A,
    ) -> Result<Vec<PolicyOption<A>, A>, AllocError>
        ensures { IfOk result (λ options. options_at self.now ≡ Ok options.items) }
    {
        read_each(alloc, self.texts)
    }
}

/// A policy, and its weight among the options of a request.
#[derive(Drop)]
pub struct PolicyOption<A: Allocator + Clone> {
    /// The policy.
    pub policy: Policy<A>,
    /// The weight: among the options that leave a path, the one with the largest weight is used.
    pub weight: u32,
}

impl<A: Allocator + Clone> Model for PolicyOption<A> {
    ghost use Rattle.policy_expr.specs.Options.{WeighedRules};
    ghost use Rattle.policy_expr.specs.Code.{policy_codes};

    ghost Value = { WeighedRules };

    ghost coded = { Prim.hlevel policy_codes };

    ghost view = { λ o. record { rules = o.policy; weight = o.weight } };
}

impl<A: Allocator + Clone> PolicyOption<A> {
    /// The options of these texts, in their order.
    ///
    /// The refusal is [`OptionFault::OptionCount`] unless there are 1 to 16; then that of
    /// [`Policy::parse`] for the first option that has one. Memory can run out only if there is no
    /// refusal.
    pub fn parse_all(
        alloc: A,
        texts: &[OptionText<'_>],
    ) -> Result<Vec<PolicyOption<A>, A>, OptionError>
        ensures { Answers (λ options. options.items) result (options_at texts.now) }
    {
        let lawful = LawfulOptions::check(texts)?;
        Ok(lawful.read(alloc)?)
    }

    /// The option of texts that were judged, and have no refusal.
    fn read_lawful(alloc: A, text: &OptionText<'_>) -> Result<PolicyOption<A>, AllocError>
        requires { IsOk (option_at text.now) }
        ensures { IfOk result (λ option. option_at text.now ≡ Ok option) }
    {
        Ok(PolicyOption {
            policy: Policy::read_lawful(alloc, &text.text)?,
            weight: text.weight,
        })
    }

    /// A copy of this option in another allocator, unless memory runs out.
    pub fn clone_in<B: Allocator + Clone>(&self, alloc: B) -> Result<PolicyOption<B>, AllocError>
        ensures { IfOk result (λ option. option ≡ self.now) }
    {
        Ok(PolicyOption {
            policy: self.policy.clone_in(alloc)?,
            weight: self.weight,
        })
    }
}

/// The first refusal of these texts, one after another.
fn check_each(texts: &[OptionText<'_>]) -> Result<(), OptionFault>
    ensures { Judges result (each option_at texts.now) }
{
    for text in texts {
        check_option(text)?;
    }
    Ok(())
}

/// The refusal of the texts of one option, if there is one.
fn check_option(text: &OptionText<'_>) -> Result<(), OptionFault>
    ensures { Judges result (option_at text.now) }
{
    match check_policy(&text.text) {
        Ok(()) => Ok(()),
        Err(fault) => Err(OptionFault::Unread(fault)),
    }
}

/// The options of texts that were judged, each of which has no refusal.
fn read_each<A: Allocator + Clone>(
    alloc: A,
    texts: &[OptionText<'_>],
) -> Result<Vec<PolicyOption<A>, A>, AllocError>
    requires { IsOk (each option_at texts.now) }
    ensures { IfOk result (λ options. each option_at texts.now ≡ Ok options.items) }
{
    let mut options = Vec::with_capacity(alloc.clone()?, texts.len())?;
    for text in texts {
        options.push(PolicyOption::read_lawful(alloc.clone()?, text)?)?;
    }
    Ok(options)
}
