ghost use Rattle.std.specs.Prelude.{◌≡◌, ◌↔◌, map, IfOk, IsTrue};
ghost use Rattle.std.specs.String.{string_bytes};

use crate::acl_text::AclText;
use crate::options::OptionText;
use crate::policy::PolicyText;
use std::alloc::{AllocError, Global};
use std::marker::Model;

/// The texts of a policy and its weight, as a request keeps them that owns its options.
#[derive(Drop)]
pub struct OwnedOptionText {
    /// The texts of the access control list, if there is one.
    pub acl: Option<AclText>,
    /// The text of the sequence, if there is one.
    pub sequence: Option<String>,
    /// The weight: among the options that leave a path, the one with the largest weight is used.
    pub weight: u32,
}

impl Model for OwnedOptionText {
    ghost use Rattle.std.specs.Prelude.{option_map};
    ghost use Rattle.std.specs.String.{string_bytes};
    ghost use Rattle.policy_expr.specs.Options.{OptionTexts};

    ghost Value = { OptionTexts };

    ghost view = { λ o. record {
      acl = o.acl;
      sequence = option_map string_bytes o.sequence;
      weight = o.weight;
    } };
}

impl OwnedOptionText {
    /// A copy of an option's texts, unless memory runs out.
    pub fn of(alloc: Global, option: &OptionText<'_>) -> Result<OwnedOptionText, AllocError>
        ensures { IfOk result (λ own. own ≡ option.now) }
    {
        let acl = match option.text.acl {
            None => None,
            Some(acl) => Some(acl.try_clone(alloc)?),
        };
        let sequence = match option.text.sequence {
            None => None,
            Some(sequence) => Some(String::from_str(alloc, sequence)?),
        };
        Ok(OwnedOptionText {
            acl,
            sequence,
            weight: option.weight,
        })
    }

    /// The option as a request borrows it.
    pub(crate) fn lend(&self) -> OptionText<'_>
        ensures { result ≡ self.now }
    {
        let acl = match &self.acl {
            Some(acl) => Some(acl),
            None => None,
        };
        let sequence = match &self.sequence {
            Some(text) => Some(text.as_str()),
            None => None,
        };
        OptionText {
            text: PolicyText { acl, sequence },
            weight: self.weight,
        }
    }

    /// The options as a request borrows them, in their order, unless memory runs out.
    pub fn lend_all(
        alloc: Global,
        options: &[OwnedOptionText],
    ) -> Result<Vec<OptionText<'_>>, AllocError>
        ensures { IfOk result (λ lent. lent.items ≡ options.now) }
    {
        let mut lent = Vec::with_capacity(alloc, options.len())?;
        for option in options {
            lent.push(option.lend())?;
        }
        Ok(lent)
    }

    /// Whether the option has these texts and this weight.
    pub fn is_of(&self, option: &OptionText<'_>) -> bool
        ensures { IsTrue result ↔ (self.now ≡ option.now) }
    {
        let is_acl = match (&self.acl, option.text.acl) {
            (None, None) => true,
            (Some(acl), Some(other)) => are_same(acl.texts(), other.texts()),
            _ => false,
        };
        let is_sequence = match (&self.sequence, option.text.sequence) {
            (None, None) => true,
            (Some(sequence), Some(other)) => sequence.as_str() == other,
            _ => false,
        };
        is_acl && is_sequence && self.weight == option.weight
    }
}

/// Whether both are the same texts, in the same order.
fn are_same(texts: &[String], others: &[String]) -> bool
    ensures { IsTrue result ↔ (map string_bytes texts.now ≡ map string_bytes others.now) }
{
    let mut rest = texts;
    let mut more = others;
    while let Some((text, behind)) = rest.split_first() {
        let Some((other, further)) = more.split_first() else {
            return false;
        };
        if text.as_str() != other.as_str() {
            return false;
        }
        rest = behind;
        more = further;
    }
    more.is_empty()
}
