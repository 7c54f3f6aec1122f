//! Texts that are refused: running out of memory never hides a refusal.

use crate::rows::repeated;
use policy_expr::{Acl, AclText, PolicyError, PolicyFault, Seq};
use refusing::{Allocations, Refusing};
use std::alloc::{AllocError, Global};
use std::test::Fail;

/// The refusal, if there is one.
fn refusal<T: Drop>(answer: Result<T, PolicyError>) -> Option<PolicyFault> {
    match answer {
        Err(PolicyError::Refused(fault)) => Some(fault),
        _ => None,
    }
}

/// `0` in pairs of parentheses.
fn nested(alloc: Global, depth: usize) -> Result<String, AllocError> {
    let mut text = String::from_str(alloc, "0")?;
    for _ in 0..depth {
        text = format!(in alloc; "({text})")?;
    }
    Ok(text)
}

/// Each refusal of a sequence when all allocations are refused.
#[test]
fn sequences_without_memory(rt: HostRuntime) -> Result<(), Fail> {
    let alloc = rt.alloc();
    let none = Refusing::new(alloc);
    none.refuse(Allocations::AllFrom(1));
    let (deep, long) = (nested(alloc, 33)?, repeated(alloc, "0", 129)?);
    for (text, fault) in [
        ("", PolicyFault::UnexpectedEnd),
        ("1 |", PolicyFault::UnexpectedEnd),
        ("(1", PolicyFault::Unbalanced),
        ("1)", PolicyFault::Unbalanced),
        ("| 1", PolicyFault::BadPredicate),
        (deep.as_str(), PolicyFault::TooDeep),
        (long.as_str(), PolicyFault::TooLarge),
    ] {
        assert_eq!(rt; refusal(Seq::parse(&none, text)), Some(fault), "{text}");
    }
    Ok(())
}

/// Each refusal of a list when all allocations are refused.
#[test]
fn lists_without_memory(rt: HostRuntime) -> Result<(), Fail> {
    let alloc = rt.alloc();
    let none = Refusing::new(alloc);
    none.refuse(Allocations::AllFrom(1));
    let rows: [(&[&str], PolicyFault); 2] = [
        (&["- 1"], PolicyFault::NoDefault),
        (&["+", "- 1", "-"], PolicyFault::AfterDefault),
    ];
    for (texts, fault) in rows {
        let mut list = AclText::new(alloc);
        for text in texts {
            list.push(alloc, text)?;
        }
        assert_eq!(rt; refusal(Acl::parse(&none, &list)), Some(fault));
    }
    Ok(())
}
