use crate::answers::combine_in_a_row;
use bumpalo::Bump;
use policy_expr::{AclText, OptionError, OptionFault, OptionText, PolicyFault, PolicyOption};
use refusal::OrMemory;
use std::alloc::{AllocError, Allocator, Global};
use std::slice;
use std::test::Fail;
use worked::option_text;

/// The texts of options with these sequences; the weight of each is its place.
fn texts_of<'a>(alloc: Global, sequences: &[&'a str]) -> Result<Vec<OptionText<'a>>, AllocError> {
    let mut texts = Vec::new(alloc);
    let mut weight = 0;
    for sequence in sequences {
        texts.push(option_text(None, Some(*sequence), weight))?;
        weight = if weight < 100 { weight + 1 } else { weight };
    }
    Ok(texts)
}

/// The number of options, or their refusal.
fn count_of<A: Allocator + Clone>(
    answer: Result<Vec<PolicyOption<A>, A>, OptionError>,
) -> Result<usize, OptionError> {
    Ok(answer?.len())
}

/// The refusal of options of which one can't be read.
fn unread(fault: PolicyFault) -> Result<usize, OptionError> {
    Err(OrMemory::Refused(OptionFault::Unread(fault)))
}

/// The first that can't be read gives the refusal, in either allocator.
#[test]
fn options_are_counted_before_any_is_read(rt: HostRuntime) -> Result<(), Fail> {
    let alloc = rt.alloc();
    let uncounted = Err(OrMemory::Refused(OptionFault::OptionCount));
    let rows: [(&[&str], Result<usize, OptionError>); 6] = [
        (&[], uncounted),
        (&["0*"], Ok(1)),
        (&["0*", "", "1 | 2"], Ok(3)),
        (&["0*", "1 |", "("], unread(PolicyFault::UnexpectedEnd)),
        (&["0*", "1)", "1 |"], unread(PolicyFault::Unbalanced)),
        (&["1 |"; 17], uncounted),
    ];
    for (sequences, count) in rows {
        let texts = texts_of(alloc, sequences)?;
        assert_eq!(rt; count_of(PolicyOption::parse_all(alloc, &texts)), count);
        let bump = Bump::new(alloc);
        assert_eq!(rt; count_of(PolicyOption::parse_all(&bump, &texts)), count);
    }
    Ok(())
}

/// Each of them alone leaves a path.
#[test]
fn the_first_of_two_options_of_equal_weight_is_used(rt: HostRuntime) -> Result<(), Fail> {
    let mut acl = AclText::new(rt.alloc());
    acl.push(rt.alloc(), "+")?;
    let texts = [option_text(Some(&acl), None, 2), option_text(None, None, 2)];
    for text in &texts {
        assert_eq!(rt;
            combine_in_a_row(rt.alloc(), slice::from_ref(text))?.len(),
            1
        );
    }
    let list = combine_in_a_row(rt.alloc(), &texts)?;
    assert_eq!(rt; list.len(), 1);
    assert!(rt; list.option() == Some(0));
    Ok(())
}
