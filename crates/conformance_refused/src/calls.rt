//! Calls that take an allocator, and checks of their results.

use isd_as::{IfId, IsdAs};
use policy_expr::{
    Acl, AclText, Denied, OptionError, OptionText, Policy, PolicyError, PolicyOption, PolicyText,
    Seq, WalkHop,
};
use std::alloc::{AllocError, Allocator, Global};

/// The result of a call.
#[derive(Clone, Copy, Debug, PartialEq, Eq)]
pub(crate) enum Gift {
    /// The one right value.
    Right,
    /// Running out of memory.
    Memory,
    /// Another value, or a refusal.
    Wrong,
}

/// The text of a sequence, its printed text, a walk that is a word of it, and a walk that is none.
#[derive(Clone, Copy)]
pub(crate) struct SequenceRow<'a> {
    pub(crate) text: &'a str,
    pub(crate) printed: &'a str,
    pub(crate) word: &'a [WalkHop],
    pub(crate) other: &'a [WalkHop],
}

/// A call that takes an allocator. Lists have two entries; the first denies only the way in by
/// interface 2. Policies have such a list and a sequence of two hops. There are two options of such
/// policies, with the weights 1 and 5.
#[derive(Clone, Copy)]
pub(crate) enum Call<'a> {
    ReadSequence(SequenceRow<'a>),
    CloneSequence(&'a Seq<Global>, SequenceRow<'a>),
    ReadList(&'a AclText),
    CloneList(&'a Acl<Global>),
    ReadPolicy(PolicyText<'a>),
    ClonePolicy(&'a Policy<Global>),
    ReadOptions(&'a [OptionText<'a>]),
    CloneOption(&'a PolicyOption<Global>),
}

/// A hop of 1-ff00:0:133.
pub(crate) fn hop(ingress: u16, egress: u16) -> WalkHop {
    WalkHop {
        ia: IsdAs::from_number(0x0001_ff00_0000_0133),
        ingress: IfId(ingress),
        egress: IfId(egress),
    }
}

/// `Right` if this holds, and else `Wrong`.
fn judged(is_right: bool) -> Gift {
    if is_right { Gift::Right } else { Gift::Wrong }
}

/// The result of a call without a policy: `Memory` if memory ran out, else `Wrong`.
fn without_policy(error: PolicyError) -> Gift {
    match error {
        PolicyError::Memory => Gift::Memory,
        PolicyError::Refused(_) => Gift::Wrong,
    }
}

/// The result of a call without options: `Memory` if memory ran out, else `Wrong`.
fn without_options(error: OptionError) -> Gift {
    match error {
        OptionError::Memory => Gift::Memory,
        OptionError::Refused(_) => Gift::Wrong,
    }
}

/// Whether a sequence, printed at this place, has its row's text, and has the first walk as a word
/// and not the second.
fn of_sequence<A: Allocator + Copy>(place: A, sequence: &Seq<A>, row: &SequenceRow<'_>) -> Gift {
    match sequence.print(place) {
        Ok(printed) => judged(
            printed.as_str() == row.printed
                && sequence.matches(row.word)
                && !sequence.matches(row.other),
        ),
        Err(AllocError) => Gift::Memory,
    }
}

/// Whether these are the two entries of the list.
fn of_list<A: Allocator + Clone>(list: &Acl<A>) -> Gift {
    let denied = Err(Denied { hop: 0, entry: 0 });
    let is_right = list.verdict(&[hop(2, 1)]) == denied && list.verdict(&[hop(1, 2)]) == Ok(());
    judged(is_right && list.entries().len() == 2)
}

/// Whether a policy has that list, and a sequence of two hops.
fn is_policy<A: Allocator + Clone>(policy: &Policy<A>) -> bool {
    let denied = Err(Denied { hop: 0, entry: 0 });
    policy.verdict(&[hop(2, 1)]) == denied
        && policy.verdict(&[hop(1, 2)]) == Ok(())
        && policy.matches(&[hop(1, 2); 2])
        && !policy.matches(&[hop(1, 2)])
}

/// Whether these are the two options.
fn of_options<A: Allocator + Clone>(options: &[PolicyOption<A>]) -> Gift {
    match options {
        [light, heavy] => judged(
            light.weight == 1
                && heavy.weight == 5
                && is_policy(&light.policy)
                && is_policy(&heavy.policy),
        ),
        _ => Gift::Wrong,
    }
}

/// Reads a sequence at a place, and prints it there.
fn read_sequence<A: Allocator + Copy>(place: A, row: &SequenceRow<'_>) -> Gift {
    match Seq::parse(place, row.text) {
        Ok(sequence) => of_sequence(place, &sequence, row),
        Err(error) => without_policy(error),
    }
}

/// Clones a sequence to a place, and prints the clone there.
fn clone_sequence<A: Allocator + Copy>(
    place: A,
    sequence: &Seq<Global>,
    row: &SequenceRow<'_>,
) -> Gift {
    match sequence.clone_in(place) {
        Ok(clone) => of_sequence(place, &clone, row),
        Err(AllocError) => Gift::Memory,
    }
}

/// Reads a list at a place.
fn read_list<A: Allocator + Clone>(place: A, text: &AclText) -> Gift {
    match Acl::parse(place, text) {
        Ok(list) => of_list(&list),
        Err(error) => without_policy(error),
    }
}

/// Clones a list to a place.
fn clone_list<A: Allocator + Clone>(place: A, list: &Acl<Global>) -> Gift {
    match list.clone_in(place) {
        Ok(clone) => of_list(&clone),
        Err(AllocError) => Gift::Memory,
    }
}

/// Reads a policy at a place.
fn read_policy<A: Allocator + Clone>(place: A, text: &PolicyText<'_>) -> Gift {
    match Policy::parse(place, text) {
        Ok(policy) => judged(is_policy(&policy)),
        Err(error) => without_policy(error),
    }
}

/// Clones a policy to a place.
fn clone_policy<A: Allocator + Clone>(place: A, policy: &Policy<Global>) -> Gift {
    match policy.clone_in(place) {
        Ok(clone) => judged(is_policy(&clone)),
        Err(AllocError) => Gift::Memory,
    }
}

/// Reads options at a place.
fn read_options<A: Allocator + Clone>(place: A, texts: &[OptionText<'_>]) -> Gift {
    match PolicyOption::parse_all(place, texts) {
        Ok(options) => of_options(&options),
        Err(error) => without_options(error),
    }
}

/// Clones an option to a place. It has the weight 5.
fn clone_option<A: Allocator + Clone>(place: A, option: &PolicyOption<Global>) -> Gift {
    match option.clone_in(place) {
        Ok(clone) => judged(clone.weight == 5 && is_policy(&clone.policy)),
        Err(AllocError) => Gift::Memory,
    }
}

impl Call<'_> {
    /// Makes the call in an allocator. Its result is checked and dropped; a sequence is also
    /// printed there.
    pub(crate) fn at<A: Allocator + Copy>(&self, place: A) -> Gift {
        match *self {
            Call::ReadSequence(row) => read_sequence(place, &row),
            Call::CloneSequence(sequence, row) => clone_sequence(place, sequence, &row),
            Call::ReadList(text) => read_list(place, text),
            Call::CloneList(list) => clone_list(place, list),
            Call::ReadPolicy(text) => read_policy(place, &text),
            Call::ClonePolicy(policy) => clone_policy(place, policy),
            Call::ReadOptions(texts) => read_options(place, texts),
            Call::CloneOption(option) => clone_option(place, option),
        }
    }
}
