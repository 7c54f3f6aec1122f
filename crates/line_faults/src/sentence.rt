//! The sentences of refusals, by their numbers.

use beaconing::BeaconFault;
use combinator::CombineFault;
use network_core::OWN_FAULTS;
use path_server::StoreFault;
use path_verifier::VerifyFault;
use policy_expr::{Denied, OptionFault, PolicyFault};
use refusal::NumberedFault;
use scion_topology::TopologyFault;
use std::alloc::AllocError;
use std::fmt::Write;

/// The refusals of beaconing.
static BEACON: [BeaconFault; 7] = [
    BeaconFault::TooLong,
    BeaconFault::Loop,
    BeaconFault::NotCore,
    BeaconFault::NoInterface,
    BeaconFault::LinkDown,
    BeaconFault::WrongKind,
    BeaconFault::NotHere,
];

/// The refusals of a topology.
static TOPOLOGY: [TopologyFault; 9] = [
    TopologyFault::NotJson,
    TopologyFault::BadField,
    TopologyFault::DuplicateAs,
    TopologyFault::DuplicateIf,
    TopologyFault::UnknownAs,
    TopologyFault::BadKind,
    TopologyFault::NoRouter,
    TopologyFault::NoLink,
    TopologyFault::TooMany,
];

/// The refusals of a path store.
static STORE: [StoreFault; 2] = [StoreFault::Full, StoreFault::Expired];

/// The refusals of a policy.
static POLICY: [PolicyFault; 7] = [
    PolicyFault::UnexpectedEnd,
    PolicyFault::BadPredicate,
    PolicyFault::Unbalanced,
    PolicyFault::TooDeep,
    PolicyFault::TooLarge,
    PolicyFault::NoDefault,
    PolicyFault::AfterDefault,
];

/// The refusal of policy options.
static OPTION: [OptionFault; 1] = [OptionFault::OptionCount];

/// The refusal of a request for paths.
static COMBINATION: [CombineFault; 1] = [CombineFault::SameAs];

/// The refusals of the verifier; which hop the policy denies makes no difference to the sentence.
static PATH: [VerifyFault; 13] = [
    VerifyFault::PieceCount,
    VerifyFault::Range,
    VerifyFault::Kinds,
    VerifyFault::CutAtCore,
    VerifyFault::NotJoined,
    VerifyFault::Source,
    VerifyFault::Destination,
    VerifyFault::TooManyHops,
    VerifyFault::Loop,
    VerifyFault::Expired,
    VerifyFault::HeaderDiffers,
    VerifyFault::AclDenied(Denied { hop: 0, entry: 0 }),
    VerifyFault::SequenceMismatch,
];

/// Adds the sentence of the fault of this number, if it is among them.
fn push_among<F: NumberedFault>(
    text: &mut String,
    faults: &[F],
    code: usize,
) -> Result<(), AllocError> {
    for fault in faults {
        if usize::from(fault.code()) == code {
            return write!(text, "{fault}");
        }
    }
    Ok(())
}

/// Adds the sentence of the event's own refusal of this number, if there is one.
fn push_own(text: &mut String, code: usize) -> Result<(), AllocError> {
    for (fault, _) in &OWN_FAULTS {
        if usize::from(fault.code()) == code {
            return write!(text, "{fault}");
        }
    }
    Ok(())
}

/// The member that the event's own refusal of this number is about; the word, if there is none.
pub(crate) fn own_subject(code: usize) -> &'static str {
    for (fault, subject) in &OWN_FAULTS {
        if usize::from(fault.code()) == code {
            return subject;
        }
    }
    "do"
}

/// Adds the sentence of the refusal of this number; nothing if no line is refused with it.
pub(crate) fn push_sentence(text: &mut String, code: usize) -> Result<(), AllocError> {
    match code {
        10..=18 => push_among(text, &TOPOLOGY, code),
        31..=44 => push_among(text, &BEACON, code),
        50..=51 => push_among(text, &STORE, code),
        60..=66 => push_among(text, &POLICY, code),
        67 => push_among(text, &OPTION, code),
        70..=82 => push_among(text, &PATH, code),
        85 => push_among(text, &COMBINATION, code),
        _ => push_own(text, code),
    }
}
