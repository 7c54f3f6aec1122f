//! The answers to a host's calls.

ghost use Rattle.std.specs.Prelude.{◌≡◌};
ghost use Rattle.scion_ffi.specs.Answer.{answer, bad_call, header_answer, outcome_answer, refusal_answer, view_answer};

use path_header::HeaderFault;
use refusal::NumberedFault;
use router_step::{Outcome, Refusal};
use scion_topology::TopologyFault;

/// The code for a packet that goes over a link, and for any other call that was done.
pub(crate) const DONE: u16 = 0;

/// The code for a packet that goes to another router of the AS.
const TO_ROUTER: u16 = 1;

/// The code for a packet that is delivered.
const DELIVER: u16 = 2;

/// The code for a call with a number that has no meaning: there is no such kind of link, state of a
/// link or way in; or there are too many interfaces.
const BAD_CALL: u16 = 9;

/// The answer to a call: its result, or why it was refused.
///
/// `code` is 0 for a packet that goes over the link at interface `number`, and for any other call
/// that was done. It is 1 for a packet that goes to router `number` of the same AS, and 2 for a
/// packet that is delivered. Any other `code` is the number of a refusal: 9 for the call itself, 11
/// and 13 for the router's parts, 20 to 26 for a path header, and 90 to 100 for the router's
/// checks. At 90, `number` is the header's refusal.
#[repr(C)]
#[derive(Clone, Copy)]
pub struct ScionAnswer {
    /// The result, or the refusal's number.
    pub code: u16,
    /// The interface, the router, a length in bytes, or the header's refusal; else 0.
    pub number: u16,
}

/// The answer of this code alone.
pub(crate) fn plain(code: u16) -> ScionAnswer
    ensures { result ≡ answer code 0 }
{
    ScionAnswer { code, number: 0 }
}

/// The answer to a call with a number that has no meaning.
pub(crate) fn bad_call() -> ScionAnswer
    ensures { result ≡ bad_call }
{
    plain(BAD_CALL)
}

/// The answer about a packet that was not refused.
pub(crate) fn outcome_answer(outcome: Outcome) -> ScionAnswer
    ensures { result ≡ outcome_answer outcome }
{
    match outcome {
        Outcome::ToLink(interface) => ScionAnswer {
            code: DONE,
            number: interface.number(),
        },
        Outcome::ToRouter(router) => ScionAnswer {
            code: TO_ROUTER,
            number: u16::from(router),
        },
        Outcome::Deliver => plain(DELIVER),
    }
}

/// The answer about a packet that a router refuses.
pub(crate) fn refusal_answer(refusal: Refusal) -> ScionAnswer
    ensures { result ≡ refusal_answer refusal }
{
    match refusal {
        Refusal::BadHeader(fault) => ScionAnswer {
            code: refusal.code(),
            number: fault.code(),
        },
        _ => plain(refusal.code()),
    }
}

/// The answer about parts that are no router.
pub(crate) fn view_answer(fault: TopologyFault) -> ScionAnswer
    ensures { result ≡ view_answer fault }
{
    plain(fault.code())
}

/// The answer about bytes without a path header.
pub(crate) fn header_answer(fault: HeaderFault) -> ScionAnswer
    ensures { result ≡ header_answer fault }
{
    plain(fault.code())
}
