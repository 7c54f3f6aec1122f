#![tactic(auto, unfolding(crate::specs::Text::fault_json))]

ghost use Rattle.std.specs.Prelude.{◌≡◌, ◌≤◌, Some, length};
ghost use Rattle.path_requests.specs.Fault as faults;
ghost use Rattle.path_requests.specs.Fault.{of_segment};
ghost use Rattle.path_requests.specs.Text.{fault_json};

use arrayvec::ArrayString;
use combinator::{BAD_LIMIT, CombineFault};
use itoa::Buffer;
use path_header::HeaderFault;
use path_segment::SegmentFault;
use path_verifier::VerifyFault;
use policy_expr::OptionFault;
use refusal::{NumberedFault, OrMemory};
use std::fmt;

/// Why a request is refused.
#[derive(Clone, Copy, Debug)]
pub enum RequestFault {
    /// The bytes are no object in the form of a request.
    BadRequest,
    /// A segment breaks the rules of segments.
    Segment(SegmentFault),
    /// The limit is not 1 to 64.
    BadLimit,
    /// The policy options can't be read.
    Policy(OptionFault),
    /// Both ends are the same AS.
    Ends(CombineFault),
    /// The bytes of the header do not begin with a path header.
    Header(HeaderFault),
    /// The path may not be sent.
    Path(VerifyFault),
}

/// The largest number of bytes in the text of a refusal.
pub const MAX_FAULT_LEN: usize = 128;

impl RequestFault {
    /// Its text in an answer. It takes no memory, so that a refusal is told even where memory ran
    /// out.
    pub fn text(self) -> ArrayString<MAX_FAULT_LEN>
        ensures { result.bytes ≡ fault_json self }
    {
        let (code, name) = self.code_and_short_name();
        let mut digits = Buffer::new();
        let mut text = ArrayString::new();
        text.push_str("{\"code\":");
        text.push_str(digits.format(code));
        text.push_str(",\"name\":\"");
        text.push_str(name);
        text.push_str("\"}");
        text
    }

    /// Its number and its name, which has at most 32 bytes.
    fn code_and_short_name(self) -> (u16, &'static str)
        ensures code { result.0 ≡ (faults.code_and_name self).0 }
        ensures name { result.1.now ≡ (faults.code_and_name self).1 }
        ensures short { length result.1.now ≤ 32 }
    {
        self.code_and_name()
    }

    /// The refusal of a request because one of its segments is refused.
    pub(crate) fn of_segment(fault: SegmentFault) -> RequestFault
        ensures { result ≡ of_segment fault }
    {
        match fault {
            SegmentFault::NotJson => RequestFault::BadRequest,
            broken => RequestFault::Segment(broken),
        }
    }
}

// As an answer has it, since that is all that a host sees of it.
impl fmt::Display for RequestFault {
    ghost output = { λ fault. Some (fault_json fault) };

    fn fmt<W: fmt::Write>(&self, f: &mut fmt::Formatter<W>) -> fmt::Result {
        f.write_str(self.text().as_str())
    }
}

impl NumberedFault for RequestFault {
    ghost code_and_name = { faults.code_and_name };

    fn code_and_name(self) -> (u16, &'static str) {
        match self {
            Self::BadRequest => (150, "BadRequest"),
            Self::Segment(fault) => fault.code_and_name(),
            Self::BadLimit => BAD_LIMIT,
            Self::Policy(fault) => fault.code_and_name(),
            Self::Ends(fault) => fault.code_and_name(),
            Self::Header(fault) => fault.code_and_name(),
            Self::Path(fault) => fault.code_and_name(),
        }
    }
}

/// Why a call that takes memory returned nothing: memory ran out, or a refusal.
pub type RequestError = OrMemory<RequestFault>;
