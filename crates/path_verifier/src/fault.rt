ghost use Rattle.path_verifier.specs.Fault as faults;

use policy_expr::Denied;
use refusal::NumberedFault;
use thiserror::Error;

/// Why a path may not be sent.
#[derive(Clone, Copy, Debug, PartialEq, Eq, Error)]
pub enum VerifyFault {
    /// There is no piece, or a fourth one was added.
    #[error("a path has one to three pieces")]
    PieceCount,
    /// The places of a piece are not the places of two entries of its segment, the first before the
    /// second.
    #[error("a piece is not from one entry of its segment to a later one")]
    Range,
    /// The pieces are not up, core and down pieces in this order, at most one of each.
    #[error("the pieces are not up, core and down in this order")]
    Kinds,
    /// A core piece is not whole, or a piece next to it doesn't begin at the first entry of its
    /// segment. Or, without a core piece, one of two pieces begins there and the other does not.
    #[error("a piece is cut where it may not be")]
    CutAtCore,
    /// A piece doesn't begin in the AS in which the piece before it ends.
    #[error("adjoining pieces don't meet in one AS")]
    NotJoined,
    /// The path doesn't begin in the source AS.
    #[error("the path does not begin in the source")]
    Source,
    /// The path doesn't end in the destination AS.
    #[error("the path does not end in the destination")]
    Destination,
    /// The path has more than 64 hop fields.
    #[error("a path has at most 64 hop fields")]
    TooManyHops,
    /// The walk passes an AS twice.
    #[error("the walk names an AS twice")]
    Loop,
    /// A hop of the path is not live.
    #[error("a hop of the path has expired")]
    Expired,
    /// The header is not that of the pieces.
    #[error("the header is not that of the pieces")]
    HeaderDiffers,
    /// The policy's list denies a hop of the walk: this is the first such hop, and the entry that
    /// denies it.
    #[error("the policy denies a hop of the walk")]
    AclDenied(Denied),
    /// The walk is not a word of the policy's sequence.
    #[error("the walk is not a word of the policy's sequence")]
    SequenceMismatch,
}

impl NumberedFault for VerifyFault {
    ghost code_and_name = { faults.code_and_name };

    fn code_and_name(self) -> (u16, &'static str) {
        match self {
            Self::PieceCount => (70, "PieceCount"),
            Self::Range => (71, "Range"),
            Self::Kinds => (72, "Kinds"),
            Self::CutAtCore => (73, "CutAtCore"),
            Self::NotJoined => (74, "NotJoined"),
            Self::Source => (75, "Source"),
            Self::Destination => (76, "Destination"),
            Self::TooManyHops => (77, "TooManyHops"),
            Self::Loop => (78, "Loop"),
            Self::Expired => (79, "Expired"),
            Self::HeaderDiffers => (80, "HeaderDiffers"),
            Self::AclDenied(_) => (81, "AclDenied"),
            Self::SequenceMismatch => (82, "SequenceMismatch"),
        }
    }
}
