//! The path verifier: it decides whether pieces of segments with a header are a path that may be
//! sent between two ASes, at a given second and under a policy.
//!
//! A path has one to three pieces of segments: up to the core, across it, and down from it. Its
//! walk is the list of ASes that it passes, and its header is what routers read. No call of the
//! verifier takes memory.
#![tactic(auto)]

mod fault;
mod header;
mod kind;
pub mod laws;
mod owned;
mod path;
mod piece;
mod pieces;
mod shape;
mod verification;
mod walk;

pub use fault::VerifyFault;
pub use header::{field_of, info_of};
pub use kind::PieceKind;
pub use owned::{OwnedPiece, lend_all, to_owned_pieces};
pub use path::VerifiedPath;
pub use piece::Piece;
pub use pieces::Pieces;
pub use verification::{accept, verify};
pub use walk::Walk;
