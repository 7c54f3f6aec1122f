//! The names of SCION: isolation domains, autonomous systems and their addresses, and interfaces.
//!
//! An ISD-AS address is one number of 64 bits: 16 bits for the ISD, then 48 bits for the AS number.
//! This crate reads addresses from text and from bytes, and prints each in its one canonical text.
#![tactic(auto)]

mod address;
mod fault;
pub mod laws;
mod numbers;
mod reading;
mod writing;

pub use address::IsdAs;
pub use fault::AddrFault;
pub use numbers::{AsNumber, IfId, Isd};
pub use writing::MAX_TEXT_LEN;
