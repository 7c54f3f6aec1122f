//! Path policies: which walks over autonomous systems are allowed.
//!
//! A policy has an access control list and a sequence. In the list, the first entry that matches a
//! hop decides about it. The sequence is a regular expression over hops, and a walk must be a word
//! of it. Both are read from text, and can be kept in any allocator.
#![tactic(auto)]

mod acl;
mod acl_rules;
mod acl_text;
mod counting;
mod ends;
mod entry;
mod fault;
mod hop;
pub mod laws;
mod node;
mod option_fault;
mod options;
mod owned_option;
mod policy;
mod pred_set;
mod predicate;
mod printing;
mod reader;
mod room;
mod sequence;
mod table;
mod token;

pub use acl::{Acl, AclEntry, Denied};
pub use acl_text::AclText;
pub use counting::{MAX_NESTING, MAX_NODES};
pub use entry::MAX_ACL_ENTRIES;
pub use fault::{PolicyError, PolicyFault};
pub use hop::{HopPred, Interfaces, WalkHop};
pub use node::SeqNode;
pub use option_fault::{OptionError, OptionFault};
pub use options::{LawfulOptions, MAX_OPTIONS, OptionText, PolicyOption};
pub use owned_option::OwnedOptionText;
pub use policy::{Policy, PolicyText};
pub use sequence::Seq;
