//! Reading JSON texts, and the fields of their objects, each of the type that the caller wants.
//!
//! A document means what `serde_json` reads of the same text. Its texts are borrowed, and the room
//! that reading needs is kept from text to text.
//!
//! Every reader of a field returns `None` if the value is no object, has no member of that name, or
//! has a member of another type. The caller chooses the refusal for such a value. Other members are
//! ignored.
#![tactic(auto)]

mod document;
mod each;
mod node;
mod node_list;
mod numbers;
mod room;

pub use document::{Document, MAX_DEPTH};
pub use each::items;
pub use node::Node;
pub use node_list::NodeList;
pub use room::JsonRoom;
