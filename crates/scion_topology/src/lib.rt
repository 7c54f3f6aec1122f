//! The network of a SCION process: its ASes, its links, and the views of its routers.
//!
//! A [`Topology`] is read from JSON with exact refusals. It answers queries by address and
//! interface, and changes when a link is cut or mended or a key is renewed. A [`RouterView`] is
//! what one router needs for its steps: the address of its AS, its own number, the keys that the AS
//! accepts, and the AS's interfaces. Only reading takes memory.
#![tactic(auto)]

mod as_lookup;
mod changes;
mod duplicates;
mod entry;
mod fault;
mod fields;
mod hints;
mod index;
mod keys;
pub mod laws;
mod lookup;
mod network;
mod queries;
mod table;
mod topology;
mod validation;
mod view;

pub use entry::{IfEntry, LinkKind};
pub use fault::{ReadError, TopologyFault};
pub use keys::{Key, Keys, MAX_KEY_LEN};
pub use network::{AsEntry, AsInfo, End, Link, LinkClass};
pub use topology::Topology;
pub use validation::{MAX_ASES, MAX_LINKS};
pub use view::RouterView;
