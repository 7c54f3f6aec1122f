use json::Scratch;
use std::alloc::Global;

/// Room for reading JSON texts, kept from text to text.
#[derive(Drop)]
pub struct JsonRoom {
    pub(crate) scratch: Scratch,
}

impl JsonRoom {
    /// Room for reading, which grows to the longest text.
    pub fn new(alloc: Global) -> JsonRoom {
        JsonRoom {
            scratch: Scratch::new(alloc),
        }
    }
}
