ghost use Rattle.std.specs.Prelude.{◌≡◌, ◌==◌, IfOk, IsTrue, length, OnErr, option_map};
ghost use Rattle.std.specs.Str.{is_utf8};
ghost use Rattle.serde_json.specs.Read.{read};
ghost use Rattle.json_fields.specs.Fields.{document_in};
ghost use Rattle.json_fields.specs.Documents.{document_data, node_data};

use crate::node::Node;
use crate::numbers::are_numbers_in_range;
use crate::room::JsonRoom;
use json::{Error, Reader, Value};
use std::alloc::{AllocError, Global};
use std::str;

/// How deep arrays and objects may nest, as in `serde_json`.
pub const MAX_DEPTH: usize = 127;

/// The value of a JSON text. Its texts are borrowed.
#[derive(Drop)]
pub struct Document<'a> {
    value: Value<'a>,
}

impl<'a> Document<'a> {
    /// The value of a JSON text: `None` if the bytes are not UTF-8 or no JSON.
    ///
    /// [`AllocError`] if memory ran out, which it can only if the bytes are UTF-8.
    pub fn read(
        alloc: Global,
        room: &'a mut JsonRoom,
        bytes: &'a [u8],
    ) -> Result<Option<Document<'a>>, AllocError>
        ensures value { IfOk result (λ found. option_map (λ d. document_data d) found
            ≡ document_in bytes.now) }
        ensures wanted { OnErr result (IsTrue (is_utf8 bytes.now)) }
    {
        let Ok(text) = str::from_utf8(bytes) else {
            return Ok(None);
        };
        Document::read_text(alloc, room, text)
    }

    /// The value of a text: `None` if it is no JSON.
    fn read_text(
        alloc: Global,
        room: &'a mut JsonRoom,
        text: &'a str,
    ) -> Result<Option<Document<'a>>, AllocError>
        ensures { IfOk result (λ found. option_map (λ d. document_data d) found ≡ read text.now) }
    {
        let mut reader = Reader::new(text, &mut room.scratch)?;
        let value = match Value::read(alloc, &mut reader, MAX_DEPTH) {
            Ok(value) => value,
            Err(Error::Invalid) => return Ok(None),
            // The other errors of `read` say that memory ran out.
            Err(_) => return Err(AllocError),
        };
        if !is_at_end(&mut reader) || !are_numbers_in_range(&value) {
            return Ok(None);
        }
        Ok(Some(Document { value }))
    }

    /// The whole value.
    pub fn root(&self) -> Node<'_, 'a>
        ensures { node_data result ≡ document_data self.now }
    {
        Node::new(&self.value)
    }
}

/// Whether no token follows.
fn is_at_end(reader: &mut Reader<'_>) -> bool
    ensures { result ≡ (length reader.old == 0) }
{
    reader.next().is_none()
}
