//! The room of a host, into which an answer is written.

ghost use Rattle.std.specs.Prelude.{◌≡◌, ◌<◌, Err, Some};
ghost use Rattle.path_requests.specs.Told.{text_told};
ghost use Rattle.scion_ffi_paths.specs.Room.{IsPut};

use path_requests::RequestError;
use refusal::OrMemory;

/// What happened to an answer. `status` is 0 if its `len` bytes were written, 1 if the room has
/// fewer than the `len` bytes that it needs, and 2 if memory ran out.
#[repr(C)]
#[derive(Clone, Copy)]
pub struct ScionText {
    /// Whether it was written.
    pub status: u16,
    /// The length of the answer in bytes.
    pub len: usize,
}

/// Writes the text of an answer or of a refusal into the room, if it fits and memory did not run
/// out.
pub(crate) fn put_answer(answer: &Result<String, RequestError>, room: &mut [u8]) -> ScionText
    ensures put { IsPut (text_told answer.now) room.old room.new result }
    ensures wanted { result.status ≡ 2 → answer.now ≡ Err OrMemory.Memory }
{
    match answer {
        Ok(text) => put(text.as_str(), room),
        Err(OrMemory::Refused(fault)) => put(fault.text().as_str(), room),
        Err(OrMemory::Memory) => ScionText { status: 2, len: 0 },
    }
}

/// Writes a text into the room, if it fits.
fn put(text: &str, room: &mut [u8]) -> ScionText
    ensures put { IsPut (Some text.now) room.old room.new result }
    ensures told { result.status < 2 }
{
    let bytes = text.as_bytes();
    let len = bytes.len();
    if len > room.len() {
        return ScionText { status: 1, len };
    }
    room[..len].copy_from_slice(bytes);
    ScionText { status: 0, len }
}
