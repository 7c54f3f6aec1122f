//! The packet to which a line gives a turn.
#![tactic(auto, unfolding(crate::specs::Lines::turned_by))]

ghost use Rattle.std.specs.Prelude.{◌≡◌, IfOk};
ghost use Rattle.run_capture.specs.Lines.{turned_by};

use event_lines::fields::read_u32;
use json_fields::{Document, JsonRoom};
use std::alloc::{AllocError, Global};

/// The packet to which a line gives a turn, if it does.
pub(crate) fn turned_by(
    alloc: Global,
    room: &mut JsonRoom,
    line: &[u8],
) -> Result<Option<u32>, AllocError>
    ensures { IfOk result (λ found. found ≡ turned_by line.now) }
{
    let Some(document) = Document::read(alloc, room, line)? else {
        return Ok(None);
    };
    let object = document.root();
    let Some(word) = object.text("do") else {
        return Ok(None);
    };
    match word {
        "turn" => Ok(read_u32(&object, "packet")),
        _ => Ok(None),
    }
}
