//! The calls of a host.

ghost use Rattle.std.specs.Prelude.{◌≡◌};
ghost use Rattle.path_requests.specs.Asked.{MayWantMemory};
ghost use Rattle.path_requests.specs.Answer.{AnswersPaths};
ghost use Rattle.path_requests.specs.Verdict.{AnswersVerify};
ghost use Rattle.scion_ffi_paths.specs.Room.{IsAnsweredInRoom};

use crate::room::{ScionText, put_answer};
use path_requests::{paths_answer, verdict_answer};
use std::alloc::Global;

/// Writes the paths that answer a request into the room, as [`paths_answer`] has them. If the
/// request is refused, it writes the number and the name of the refusal.
#[unsafe(no_mangle)]
pub extern "C" fn scion_paths(alloc: Global, request: &[u8], room: &mut [u8]) -> ScionText
    ensures answered { IsAnsweredInRoom (AnswersPaths request.now) room.old room.new result }
    // Memory can run out only if the request is UTF-8 and not too long.
    ensures wanted { result.status ≡ 2 → MayWantMemory request.now }
{
    let answer = paths_answer(alloc, request);
    put_answer(&answer, room)
}

/// Writes into the room whether a path may be sent, as [`verdict_answer`] has it. If it may not, it
/// writes the number and the name of the first refusal.
#[unsafe(no_mangle)]
pub extern "C" fn scion_verify(alloc: Global, request: &[u8], room: &mut [u8]) -> ScionText
    ensures answered { IsAnsweredInRoom (AnswersVerify request.now) room.old room.new result }
    // Memory can run out only if the request is UTF-8 and not too long.
    ensures wanted { result.status ≡ 2 → MayWantMemory request.now }
{
    let answer = verdict_answer(alloc, request);
    put_answer(&answer, room)
}
