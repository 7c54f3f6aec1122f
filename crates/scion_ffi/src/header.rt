//! Checking a path header, and reversing it.

ghost use Rattle.std.specs.Prelude.{◌≡◌};
ghost use Rattle.path_header.specs.Value.{header_len};
ghost use Rattle.path_header.specs.Reading.{read_at};
ghost use Rattle.scion_ffi.specs.Answer.{answer};
ghost use Rattle.scion_ffi.specs.Header.{IsTurnedRound, read_answer};

use crate::answer::{DONE, ScionAnswer, header_answer};
use path_header::{Header, decode, encode};

/// The length of a header in bytes.
fn len_answer(header: &Header) -> ScionAnswer
    ensures { result ≡ answer 0 (header_len header.now) }
{
    header.known();
    let len = 4 + 8 * header.info_count() + 12 * header.hop_count();
    ScionAnswer {
        code: DONE,
        number: len as u16,
    }
}

/// Whether these bytes begin with a path header. If they do, `number` is its length in bytes, at
/// most 796; else `code` says why not (20 to 26).
#[unsafe(no_mangle)]
pub extern "C" fn scion_header_check(bytes: &[u8]) -> ScionAnswer
    ensures { result ≡ read_answer (read_at bytes.now) }
{
    match decode(bytes) {
        Ok((header, _)) => len_answer(&header),
        Err(fault) => header_answer(fault),
    }
}

/// Replaces the path header at the front of these bytes by the header of the way back, which has
/// the same length. The answer is that of [`scion_header_check`]. Every byte after the header is as
/// before; if there is no header, every byte is.
#[unsafe(no_mangle)]
#[tactic(auto, using(crate::proofs::Turning::reversed_len))]
pub extern "C" fn scion_header_reverse(bytes: &mut [u8]) -> ScionAnswer
    ensures answer { result ≡ read_answer (read_at bytes.old) }
    ensures bytes { IsTurnedRound (read_at bytes.old) bytes.old bytes.new }
{
    let mut header = match decode(bytes) {
        Ok((header, _)) => header,
        Err(fault) => return header_answer(fault),
    };
    header.known();
    let answer = len_answer(&header);
    path_header::laws::reversed_twice();
    header.reverse();
    header.known();
    // It is as long as the header that was read there.
    encode(&header, bytes).unwrap();
    answer
}
