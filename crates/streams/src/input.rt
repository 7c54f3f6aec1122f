//! Reading a source to its end.

ghost use Rattle.std.specs.Prelude.{◌≡◌, ◌||◌, ◌+◌, ◌<◌, ◌≤◌, length, vec_len};
ghost use Rattle.streams.specs.Streams.{ReadsAll, is_failed_read};
ghost use Rattle.streams.specs.inner.Streams.{ReadsOn};

use crate::fault::InputFault;
use crate::stream::Source;
use std::alloc::Global;

/// The largest number of bytes of an input: 64 MiB.
pub const MAX_INPUT_LEN: usize = 67_108_864;

/// The largest number of bytes of one read.
pub const MAX_READ_LEN: usize = 8_192;

/// One read into the front of `room`, from where the bytes are added to those before. It returns
/// their number, which is 0 only at the end.
fn read_on<S: Source>(
    source: &mut S,
    most: u64,
    room: &mut [u8],
    bytes: &mut Vec<u8>,
) -> Result<usize, InputFault>
    requires some { 0 < length room.old }
    requires few { vec_len bytes.old ≤ most }
    ensures bytes { ReadsOn most (length room.old) result (S.left source.old) (S.left source.new)
        bytes.old.items bytes.new.items }
    ensures flag { S.failed source.new ≡ (S.failed source.old || is_failed_read result) }
{
    let Ok(count) = source.read(room) else {
        return Err(InputFault::Read);
    };
    if count as u64 > most - bytes.len() as u64 {
        return Err(InputFault::TooLong);
    }
    bytes.extend_from_slice(&room[..count])?;
    Ok(count)
}

/// All bytes that the source still has, at most `most`.
///
/// [`InputFault::TooLong`] if it has more, which is found when byte `most + 1` is read;
/// [`InputFault::Read`] if a read fails; [`InputFault::Memory`] if memory runs out for the bytes.
pub fn read_all<S: Source>(alloc: Global, source: &mut S, most: u64) -> Result<Vec<u8>, InputFault>
    ensures bytes { ReadsAll (λ bytes. bytes.items) most result
        (S.left source.old) (S.left source.new) }
    ensures flag { S.failed source.new ≡ (S.failed source.old || is_failed_read result) }
{
    let mut bytes = Vec::new(alloc);
    let mut room = [0u8; MAX_READ_LEN];
    loop {
        let wanted = (most - bytes.len() as u64).min(MAX_READ_LEN as u64 - 1) as usize + 1;
        if read_on(source, most, &mut room[..wanted], &mut bytes)? == 0 {
            return Ok(bytes);
        }
    }
}
