//! Reading an input in parts, each of which is answered before the next one is read.

ghost use Rattle.std.specs.Prelude.{◌≡◌, ◌+◌, ◌<◌, ◌≤◌, ◌||◌, is_none, length, option_map};
ghost use Rattle.streams.specs.Streams.{most_input};
ghost use Rattle.event_lines.specs.Run.{Brings};

use streams::{MAX_INPUT_LEN, MAX_READ_LEN, Source};

/// The number of bytes to read next after `count` bytes of an input. At the limit it is 1, to find
/// out whether more bytes follow.
pub fn wanted_after(count: usize) -> usize
    requires { count ≤ most_input }
    ensures some { 0 < result }
    ensures room { result ≤ 8192 }
    ensures fits { count < most_input → count + result ≤ most_input }
    ensures last { count ≡ most_input → result ≡ 1 }
{
    let left = MAX_INPUT_LEN - count;
    if left == 0 { 1 } else { left.min(MAX_READ_LEN) }
}

/// The bytes of the next read, in `room`; none at the end, and `None` if it fails.
pub fn read_into<'r, S: Source>(source: &mut S, room: &'r mut [u8]) -> Option<&'r [u8]>
    requires { 0 < length room.old }
    ensures bytes { Brings (option_map (λ bytes. bytes.now) result) (S.left source.old)
        (S.left source.new) (length room.old) }
    ensures flag { S.failed source.new ≡ (S.failed source.old || is_none result) }
{
    match source.read(room) {
        Ok(count) => Some(&room[..count]),
        Err(_) => None,
    }
}
