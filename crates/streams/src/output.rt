//! Writing all bytes of a slice.

ghost use Rattle.std.specs.Prelude.{◌≡◌, ◌||◌, OnOk, is_err};
ghost use Rattle.std.specs.Io.KnownBytes.{Appends};
ghost use Rattle.streams.specs.Streams.{AppendsFront};

use crate::fault::WriteFailed;
use crate::stream::Sink;

/// Writes all of the bytes, in at most one write for each byte.
///
/// [`WriteFailed`] if a write fails or writes none of at least one byte; the bytes before it stay
/// written.
pub fn write_all<K: Sink>(sink: &mut K, bytes: &[u8]) -> Result<(), WriteFailed>
    ensures written { OnOk result (Appends (K.held sink.old) (K.held sink.new) bytes.now) }
    ensures front { AppendsFront (K.held sink.old) (K.held sink.new) bytes.now }
    ensures flag { K.failed sink.new ≡ (K.failed sink.old || is_err result) }
{
    let mut rest = bytes;
    while !rest.is_empty() {
        match sink.write(rest) {
            Ok(count) if count > 0 => rest = &rest[count..],
            _ => return Err(WriteFailed),
        }
    }
    Ok(())
}
