//! Cutting bytes into lines.

ghost use Rattle.std.specs.Prelude.{◌≡◌, None, IfSome, false};
ghost use Rattle.event_lines.specs.Run.{IsLineCut, has_line_end};

use memchr::memchr;

/// The end of a line.
const LINE_END: u8 = b'\n';

/// The first line of the bytes without its end, and the bytes after it; `None` if the bytes have no
/// end of a line.
pub fn cut_line(bytes: &[u8]) -> Option<(&[u8], &[u8])>
    ensures cut { IfSome result (λ parts. IsLineCut bytes.now parts.0.now parts.1.now) }
    ensures none { result ≡ None → has_line_end bytes.now ≡ false }
{
    let place = memchr(LINE_END, bytes)?;
    Some((&bytes[..place], &bytes[place + 1..]))
}
