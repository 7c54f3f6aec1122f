ghost use Rattle.std.specs.Prelude.{◌≡◌, false};
ghost use Rattle.std.specs.Io.{WritesAtMost};
ghost use Rattle.std.specs.Io.KnownBytes.{Keeps, WriteAppends};
ghost use Rattle.streams.specs.Streams.{is_failed_write};
ghost use Rattle.streams.specs.Adapters.{writer_behind, writer_failed};

use crate::stream::Sink;
use std::io;
use std::io::{Error, ErrorKind, Write};

/// A writer of std as a sink. A call that a signal interrupts is tried again.
#[derive(Drop)]
pub struct Writer<W> {
    inner: W,
    failed: bool,
}

impl<W> Writer<W> {
    /// The sink over this writer, without a failed call.
    pub fn new(inner: W) -> Writer<W>
        ensures writer { writer_behind result ≡ inner }
        ensures flag { writer_failed result ≡ false }
    {
        Writer {
            inner,
            failed: false,
        }
    }

    /// Whether a write or a flush has failed.
    pub fn has_failed(&self) -> bool
        ensures { result ≡ writer_failed self.now }
    {
        self.failed
    }

    /// The writer, in its present state.
    pub fn into_inner(self) -> W
        ensures { result ≡ writer_behind self }
    {
        self.inner
    }
}

/// A write that is tried again if a signal interrupts it.
fn write_retrying<W: Write>(writer: &mut W, bytes: &[u8]) -> io::Result<usize>
    ensures bound { WritesAtMost result bytes.now }
    ensures bytes { WriteAppends (W.contents writer.old) (W.contents writer.new) result bytes.now }
{
    for _ in 0..u64::MAX {
        match writer.write(bytes) {
            Ok(count) => return Ok(count),
            Err(error) if error.kind() == ErrorKind::Interrupted => {}
            Err(error) => return Err(error),
        }
    }
    Err(Error::from(ErrorKind::TimedOut))
}

/// A flush that is tried again if a signal interrupts it.
fn flush_retrying<W: Write>(writer: &mut W) -> io::Result<()>
    ensures { Keeps (W.contents writer.old) (W.contents writer.new) }
{
    for _ in 0..u64::MAX {
        match writer.flush() {
            Ok(()) => return Ok(()),
            Err(error) if error.kind() == ErrorKind::Interrupted => {}
            Err(error) => return Err(error),
        }
    }
    Err(Error::from(ErrorKind::TimedOut))
}

/// Whether a write failed: it returned a fault, or wrote none of at least one byte.
fn is_failed(answer: &io::Result<usize>, bytes: &[u8]) -> bool
    ensures { result ≡ is_failed_write answer.now bytes.now }
{
    match answer {
        Ok(count) => *count == 0 && !bytes.is_empty(),
        Err(_) => true,
    }
}

impl<W: Write> Sink for Writer<W> {
    ghost held = { λ sink. W.contents (writer_behind sink) };

    ghost failed = { λ sink. writer_failed sink };

    fn write(&mut self, bytes: &[u8]) -> io::Result<usize> {
        let result = write_retrying(&mut self.inner, bytes);
        if is_failed(&result, bytes) {
            self.failed = true;
        }
        result
    }

    fn flush(&mut self) -> io::Result<()> {
        let result = flush_retrying(&mut self.inner);
        if result.is_err() {
            self.failed = true;
        }
        result
    }
}
