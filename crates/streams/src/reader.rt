ghost use Rattle.std.specs.Prelude.{◌≡◌, false};
ghost use Rattle.std.specs.Io.{ReadsAtMost};
ghost use Rattle.std.specs.Io.KnownBytes.{ReadConsumes};
ghost use Rattle.streams.specs.Adapters.{reader_behind, reader_failed};

use crate::stream::Source;
use std::io;
use std::io::{Error, ErrorKind, Read};

/// A reader of std as a source. A read that a signal interrupts is tried again.
#[derive(Drop)]
pub struct Reader<R> {
    inner: R,
    failed: bool,
}

impl<R> Reader<R> {
    /// The source over this reader, without a failed read.
    pub fn new(inner: R) -> Reader<R>
        ensures reader { reader_behind result ≡ inner }
        ensures flag { reader_failed result ≡ false }
    {
        Reader {
            inner,
            failed: false,
        }
    }

    /// Whether a read has failed.
    pub fn has_failed(&self) -> bool
        ensures { result ≡ reader_failed self.now }
    {
        self.failed
    }

    /// The reader, in its present state.
    pub fn into_inner(self) -> R
        ensures { result ≡ reader_behind self }
    {
        self.inner
    }
}

/// A read that is tried again if a signal interrupts it.
fn read_retrying<R: Read>(reader: &mut R, room: &mut [u8]) -> io::Result<usize>
    ensures bound { ReadsAtMost result room.new }
    ensures bytes { ReadConsumes (R.remaining reader.old) (R.remaining reader.new) result room.new }
{
    for _ in 0..u64::MAX {
        match reader.read(room) {
            Ok(count) => return Ok(count),
            Err(error) if error.kind() == ErrorKind::Interrupted => {}
            Err(error) => return Err(error),
        }
    }
    Err(Error::from(ErrorKind::TimedOut))
}

impl<R: Read> Source for Reader<R> {
    ghost left = { λ source. R.remaining (reader_behind source) };

    ghost failed = { λ source. reader_failed source };

    fn read(&mut self, room: &mut [u8]) -> io::Result<usize> {
        let result = read_retrying(&mut self.inner, room);
        if result.is_err() {
            self.failed = true;
        }
        result
    }
}
