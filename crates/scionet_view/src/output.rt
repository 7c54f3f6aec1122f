//! Standard output, whose reader may have gone.

ghost use Rattle.std.specs.Prelude.{◌≡◌};

use std::io;
use std::io::ErrorKind;
use streams::Sink;

/// A sink that knows whether nobody reads any more what it passes on.
#[derive(Drop)]
pub(crate) struct Output<K> {
    inner: K,
    is_closed: bool,
}

impl<K> Output<K> {
    /// The sink that passes all on to this one.
    pub(crate) fn new(inner: K) -> Output<K> {
        Output {
            inner,
            is_closed: false,
        }
    }

    /// Whether a write or a flush has failed since nobody reads any more.
    pub(crate) fn is_closed(&self) -> bool {
        self.is_closed
    }
}

impl<K: Sink> Sink for Output<K> {
    ghost held = { λ output. K.held output.inner };

    ghost failed = { λ output. K.failed output.inner };

    fn write(&mut self, bytes: &[u8]) -> io::Result<usize> {
        let result = self.inner.write(bytes);
        if let Err(error) = &result {
            self.is_closed = error.kind() == ErrorKind::BrokenPipe;
        }
        result
    }

    fn flush(&mut self) -> io::Result<()> {
        let result = self.inner.flush();
        if let Err(error) = &result {
            self.is_closed = error.kind() == ErrorKind::BrokenPipe;
        }
        result
    }
}
