ghost use Rattle.std.specs.Prelude.{◌≡◌, ◌||◌, ℕ, Bool, List, Option, None, is_err};
ghost use Rattle.std.specs.Io.{ReadsAtMost, WritesAtMost};
ghost use Rattle.std.specs.Io.KnownBytes.{Keeps, ReadConsumes, WriteAppends};
ghost use Rattle.streams.specs.Streams.{is_failed_write};

use std::io;

/// A stream that bytes are read from.
pub trait Source {
    /// The bytes that later reads will give, if the device makes them known.
    ghost left: { Self → Option (List ℕ) } = { λ _. None };

    /// Whether a read has failed.
    ghost failed: { Self → Bool };

    /// Reads some bytes into the front of `room` and returns their number. It is 0 only at the end,
    /// or if the room is empty.
    ///
    /// A fault sets the flag, and consumes nothing.
    fn read(&mut self, room: &mut [u8]) -> io::Result<usize>
        ensures bound { ReadsAtMost result room.new }
        ensures bytes { ReadConsumes (left self.old) (left self.new) result room.new }
        ensures flag { failed self.new ≡ (failed self.old || is_err result) };
}

/// A stream that bytes are written to.
pub trait Sink {
    /// The bytes that were written, if the device makes them known.
    ghost held: { Self → Option (List ℕ) } = { λ _. None };

    /// Whether a write or a flush has failed.
    ghost failed: { Self → Bool };

    /// Writes some bytes from the front of `bytes`, and returns their number.
    ///
    /// A fault sets the flag, and writes nothing; the flag is also set if no byte of at least one
    /// was written.
    fn write(&mut self, bytes: &[u8]) -> io::Result<usize>
        ensures bound { WritesAtMost result bytes.now }
        ensures bytes { WriteAppends (held self.old) (held self.new) result bytes.now }
        ensures flag { failed self.new ≡ (failed self.old || is_failed_write result bytes.now) };

    /// Passes what was written on to the device.
    ///
    /// A fault sets the flag.
    fn flush(&mut self) -> io::Result<()>
        ensures bytes { Keeps (held self.old) (held self.new) }
        ensures flag { failed self.new ≡ (failed self.old || is_err result) };
}
