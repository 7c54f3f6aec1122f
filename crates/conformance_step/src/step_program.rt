use crate::step::words;
use commands::{CommandFault, Status, WordsFault, end, run};
use std::alloc::Global;
use std::io;
use std::io::{Read, Write};
use std::sync::Wait;
use std::test::Fail;
use std::thread::Threads;
use streams::{Reader, Writer};

/// The words of a router's turn with a packet of a host, at this second.
fn host_words<'a>(now: &'a str) -> [&'a str; 12] {
    words(now, "host", "2,parent,0,up")
}

/// A packet of two hops that expired at second 21700, in hexadecimal.
fn late_packet() -> &'static [u8] {
    b"0001ff00000001100001ff0000000111000020000000b39600000064003f00020000b1b2b3b4b5b6003f0000\
      0001a1a2a3a4a5a6\n"
}

/// A reader that a signal interrupts before it gives these bytes.
#[derive(Drop)]
struct Interrupted<'a> {
    bytes: &'a [u8],
    is_over: bool,
}

impl<'a> Read for Interrupted<'a> {
    fn read(&mut self, room: &mut [u8]) -> io::Result<usize> {
        if !self.is_over {
            self.is_over = true;
            return Err(io::Error::from(io::ErrorKind::Interrupted));
        }
        self.bytes.read(room)
    }
}

/// A stream whose reads and writes fail.
#[derive(Drop)]
struct Broken(io::ErrorKind);

impl Read for Broken {
    fn read(&mut self, _room: &mut [u8]) -> io::Result<usize> {
        Err(io::Error::from(self.0))
    }
}

impl Write for Broken {
    fn write(&mut self, _bytes: &[u8]) -> io::Result<usize> {
        Err(io::Error::from(self.0))
    }

    fn flush(&mut self) -> io::Result<()> {
        Ok(())
    }
}

/// A writer that takes no byte.
#[derive(Drop)]
struct Full;

impl Write for Full {
    fn write(&mut self, _bytes: &[u8]) -> io::Result<usize> {
        Ok(0)
    }

    fn flush(&mut self) -> io::Result<()> {
        Ok(())
    }
}

/// How a run ended, and its output.
#[derive(Drop)]
struct Ended {
    status: Status,
    output: Vec<u8>,
    errors: Vec<u8>,
}

impl Ended {
    /// Whether it ended with this status and wrote these texts.
    fn is(&self, code: u8, output: &str, errors: &str) -> bool {
        self.status.code() == code
            && self.output.as_slice() == output.as_bytes()
            && self.errors.as_slice() == errors.as_bytes()
    }

    /// Whether the words were refused, with a text that has these words.
    fn is_refused_with(&self, words: &str) -> bool {
        let Ok(errors) = std::str::from_utf8(&self.errors) else {
            return false;
        };
        self.status == Status::Refused && self.output.is_empty() && errors.contains(words)
    }
}

/// A run over this input.
fn ran<'a, T: Threads + Wait + Sync, R: Read + Drop>(
    rt: &T,
    alloc: Global,
    words: &'a [&'a str],
    input: R,
) -> Ended {
    let mut output = Writer::new(Vec::new(alloc));
    let mut errors = Writer::new(Vec::new(alloc));
    let mut source = Reader::new(input);
    let status = run(rt, alloc, words, &mut source, &mut output, &mut errors);
    Ended {
        status,
        output: output.into_inner(),
        errors: errors.into_inner(),
    }
}

/// A run that writes to this stream.
fn ran_into<T: Threads + Wait + Sync, W: Write + Drop>(rt: &T, alloc: Global, output: W) -> Ended {
    let mut sink = Writer::new(output);
    let mut errors = Writer::new(Vec::new(alloc));
    let mut source = Reader::new(late_packet());
    let status = run(
        rt,
        alloc,
        &host_words("21701"),
        &mut source,
        &mut sink,
        &mut errors,
    );
    Ended {
        status,
        output: Vec::new(alloc),
        errors: errors.into_inner(),
    }
}

/// Words that are refused or ask for help, before any input is read.
#[test]
fn bad_words(rt: HostRuntime) -> Result<(), Fail> {
    let no_number = ran(
        &rt,
        rt.alloc(),
        &host_words("soon"),
        Broken(io::ErrorKind::Other),
    );
    assert!(rt; no_number.is_refused_with("invalid value 'soon' for '--now <T>'"));
    let signed = ran(
        &rt,
        rt.alloc(),
        &host_words("+1"),
        Broken(io::ErrorKind::Other),
    );
    assert!(rt; signed.is(2, "", "scionet: usage\n"));
    let nothing = ran(&rt, rt.alloc(), &["--"], Broken(io::ErrorKind::Other));
    assert!(rt; nothing.is(2, "", "scionet: usage\n"));
    let empty = ran(&rt, rt.alloc(), &[""], Broken(io::ErrorKind::Other));
    assert!(rt; empty.is_refused_with("''"));
    let help = ran(
        &rt,
        rt.alloc(),
        &["step", "--help"],
        Broken(io::ErrorKind::Other),
    );
    assert!(rt; help.is_refused_with("Usage: scionet step [OPTIONS] --ia <IA> --router <N>"));
    assert!(rt; help.is_refused_with("--previous <HEX>"));
    assert!(rt; help.is_refused_with("in seconds since 1970"));
    let help = ran(
        &rt,
        rt.alloc(),
        &["run", "--help"],
        Broken(io::ErrorKind::Other),
    );
    assert!(rt; help.is_refused_with("Usage: scionet run"));
    assert!(rt; help.is_refused_with("ask src dst limit"));
    assert!(rt; help.is_refused_with("ask 0 1; 1-ff00:0:111#0,1 1-ff00:0:110#1,0"));
    let help = ran(&rt, rt.alloc(), &["--help"], Broken(io::ErrorKind::Other));
    assert!(rt; help.is_refused_with("'{\"do\":\"tick\",\"now\":1000}' | scionet"));
    Ok(())
}

/// Streams that fail, at once or later.
#[test]
fn bad_streams(rt: HostRuntime) -> Result<(), Fail> {
    let read_failed = "scionet: read failed\n";
    let broken = ran(
        &rt,
        rt.alloc(),
        &host_words("21701"),
        Broken(io::ErrorKind::Other),
    );
    assert!(rt; broken.is(1, "", read_failed));
    let breaking = late_packet().chain(Broken(io::ErrorKind::Other));
    assert!(rt; ran(&rt, rt.alloc(), &host_words("21701"), breaking).is(1, "", read_failed));
    let no_memory = ran(
        &rt,
        rt.alloc(),
        &host_words("21701"),
        Broken(io::ErrorKind::OutOfMemory),
    );
    assert!(rt; no_memory.is(1, "", read_failed));
    let write_failed = "scionet: write failed\n";
    assert!(rt; ran_into(&rt, rt.alloc(), Broken(io::ErrorKind::Other)).is(1, "", write_failed));
    assert!(rt; ran_into(&rt, rt.alloc(), Full).is(1, "", write_failed));
    Ok(())
}

/// The largest input, which is blank and so a packet of no bytes, and one byte more.
#[test]
fn long_input(rt: HostRuntime) -> Result<(), Fail> {
    let longest = ran(
        &rt,
        rt.alloc(),
        &host_words("21701"),
        io::repeat(b' ').take(67_108_864),
    );
    assert!(rt; longest.is(0, "refused 90 BadHeader 20 Short\n", ""));
    let too_long = ran(
        &rt,
        rt.alloc(),
        &host_words("21701"),
        io::repeat(b' ').take(67_108_865),
    );
    assert!(rt; too_long.is(1, "", "scionet: input too long\n"));
    let endless = ran(&rt, rt.alloc(), &host_words("21701"), io::repeat(b'0'));
    assert!(rt; endless.is(1, "", "scionet: input too long\n"));
    Ok(())
}

/// Reads that a signal interrupts are tried again.
#[test]
fn tried_again(rt: HostRuntime) -> Result<(), Fail> {
    let input = Interrupted {
        bytes: late_packet(),
        is_over: false,
    };
    assert!(rt;
        ran(&rt, rt.alloc(), &host_words("21701"), input).is(0, "refused 93 Expired\n", "")
    );
    Ok(())
}

/// Faults before a run, with and without a message.
#[test]
fn faults_before(rt: HostRuntime) -> Result<(), Fail> {
    let unreadable = io::Error::from(io::ErrorKind::InvalidData);
    let refused = CommandFault::from(WordsFault::unreadable(&unreadable));
    let mut errors = Writer::new(Vec::new(rt.alloc()));
    assert_eq!(rt; end(&refused, &mut errors).code(), 2);
    assert!(rt; errors.into_inner().as_slice() == b"scionet: usage\n".as_slice());
    let no_memory = CommandFault::Memory;
    assert_eq!(rt; end(&no_memory, &mut Writer::new(Full)).code(), 1);
    let mut broken = Writer::new(Broken(io::ErrorKind::Other));
    assert_eq!(rt; end(&no_memory, &mut broken).code(), 1);
    Ok(())
}
