//! Streams of bytes that a program reads from and writes to, and that remember whether they failed.
//!
//! A [`Source`] is read and a [`Sink`] is written. Contracts speak of the bytes of a stream, if the
//! device makes them known, and of its flag `failed`. A call sets the flag if and only if it
//! returns a fault, or writes none of at least one byte. [`Reader`] and [`Writer`] are streams over
//! std's readers and writers.
#![tactic(auto)]

mod fault;
mod input;
mod output;
mod reader;
mod stream;
mod writer;

pub use fault::{InputFault, WriteFailed};
pub use input::{MAX_INPUT_LEN, MAX_READ_LEN, read_all};
pub use output::write_all;
pub use reader::Reader;
pub use stream::{Sink, Source};
pub use writer::Writer;
