//! The lines of a source, each of which is explained as soon as it is answered.

ghost use Rattle.std.specs.Prelude.{◌≡◌, ◌+◌, ◌≤◌, ◌++◌, ◌∷◌, ◌||◌, [], true, false, length, option_map, Ok, Some};
ghost use Rattle.std.specs.String.{string_bytes};
ghost use Rattle.serde_json.specs.View.{view};
ghost use Rattle.json_fields.specs.Fields.{document_in};
ghost use Rattle.streams.specs.Streams.{most_input};
ghost use Rattle.event_lines.specs.Replies.{stage_behind};
ghost use Rattle.event_lines.specs.Run.{has_line_end, is_read_fault, is_write_fault};
ghost use Rattle.event_lines.specs.inner.Session.{last_after};
ghost use Rattle.line_faults.specs.Explained.{AreExplained};
ghost use Rattle.line_faults.specs.inner.Telling.{Exchanges, Finishes, TellsBytes, TellsLine, Writes, stands_at, telling_value, untold};

use crate::finding::FindingForm;
use crate::notes::{Ahead, Notes};
use event_lines::input::{read_into, wanted_after};
use event_lines::{AcceptedLines, LineRun, RunFault, cut_line};
use std::alloc::Global;
use streams::{MAX_INPUT_LEN, MAX_READ_LEN, Sink, Source, write_all};

/// A run whose lines are told: the run so far, what is kept of its lines, and the beginning of a
/// line whose end was not read yet.
#[derive(Drop)]
pub(crate) struct Telling {
    run: LineRun,
    notes: Notes,
    rest: Vec<u8>,
}

/// Answers a line of which this is known, and adds what there is to say of it.
fn tell_known(
    alloc: Global,
    run: &mut LineRun,
    notes: &mut Notes,
    line: &[u8],
    ahead: &Ahead,
) -> Result<(), RunFault>
    requires few { notes.old.number ≤ most_input }
    requires value { option_map view ahead.now.value ≡ document_in line.now }
    ensures { TellsLine result line.now (stands_at run.old notes.old) (stands_at run.new notes.new)
        (Some (string_bytes notes.old.text)) (Some (string_bytes notes.new.text)) }
{
    match run.answer(alloc, AcceptedLines::All, line) {
        Ok(()) => notes.tell(alloc, run, line, ahead),
        Err(RunFault::Topology) => {
            notes.tell(alloc, run, line, ahead)?;
            Err(RunFault::Topology)
        }
        Err(fault) => Err(fault),
    }
}

/// Answers a line, and adds what there is to say of it.
fn tell(alloc: Global, run: &mut LineRun, notes: &mut Notes, line: &[u8]) -> Result<(), RunFault>
    requires { notes.old.number ≤ most_input }
    ensures { TellsLine result line.now (stands_at run.old notes.old) (stands_at run.new notes.new)
        (Some (string_bytes notes.old.text)) (Some (string_bytes notes.new.text)) }
{
    let ahead = Ahead::of(alloc, run, line)?;
    tell_known(alloc, run, notes, line, &ahead)
}

impl Telling {
    /// A run that has not begun, for findings in this form.
    fn new(alloc: Global, form: FindingForm) -> Self
        ensures value { telling_value result ≡ untold form }
        ensures text { string_bytes result.notes.text ≡ [] }
    {
        Self {
            run: LineRun::new(alloc),
            notes: Notes::new(alloc, form),
            rest: Vec::new(alloc),
        }
    }

    /// Tells the line that was read so far.
    fn tell_rest(&mut self, alloc: Global) -> Result<(), RunFault>
        requires { self.old.notes.number ≤ most_input }
        ensures told { TellsLine result self.old.rest.items
            (stands_at self.old.run self.old.notes) (stands_at self.new.run self.new.notes)
            (Some (string_bytes self.old.notes.text)) (Some (string_bytes self.new.notes.text)) }
        ensures rest { result ≡ Ok tt → self.new.rest.items ≡ [] }
    {
        tell(alloc, &mut self.run, &mut self.notes, &self.rest)?;
        self.rest.clear();
        Ok(())
    }

    /// Tells the line that ends with these bytes. If all of the line is among them, it is not
    /// copied.
    fn tell_end(&mut self, alloc: Global, end: &[u8]) -> Result<(), RunFault>
        requires { self.old.notes.number ≤ most_input }
        ensures told { TellsLine result (self.old.rest.items ++ end.now)
            (stands_at self.old.run self.old.notes) (stands_at self.new.run self.new.notes)
            (Some (string_bytes self.old.notes.text)) (Some (string_bytes self.new.notes.text)) }
        ensures rest { result ≡ Ok tt → self.new.rest.items ≡ [] }
    {
        if self.rest.is_empty() {
            return tell(alloc, &mut self.run, &mut self.notes, end);
        }
        self.rest.extend_from_slice(end)?;
        self.tell_rest(alloc)
    }

    /// Tells each line that ends among these bytes, and keeps the bytes after the last end.
    fn tell_bytes(&mut self, alloc: Global, bytes: &[u8]) -> Result<(), RunFault>
        requires whole { has_line_end self.old.rest.items ≡ false }
        requires few { self.old.notes.number + length bytes.now ≤ most_input }
        ensures told { TellsBytes result bytes.now (telling_value self.old)
            (telling_value self.new)
            (Some (string_bytes self.old.notes.text)) (Some (string_bytes self.new.notes.text)) }
        ensures number { result ≡ Ok tt
            → self.new.notes.number ≤ self.old.notes.number + length bytes.now }
    {
        let mut left = bytes;
        while let Some((line, behind)) = cut_line(left) {
            self.tell_end(alloc, line)?;
            left = behind;
        }
        self.rest.extend_from_slice(left)?;
        Ok(())
    }

    /// Writes what was said and is not written yet.
    fn write<K: Sink>(&mut self, sink: &mut K) -> Result<(), RunFault>
        ensures written { Writes result (string_bytes self.old.notes.text)
            (string_bytes self.new.notes.text) (K.held sink.old) (K.held sink.new) }
        ensures same { telling_value self.new ≡ telling_value self.old }
        ensures flag { K.failed sink.new ≡ (K.failed sink.old || is_write_fault result) }
    {
        if write_all(sink, self.notes.text.as_bytes()).is_err() {
            return Err(RunFault::Write);
        }
        if sink.flush().is_err() {
            return Err(RunFault::Write);
        }
        self.notes.text.clear();
        Ok(())
    }

    /// Tells each line that ends among these bytes, and writes what was said.
    fn exchange<K: Sink>(
        &mut self,
        alloc: Global,
        bytes: &[u8],
        sink: &mut K,
    ) -> Result<(), RunFault>
        requires whole { has_line_end self.old.rest.items ≡ false }
        requires few { self.old.notes.number + length bytes.now ≤ most_input }
        requires written { string_bytes self.old.notes.text ≡ [] }
        ensures told { Exchanges result bytes.now (telling_value self.old)
            (telling_value self.new) (K.held sink.old) (K.held sink.new) }
        ensures number { result ≡ Ok tt
            → self.new.notes.number ≤ self.old.notes.number + length bytes.now }
        ensures text { result ≡ Ok tt → string_bytes self.new.notes.text ≡ [] }
        ensures flag { K.failed sink.new ≡ (K.failed sink.old || is_write_fault result) }
    {
        let told = self.tell_bytes(alloc, bytes);
        self.write(sink)?;
        told
    }

    /// Whether the run has begun and no bytes follow the last end of a line.
    fn is_done(&self) -> bool
        ensures done { result ≡ true
            → last_after (stage_behind self.now.run) self.now.rest.items ≡ [] }
        ensures more { result ≡ false → last_after (stage_behind self.now.run) self.now.rest.items
            ≡ self.now.rest.items ∷ [] }
    {
        match self.run.net() {
            Some(_) => self.rest.is_empty(),
            None => false,
        }
    }

    /// Tells the last line if it has no end, and writes what was said. An input without bytes is
    /// one empty line.
    fn finish<K: Sink>(&mut self, alloc: Global, sink: &mut K) -> Result<(), RunFault>
        requires few { self.old.notes.number ≤ most_input }
        requires written { string_bytes self.old.notes.text ≡ [] }
        ensures told { Finishes result (telling_value self.old)
            (stands_at self.new.run self.new.notes) (K.held sink.old) (K.held sink.new) }
        ensures flag { K.failed sink.new ≡ (K.failed sink.old || is_write_fault result) }
    {
        if self.is_done() {
            return Ok(());
        }
        let told = self.tell_rest(alloc);
        self.write(sink)?;
        told
    }
}

/// Answers the lines of a source as [`listen`](event_lines::listen) does, and writes what is found
/// in each, in this form, as soon as its reply is known. For each line that is refused there is a
/// finding: its number from 1, its reply, the place in it, what stands there, and what is wanted or
/// which rule it breaks. A `turn` at which a router refuses the packet has one too: the check that
/// fails, with both its sides, and the line that cut the link, changed the key or altered the
/// packet. After it, or alone if the line is right, come warnings: members that nobody reads, and
/// addresses in requests that no AS has. Of other lines nothing is said.
///
/// Returns whether something was found.
///
/// The faults are those of `listen`: [`RunFault::Topology`] after the finding about a topology that
/// is refused, and [`RunFault::Memory`] also if memory runs out for what is found in a line, of
/// which nothing is written then.
///
/// It takes the time and memory of `listen`, and for each line also time in proportion to its
/// bytes, and for a refused line that names an AS to the number of links. What is found in the
/// lines of one read of up to 8,192 bytes is held at a time; of earlier lines a few numbers are
/// kept for each link, each AS and each packet that they changed.
pub fn explain<S: Source, K: Sink>(
    alloc: Global,
    form: FindingForm,
    source: &mut S,
    sink: &mut K,
) -> Result<bool, RunFault>
    ensures explained { AreExplained form result (S.left source.old) (S.left source.new)
        (K.held sink.old) (K.held sink.new) }
    ensures source { S.failed source.new ≡ (S.failed source.old || is_read_fault result) }
    ensures sink { K.failed sink.new ≡ (K.failed sink.old || is_write_fault result) }
{
    let mut telling = Telling::new(alloc, form);
    let mut room = [0u8; MAX_READ_LEN];
    let mut count = 0;
    loop {
        let wanted = wanted_after(count);
        let Some(bytes) = read_into(source, &mut room[..wanted]) else {
            return Err(RunFault::Read);
        };
        if bytes.is_empty() {
            telling.finish(alloc, sink)?;
            return Ok(telling.notes.found);
        }
        if count == MAX_INPUT_LEN {
            return Err(RunFault::InputTooLong);
        }
        telling.exchange(alloc, bytes, sink)?;
        count += bytes.len();
    }
}
