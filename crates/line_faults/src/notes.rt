//! What is kept of the lines that were told.

ghost use Rattle.std.specs.Prelude.{◌≡◌, ◌+◌, ◌≤◌, [], Some, IfOk, option_map};
ghost use Rattle.std.specs.String.{string_bytes};
ghost use Rattle.serde_json.specs.View.{view};
ghost use Rattle.json_fields.specs.Fields.{document_in};
ghost use Rattle.streams.specs.Streams.{most_input};
ghost use Rattle.event_lines.specs.Refusals.{Tells};
ghost use Rattle.event_lines.specs.Replies.{refusal_behind, reply_behind};
ghost use Rattle.line_faults.specs.Explanation.{IsTold};
ghost use Rattle.line_faults.specs.inner.Adding.{Adds, AreFound};
ghost use Rattle.line_faults.specs.inner.Telling.{TellsReply, none_told, tally_of};

use crate::explanation::push_comments;
use crate::finding::FindingForm;
use crate::history::History;
use crate::json::read;
use crate::reason::Line;
use crate::refused::Context;
use crate::turn::stop_of;
use event_lines::{LineRun, RunFault};
use forwarding::RouterStop;
use serde_json::Value;
use std::alloc::{AllocError, Global};

/// What is known of a line before it is answered: its value, if it is JSON, and where the packet is
/// that it names.
#[derive(Drop)]
pub(crate) struct Ahead {
    pub(crate) value: Option<Value>,
    stop: Option<RouterStop>,
}

impl Ahead {
    /// Of the next line of a run.
    pub(crate) fn of(alloc: Global, run: &LineRun, line: &[u8]) -> Result<Ahead, AllocError>
        ensures { IfOk result (λ ahead. option_map view ahead.value ≡ document_in line.now) }
    {
        let value = read(alloc, line)?;
        let stop = match (run.net(), value.as_ref()) {
            (Some(net), Some(event)) => stop_of(net, event),
            _ => None,
        };
        Ok(Ahead { value, stop })
    }
}

/// What is kept of the lines that were told: how many there were, whether something was found in
/// them, and what they have made; what is found and not written yet; and the room for what is found
/// in one.
#[derive(Drop)]
pub(crate) struct Notes {
    pub(crate) number: usize,
    pub(crate) found: bool,
    pub(crate) form: FindingForm,
    pub(crate) text: String,
    history: History,
    comments: String,
}

impl Notes {
    /// Of no lines, for findings in this form.
    pub(crate) fn new(alloc: Global, form: FindingForm) -> Self
        ensures tally { tally_of result ≡ none_told form }
        ensures text { string_bytes result.text ≡ [] }
    {
        Self {
            number: 0,
            found: false,
            form,
            text: String::new(alloc),
            history: History::new(alloc),
            comments: String::new(alloc),
        }
    }

    /// Makes the findings of the next line, and notes what it has made. Returns whether there are
    /// any.
    fn explain(
        &mut self,
        alloc: Global,
        run: &LineRun,
        line: &[u8],
        ahead: &Ahead,
    ) -> Result<bool, AllocError>
        requires few { self.old.number ≤ most_input }
        requires refusal { Tells (reply_behind run.now) (refusal_behind run.now) }
        requires value { option_map view ahead.now.value ≡ document_in line.now }
        ensures told { IfOk result (λ found. Adds self.old.form
            (AreFound found (IsTold (self.old.number + 1) line.now (reply_behind run.now)))
            [] (string_bytes self.new.comments)) }
        ensures tally { tally_of self.new ≡ tally_of self.old }
        ensures text { self.new.text ≡ self.old.text }
    {
        let line = Line {
            number: self.number + 1,
            bytes: line,
            reply: run.reply(),
            refusal: run.refusal(),
        };
        let context = Context {
            net: run.net(),
            history: &self.history,
            stop: ahead.stop,
        };
        let value = ahead.value.as_ref();
        self.comments.clear();
        let found = push_comments(alloc, self.form, &mut self.comments, &context, &line, value)?;
        if let (Some(net), Some(event)) = (run.net(), value) {
            self.history.note(line.number, event, net)?;
        }
        Ok(found)
    }

    /// Adds the findings of the next line, which the run has just answered. If memory runs out, the
    /// text is as it was.
    pub(crate) fn tell(
        &mut self,
        alloc: Global,
        run: &LineRun,
        line: &[u8],
        ahead: &Ahead,
    ) -> Result<(), RunFault>
        requires few { self.old.number ≤ most_input }
        requires refusal { Tells (reply_behind run.now) (refusal_behind run.now) }
        requires value { option_map view ahead.now.value ≡ document_in line.now }
        ensures { TellsReply result line.now (reply_behind run.now) (tally_of self.old)
            (tally_of self.new) (Some (string_bytes self.old.text))
            (Some (string_bytes self.new.text)) }
    {
        let found = self.explain(alloc, run, line, ahead)?;
        self.text.push_str(&self.comments)?;
        self.number += 1;
        self.found = self.found || found;
        Ok(())
    }
}
