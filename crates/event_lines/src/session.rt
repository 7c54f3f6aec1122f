//! A session: a run whose lines come in parts.

ghost use Rattle.std.specs.Prelude.{◌≡◌, ◌++◌, ◌∷◌, [], true, false, if◌then◌else◌, is_ok, Ok, Err};
ghost use Rattle.std.specs.String.{string_bytes};
ghost use Rattle.network_core.specs.Value.{NetValue};
ghost use Rattle.event_lines.specs.Replies.{stage_behind};
ghost use Rattle.event_lines.specs.Run.{has_line_end, line_end};
ghost use Rattle.event_lines.specs.Answers.{Open};
ghost use Rattle.event_lines.specs.inner.Session.{AnswersBytes, IsRunDone, RepliesOrFails, last_lines, session_value, unbegun_session};

use crate::accepted::AcceptedLines;
use crate::cutting::cut_line;
use crate::fault::RunFault;
use crate::line_run::LineRun;
use network_core::Net;
use std::alloc::{AllocError, Global};

/// A run so far; the beginning of a line whose end was not read yet; and the replies that are not
/// written yet.
#[derive(Drop)]
pub(crate) struct Session {
    pub(crate) run: LineRun,
    pub(crate) rest: Vec<u8>,
    pub(crate) replies: String,
}

/// Adds a reply and the end of its line. If memory runs out, the replies are as they were.
fn add_reply(replies: &mut String, reply: &mut String) -> Result<(), AllocError>
    ensures { string_bytes replies.new ≡ (if is_ok result
        then string_bytes replies.old ++ (string_bytes reply.old ++ line_end ∷ [])
        else string_bytes replies.old) }
{
    reply.push_str("\n")?;
    replies.push_str(reply)
}

/// Answers a line, and adds the reply.
fn answer(
    alloc: Global,
    accepted: AcceptedLines,
    run: &mut LineRun,
    line: &[u8],
    replies: &mut String,
) -> Result<(), RunFault>
    ensures { RepliesOrFails accepted (λ _. stage_behind run.new) result (stage_behind run.old)
        line.now (string_bytes replies.old) (string_bytes replies.new) }
{
    match run.answer(alloc, accepted, line) {
        Ok(()) => Ok(add_reply(replies, &mut run.reply.text)?),
        Err(RunFault::Topology) => {
            add_reply(replies, &mut run.reply.text)?;
            Err(RunFault::Topology)
        }
        Err(fault) => Err(fault),
    }
}

impl Session {
    /// A run that has not begun.
    pub(crate) fn new(alloc: Global) -> Session
        ensures { session_value result ≡ unbegun_session }
    {
        Session {
            run: LineRun::new(alloc),
            rest: Vec::new(alloc),
            replies: String::new(alloc),
        }
    }

    /// Whether the run has begun and no bytes follow the last end of a line.
    pub(crate) fn is_done(&self) -> bool
        ensures done { result ≡ true → (net : NetValue) × IsRunDone (session_value self.now) net }
        ensures more { result ≡ false
            → last_lines (session_value self.now) ≡ self.now.rest.items ∷ [] }
    {
        match &self.run.net {
            Some(_) => self.rest.is_empty(),
            None => false,
        }
    }

    /// The network of the run.
    pub(crate) fn into_net(self) -> Net
        requires begun { (net : NetValue) × (stage_behind self.run ≡ Open net) }
        ensures { stage_behind self.run ≡ Open result }
    {
        self.run.into_net()
    }

    /// Answers the line that was read so far, which had no end.
    pub(crate) fn answer(&mut self, alloc: Global, accepted: AcceptedLines) -> Result<(), RunFault>
        ensures told { RepliesOrFails accepted (λ _. stage_behind self.new.run) result
            (stage_behind self.old.run)
            self.old.rest.items (string_bytes self.old.replies) (string_bytes self.new.replies) }
        ensures rest { self.new.rest ≡ self.old.rest }
    {
        answer(
            alloc,
            accepted,
            &mut self.run,
            &self.rest,
            &mut self.replies,
        )
    }

    /// Answers the line that ends with these bytes. If all of the line is among them, it is not
    /// copied.
    fn end_line(
        &mut self,
        alloc: Global,
        accepted: AcceptedLines,
        end: &[u8],
    ) -> Result<(), RunFault>
        ensures told { RepliesOrFails accepted (λ _. stage_behind self.new.run) result
            (stage_behind self.old.run)
            (self.old.rest.items ++ end.now) (string_bytes self.old.replies)
            (string_bytes self.new.replies) }
        ensures rest { result ≡ Ok tt → self.new.rest.items ≡ [] }
    {
        if self.rest.is_empty() {
            return answer(alloc, accepted, &mut self.run, end, &mut self.replies);
        }
        self.rest.extend_from_slice(end)?;
        self.answer(alloc, accepted)?;
        self.rest.clear();
        Ok(())
    }

    /// Answers each line that ends among these bytes, and keeps the bytes after the last end.
    pub(crate) fn answer_bytes(
        &mut self,
        alloc: Global,
        accepted: AcceptedLines,
        bytes: &[u8],
    ) -> Result<(), RunFault>
        requires { has_line_end self.old.rest.items ≡ false }
        ensures { AnswersBytes accepted result bytes.now (session_value self.old)
            (session_value self.new) }
    {
        let mut left = bytes;
        while let Some((line, behind)) = cut_line(left) {
            self.end_line(alloc, accepted, line)?;
            left = behind;
        }
        self.rest.extend_from_slice(left)?;
        Ok(())
    }
}
