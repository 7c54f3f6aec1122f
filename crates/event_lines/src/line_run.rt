//! A run whose lines come one by one.

ghost use Rattle.std.specs.Prelude.{◌≡◌, Ok, option_map};
ghost use Rattle.std.specs.String.{string_bytes};
ghost use Rattle.network_core.specs.Value.{NetValue};
ghost use Rattle.event_lines.specs.Answers.{Open, Unbegun};
ghost use Rattle.event_lines.specs.inner.Seen.{IsBlank};
ghost use Rattle.event_lines.specs.inner.Session.{Begins};
ghost use Rattle.event_lines.specs.Refusals.{coded};
ghost use Rattle.event_lines.specs.Replies.{RepliesUnlessFull, TellsUnlessFull, refusal_behind, reply_behind, stage_behind, stage_of};

use crate::accepted::AcceptedLines;
use crate::fault::RunFault;
use crate::happening::answer_line;
use crate::text::LineReply;
use json_fields::JsonRoom;
use network_core::Net;
use refusal::{NumberedFault, OrMemory};
use scion_topology::{Topology, TopologyFault};
use std::alloc::Global;
use std::fmt::Write;

/// A run whose lines come one by one: its network, once the topology was read; its reply to the
/// last line; and the room for reading a line, kept from line to line.
#[derive(Drop)]
pub struct LineRun {
    pub(crate) net: Option<Net>,
    pub(crate) reply: LineReply,
    json: JsonRoom,
}

/// The network of the first line, whose reply is written. [`RunFault::Topology`] if the line is no
/// topology.
#[tactic(auto, using(crate::proofs::Tells::begun_tells, crate::proofs::Tells::topology_tells))]
fn begin(alloc: Global, line: &[u8], reply: &mut LineReply) -> Result<Net, RunFault>
    requires { IsBlank reply.old }
    ensures begun { (accepted : AcceptedLines) → Begins accepted result line.now
        (string_bytes reply.new.text) }
    ensures refusal { TellsUnlessFull result (string_bytes reply.new.text)
        (coded reply.new.refusal) }
{
    match Topology::from_json(alloc, line) {
        Ok(topology) => {
            topology.known();
            reply.text.push_str("topology ok")?;
            Ok(Net::new(alloc, topology))
        }
        Err(OrMemory::Refused(fault)) => {
            reply.refusal = Some(fault.code_and_name());
            write!(reply.text, "topology no {} {}", fault.code(), fault.name())?;
            Err(RunFault::Topology)
        }
        Err(OrMemory::Memory) => Err(RunFault::Memory),
    }
}

impl LineRun {
    /// A run that has not begun.
    pub fn new(alloc: Global) -> Self
        ensures { stage_behind result ≡ Unbegun }
    {
        Self {
            net: None,
            reply: LineReply::new(alloc),
            json: JsonRoom::new(alloc),
        }
    }

    /// Answers a line without its end: the first begins the network, and each later one is an event
    /// or shows a packet. [`reply`](Self::reply) is the answer.
    ///
    /// [`RunFault::Topology`] if the first line is no topology, which is also the reply;
    /// [`RunFault::Memory`] if memory runs out. The run ends with either. No other fault comes.
    ///
    /// It takes the time and memory of the line's event, and more in proportion to its bytes.
    pub fn answer(
        &mut self,
        alloc: Global,
        accepted: AcceptedLines,
        line: &[u8],
    ) -> Result<(), RunFault>
        ensures replied { RepliesUnlessFull accepted result (stage_behind self.old) line.now
            (reply_behind self.new) (stage_behind self.new) }
        ensures refusal { TellsUnlessFull result (reply_behind self.new)
            (refusal_behind self.new) }
    {
        self.reply.clear();
        match &mut self.net {
            Some(net) => {
                let (json, reply) = (&mut self.json, &mut self.reply);
                answer_line(alloc, accepted, json, net, line, reply)?;
            }
            None => {
                let begun = begin(alloc, line, &mut self.reply)?;
                self.net = Some(begun);
            }
        }
        Ok(())
    }

    /// The reply to the last line; empty if there was none yet.
    pub fn reply(&self) -> &str
        ensures { result.now ≡ reply_behind self.now }
    {
        self.reply.text.as_str()
    }

    /// The number and the name of the refusal that the reply to the last line tells: that of the
    /// line, or of the packet whose turn it was. `None` if it tells none, or there was no reply
    /// yet.
    pub fn refusal(&self) -> Option<(u16, &'static str)>
        ensures { coded result ≡ refusal_behind self.now }
    {
        self.reply.refusal
    }

    /// The network after the last line, once the topology was read.
    pub fn net(&self) -> Option<&Net>
        ensures { stage_of (option_map (λ net. net.now) result) ≡ stage_behind self.now }
    {
        self.net.as_ref()
    }

    /// The network of a run that has begun.
    pub(crate) fn into_net(self) -> Net
        requires begun { (net : NetValue) × (stage_behind self ≡ Open net) }
        ensures { stage_behind self ≡ Open result }
    {
        let Self { net, .. } = self;
        net.unwrap()
    }
}
