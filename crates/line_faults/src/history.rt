//! What the lines before a line have made, as far as the network does not tell it.
#![tactic(auto, unfolding(json_fields::specs::Fields::text_at))]

ghost use Rattle.std.specs.Prelude.{◌≡◌, option_map};
ghost use Rattle.serde_json.specs.View.{view};
ghost use Rattle.json_fields.specs.Fields.{text_at};
ghost use Rattle.line_faults.specs.inner.Following.{cause_of_lack};

use event_lines::members::MemberForm;
use forwarding::PacketLocation;
use isd_as::{IfId, IsdAs};
use network_core::Net;
use serde_json::Value;
use std::alloc::{AllocError, Global};
use std::collections::BTreeMap;

/// A line that altered a packet, and the byte that it altered.
#[derive(Clone, Copy)]
pub(crate) struct Alteration {
    pub(crate) line: usize,
    pub(crate) byte: u64,
}

/// The last lines that changed the key of an AS: the last, and the one before it.
#[derive(Clone, Copy)]
pub(crate) struct KeyChanges {
    pub(crate) last: usize,
    pub(crate) before: Option<usize>,
}

/// Lines that make a packet each, or a beacon each: how many of these there are, how many such
/// lines were refused, and the first of them.
#[derive(Clone, Copy, Default)]
pub(crate) struct Makers {
    made: usize,
    refused: usize,
    first_refused: usize,
}

impl Makers {
    /// Notes that this line was to make one more; there are `made` after it.
    fn note(&mut self, line: usize, made: usize) {
        if made > self.made {
            self.made = made;
            return;
        }
        if self.refused == 0 {
            self.first_refused = line;
        }
        self.refused = self.refused.saturating_add(1);
    }

    /// The first refused line, if the one of this number would be there had no such line been
    /// refused.
    pub(crate) fn cause_of_lack(&self, number: usize) -> Option<usize>
        ensures { result
            ≡ cause_of_lack self.now.made self.now.refused self.now.first_refused number }
    {
        if number < self.made || number - self.made >= self.refused {
            return None;
        }
        Some(self.first_refused)
    }
}

/// What the lines before a line have made: how many answers, which lines were to make packets and
/// beacons, which links are down since which line, whose key was changed by which lines, and which
/// packets were altered. There is an entry for a link, an AS or a packet at most.
#[derive(Drop)]
pub(crate) struct History {
    pub(crate) answers: usize,
    pub(crate) packets: Makers,
    pub(crate) beacons: Makers,
    cuts: BTreeMap<(u64, u16), usize>,
    keys: BTreeMap<u64, KeyChanges>,
    alterations: BTreeMap<usize, Alteration>,
}

impl History {
    /// Of no lines.
    pub(crate) fn new(alloc: Global) -> Self {
        Self {
            answers: 0,
            packets: Makers::default(),
            beacons: Makers::default(),
            cuts: BTreeMap::new(alloc),
            keys: BTreeMap::new(alloc),
            alterations: BTreeMap::new(alloc),
        }
    }

    /// The line since which the link at this interface is down.
    pub(crate) fn cut_at(&self, ia: IsdAs, interface: IfId) -> Option<usize> {
        self.cuts.get(&(ia.number(), interface.number())).copied()
    }

    /// The lines that changed the key of this AS.
    pub(crate) fn key_changes(&self, ia: IsdAs) -> Option<KeyChanges> {
        self.keys.get(&ia.number()).copied()
    }

    /// The last line that altered the packet of this number.
    pub(crate) fn alteration(&self, packet: usize) -> Option<Alteration> {
        self.alterations.get(&packet).copied()
    }

    /// Notes what the line of this number has made: an event, and the network after it.
    pub(crate) fn note(&mut self, line: usize, event: &Value, net: &Net) -> Result<(), AllocError> {
        match word_of(event) {
            "ask" if net.answer(self.answers).is_some() => {
                self.answers = self.answers.saturating_add(1);
                Ok(())
            }
            "send" | "back" => {
                self.packets.note(line, net.packets().len());
                Ok(())
            }
            "originate" | "extend" => {
                self.beacons.note(line, net.beacons().len());
                Ok(())
            }
            "cut" | "mend" => self.note_link(line, event, net),
            "rotate" => self.note_key(line, event, net),
            "alter" => self.note_alteration(line, event, net),
            _ => Ok(()),
        }
    }

    /// Notes at both its ends since when the link of an event is down, if it is.
    fn note_link(&mut self, line: usize, event: &Value, net: &Net) -> Result<(), AllocError> {
        let (Some(ia), Some(interface)) = (address_at(event, "ia"), interface_at(event, "if"))
        else {
            return Ok(());
        };
        let topology = net.topology();
        let (Ok(entry), Ok((far, other))) = (
            topology.interface(ia, interface),
            topology.far_end(ia, interface),
        ) else {
            return Ok(());
        };
        let is_up = entry.up;
        for end in [
            (ia.number(), interface.number()),
            (far.number(), other.number()),
        ] {
            if is_up {
                let _ = self.cuts.remove(&end);
            } else if !self.cuts.contains_key(&end) {
                self.cuts.insert(end, line)?;
            }
        }
        Ok(())
    }

    /// Notes that the AS of an event has another key, if it has.
    fn note_key(&mut self, line: usize, event: &Value, net: &Net) -> Result<(), AllocError> {
        let (Some(ia), Some(key)) = (address_at(event, "ia"), event.get("key")) else {
            return Ok(());
        };
        if net.topology().as_info(ia).is_err() || !MemberForm::Key.fits(key) {
            return Ok(());
        }
        let before = self.key_changes(ia).map(|changes| changes.last);
        self.keys
            .insert(ia.number(), KeyChanges { last: line, before })?;
        Ok(())
    }

    /// Notes that the packet of an event was altered, if it was.
    fn note_alteration(&mut self, line: usize, event: &Value, net: &Net) -> Result<(), AllocError> {
        let (Some(number), Some(byte)) = (number_at(event, "packet"), whole_of(event, "at")) else {
            return Ok(());
        };
        let Some(packet) = net.packet(number) else {
            return Ok(());
        };
        let is_on_its_way = matches!(packet.place(), PacketLocation::AtRouter(_));
        let is_there = byte < packet.bytes().len() as u64;
        let is_change = matches!(whole_of(event, "xor"), Some(1..=255));
        if is_on_its_way && is_there && is_change {
            self.alterations.insert(number, Alteration { line, byte })?;
        }
        Ok(())
    }
}

/// The word of an event; empty if it has none.
pub(crate) fn word_of(event: &Value) -> &str {
    text_of(event, "do").unwrap_or("")
}

/// The text of this name in an object.
pub(crate) fn text_of<'v>(object: &'v Value, name: &str) -> Option<&'v str>
    ensures { option_map (λ text. text.now) result ≡ text_at name.now (view object.now) }
{
    object.get(name)?.as_str()
}

/// The whole number of this name in an object.
pub(crate) fn whole_of(object: &Value, name: &str) -> Option<u64> {
    object.get(name)?.as_u64()
}

/// The number of this name in an event, as a place in a list.
pub(crate) fn number_at(event: &Value, name: &str) -> Option<usize> {
    usize::try_from(whole_of(event, name)?).ok()
}

/// The address of this name in an event.
pub(crate) fn address_at(event: &Value, name: &str) -> Option<IsdAs> {
    IsdAs::parse(text_of(event, name)?).ok()
}

/// The interface of this name in an event.
pub(crate) fn interface_at(event: &Value, name: &str) -> Option<IfId> {
    let number = u16::try_from(whole_of(event, name)?).ok()?;
    Some(IfId(number))
}
