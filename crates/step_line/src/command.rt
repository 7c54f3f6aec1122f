#![tactic(auto, unfolding(crate::specs::Line::line_of, crate::specs::Turn::turn_from))]

ghost use Rattle.std.specs.Prelude.{◌≡◌, IfOk, IsSome, OnErr, option_map};
ghost use Rattle.std.specs.Option.{option_copied};
ghost use Rattle.step_line.specs.Fields.{as_address_at, bounded_number_at};
ghost use Rattle.step_line.specs.Turn.{items_of, previous_of, turn_from, turn_with};
ghost use Rattle.step_line.specs.Line.{line_of};
ghost use Rattle.step_line.specs.Fault.{PrintsTurn};

use crate::fault::TurnFault;
use crate::fields::{arrival, bytes, interfaces, number, number_of_router};
use crate::line::{outcome_line, refusal_line};
use crate::texts::StepArgs;
use isd_as::IsdAs;
use router_step::{Arrival, step};
use scion_topology::{IfEntry, RouterView};
use separators::bytes::trim;
use std::alloc::{AllocError, Global};
use std::marker::Model;

/// The parts of a turn, of which a view can be made or not.
#[derive(Drop)]
struct TurnParts {
    ia: IsdAs,
    router: u8,
    key: Vec<u8>,
    previous: Option<Vec<u8>>,
    moment: u32,
    arrival: Arrival,
    table: Vec<IfEntry>,
}

/// One router's turn, read from texts: the router's view, the second of its step, and how the
/// packet came to it.
#[derive(Drop)]
pub struct StepCommand {
    parts: TurnParts,
}

impl Model for StepCommand {
    ghost use Rattle.std.specs.Prelude.{◌≡◌, Ok};
    ghost use Rattle.scion_topology.specs.Building.{view_of};
    ghost use Rattle.step_line.specs.Turn.{Turn, items_of, parts_seen};

    ghost Value = { Turn };

    ghost view = { λ c. record {
      view = parts_seen c.parts.ia c.parts.router c.parts.key.items (items_of c.parts.previous)
          c.parts.table.items;
      moment = c.parts.moment;
      arrival = c.parts.arrival;
    } };

    ghost invariant = { λ c. view_of c.parts.ia c.parts.router c.parts.key.items
        (items_of c.parts.previous) c.parts.table.items
        ≡ Ok (parts_seen c.parts.ia c.parts.router c.parts.key.items (items_of c.parts.previous)
        c.parts.table.items) };
}

impl StepCommand {
    /// The turn of these texts, or `None` if one of them can't be read or the parts are no view.
    ///
    /// [`AllocError`] if memory runs out, which it may only if the address and the number of the
    /// router can be read.
    pub fn from_texts(
        alloc: Global,
        texts: StepArgs<'_, '_>,
    ) -> Result<Option<StepCommand>, AllocError>
        ensures turn { IfOk result (λ o. o ≡ turn_from texts.entry) }
        ensures wanted { OnErr result (IsSome (as_address_at texts.entry.ia)
            × IsSome (bounded_number_at 0 63 texts.entry.router)) }
    {
        let Ok(ia) = IsdAs::parse(texts.ia) else {
            return Ok(None);
        };
        let Some(router) = number_of_router(texts.router) else {
            return Ok(None);
        };
        let Some(key) = bytes(alloc, texts.key.as_bytes())? else {
            return Ok(None);
        };
        let Some(previous) = previous_key(alloc, texts.previous)? else {
            return Ok(None);
        };
        let Some(moment) = number(texts.now, 0, 4294967295) else {
            return Ok(None);
        };
        let Some(arrival) = arrival(texts.from) else {
            return Ok(None);
        };
        let Some(table) = interfaces(alloc, texts.interfaces)? else {
            return Ok(None);
        };
        Ok(StepCommand::of_parts(TurnParts {
            ia,
            router,
            key,
            previous,
            moment: moment as u32,
            arrival,
            table,
        }))
    }

    /// The turn of these parts, or `None` if they are no view.
    fn of_parts(parts: TurnParts) -> Option<StepCommand>
        ensures { result ≡ turn_with parts.ia parts.router parts.key.items (items_of parts.previous)
            parts.moment parts.arrival parts.table.items }
    {
        if RouterView::new(
            parts.ia,
            parts.router,
            &parts.key,
            lend(&parts.previous),
            &parts.table,
        )
        .is_err()
        {
            return None;
        }
        Some(StepCommand { parts })
    }

    /// The router's view of its AS. It takes no memory.
    pub fn view(&self) -> RouterView<'_>
        ensures { result ≡ self.now.view }
    {
        let TurnParts {
            ia,
            router,
            key,
            previous,
            table,
            ..
        } = &self.parts;
        RouterView::new(*ia, *router, key, lend(previous), table).unwrap()
    }

    /// The second of the router's step.
    pub fn moment(&self) -> u32
        ensures { result ≡ self.now.moment }
    {
        self.parts.moment
    }

    /// How the packet came to the router.
    pub fn arrival(&self) -> Arrival
        ensures { result ≡ self.now.arrival }
    {
        self.parts.arrival
    }

    /// The line, without its end, that the turn prints for the packet that the text gives in
    /// hexadecimal. Letters may be of either case; spaces, tabs, CR and LF around the digits are
    /// ignored. The text need not be UTF-8.
    ///
    /// [`TurnFault::PacketText`] if the text is not hexadecimal digits, two for each byte.
    pub fn line(&self, alloc: Global, text: &[u8]) -> Result<String, TurnFault>
        ensures { PrintsTurn result (line_of self.now text.now) }
    {
        let Some(mut packet) = bytes(alloc, trim(text))? else {
            return Err(TurnFault::PacketText);
        };
        match step(&self.view(), self.moment(), self.arrival(), &mut packet) {
            Ok(outcome) => Ok(outcome_line(alloc, outcome, &packet)?),
            Err(refusal) => Ok(refusal_line(alloc, refusal)?),
        }
    }
}

/// The key before, if one is given; `None` if its text is no hexadecimal.
fn previous_key(alloc: Global, text: Option<&str>) -> Result<Option<Option<Vec<u8>>>, AllocError>
    ensures { IfOk result (λ o. option_map items_of o ≡ previous_of (option_copied text.entry)) }
{
    let Some(text) = text else {
        return Ok(Some(None));
    };
    match bytes(alloc, text.as_bytes())? {
        Some(key) => Ok(Some(Some(key))),
        None => Ok(None),
    }
}

/// The bytes of a key, if there is one.
fn lend(key: &Option<Vec<u8>>) -> Option<&[u8]>
    ensures { option_copied result ≡ items_of key.now }
{
    match key {
        Some(key) => Some(key),
        None => None,
    }
}
