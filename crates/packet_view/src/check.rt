ghost use Rattle.std.specs.Prelude.{◌≡◌, ◌++◌, [], ◌∷◌, OnOk};
ghost use Rattle.packet_view.specs.Checks.{check_with};
ghost use Rattle.packet_view.specs.inner.Part.{parts_text};

use crate::part::{Part, add_parts};
use router_step::Refusal;
use std::alloc::{AllocError, Global};
use std::marker::Model;

/// A check of a router on a packet: the sides that it compares, and whether it succeeds or gives
/// the packet's refusal.
#[derive(Drop)]
pub(crate) struct Check {
    pub(crate) sides: String,
    pub(crate) verdict: Result<(), Refusal>,
}

impl Model for Check {
    ghost use Rattle.std.specs.String.{string_bytes};
    ghost use Rattle.packet_view.specs.Checks.{CheckValue};

    ghost Value = { CheckValue };

    ghost view = { λ c. record { sides = string_bytes c.sides; verdict = c.verdict } };
}

/// Adds the check with these sides and this verdict.
pub(crate) fn add_check(
    alloc: Global,
    checks: &mut Vec<Check>,
    parts: &[Part<'_>],
    verdict: Result<(), Refusal>,
) -> Result<(), AllocError>
    ensures { OnOk result (checks.new.items ≡ checks.old.items
        ++ record { sides = parts_text parts.now; verdict = verdict } ∷ []) }
{
    let mut sides = String::new(alloc);
    add_parts(alloc, &mut sides, parts)?;
    checks.push(Check { sides, verdict })?;
    Ok(())
}

/// Adds the check with these sides, which succeeds if `holds` and else gives this refusal.
pub(crate) fn add_test(
    alloc: Global,
    checks: &mut Vec<Check>,
    parts: &[Part<'_>],
    holds: bool,
    refusal: Refusal,
) -> Result<(), AllocError>
    ensures { OnOk result (checks.new.items ≡ checks.old.items
        ++ check_with (parts_text parts.now) holds refusal ∷ []) }
{
    let verdict = if holds { Ok(()) } else { Err(refusal) };
    add_check(alloc, checks, parts, verdict)
}
