//! The report about flights.

ghost use Rattle.std.specs.Prelude.{◌≡◌, IfOk};
ghost use Rattle.std.specs.String.{string_bytes};
ghost use Rattle.event_lines.specs.Run.{ended_lines};
ghost use Rattle.work_lines.specs.Report.{flight_text, report_lines};

use router_workers::End;
use std::alloc::{AllocError, Global};

/// The line about the end of the flight of this number, without its line end.
fn line(alloc: Global, number: usize, end: End) -> Result<String, AllocError>
    ensures { IfOk result (λ text. string_bytes text ≡ flight_text number end) }
{
    match end {
        End::Delivered(turns) => format!(in alloc; "flight {number} delivered {turns}"),
        End::Refused(cause, _) => {
            let mut line = format!(in alloc; "flight {number} refused ")?;
            cause.push_to(&mut line)?;
            Ok(line)
        }
        End::Dropped(_) => format!(in alloc; "flight {number} dropped"),
    }
}

/// The lines about the ends of the flights, in their order.
pub(crate) fn report(alloc: Global, ends: &[End]) -> Result<String, AllocError>
    ensures { IfOk result (λ text. string_bytes text ≡ ended_lines (report_lines 0 ends.now)) }
{
    let mut text = String::new(alloc);
    for (number, end) in ends.iter().enumerate() {
        let line = line(alloc, number, *end)?;
        text.push_str(line.as_str())?;
        text.push_str("\n")?;
    }
    Ok(text)
}
