//! What is wrong with the lines that a run refuses.

ghost use Rattle.std.specs.Prelude.{◌≡◌, ◌||◌};
ghost use Rattle.event_lines.specs.Run.{is_read_fault, is_write_fault};
ghost use Rattle.views.specs.Explained.{ExplainsAll, form_of};

use event_lines::RunFault;
use line_faults::{FindingForm, explain};
use std::alloc::Global;
use streams::{Sink, Source};

/// The form of findings: objects, or lines of text.
fn form_of(is_json: bool) -> FindingForm
    ensures { result ≡ form_of is_json }
{
    if is_json {
        FindingForm::Json
    } else {
        FindingForm::Text
    }
}

/// Writes what is wrong with the lines that the source has, up to its end or to a topology that is
/// refused, each finding as a line of text or as an object. Returns whether something is wrong. The
/// faults are those of [`explain`] but for that.
pub(crate) fn explanation<S: Source, K: Sink>(
    alloc: Global,
    is_json: bool,
    source: &mut S,
    sink: &mut K,
) -> Result<bool, RunFault>
    ensures explains { ExplainsAll (form_of is_json) result (S.left source.old) (S.left source.new)
        (K.held sink.old) (K.held sink.new) }
    ensures source { S.failed source.new ≡ (S.failed source.old || is_read_fault result) }
    ensures sink { K.failed sink.new ≡ (K.failed sink.old || is_write_fault result) }
{
    let form = form_of(is_json);
    match explain(alloc, form, source, sink) {
        Ok(found) => Ok(found),
        Err(RunFault::Topology) => Ok(true),
        Err(fault) => Err(fault),
    }
}
