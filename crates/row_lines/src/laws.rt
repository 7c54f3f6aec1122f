//! Laws of the lines of `examples/row.txt`: each is the contract of a function that does nothing.

ghost use Rattle.std.specs.Prelude.{◌≡◌, ℕ, List, Ok, Option, Some};
ghost use Rattle.network_core.specs.Value.{new_net};
ghost use Rattle.network_core.specs.History.{net_after};
ghost use Rattle.event_lines.specs.declared.accepted.AcceptedLines.{AcceptedLines};
ghost use Rattle.event_lines.specs.Answers.{Stage, Open, RepliesToInput};
ghost use Rattle.event_lines.specs.Run.{Runs};
ghost use Rattle.row_history.specs.Arrives.{Arrives};
ghost use Rattle.row_history.specs.Row.{row};
ghost use Rattle.row_lines.specs.Lines.{row_lines, row_text};
ghost use Rattle.row_lines.specs.Delivered.{HasDelivered};

/// There are replies to all of these lines that meet the contract of a run.
pub fn lines_have_replies()
    ensures { (texts : List (List ℕ)) × (stage : Stage)
        × RepliesToInput AcceptedLines.All row_lines texts stage }
{}

/// Whatever replies to these lines meet that contract, and whatever state they lead to: it is the
/// network in which the packet has arrived, as [`row_history::laws::packet_arrives`] says.
pub fn replies_deliver()
    ensures { (texts : List (List ℕ)) (stage : Stage)
        → RepliesToInput AcceptedLines.All row_lines texts stage
        → (arrives : Arrives) × (stage ≡ Open (net_after (new_net row) arrives.history)) }
{}

/// Whatever [`event_lines::run_lines`] does with a source that has the bytes of the file: if it
/// comes to its end without a fault, the packet has arrived, and the replies of such a run were
/// written.
pub fn every_run_delivers()
    ensures { (after held holds : Option (List ℕ)) → Runs (Ok tt) (Some row_text) after held holds
        → HasDelivered held holds }
{}
