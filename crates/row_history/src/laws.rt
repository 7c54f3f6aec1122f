//! Laws of three ASes in a row: each is the contract of a function that does nothing.

ghost use Rattle.std.specs.Prelude.{◌≡◌, List, map};
ghost use Rattle.network_core.specs.Value.{new_net};
ghost use Rattle.network_core.specs.History.{EventRecord, IsHistory};
ghost use Rattle.row_history.specs.Row.{row, row_events};
ghost use Rattle.row_history.specs.Arrives.{Arrives};

/// In three ASes in a row a segment is made, paths are asked for, and a packet is sent on the path
/// of the answer and turned three times. No event is refused, all premises of the headline hold,
/// and the packet is delivered by its third turn and not before.
pub fn packet_arrives()
    ensures { Arrives }
{}

/// These events have no other history: whatever has happened when they are over, the packet has
/// arrived.
pub fn is_the_only_history()
    ensures { (history : List EventRecord) → IsHistory (new_net row) history
        → map (λ one. one.event) history ≡ row_events
        → (arrives : Arrives) × (arrives.history ≡ history) }
{}
