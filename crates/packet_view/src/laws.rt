//! Laws of the view of a packet: each is the contract of a function that does nothing.

ghost use Rattle.std.specs.Prelude.{◌≡◌, ℕ, List};
ghost use Rattle.scion_topology.specs.View.{View};
ghost use Rattle.path_header.specs.Shown.{without_value};
ghost use Rattle.router_step.specs.declared.arrival.Arrival.{Arrival};
ghost use Rattle.router_step.specs.Packet.{packet_step};
ghost use Rattle.packet_view.specs.Checks.{checks_of, verdict_of};

/// The checks shown are those of the step: the first that fails gives the step's refusal, and if
/// the step succeeds, all of them do.
pub fn checks_are_the_steps()
    ensures { (view : View) (now : ℕ) (arrival : Arrival) (packet : List ℕ)
        → verdict_of (checks_of view now arrival packet)
        ≡ without_value (packet_step view now arrival packet) }
{}
