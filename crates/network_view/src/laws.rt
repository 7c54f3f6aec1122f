//! Laws of pictures of networks: each is the contract of a function that does nothing.

ghost use Rattle.std.specs.Prelude.{◌≡◌, ◌≢◌, ℕ, ◌<◌, ◌^◌, All, AllPairs};
ghost use Rattle.scion_topology.specs.Network.{Network};
ghost use Rattle.scion_topology.specs.Rules.{AreTwo, IsNetwork, ends_of};
ghost use Rattle.network_view.specs.Names.{box_name};

/// The boxes of two addresses have different names. So each AS of a network has a box of its own,
/// and no two ends of lines are at one interface.
pub fn named_once()
    ensures names { (one other : ℕ) → one < 2 ^ 64 → other < 2 ^ 64
        → box_name one ≡ box_name other → one ≡ other }
    ensures ases { (network : Network) → IsNetwork network
        → AllPairs (λ one other. one.ia ≢ other.ia) network.ases }
    ensures links { (network : Network) → IsNetwork network
        → AllPairs AreTwo (ends_of network.links) }
{}
