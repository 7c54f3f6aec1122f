//! Laws of beacons and segments: each is the contract of a function that does nothing.

ghost use Rattle.std.specs.Prelude.{◌≡◌, ℕ, Bool, List, [], ◌∷◌, ◌++◌, Ok};
ghost use Rattle.scion_topology.specs.Network.{Network};
ghost use Rattle.scion_topology.specs.Topology.{IsNetwork, set_up, with_rotated_key};
ghost use Rattle.path_segment.specs.Chain.{Chain};
ghost use Rattle.beaconing.specs.Entry.{key_in};
ghost use Rattle.beaconing.specs.Calls.{originated_beacon, come_to, extended_beacon, terminated_beacon};
ghost use Rattle.beaconing.specs.Issued.{IsUnderWay, IsIssued, ComesOver, Grows, keys_in_use, passed_through};

/// A beacon that an AS begins is under way, under the key that the AS has in use.
pub fn begun_is_under_way()
    ensures { (n : Network) (ia egress timestamp beta0 : ℕ) (beacon : Chain) → IsNetwork n
        → originated_beacon n ia egress timestamp beta0 ≡ Ok beacon
        → IsUnderWay n (key_in n ia ∷ []) beacon }
{}

/// A beacon under way that an AS passes on is under way; its keys are those before and the key that
/// the AS has in use.
pub fn passed_on_is_under_way()
    ensures { (n : Network) (keys : List (List ℕ)) (beacon : Chain) (ia egress : ℕ) (next : Chain)
        → IsNetwork n → IsUnderWay n keys beacon → extended_beacon n beacon ia egress ≡ Ok next
        → IsUnderWay n (keys ++ (key_in n ia ∷ [])) next }
{}

/// A beacon under way that ends in an AS becomes a segment that the network issues; its keys are
/// those before and the key that the AS has in use.
pub fn ended_is_issued()
    ensures { (n : Network) (keys : List (List ℕ)) (beacon : Chain) (ia : ℕ) (segment : Chain)
        → IsNetwork n → IsUnderWay n keys beacon → terminated_beacon n beacon ia ≡ Ok segment
        → IsIssued n (keys ++ (key_in n ia ∷ [])) segment }
{}

/// A segment that is begun, passed on any number of times and ended in one unchanged network is
/// issued under the keys that its own ASes have in use.
pub fn made_is_issued()
    ensures { (n : Network) (ia egress timestamp beta0 : ℕ) (hops : List (ℕ × ℕ)) (last : ℕ)
        (begun beacon segment : Chain) → IsNetwork n
        → originated_beacon n ia egress timestamp beta0 ≡ Ok begun
        → passed_through n begun hops ≡ Ok beacon
        → terminated_beacon n beacon last ≡ Ok segment
        → IsIssued n (keys_in_use n segment) segment }
{}

/// Each call adds one entry, that of the AS in which the beacon arrived; and the link by which it
/// arrived is up.
pub fn chains_grow_by_one()
    ensures extended { (n : Network) (beacon : Chain) (ia egress : ℕ) (next : Chain)
        → extended_beacon n beacon ia egress ≡ Ok next → Grows n beacon ia next }
    ensures terminated { (n : Network) (beacon : Chain) (ia : ℕ) (segment : Chain)
        → terminated_beacon n beacon ia ≡ Ok segment → Grows n beacon ia segment }
    ensures came { (n : Network) (beacon : Chain) (ia ingress : ℕ) → IsNetwork n
        → come_to n beacon ia ≡ Ok ingress → ComesOver n beacon ia ingress }
{}

/// A beacon under way stays so if a link goes up or down, or an AS changes its key.
pub fn beacons_outlast_changes()
    ensures links { (n m : Network) (up : Bool) (ia number : ℕ) (keys : List (List ℕ))
        (beacon : Chain)
        → set_up up ia number n ≡ Ok m → IsUnderWay n keys beacon → IsUnderWay m keys beacon }
    ensures rotations { (n m : Network) (ia : ℕ) (key : List ℕ) (keys : List (List ℕ))
        (beacon : Chain)
        → with_rotated_key ia key n ≡ Ok m → IsUnderWay n keys beacon → IsUnderWay m keys beacon }
{}

/// A segment that a network has issued stays so if a link goes up or down, or an AS changes its
/// key.
pub fn segments_outlast_changes()
    ensures links { (n m : Network) (up : Bool) (ia number : ℕ) (keys : List (List ℕ))
        (segment : Chain)
        → set_up up ia number n ≡ Ok m → IsIssued n keys segment → IsIssued m keys segment }
    ensures rotations { (n m : Network) (ia : ℕ) (key : List ℕ) (keys : List (List ℕ))
        (segment : Chain)
        → with_rotated_key ia key n ≡ Ok m → IsIssued n keys segment → IsIssued m keys segment }
{}
