//! Laws of views and of topologies: each is the contract of a function that does nothing. Proofs
//! may use a law by citing the lemma of `proofs/` that its proof names.

ghost use Rattle.std.specs.Prelude.{◌≡◌, ◌≢◌, ℕ, ◌<◌, ◌↔◌, All, Bool, true, IfSome, IsSome, List, Contains, None, Ok, Option, Some, IfOk, IsTrue};
ghost use Rattle.scion_topology.specs.declared.entry.IfEntry.{IfEntry};
ghost use Rattle.scion_topology.specs.declared.network.AsEntry.{AsEntry};
ghost use Rattle.scion_topology.specs.declared.network.Link.{Link};
ghost use Rattle.scion_topology.specs.View.{View, IsRight, IsAuthentic, entry_of, is_authentic};
ghost use Rattle.scion_topology.specs.Keys.{accepted_keys, renewed_keys};
ghost use Rattle.scion_topology.specs.Building.{view_of};
ghost use Rattle.scion_topology.specs.Causes.{cause_of};
ghost use Rattle.scion_topology.specs.Network.{Network, as_named, table_of, mirrored_kind, interface_in};
ghost use Rattle.scion_topology.specs.Rules.{IsAs, IsNetwork, IsNumbered};
ghost use Rattle.scion_topology.specs.Topology.{known_as, interface_at, far_end_in, owner_in, set_up, with_rotated_key};
ghost use Rattle.scion_topology.specs.Ends.{ShowsBothEnds, AreJoined, IsEndOf, IsUp, IsStill, IsSame};

/// A network keeps its rules if and only if each AS and each link keeps its own, and `cause_of`
/// finds no fault in the whole.
pub fn rules_without_cause()
    ensures none { (n : Network) → IsNetwork n → cause_of n.ases n.links ≡ None }
    ensures kept { (n : Network) → All IsAs n.ases → All IsNumbered n.links
        → cause_of n.ases n.links ≡ None → IsNetwork n }
{}

/// A view that is built has exactly the parts that it was built from, and they keep the rules.
pub fn view_shows_its_parts()
    ensures { (ia router : ℕ) (key : List ℕ) (previous : Option (List ℕ)) (table : List IfEntry)
        → IfOk (view_of ia router key previous table) (λ view.
        (view ≡ record {
          ia = ia;
          router = router;
          keys = accepted_keys key previous;
          table = table;
        })
        × IsRight view) }
{}

/// A view is built from any parts that keep the rules.
pub fn right_parts_are_accepted()
    ensures { (view : View) (key : List ℕ) (previous : Option (List ℕ)) → IsRight view
        → view.keys ≡ accepted_keys key previous
        → view_of view.ia view.router key previous view.table ≡ Ok view }
{}

/// Looking up the number of an interface in a view finds that interface.
pub fn interfaces_named_once()
    ensures { (view : View) (entry : IfEntry) → IsRight view → Contains view.table entry
        → entry_of view entry.number ≡ Some entry }
{}

/// `is_authentic` is true if and only if the authenticator is right under an accepted key.
pub fn authentic_by_test()
    ensures { (view : View) (mac : List ℕ) (beta timestamp exp_time cons_ingress cons_egress : ℕ)
        → IsTrue (is_authentic view mac beta timestamp exp_time cons_ingress cons_egress)
        ↔ IsAuthentic view mac beta timestamp exp_time cons_ingress cons_egress }
{}

/// In every topology, the far end of the far end of a link is the near end.
pub fn far_end_of_far_end()
    ensures { (n : Network) (ia number far_ia far_number : ℕ) → IsNetwork n
        → far_end_in n ia number ≡ Ok (far_ia, far_number)
        → far_end_in n far_ia far_number ≡ Ok (ia, number) }
{}

/// An interface is owned by a router of its AS.
pub fn owner_is_a_router()
    ensures { (n : Network) (ia number router : ℕ) (one : AsEntry) → IsNetwork n
        → owner_in n ia number ≡ Ok router → known_as n ia ≡ Ok one → router < one.routers }
{}

/// Both ends of a link agree: both are up or both are down. Both ends of a core link are Core; the
/// parent's end of a child link is Child, and the child's end is Parent.
pub fn ends_are_mirrored()
    ensures alike { (n : Network) (ia number far_ia far_number : ℕ) (near : IfEntry) → IsNetwork n
        → far_end_in n ia number ≡ Ok (far_ia, far_number)
        → interface_in (table_of ia n.links) number ≡ Some near
        → IfSome (interface_in (table_of far_ia n.links) far_number)
        (λ far. (far.kind ≡ mirrored_kind near.kind) × (far.up ≡ near.up)) }
    ensures there { (n : Network) (ia number far_ia far_number : ℕ) → IsNetwork n
        → far_end_in n ia number ≡ Ok (far_ia, far_number)
        → IsSome (interface_in (table_of ia n.links) number) }
{}

/// No interface of a network has the number 0.
pub fn no_interface_is_zero()
    ensures { (n : Network) (ia number : ℕ) (entry : IfEntry) → IsNetwork n
        → interface_at n ia number ≡ Ok entry → number ≢ 0 }
{}

/// Each AS that is found keeps the rules of an AS; so it has a key in use.
pub fn found_as_is_right()
    ensures { (n : Network) (ia : ℕ) (one : AsEntry) → IsNetwork n
        → as_named n.ases ia ≡ Some one → IsAs one × (one.ia ≡ ia) }
{}

/// For each link of the list, the queries give both its interfaces, their owners, and that each end
/// leads to the other.
pub fn links_show_both_ends()
    ensures { (n : Network) (link : Link) → IsNetwork n → Contains n.links link
        → ShowsBothEnds n link }
{}

/// If an interface leads to a far end, a link of the list joins the two; and each interface is an
/// end of a link of the list.
pub fn links_alone_are_shown()
    ensures far_ends { (n : Network) (ia number far_ia far_number : ℕ) → IsNetwork n
        → far_end_in n ia number ≡ Ok (far_ia, far_number)
        → AreJoined n ia number far_ia far_number }
    ensures interfaces { (n : Network) (ia number : ℕ) (entry : IfEntry)
        → interface_at n ia number ≡ Ok entry → IsEndOf n ia number entry }
{}

/// A network keeps its rules if a link is cut or mended, or a key is renewed.
pub fn networks_outlast_changes()
    ensures links { (n m : Network) (up : Bool) (x y : ℕ) → IsNetwork n
        → set_up up x y n ≡ Ok m → IsNetwork m }
    ensures keys { (n m : Network) (x : ℕ) (key : List ℕ) → IsNetwork n
        → with_rotated_key x key n ≡ Ok m → IsNetwork m }
{}

/// A new key changes the keys of one AS only, which still accepts the key in use before. The other
/// ASes, all links, and each interface with its owner and its far end stay as they were.
pub fn keys_change_alone()
    ensures own { (n m : Network) (x : ℕ) (key : List ℕ) (one : AsEntry)
        → with_rotated_key x key n ≡ Ok m
        → as_named n.ases x ≡ Some one
        → as_named m.ases x ≡ Some (record one { keys = renewed_keys key one.keys }) }
    ensures others { (n m : Network) (x ia : ℕ) (key : List ℕ) → with_rotated_key x key n ≡ Ok m
        → x ≢ ia
        → as_named m.ases ia ≡ as_named n.ases ia }
    ensures links { (n m : Network) (x : ℕ) (key : List ℕ) → with_rotated_key x key n ≡ Ok m
        → m.links ≡ n.links }
    ensures interfaces { (n m : Network) (x ia number : ℕ) (key : List ℕ)
        → with_rotated_key x key n ≡ Ok m
        → IsSame n m ia number }
{}

/// Cutting or mending a link changes no AS, and of the interfaces only their states.
pub fn states_change_alone()
    ensures ases { (n m : Network) (up : Bool) (x y : ℕ) → set_up up x y n ≡ Ok m
        → m.ases ≡ n.ases }
    ensures interfaces { (n m : Network) (up : Bool) (x y ia number : ℕ) → set_up up x y n ≡ Ok m
        → IsStill n m ia number }
{}

/// After a link was cut or mended, both its ends have the new state. An interface of another link
/// stays as it was; and mending any link leaves an interface as it was if its link is up.
pub fn named_link_changes()
    ensures both_ends { (n m : Network) (up : Bool) (x y far_ia far_number : ℕ) → IsNetwork n
        → set_up up x y n ≡ Ok m → far_end_in n x y ≡ Ok (far_ia, far_number)
        → IsUp m x y up × IsUp m far_ia far_number up }
    ensures others { (n m : Network) (up : Bool) (x y ia number far_ia far_number : ℕ)
        → IsNetwork n → set_up up x y n ≡ Ok m
        → far_end_in n ia number ≡ Ok (far_ia, far_number)
        → ¬ ((ia ≡ x) × (number ≡ y)) → ¬ ((far_ia ≡ x) × (far_number ≡ y))
        → interface_at m ia number ≡ interface_at n ia number }
    ensures mended { (n m : Network) (x y ia number : ℕ) (entry : IfEntry)
        → set_up true x y n ≡ Ok m → interface_at n ia number ≡ Ok entry → entry.up ≡ true
        → interface_at m ia number ≡ Ok entry }
{}
