ghost use Rattle.std.specs.Prelude.{◌≡◌, ◌↔◌, IsTrue, Some, slice_get};
ghost use Rattle.std.specs.Option.{option_copied};
ghost use Rattle.scion_topology.specs.View.{IsAuthentic, IsRight, entry_of, is_authentic};
ghost use Rattle.scion_topology.specs.Network.{is_wildcard};
ghost use Rattle.scion_topology.specs.Building.{is_named, numbers_twice, view_of};

use crate::entry::IfEntry;
use crate::fault::TopologyFault;
use crate::keys::Keys;
use crate::table::InterfaceTable;
use hop_mac::HopInput;
use isd_as::{IfId, IsdAs};
use std::marker::Model;

/// A router's view of its AS: its address, the router's number, the AS's keys and its interfaces.
///
/// Invariants of the type: the address is no wildcard, each key has 1 to 64 bytes, and each
/// interface is listed once and has a number other than 0. The view of a topology borrows the hash
/// states of its keys and the table of its interfaces. A view from [`RouterView::new`] computes the
/// states once, and borrows the interfaces as they are given.
#[derive(Drop)]
pub struct RouterView<'a> {
    ia: IsdAs,
    router: u8,
    source: Source<'a>,
}

/// The keys and the interfaces of a view.
#[derive(Drop)]
enum Source<'a> {
    /// Both are borrowed from an AS of a topology.
    Borrowed(&'a Keys, &'a InterfaceTable),
    /// Both were given: the keys as bytes, and the interfaces in any order.
    Owned(Keys, &'a [IfEntry]),
}

impl<'a> Model for RouterView<'a> {
    ghost use Rattle.std.specs.Prelude.{◌≡◌, All};
    ghost use Rattle.scion_topology.specs.View.{View, IsRight};
    ghost use Rattle.scion_topology.specs.Source.{source_keys, table_in};

    ghost Value = { View };

    ghost view = { λ a. record {
      ia = a.ia;
      router = a.router;
      keys = source_keys a.source;
      table = table_in a.source;
    } };

    ghost invariant = { λ a. IsRight (record {
      ia = a.ia;
      router = a.router;
      keys = source_keys a.source;
      table = table_in a.source;
    }) };
}

impl<'a> RouterView<'a> {
    /// The view of router `router` of the AS `ia`, with this key in use, this key before it, and
    /// these interfaces in any order. It takes no memory.
    ///
    /// The first of these refusals is returned: [`TopologyFault::BadField`] if the ISD or the AS
    /// number is the wildcard, a key is empty or has more than 64 bytes, or an interface has number
    /// 0; [`TopologyFault::DuplicateIf`] if two interfaces have the same number.
    #[tactic(auto, unfolding(crate::specs::Building::view_of, crate::specs::Keys::keys_of))]
    pub fn new(
        ia: IsdAs,
        router: u8,
        key: &[u8],
        previous: Option<&[u8]>,
        table: &'a [IfEntry],
    ) -> Result<RouterView<'a>, TopologyFault>
        ensures { result ≡ view_of ia router key.now (option_copied previous.entry) table.now }
    {
        let keys = Keys::new(key, previous)?;
        if is_wildcard(ia) || is_named(IfId::NONE, table) {
            return Err(TopologyFault::BadField);
        }
        if numbers_twice(table) {
            return Err(TopologyFault::DuplicateIf);
        }
        Ok(RouterView {
            ia,
            router,
            source: Source::Owned(keys, table),
        })
    }

    /// The view of these parts, which keep the rules already: nothing is checked or hashed.
    #[inline]
    pub(crate) fn of_parts(
        ia: IsdAs,
        router: u8,
        keys: &'a Keys,
        table: &'a InterfaceTable,
    ) -> RouterView<'a>
        requires { IsRight
            (record { ia = ia; router = router; keys = keys.now; table = table.now }) }
        ensures { result ≡ record { ia = ia; router = router; keys = keys.now; table = table.now } }
    {
        RouterView {
            ia,
            router,
            source: Source::Borrowed(keys, table),
        }
    }

    /// The address of the AS.
    pub fn ia(&self) -> IsdAs
        ensures { result ≡ self.now.ia }
    {
        self.ia
    }

    /// The number of the router in its AS.
    pub fn router(&self) -> u8
        ensures { result ≡ self.now.router }
    {
        self.router
    }

    /// The key in use, under which the AS makes the authenticators of its hops.
    pub fn key(&self) -> &[u8]
        ensures { slice_get self.now.keys 0 ≡ Some result.now }
    {
        self.keys().in_use().bytes()
    }

    /// The key that was in use before, whose authenticators the AS accepts too, if there is one.
    pub fn previous(&self) -> Option<&[u8]>
        ensures { option_copied result ≡ slice_get self.now.keys 1 }
    {
        match self.keys().before() {
            Some(key) => Some(key.bytes()),
            None => None,
        }
    }

    /// The interface of this number, if the AS has one. The view of a topology goes through up to
    /// eight interfaces, and searches a tree for one of more; a view from [`RouterView::new`] goes
    /// through its list.
    // Inlined, as all of a router's step.
    #[inline(always)]
    pub fn entry(&self, number: IfId) -> Option<&'a IfEntry>
        ensures { option_copied result ≡ entry_of self.now number }
    {
        match &self.source {
            Source::Borrowed(_, table) => table.get(number),
            Source::Owned(_, table) => table.iter().find(|entry| entry.number == number),
        }
    }

    /// Whether `mac` is the authenticator of this hop under the key in use or the one before it.
    /// That takes two compressions if it is right under the key in use or there is no other key,
    /// and else four.
    // Inlined: a router's turn then keeps the hop in registers.
    #[inline(always)]
    pub fn authenticates(&self, mac: &[u8; 6], hop: &HopInput) -> bool
        ensures meaning { IsTrue result
            ↔ IsAuthentic self.now mac.now hop.now.beta hop.now.timestamp hop.now.exp_time
            hop.now.cons_ingress hop.now.cons_egress }
        ensures test { result
            ≡ is_authentic self.now mac.now hop.now.beta hop.now.timestamp hop.now.exp_time
            hop.now.cons_ingress hop.now.cons_egress }
    {
        self.keys().authenticate(mac, hop)
    }

    /// Its keys.
    fn keys(&self) -> &Keys
        ensures { result.now ≡ self.now.keys }
    {
        match &self.source {
            Source::Borrowed(keys, _) => keys,
            Source::Owned(keys, _) => keys,
        }
    }

    /// Does nothing; its contract tells the caller that the parts of this view keep the rules.
    pub fn known(&self)
        ensures { IsRight self.now }
    {
        // Reading a field makes the type's invariants known here.
        let _ = &self.source;
    }
}

/// Whether the ISD or the AS number is the wildcard.
fn is_wildcard(ia: IsdAs) -> bool
    ensures { result ≡ is_wildcard ia }
{
    ia.is_wildcard()
}

/// Whether two interfaces of the table have the same number.
#[tactic(auto, unfolding(crate::specs::Building::numbers_twice))]
fn numbers_twice(table: &[IfEntry]) -> bool
    ensures { result ≡ numbers_twice table.now }
{
    let mut rest = table;
    while let Some((entry, others)) = rest.split_first() {
        if is_named(entry.number, others) {
            return true;
        }
        rest = others;
    }
    false
}

/// Whether an interface of this number is in the table.
fn is_named(number: IfId, table: &[IfEntry]) -> bool
    ensures { result ≡ is_named number table.now }
{
    table.iter().any(|entry| entry.number == number)
}
