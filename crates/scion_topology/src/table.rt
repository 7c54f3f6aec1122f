ghost use Rattle.std.specs.Prelude.{◌≡◌, ◌<◌, [], ◌∷◌, ◌++◌, OnOk, Some, slice_get, slice_set, vec_len};
ghost use Rattle.std.specs.Option.{option_copied};
ghost use Rattle.scion_topology.specs.Network.{interface_in};
ghost use Rattle.scion_topology.specs.inner.Table.{place_in_table, marked_table};
ghost use Rattle.scion_topology.specs.declared.entry.IfEntry.{IfEntry};

use crate::entry::IfEntry;
use isd_as::IfId;
use std::alloc::{AllocError, Global};
use std::collections::BTreeMap;
use std::marker::Model;

/// Up to this many interfaces are looked at one after another; with more, a tree finds each.
const FEW: usize = 8;

/// The interfaces of an AS, each of which is found by its number. In clauses the value is their
/// list.
///
/// If two interfaces have the same number, the first is found.
#[derive(Drop)]
pub struct InterfaceTable {
    entries: Vec<IfEntry>,
    places: BTreeMap<IfId, usize>,
}

impl Model for InterfaceTable {
    ghost use Rattle.std.specs.Prelude.{◌≡◌, ℕ, List};
    ghost use Rattle.std.specs.Ordering.{nat_cmp};
    ghost use Rattle.std.specs.BTreeMap.{get};
    ghost use Rattle.scion_topology.specs.declared.entry.IfEntry.{IfEntry};
    ghost use Rattle.scion_topology.specs.inner.Table.{place_in_table};

    ghost Value = { List IfEntry };

    ghost view = { λ t. t.entries.items };

    ghost invariant = { λ t. (number : ℕ)
        → get nat_cmp t.places number ≡ place_in_table t.entries.items number };
}

impl InterfaceTable {
    /// A table without interfaces.
    pub(crate) fn new(alloc: Global) -> InterfaceTable
        ensures { result ≡ [] }
    {
        InterfaceTable {
            entries: Vec::new(alloc),
            places: BTreeMap::new(alloc),
        }
    }

    /// Adds an interface at the end.
    pub(crate) fn push(&mut self, entry: IfEntry) -> Result<(), AllocError>
        ensures { OnOk result (self.new ≡ self.old ++ entry ∷ []) }
    {
        let place = self.entries.len();
        self.entries.push(entry)?;
        if self.places.contains_key(&entry.number) {
            return Ok(());
        }
        match self.places.insert(entry.number, place) {
            Ok(_) => Ok(()),
            Err(_) => {
                self.entries.pop();
                Err(AllocError)
            }
        }
    }

    /// The interface of this number.
    #[inline(always)]
    pub(crate) fn get(&self, number: IfId) -> Option<&IfEntry>
        ensures { option_copied result ≡ interface_in self.now number }
    {
        if self.entries.len() <= FEW {
            return self.entries.iter().find(|entry| entry.number == number);
        }
        match self.place(number) {
            Some(place) => Some(&self.entries[place]),
            None => None,
        }
    }

    /// The place of the interface of this number.
    pub(crate) fn place(&self, number: IfId) -> Option<usize>
        ensures { result ≡ place_in_table self.now number }
    {
        if self.entries.len() <= FEW {
            return self.entries.iter().position(|entry| entry.number == number);
        }
        self.places.get(&number).copied()
    }

    /// Sets the interface of this number up or down, if there is one.
    pub(crate) fn mark(&mut self, number: IfId, up: bool)
        ensures { self.new ≡ marked_table number up self.old }
    {
        if let Some(place) = self.place(number) {
            mark_at(&mut self.entries, place, up);
        }
    }
}

/// Sets the interface at a place up or down.
fn mark_at(entries: &mut Vec<IfEntry>, place: usize, up: bool)
    requires { place < vec_len entries.old }
    ensures { (entry : IfEntry) → slice_get entries.old.items place ≡ Some entry
        → entries.new.items ≡ slice_set entries.old.items place (record entry { up = up }) }
{
    entries[place].up = up;
}
