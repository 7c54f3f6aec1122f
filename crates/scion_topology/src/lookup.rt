ghost use Rattle.std.specs.Prelude.{◌≡◌, ℕ, ◌==◌, [], None, Some, IfOk, IsTrue, OnOk, option_map};
ghost use Rattle.std.specs.Option.{option_copied};
ghost use Rattle.std.specs.Ordering.{nat_cmp};
ghost use Rattle.std.specs.BTreeMap.{get};
ghost use Rattle.scion_topology.specs.inner.Placed.{AreOwn};

use crate::entry::IfEntry;
use crate::hints::HashHints;
use crate::index::{AsIndex, add_at, interface_at_a, interface_at_b, mark_at};
use crate::network::{AsEntry, Link};
use isd_as::{IfId, IsdAs};
use std::alloc::{AllocError, Global};
use std::collections::BTreeMap;

/// The indexes of ASes by address: found at once if a hint is right, else in a tree.
#[derive(Drop)]
pub struct Indexes {
    list: Vec<AsIndex>,
    places: BTreeMap<IsdAs, usize>,
    hints: HashHints,
    ghost own: { AreOwn list.items (get nat_cmp places) },
}

impl Indexes {
    ghost use Rattle.scion_topology.specs.Index.{value_of_index, index_at, index_of, index_from, spot_of};
    ghost use Rattle.scion_topology.specs.inner.Index.{added_where, marked_where, with_link, with_links, with_first_index};

    /// The index of each AS of a list, without links. An AS that is listed twice has the index of
    /// its first place.
    pub(crate) fn new(alloc: Global, ases: &[AsEntry]) -> Result<Indexes, AllocError>
        ensures { IfOk result (λ indexes. (ia : ℕ)
            → index_of indexes ia ≡ index_from 0 ases.now [] ia) }
    {
        let mut indexes = Indexes::none(alloc)?;
        for (position, one) in ases.iter().enumerate() {
            indexes = indexes.with_as(alloc, position, one.ia)?;
        }
        Ok(indexes)
    }

    /// Indexes without any AS.
    fn none(alloc: Global) -> Result<Indexes, AllocError>
        ensures { IfOk result (λ indexes. (ia : ℕ) → index_of indexes ia ≡ None) }
    {
        Ok(Indexes {
            list: Vec::new(alloc),
            places: BTreeMap::new(alloc),
            hints: HashHints::new(alloc)?,
        })
    }

    /// These indexes, with an index for the AS at this position unless it has one.
    fn with_as(self, alloc: Global, position: usize, ia: IsdAs) -> Result<Indexes, AllocError>
        ensures { IfOk result (λ indexes. (x : ℕ) → index_of indexes x
            ≡ with_first_index (ia == x) (index_at position x []) (index_of self x)) }
    {
        if self.places.contains_key(&ia) {
            return Ok(self);
        }
        let Indexes {
            mut list,
            mut places,
            mut hints,
        } = self;
        hints.note(ia, list.len());
        places.insert(ia, list.len())?;
        list.push(AsIndex::new(alloc, ia, position))?;
        Ok(Indexes {
            list,
            places,
            hints,
        })
    }

    /// The index of an AS.
    #[inline]
    pub(crate) fn get(&self, ia: IsdAs) -> Option<&AsIndex>
        ensures { option_map value_of_index (option_copied result) ≡ index_of self.now ia }
    {
        match self.place(ia) {
            Some(place) => Some(&self.list[place]),
            None => None,
        }
    }

    /// The place of the index of an AS.
    #[inline]
    fn place(&self, ia: IsdAs) -> Option<usize>
        ensures { result ≡ spot_of self.now ia }
    {
        let hint = self.hints.place(ia);
        if self.is_at(hint, ia) {
            return Some(hint);
        }
        self.places.get(&ia).copied()
    }

    /// Whether the index at a place is that of an AS.
    #[inline]
    fn is_at(&self, place: usize, ia: IsdAs) -> bool
        ensures { IsTrue result → spot_of self.now ia ≡ Some place }
    {
        match self.list.get(place) {
            Some(index) => index.ia == ia,
            None => false,
        }
    }

    /// Adds the interfaces at the ends of all links.
    pub(crate) fn add_links(&mut self, links: &[Link]) -> Result<(), AllocError>
        ensures { OnOk result ((ia : ℕ) → index_of self.new ia
            ≡ option_map (with_links 0 ia links.now) (index_of self.old ia)) }
    {
        for (place, link) in links.iter().enumerate() {
            self.add_link(place, link)?;
        }
        Ok(())
    }

    /// Adds the interfaces at the ends of the link at a place; if both ends are in one AS, only one
    /// of them.
    fn add_link(&mut self, place: usize, link: &Link) -> Result<(), AllocError>
        ensures { OnOk result ((ia : ℕ) → index_of self.new ia
            ≡ option_map (with_link place ia link.now) (index_of self.old ia)) }
    {
        self.add(link.a.ia, interface_at_a(link), place)?;
        if link.a.ia != link.b.ia {
            self.add(link.b.ia, interface_at_b(link), place)?;
        }
        Ok(())
    }

    /// Adds an interface of an AS, and the place of its link.
    fn add(&mut self, ia: IsdAs, entry: IfEntry, place: usize) -> Result<(), AllocError>
        ensures { OnOk result ((x : ℕ) → index_of self.new x
            ≡ added_where (x == ia) entry place (index_of self.old x)) }
    {
        if let Some(at) = self.place(ia) {
            add_at(&mut self.list, at, entry, place)?;
        }
        Ok(())
    }

    /// Sets the interface of this number of an AS up or down.
    pub(crate) fn mark(&mut self, ia: IsdAs, number: IfId, up: bool)
        ensures { (x : ℕ) → index_of self.new x
            ≡ marked_where (x == ia) number up (index_of self.old x) }
    {
        if let Some(at) = self.place(ia) {
            mark_at(&mut self.list, at, number, up);
        }
    }
}
