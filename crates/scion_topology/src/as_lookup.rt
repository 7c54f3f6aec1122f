ghost use Rattle.std.specs.Prelude.{◌≡◌, ℕ, IfOk};
ghost use Rattle.std.specs.Option.{option_copied};
ghost use Rattle.scion_topology.specs.Network.{as_named};
ghost use Rattle.scion_topology.specs.Causes.{is_listed};
ghost use Rattle.scion_topology.specs.Index.{index_of, index_from};

use crate::lookup::Indexes;
use crate::network::{AsEntry, Link};
use isd_as::IsdAs;
use std::alloc::{AllocError, Global};
use std::marker::Model;

/// A list of ASes, searched by an index, or one by one if there was no memory for the index. In
/// clauses its value is the list.
#[derive(Drop)]
pub struct AsLookup<'a> {
    pub(crate) ases: &'a [AsEntry],
    indexes: Result<Indexes, AllocError>,
}

impl<'a> Model for AsLookup<'a> {
    ghost use Rattle.std.specs.Prelude.{◌≡◌, ℕ, List, [], IfOk};
    ghost use Rattle.scion_topology.specs.declared.network.AsEntry.{AsEntry};
    ghost use Rattle.scion_topology.specs.Index.{index_of, index_from};

    ghost Value = { List AsEntry };

    ghost view = { λ l. l.ases.now };

    ghost invariant = { λ l. IfOk l.indexes (λ indexes. (ia : ℕ)
        → index_of indexes ia ≡ index_from 0 l.ases.now [] ia) };
}

impl<'a> AsLookup<'a> {
    /// The lookup over this list.
    pub(crate) fn new(alloc: Global, ases: &'a [AsEntry]) -> AsLookup<'a>
        ensures { result ≡ ases.now }
    {
        AsLookup {
            ases,
            indexes: Indexes::new(alloc, ases),
        }
    }

    /// The AS of this address.
    pub(crate) fn get(&self, ia: IsdAs) -> Option<&AsEntry>
        ensures { option_copied result ≡ as_named self.now ia }
    {
        let Ok(indexes) = &self.indexes else {
            return as_named(self.ases, ia);
        };
        match indexes.get(ia) {
            Some(index) => self.ases.get(index.position),
            None => None,
        }
    }

    /// Whether an AS of this address is listed.
    pub(crate) fn has(&self, ia: IsdAs) -> bool
        ensures { result ≡ is_listed self.now ia }
    {
        self.get(ia).is_some()
    }

    /// The indexes of these ASes, with the interfaces at the ends of these links.
    pub(crate) fn into_indexes(self, links: &[Link]) -> Result<Indexes, AllocError>
        ensures { IfOk result (λ indexes. (ia : ℕ)
            → index_of indexes ia ≡ index_from 0 self.entry links.now ia) }
    {
        let mut indexes = self.indexes?;
        indexes.add_links(links)?;
        Ok(indexes)
    }
}

/// Whether an AS of this address is in the list.
pub(crate) fn is_listed(ases: &[AsEntry], ia: IsdAs) -> bool
    ensures { result ≡ is_listed ases.now ia }
{
    ases.iter().any(|one| one.ia == ia)
}

/// The AS of this address in the list.
fn as_named(ases: &[AsEntry], ia: IsdAs) -> Option<&AsEntry>
    ensures { option_copied result ≡ as_named ases.now ia }
{
    ases.iter().find(|one| one.ia == ia)
}
