ghost use Rattle.std.specs.Prelude.{◌≡◌, Err, IfErr, IfSome, IsTrue};
ghost use Rattle.std.specs.Str.{is_utf8};
ghost use Rattle.std.specs.List.{list_all};
ghost use Rattle.json_fields.specs.Documents.{node_data};
ghost use Rattle.refusal.specs.Refusal.{Reads, unless};
ghost use Rattle.scion_topology.specs.Causes.{cause_of};
ghost use Rattle.scion_topology.specs.inner.Causes.{is_as, is_link};
ghost use Rattle.scion_topology.specs.inner.Lists.{HasLists};
ghost use Rattle.scion_topology.specs.Topology.{network_of, network_in};

use crate::as_lookup::AsLookup;
use crate::fault::{ReadError, TopologyFault};
use crate::fields::{as_of, link_of};
use crate::lookup::Indexes;
use crate::network::{AsEntry, Link};
use crate::validation::first_cause;
use json_fields::{Document, JsonRoom, Node, items};
use refusal::OrMemory;
use std::alloc::Global;
use std::marker::Model;

/// A network: its ASes and its links.
///
/// It is read from JSON, answers queries by address and interface, and changes when a link is cut
/// or mended or a key is renewed. Only reading takes memory. ASes and interfaces are found by a
/// search; no query goes through a whole list.
#[derive(Drop)]
pub struct Topology {
    pub(crate) ases: Vec<AsEntry>,
    pub(crate) links: Vec<Link>,
    pub(crate) indexes: Indexes,
}

impl Model for Topology {
    ghost use Rattle.std.specs.Prelude.{◌≡◌, ℕ};
    ghost use Rattle.scion_topology.specs.Network.{Network};
    ghost use Rattle.scion_topology.specs.Topology.{IsNetwork};
    ghost use Rattle.scion_topology.specs.Index.{index_of, index_from};

    ghost Value = { Network };

    ghost view = { λ t. record { ases = t.ases.items; links = t.links.items } };

    ghost invariant = { λ t. IsNetwork (record { ases = t.ases.items; links = t.links.items })
        × ((ia : ℕ) → index_of t.indexes ia ≡ index_from 0 t.ases.items t.links.items ia) };
}

impl Topology {
    /// The network that a JSON text describes, each link up.
    ///
    /// An object with the lists `ases` and `links`. An AS has `ia` (an address without a wildcard),
    /// `core` (true or false), `exp` (0 to 255), `key` (2 to 128 hexadecimal digits, an even
    /// number) and `routers` (1 to 64). A link has `kind` (`core` or `child`) and the ends `a` and
    /// `b`; an end has `ia`, `if` (1 to 65535) and `router` (0 to 63). Members beside these are
    /// ignored.
    ///
    /// The refusals, each checked for the whole text before the next: [`TopologyFault::NotJson`],
    /// [`TopologyFault::BadField`], [`TopologyFault::TooMany`], [`TopologyFault::DuplicateAs`],
    /// [`TopologyFault::UnknownAs`], [`TopologyFault::NoRouter`], [`TopologyFault::BadKind`],
    /// [`TopologyFault::DuplicateIf`]. Running out of memory is [`OrMemory::Memory`], which comes
    /// only if the bytes are UTF-8.
    #[tactic(auto, unfolding(json_fields::specs::Fields::document_in))]
    pub fn from_json(alloc: Global, bytes: &[u8]) -> Result<Topology, ReadError>
        ensures value { Reads (λ n. n) result (network_in bytes.now) }
        ensures wanted { IfErr result (λ error. error ≡ OrMemory.Memory
            → IsTrue (is_utf8 bytes.now)) }
    {
        let mut room = JsonRoom::new(alloc);
        let document = Document::read(alloc, &mut room, bytes)?.ok_or(TopologyFault::NotJson)?;
        Topology::from_object(alloc, &document.root())
    }

    /// The network of a JSON object; or memory runs out, which it can only if `ases` and `links`
    /// are lists.
    #[tactic(auto, unfolding(crate::specs::Topology::network_of))]
    fn from_object(alloc: Global, object: &Node<'_, '_>) -> Result<Topology, ReadError>
        ensures value { Reads (λ n. n) result (network_of (node_data object.now)) }
        ensures wanted { IfErr result (λ error. error ≡ OrMemory.Memory
            → HasLists (node_data object.now)) }
    {
        let as_items = object.list("ases").ok_or(TopologyFault::BadField)?;
        let link_items = object.list("links").ok_or(TopologyFault::BadField)?;
        let ases = items(alloc, as_items, as_of)?.ok_or(TopologyFault::BadField)?;
        let links = items(alloc, link_items, link_of)?.ok_or(TopologyFault::BadField)?;
        Topology::of_lists(alloc, ases, links)
    }

    /// The network of these lists, or the first fault that they have.
    fn of_lists(alloc: Global, ases: Vec<AsEntry>, links: Vec<Link>) -> Result<Topology, ReadError>
        requires ases { IsTrue (list_all is_as ases.items) }
        requires links { IsTrue (list_all is_link links.items) }
        ensures value { Reads (λ n. n) result (unless (cause_of ases.items links.items)
            (record { ases = ases.items; links = links.items })) }
        ensures refused { IfSome (cause_of ases.items links.items)
            (λ fault. result ≡ Err (OrMemory.Refused fault)) }
    {
        let listed = AsLookup::new(alloc, &ases);
        if let Some(cause) = first_cause(alloc, &listed, &links) {
            return Err(OrMemory::Refused(cause));
        }
        let indexes = listed.into_indexes(&links)?;
        Ok(Topology {
            ases,
            links,
            indexes,
        })
    }
}
