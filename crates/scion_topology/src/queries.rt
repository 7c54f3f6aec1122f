ghost use Rattle.std.specs.Prelude.{◌≡◌, ◌<◌, Some, None, IfOk, MatchResult, length};
ghost use Rattle.std.specs.List.{position};
ghost use Rattle.scion_topology.specs.Network.{as_named, has_end};
ghost use Rattle.refusal.specs.Refusal.{Gives};
ghost use Rattle.scion_topology.specs.Topology.{IsNetwork, known_as, known_link, info_in, interface_at, far_end_in, owner_in, view_in};
ghost use Rattle.scion_topology.specs.Index.{value_of_index};
ghost use Rattle.scion_topology.specs.inner.Index.{index_in, place_in};

use crate::entry::IfEntry;
use crate::fault::TopologyFault;
use crate::index::AsIndex;
use crate::network::{AsEntry, AsInfo, Link};
use crate::topology::Topology;
use crate::validation::is_end;
use crate::view::RouterView;
use isd_as::{IfId, IsdAs};

impl Topology {
    /// The ASes, in the order in which they were read.
    pub fn ases(&self) -> &[AsEntry]
        ensures { result.now ≡ self.now.ases }
    {
        &self.ases
    }

    /// The links, in the order in which they were read.
    pub fn links(&self) -> &[Link]
        ensures { result.now ≡ self.now.links }
    {
        &self.links
    }

    /// What the topology says of an AS: [`TopologyFault::UnknownAs`] if it isn't listed.
    #[tactic(auto, unfolding(crate::specs::Topology::info_in))]
    pub fn as_info(&self, ia: IsdAs) -> Result<AsInfo, TopologyFault>
        ensures { result ≡ info_in self.now ia }
    {
        let (one, index) = self.as_and_index(ia)?;
        Ok(AsInfo {
            position: index.position,
            core: one.core,
            exp: one.exp_time,
            routers: one.routers,
        })
    }

    /// The AS and the interface at the far end of the link at an interface:
    /// [`TopologyFault::UnknownAs`], then [`TopologyFault::NoLink`] if the AS has no such
    /// interface.
    #[tactic(auto, unfolding(crate::specs::Topology::far_end_in))]
    pub fn far_end(&self, ia: IsdAs, number: IfId) -> Result<(IsdAs, IfId), TopologyFault>
        ensures { result ≡ far_end_in self.now ia number }
    {
        let link = self.link(ia, number)?;
        if is_end(&link.a, ia, number) {
            Ok((link.b.ia, link.b.number))
        } else {
            Ok((link.a.ia, link.a.number))
        }
    }

    /// The router that owns an interface: [`TopologyFault::UnknownAs`], then
    /// [`TopologyFault::NoLink`] if the AS has no such interface.
    #[tactic(auto, unfolding(crate::specs::Topology::owner_in))]
    pub fn owner(&self, ia: IsdAs, number: IfId) -> Result<u8, TopologyFault>
        ensures { result ≡ owner_in self.now ia number }
    {
        let link = self.link(ia, number)?;
        if is_end(&link.a, ia, number) {
            Ok(link.a.router)
        } else {
            Ok(link.b.router)
        }
    }

    /// The view of a router of an AS: [`TopologyFault::UnknownAs`], then
    /// [`TopologyFault::NoRouter`] if the AS has no router of this number. The view borrows the
    /// keys and the table.
    #[inline]
    #[tactic(auto, unfolding(crate::specs::Topology::view_in))]
    pub fn view(&self, ia: IsdAs, router: u8) -> Result<RouterView<'_>, TopologyFault>
        ensures { result ≡ view_in self.now ia router }
    {
        // Reading a field makes the type's invariants known here.
        let _ = &self.links;
        let (one, index) = self.as_and_index(ia)?;
        if router >= one.routers {
            return Err(TopologyFault::NoRouter);
        }
        Ok(RouterView::of_parts(ia, router, &one.keys, &index.table))
    }

    /// An AS as the list has it, with its keys: [`TopologyFault::UnknownAs`] if it isn't listed.
    pub fn as_entry(&self, ia: IsdAs) -> Result<&AsEntry, TopologyFault>
        ensures value { Gives (λ one. one.now) result (known_as self.now ia) }
        ensures named { MatchResult result (λ one. as_named self.now.ases ia ≡ Some one.now)
            (λ _. as_named self.now.ases ia ≡ None) }
    {
        let (one, _) = self.as_and_index(ia)?;
        Ok(one)
    }

    /// The interface of this number of an AS: [`TopologyFault::UnknownAs`], then
    /// [`TopologyFault::NoLink`] if the AS has no such interface.
    pub fn interface(&self, ia: IsdAs, number: IfId) -> Result<&IfEntry, TopologyFault>
        ensures { Gives (λ entry. entry.now) result (interface_at self.now ia number) }
    {
        // Reading a field makes the type's invariants known here.
        let _ = &self.links;
        let (_, index) = self.as_and_index(ia)?;
        index.table.get(number).ok_or(TopologyFault::NoLink)
    }

    /// Does nothing; its contract tells the caller the rules that every topology keeps.
    pub fn known(&self)
        ensures { IsNetwork self.now }
    {
        // Reading a field makes the type's invariants known here.
        let _ = &self.links;
    }

    /// The place, in the list of links, of the link at an interface of an AS; `None` if no link is
    /// there.
    pub fn link_place(&self, ia: IsdAs, number: IfId) -> Option<usize>
        ensures { result ≡ position (λ link. has_end link ia number) self.now.links }
    {
        self.known();
        self.place(ia, number).ok()
    }

    /// An AS and its index.
    #[inline]
    pub(crate) fn as_and_index(&self, ia: IsdAs) -> Result<(&AsEntry, &AsIndex), TopologyFault>
        ensures { Gives (λ x. (x.0.now, value_of_index x.1.now)) result (index_in self.now ia) }
    {
        let Some(index) = self.indexes.get(ia) else {
            return Err(TopologyFault::UnknownAs);
        };
        Ok((&self.ases[index.position], index))
    }

    /// The place of the link at an interface.
    pub(crate) fn place(&self, ia: IsdAs, number: IfId) -> Result<usize, TopologyFault>
        ensures value { result ≡ place_in self.now ia number }
        ensures bound { IfOk result (λ place. place < length self.now.links) }
    {
        // Reading a field makes the type's invariants known here.
        let _ = &self.links;
        let (_, index) = self.as_and_index(ia)?;
        index.place(number).ok_or(TopologyFault::NoLink)
    }

    /// The link at an interface.
    pub(crate) fn link(&self, ia: IsdAs, number: IfId) -> Result<&Link, TopologyFault>
        ensures { Gives (λ link. link.now) result (known_link self.now ia number) }
    {
        let place = self.place(ia, number)?;
        Ok(&self.links[place])
    }
}
