//! Events of the network itself: its second, its store, its links and its keys.

ghost use Rattle.std.specs.Prelude.{◌≡◌, Ok, false, true};
ghost use Rattle.scion_topology.specs.Topology.{set_up, with_rotated_key};
ghost use Rattle.network_core.specs.declared.fault.EventFault.TheVariants as faults;
ghost use Rattle.network_core.specs.inner.Doing.{Does};
ghost use Rattle.network_core.specs.Step.{ticks, sweeps, with_network};

use crate::fault::EventFault;
use crate::net::Net;
use crate::reply::Reply;
use isd_as::{IfId, IsdAs};
use scion_topology::TopologyFault;

impl Net {
    /// Sets the time of the network.
    pub(crate) fn tick(&mut self, to: u32) -> Result<Reply, EventFault>
        ensures { Does (ticks self.old to) self.old self.new result }
    {
        if to < self.moment {
            return Err(EventFault::TimeBack);
        }
        self.moment = to;
        Ok(Reply::Done)
    }

    /// Removes the segments from the store that are not live.
    pub(crate) fn sweep(&mut self) -> Reply
        ensures { sweeps self.old ≡ Ok (result, self.new) }
    {
        Reply::Swept(self.store.sweep(self.moment))
    }

    /// Cuts a link.
    pub(crate) fn cut_link(&mut self, ia: IsdAs, interface: IfId) -> Result<Reply, EventFault>
        ensures { Does (with_network self.old (set_up false ia interface self.old.network))
            self.old self.new result }
    {
        self.topology.cut_link(ia, interface).map_err(of_topology)?;
        Ok(Reply::Done)
    }

    /// Mends a link.
    pub(crate) fn mend_link(&mut self, ia: IsdAs, interface: IfId) -> Result<Reply, EventFault>
        ensures { Does (with_network self.old (set_up true ia interface self.old.network))
            self.old self.new result }
    {
        self.topology.mend_link(ia, interface).map_err(of_topology)?;
        Ok(Reply::Done)
    }

    /// Takes another key into use for an AS.
    pub(crate) fn rotate_key(&mut self, ia: IsdAs, key: &[u8]) -> Result<Reply, EventFault>
        ensures { Does (with_network self.old (with_rotated_key ia key.now self.old.network))
            self.old self.new result }
    {
        self.topology.rotate_key(ia, key).map_err(of_topology)?;
        Ok(Reply::Done)
    }
}

/// The refusal of the topology as that of an event.
fn of_topology(fault: TopologyFault) -> EventFault
    ensures { result ≡ faults.Topology fault }
{
    EventFault::Topology(fault)
}
