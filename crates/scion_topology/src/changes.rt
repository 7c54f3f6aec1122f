ghost use Rattle.std.specs.Prelude.{◌≡◌, ◌<◌, true, false, vec_len};
ghost use Rattle.scion_topology.specs.Topology.{Becomes, set_up, with_rotated_key};
ghost use Rattle.scion_topology.specs.inner.Index.{set_from, keyed_at};

use crate::fault::TopologyFault;
use crate::keys::Key;
use crate::network::{AsEntry, Link};
use crate::topology::Topology;
use isd_as::{IfId, IsdAs};

impl Topology {
    /// Cuts the link at an interface; either end names it. [`TopologyFault::UnknownAs`] if the AS
    /// isn't listed, then [`TopologyFault::NoLink`] if the AS has no such interface. A link that is
    /// down stays down.
    pub fn cut_link(&mut self, ia: IsdAs, number: IfId) -> Result<(), TopologyFault>
        ensures { Becomes (set_up false ia number self.old) self.old self.new result }
    {
        self.set_link(ia, number, false)
    }

    /// Mends the link at an interface; either end names it. The refusals are those of
    /// [`Topology::cut_link`]. A link that is up stays up.
    pub fn mend_link(&mut self, ia: IsdAs, number: IfId) -> Result<(), TopologyFault>
        ensures { Becomes (set_up true ia number self.old) self.old self.new result }
    {
        self.set_link(ia, number, true)
    }

    /// Takes another key of an AS into use. The key in use until now becomes the one before, and
    /// the older one is dropped. [`TopologyFault::UnknownAs`] if the AS isn't listed, then
    /// [`TopologyFault::BadField`] if the key is empty or has more than 64 bytes.
    pub fn rotate_key(&mut self, ia: IsdAs, key: &[u8]) -> Result<(), TopologyFault>
        ensures { Becomes (with_rotated_key ia key.now self.old) self.old self.new result }
    {
        let (_, index) = self.as_and_index(ia)?;
        let place = index.position;
        let key = Key::new(key)?;
        put_key(&mut self.ases, place, key);
        Ok(())
    }

    /// Sets the link at an interface up or down.
    #[tactic(auto, unfolding(crate::specs::Topology::set_up))]
    fn set_link(&mut self, ia: IsdAs, number: IfId, up: bool) -> Result<(), TopologyFault>
        ensures { Becomes (set_up up ia number self.old) self.old self.new result }
    {
        let place = self.place(ia, number)?;
        let link = self.links[place];
        put_up(&mut self.links, place, up);
        self.indexes.mark(link.a.ia, link.a.number, up);
        self.indexes.mark(link.b.ia, link.b.number, up);
        Ok(())
    }
}

/// Takes another key into use for the AS at a place.
fn put_key(ases: &mut Vec<AsEntry>, place: usize, key: Key)
    requires { place < vec_len ases.old }
    ensures { ases.new.items ≡ keyed_at place key ases.old.items }
{
    ases[place].keys.renew(key);
}

/// Sets the link at a place up or down.
fn put_up(links: &mut Vec<Link>, place: usize, up: bool)
    requires { place < vec_len links.old }
    ensures { links.new.items ≡ set_from 0 place up links.old.items }
{
    links[place].up = up;
}
