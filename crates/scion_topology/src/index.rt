ghost use Rattle.std.specs.Prelude.{◌≡◌, ◌<◌, [], OnOk, vec_len};
ghost use Rattle.scion_topology.specs.Network.{end_as_interface, kind_at_a, kind_at_b};
ghost use Rattle.scion_topology.specs.inner.Placed.{IsChanged};
ghost use Rattle.scion_topology.specs.Index.{value_of_index};
ghost use Rattle.scion_topology.specs.inner.Index.{with_interface, with_state, place_beside};

use crate::entry::{IfEntry, LinkKind};
use crate::network::{End, Link, LinkClass};
use crate::table::InterfaceTable;
use isd_as::{IfId, IsdAs};
use std::alloc::{AllocError, Global};

/// The index of an AS in a topology: its address, its place in the list, its interfaces, and the
/// place of each interface's link.
#[derive(Drop)]
pub struct AsIndex {
    pub(crate) ia: IsdAs,
    pub(crate) position: usize,
    pub(crate) table: InterfaceTable,
    pub(crate) places: Vec<usize>,
}

impl AsIndex {
    /// The index of an AS at this place of the list, without interfaces.
    pub(crate) fn new(alloc: Global, ia: IsdAs, position: usize) -> AsIndex
        ensures ia { result.ia ≡ ia }
        ensures value { value_of_index result
            ≡ record { position = position; table = []; places = [] } }
    {
        AsIndex {
            ia,
            position,
            table: InterfaceTable::new(alloc),
            places: Vec::new(alloc),
        }
    }

    /// Adds an interface and the place of its link.
    pub(crate) fn add(&mut self, entry: IfEntry, place: usize) -> Result<(), AllocError>
        ensures ia { self.new.ia ≡ self.old.ia }
        ensures value { OnOk result (value_of_index self.new
            ≡ with_interface entry place (value_of_index self.old)) }
    {
        self.table.push(entry)?;
        self.places.push(place)?;
        Ok(())
    }

    /// The place of the link at the interface of this number.
    pub(crate) fn place(&self, number: IfId) -> Option<usize>
        ensures { result ≡ place_beside number self.now.table self.now.places.items }
    {
        let at = self.table.place(number)?;
        self.places.get(at).copied()
    }

    /// Sets the interface of this number up or down, if there is one.
    pub(crate) fn mark(&mut self, number: IfId, up: bool)
        ensures ia { self.new.ia ≡ self.old.ia }
        ensures value { value_of_index self.new ≡ with_state number up (value_of_index self.old) }
    {
        self.table.mark(number, up);
    }
}

/// The kind of a link, seen from the AS at end a.
fn kind_at_a(class: LinkClass) -> LinkKind
    ensures { result ≡ kind_at_a class }
{
    match class {
        LinkClass::Core => LinkKind::Core,
        LinkClass::Child => LinkKind::Child,
    }
}

/// The kind of a link, seen from the AS at end b.
fn kind_at_b(class: LinkClass) -> LinkKind
    ensures { result ≡ kind_at_b class }
{
    match class {
        LinkClass::Core => LinkKind::Core,
        LinkClass::Child => LinkKind::Parent,
    }
}

/// An end of a link as an interface of its AS.
fn end_as_interface(end: &End, kind: LinkKind, up: bool) -> IfEntry
    ensures { result ≡ end_as_interface end.now kind up }
{
    IfEntry {
        number: end.number,
        kind,
        router: end.router,
        up,
    }
}

/// The interface at end a of a link.
pub(crate) fn interface_at_a(link: &Link) -> IfEntry
    ensures { result ≡ end_as_interface link.now.a (kind_at_a link.now.class) link.now.up }
{
    end_as_interface(&link.a, kind_at_a(link.class), link.up)
}

/// The interface at end b of a link.
pub(crate) fn interface_at_b(link: &Link) -> IfEntry
    ensures { result ≡ end_as_interface link.now.b (kind_at_b link.now.class) link.now.up }
{
    end_as_interface(&link.b, kind_at_b(link.class), link.up)
}

/// Adds an interface and the place of its link to the index at a place.
pub(crate) fn add_at(
    list: &mut Vec<AsIndex>,
    at: usize,
    entry: IfEntry,
    place: usize,
) -> Result<(), AllocError>
    requires { at < vec_len list.old }
    ensures { IsChanged (λ old new. OnOk result (value_of_index new
        ≡ with_interface entry place (value_of_index old)))
        at list.old.items list.new.items }
{
    list[at].add(entry, place)
}

/// Sets the interface of this number up or down in the index at a place.
pub(crate) fn mark_at(list: &mut Vec<AsIndex>, at: usize, number: IfId, up: bool)
    requires { at < vec_len list.old }
    ensures { IsChanged (λ old new. value_of_index new ≡ with_state number up (value_of_index old))
        at list.old.items list.new.items }
{
    list[at].mark(number, up);
}
