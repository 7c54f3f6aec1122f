//! The arguments of a host's calls, as values of this network.
#![tactic(auto, unfolding(crate::specs::Parts::entries_told, crate::specs::Parts::entry_told))]

ghost use Rattle.std.specs.Prelude.{◌≡◌, ◌≤◌, length, take, Some, None, if◌then◌else◌};
ghost use Rattle.std.specs.Option.{option_copied};
ghost use Rattle.scion_ffi.specs.Parts.{arrival_told, entries_told, entry_told, kind_told, previous_told, state_told, table_told};
ghost use Rattle.scion_ffi.specs.Step.{view_told};

use crate::answer::{ScionAnswer, bad_call, view_answer};
use crate::records::{ScionInterface, ScionRouter};
use isd_as::{IfId, IsdAs};
use router_step::Arrival;
use scion_topology::{IfEntry, LinkKind, RouterView};

/// The largest number of interfaces of a router.
const MAX_INTERFACES: usize = 256;

/// Room for the interfaces of an AS.
pub(crate) type Room = [IfEntry; MAX_INTERFACES];

/// An entry that fills the room where there is no interface.
const BLANK: IfEntry = IfEntry {
    number: IfId::NONE,
    kind: LinkKind::Core,
    router: 0,
    up: false,
};

/// Room without interfaces.
pub(crate) fn room() -> Room {
    [BLANK; MAX_INTERFACES]
}

/// The kind of a link from its number.
fn kind(number: u8) -> Option<LinkKind>
    ensures { result ≡ kind_told number }
{
    match number {
        0 => Some(LinkKind::Core),
        1 => Some(LinkKind::Parent),
        2 => Some(LinkKind::Child),
        _ => None,
    }
}

/// The state of a link from its number.
fn is_up(number: u8) -> Option<bool>
    ensures { result ≡ state_told number }
{
    match number {
        0 => Some(false),
        1 => Some(true),
        _ => None,
    }
}

/// An interface of the AS.
fn entry(interface: &ScionInterface) -> Option<IfEntry>
    ensures { result ≡ entry_told interface.now }
{
    let kind = kind(interface.kind)?;
    let up = is_up(interface.up)?;
    Some(IfEntry {
        number: IfId(interface.number),
        kind,
        router: interface.router,
        up,
    })
}

/// Writes the interfaces to the front of the room, in their order; `false` if a number of one has
/// no meaning.
fn fill(room: &mut [IfEntry], interfaces: &[ScionInterface]) -> bool
    requires { length interfaces.now ≤ length room.old }
    ensures len { length room.new ≡ length room.old }
    ensures table { entries_told interfaces.now
        ≡ (if result then Some (take (length interfaces.now) room.new) else None) }
{
    for i in 0..interfaces.len() {
        match entry(&interfaces[i]) {
            Some(entry) => room[i] = entry,
            None => return false,
        }
    }
    true
}

/// The interfaces of the AS, in their order, in the front of the room.
fn table<'r>(room: &'r mut Room, interfaces: &[ScionInterface]) -> Option<&'r [IfEntry]>
    ensures { option_copied result ≡ table_told interfaces.now }
{
    if interfaces.len() > MAX_INTERFACES || !fill(room, interfaces) {
        return None;
    }
    Some(&room[..interfaces.len()])
}

/// The key before, or none if it has no bytes.
fn previous(bytes: &[u8]) -> Option<&[u8]>
    ensures { option_copied result ≡ previous_told bytes.now }
{
    if bytes.is_empty() { None } else { Some(bytes) }
}

/// The view of the router; its interfaces are in the room.
pub(crate) fn view<'r>(
    room: &'r mut Room,
    router: &ScionRouter<'_>,
) -> Result<RouterView<'r>, ScionAnswer>
    ensures { result ≡ view_told router.now }
{
    let Some(table) = table(room, router.interfaces) else {
        return Err(bad_call());
    };
    match RouterView::new(
        IsdAs::from_number(router.ia),
        router.router,
        router.key,
        previous(router.previous),
        table,
    ) {
        Ok(view) => Ok(view),
        Err(fault) => Err(view_answer(fault)),
    }
}

/// How a packet came.
pub(crate) fn arrival_of(number: u8, interface: u16) -> Option<Arrival>
    ensures { result ≡ arrival_told number interface }
{
    match number {
        0 => Some(Arrival::FromHost),
        1 => Some(Arrival::Inside),
        2 => Some(Arrival::Link(IfId(interface))),
        _ => None,
    }
}
