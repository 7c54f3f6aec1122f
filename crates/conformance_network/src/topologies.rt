use hop_mac::{HopInput, hop_mac};
use isd_as::{IfId, IsdAs};
use refusal::OrMemory;
use scion_topology::{AsInfo, IfEntry, LinkKind, RouterView, Topology, TopologyFault};
use std::process::Abort;
use std::test::Fail;
use worked::{at, ring, row};

const IA: u64 = 0x0001_ff00_0000_0111;

/// An interface of this number, with a link that is up.
fn entry(number: u16, kind: LinkKind, router: u8) -> IfEntry {
    IfEntry {
        number: IfId(number),
        kind,
        router,
        up: true,
    }
}

/// A hop with this accumulator, between the interfaces 1 and 2.
fn hop_with(beta: u16) -> HopInput {
    HopInput {
        beta,
        timestamp: 100,
        exp_time: 63,
        cons_ingress: 1,
        cons_egress: 2,
    }
}

/// It accepts the authenticators of its key.
#[test]
fn a_view_has_the_parts_that_it_was_built_from(rt: HostRuntime) -> Result<(), Fail> {
    let table = [entry(2, LinkKind::Child, 1), entry(1, LinkKind::Parent, 0)];
    let view = RouterView::new(IsdAs::from_number(IA), 63, b"k", None, &table)?;
    assert_eq!(rt; view.ia().number(), IA);
    assert_eq!(rt; view.router(), 63);
    assert!(rt; view.key() == b"k".as_slice());
    assert!(rt; view.entry(IfId(1)) == Some(&table[1]));
    assert!(rt; view.entry(IfId(3)).is_none());
    let mac = hop_mac(b"k", 7, 100, 63, 1, 2);
    assert!(rt; view.authenticates(&mac, &hop_with(7)));
    assert!(rt; !view.authenticates(&mac, &hop_with(8)));
    Ok(())
}

/// The three ASes of the row: a core AS, its child, and the child's child.
fn top() -> IsdAs {
    at(1, 0x110)
}

fn middle() -> IsdAs {
    at(1, 0x111)
}

fn leaf() -> IsdAs {
    at(1, 0x112)
}

#[test]
fn a_topology_answers_what_was_read(rt: HostRuntime) -> Result<(), Fail> {
    let topology = Topology::from_json(rt.alloc(), row().as_bytes())?;
    let info = AsInfo {
        position: 1,
        core: false,
        exp: 63,
        routers: 1,
    };
    assert_eq!(rt; topology.as_info(middle())?, info);
    assert!(rt; topology.as_entry(top())?.core);
    assert!(rt; topology.as_entry(at(1, 1)).err() == Some(TopologyFault::UnknownAs));
    assert!(rt; topology.interface(middle(), IfId(2))? == &entry(2, LinkKind::Child, 0));
    assert_eq!(rt; topology.owner(middle(), IfId(2)), Ok(0));
    assert_eq!(rt; topology.owner(top(), IfId(2)), Err(TopologyFault::NoLink));
    assert!(rt; topology.view(top(), 1).err() == Some(TopologyFault::NoRouter));
    let view = topology.view(middle(), 0)?;
    assert!(rt; view.key() == b"a1".as_slice());
    assert!(rt; view.entry(IfId(1)) == Some(&entry(1, LinkKind::Parent, 0)));
    Ok(())
}

#[test]
fn a_link_has_two_ends(rt: HostRuntime) -> Result<(), Fail> {
    let topology = Topology::from_json(rt.alloc(), row().as_bytes())?;
    let rows = [
        (top(), IfId(1), Ok((middle(), IfId(1)))),
        (leaf(), IfId(1), Ok((middle(), IfId(2)))),
        (at(1, 1), IfId(0), Err(TopologyFault::UnknownAs)),
    ];
    for (ia, number, end) in rows {
        assert_eq!(rt; topology.far_end(ia, number), end);
    }
    Ok(())
}

/// Whether the link at an interface of an AS is up, if the AS has the interface.
fn is_up(topology: &Topology, ia: IsdAs, number: u16) -> Result<Option<bool>, TopologyFault> {
    let view = topology.view(ia, 0)?;
    Ok(view.entry(IfId(number)).map(|entry| entry.up))
}

/// Whether an AS has this key in use, and the other one before it.
fn has_keys(
    topology: &Topology,
    ia: IsdAs,
    key: &[u8],
    before: Option<&[u8]>,
) -> Result<bool, TopologyFault> {
    let view = topology.view(ia, 0)?;
    Ok(view.key() == key && view.previous() == before)
}

/// Asserts the refusals of changes.
fn expect_no_change(rt: &impl Abort, topology: &mut Topology) {
    assert!(rt; topology.cut_link(top(), IfId(0)) == Err(TopologyFault::NoLink));
    assert!(rt; topology.rotate_key(leaf(), b"") == Err(TopologyFault::BadField));
    assert!(rt; topology.rotate_key(at(1, 1), b"") == Err(TopologyFault::UnknownAs));
}

/// Either end names a link.
#[test]
fn links_are_cut_and_mended_and_keys_changed(rt: HostRuntime) -> Result<(), Fail> {
    let mut topology = Topology::from_json(rt.alloc(), row().as_bytes())?;
    topology.cut_link(leaf(), IfId(1))?;
    topology.cut_link(middle(), IfId(2))?;
    for (ia, number, up) in [
        (middle(), 2, false),
        (leaf(), 1, false),
        (middle(), 1, true),
        (top(), 1, true),
    ] {
        assert!(rt; is_up(&topology, ia, number)? == Some(up));
    }
    topology.mend_link(middle(), IfId(2))?;
    assert!(rt; is_up(&topology, leaf(), 1)? == Some(true));
    expect_no_change(&rt, &mut topology);
    for (key, before) in [(b"a3", b"a2"), (b"a4", b"a3")] {
        topology.rotate_key(leaf(), key)?;
        assert!(rt; has_keys(&topology, leaf(), key, Some(before))?);
    }
    assert!(rt; has_keys(&topology, middle(), b"a1", None)?);
    Ok(())
}

/// One link more than there may be, and duplicates at the very end of the lists.
#[test]
fn the_largest_topology_is_read_to_its_end(rt: HostRuntime) -> Result<(), Fail> {
    let alloc = rt.alloc();
    let most = ring(alloc, 1024, 4096)?;
    let topology = Topology::from_json(alloc, most.as_bytes())?;
    assert_eq!(rt; topology.as_info(IsdAs::parse("1-1024")?)?.position, 1023);
    let more = ring(alloc, 1024, 4097)?;
    let read = Topology::from_json(alloc, more.as_bytes());
    assert!(rt; read.err() == Some(OrMemory::Refused(TopologyFault::TooMany)));
    let rows = [
        (
            "\"1-1024\",\"core\"",
            "\"1-1023\",\"core\"",
            TopologyFault::DuplicateAs,
        ),
        ("\"if\":4096,", "\"if\":3072,", TopologyFault::DuplicateIf),
    ];
    for (old, new, fault) in rows {
        let (front, back) = most.split_once(old).ok_or("the text to change is there")?;
        let text = format!(in alloc; "{front}{new}{back}")?;
        let read = Topology::from_json(alloc, text.as_bytes());
        assert!(rt; read.err() == Some(OrMemory::Refused(fault)), "{new}");
    }
    Ok(())
}
