use isd_as::IfId;
use network_view::{Centre, Extent, MAX_DETAILED, Router, network_dot};
use policy_expr::WalkHop;
use scion_topology::Topology;
use std::alloc::{AllocError, Global};
use std::process::Abort;
use std::test::Fail;
use worked::{at, hop, ring, row};

const ROW_DRAWN: &str = concat!(
    "graph network {",
    "\n",
    r#"labelloc=b; labeljust=l; ranksep=0.3; nodesep=0.2; fontname="sans-serif";"#,
    "\n",
    r#"node [shape=circle, width=0.3, fixedsize=true, fontsize=10, fontname="sans-serif"];"#,
    "\n",
    "edge [color=gray];",
    "\n",
    r#"subgraph cluster_1 { label="ISD 1"; subgraph "cluster_1-ff00:0:110" { "#,
    r#"label=""; style=bold; "1-ff00:0:110" [label="1-ff00:0:110 core", "#,
    r#"shape=plain, fixedsize=false, fontsize=13]; "1-ff00:0:110 0" [label=r0]; } }"#,
    "\n",
    r#"subgraph cluster_1 { label="ISD 1"; subgraph "cluster_1-ff00:0:111" { "#,
    r#"label=""; style=rounded; "1-ff00:0:111" [label="1-ff00:0:111", "#,
    r#"shape=plain, fixedsize=false, fontsize=13]; "1-ff00:0:111 0" [label=r0]; } }"#,
    "\n",
    r#"subgraph cluster_1 { label="ISD 1"; subgraph "cluster_1-ff00:0:112" { "#,
    r#"label=""; style=rounded; "1-ff00:0:112" [label="1-ff00:0:112", "#,
    r#"shape=plain, fixedsize=false, fontsize=13]; "1-ff00:0:112 0" [label=r0]; } }"#,
    "\n",
    r#"subgraph cluster_1 { label="ISD 1"; subgraph "cluster_1-ff00:0:110" { "#,
    r#""1-ff00:0:110#1" [label=1, shape=plaintext, fixedsize=false, height=0.32]; } }"#,
    "\n",
    r#"subgraph cluster_1 { label="ISD 1"; subgraph "cluster_1-ff00:0:111" { "#,
    r#""1-ff00:0:111#1" [label=1, shape=plaintext, fixedsize=false, height=0.32]; } }"#,
    "\n",
    r#""1-ff00:0:110 0" -- "1-ff00:0:110#1";"#,
    "\n",
    r#""1-ff00:0:111#1" -- "1-ff00:0:111 0";"#,
    "\n",
    r#""1-ff00:0:110#1" -- "1-ff00:0:111#1" [color=black, minlen=2, dir=forward];"#,
    "\n",
    r#"subgraph cluster_1 { label="ISD 1"; subgraph "cluster_1-ff00:0:111" { "#,
    r#""1-ff00:0:111#2" [label=2, shape=plaintext, fixedsize=false, height=0.32]; } }"#,
    "\n",
    r#"subgraph cluster_1 { label="ISD 1"; subgraph "cluster_1-ff00:0:112" { "#,
    r#""1-ff00:0:112#1" [label=1, shape=plaintext, fixedsize=false, height=0.32]; } }"#,
    "\n",
    r#""1-ff00:0:111 0" -- "1-ff00:0:111#2";"#,
    "\n",
    r#""1-ff00:0:112#1" -- "1-ff00:0:112 0";"#,
    "\n",
    r#""1-ff00:0:111#2" -- "1-ff00:0:112#1" [color=black, minlen=2, dir=forward];"#,
    "\n",
    r#"labeljust=c; fontsize=11; label="thick: a link between core ASes    "#,
    r"arrow: a link to a child    dashed: a link that is cut\n",
    r"r0, r1: routers    numbers: interfaces    gray line: which router has which interface\n",
    r"bold box: a core AS    red: links of the packet or the path, and where the packet is\n",
    r#"gray box: an AS outside the part that is shown"; }"#,
    "\n",
);

/// The picture with each of these texts changed into the one beside it.
fn changed(alloc: Global, picture: &str, changes: &[(&str, &str)]) -> Result<String, AllocError> {
    let mut text = String::from_str(alloc, picture)?;
    for (from, to) in changes {
        text = text.replace(alloc, *from, to)?;
    }
    Ok(text)
}

/// Asserts that this is the picture of a network, with a packet that has passed these hops and is
/// at this router.
fn expect_picture(
    rt: &impl Abort,
    alloc: Global,
    topology: &Topology,
    passed: &[WalkHop],
    at: Option<Router>,
    picture: &str,
) -> Result<(), Fail> {
    let extent = Extent {
        centre: Centre::Whole,
        hops: 0,
    };
    let text = network_dot(
        alloc,
        topology.ases(),
        topology.links(),
        &extent,
        passed,
        at,
    )?;
    assert_eq!(rt; text.as_str(), picture);
    Ok(())
}

/// A link that is cut, a link that a packet has passed, and the router that has the packet.
#[test]
fn a_cut_link_is_dashed_and_a_passed_one_red(rt: HostRuntime) -> Result<(), Fail> {
    let mut topology = Topology::from_json(rt.alloc(), row().as_bytes())?;
    expect_picture(&rt, rt.alloc(), &topology, &[], None, ROW_DRAWN)?;
    let ia = at(1, 0x111);
    topology.cut_link(ia, IfId(1))?;
    let passed = [hop(at(1, 0x112), 0, 1)];
    let changes = [
        (
            r#""1-ff00:0:111 0" [label=r0]"#,
            r#""1-ff00:0:111 0" [label=r0, style=filled, fillcolor=red]"#,
        ),
        (
            r#""1-ff00:0:111#1" [color=black, minlen=2, dir=forward]"#,
            r#""1-ff00:0:111#1" [color=black, minlen=2, dir=forward, style=dashed]"#,
        ),
        (
            r#""1-ff00:0:112#1" [color=black, minlen=2, dir=forward]"#,
            concat!(
                r#""1-ff00:0:112#1" [color=black, minlen=2, dir=forward, "#,
                "color=red, penwidth=4, arrowsize=0.6]",
            ),
        ),
    ];
    let picture = changed(rt.alloc(), ROW_DRAWN, &changes)?;
    let router = Router { ia, number: 0 };
    expect_picture(&rt, rt.alloc(), &topology, &passed, Some(router), &picture)
}

/// A link between two core ASes, without routers: its point, and a line to each of them.
const CORE_LINK_DRAWN: &str = concat!(
    r#""1-1#1~1-2#10000" [shape=point, width=0.1];"#,
    "\n",
    r#""1-1#1~1-2#10000" -- "1-1" [minlen=3, penwidth=2, headlabel=1];"#,
    "\n",
    r#""1-1#1~1-2#10000" -- "1-2" [minlen=3, penwidth=2, headlabel=10000];"#,
    "\n",
);

/// The picture of this many core ASes with a link between the first two, without routers.
fn core_ases_drawn(alloc: Global, count: usize) -> Result<String, AllocError> {
    let mut picture = String::from_str(
        alloc,
        concat!(
            "graph network {\n",
            r#"labelloc=b; labeljust=l; newrank=true; ranksep=0.6; fontname="sans-serif";"#,
            "\n",
            r#"node [shape=box, style=rounded, fontsize=11, fontname="sans-serif"];"#,
            "\n",
            r#"edge [fontsize=8, fontcolor=blue, fontname="sans-serif", labeldistance=1.4, "#,
            "arrowsize=0.7];\n",
        ),
    )?;
    for one in 1..=count {
        picture.push_str(r#"subgraph cluster_1 { label="ISD 1"; "#)?;
        writeln!(
            picture,
            r#""1-{one}" [label="1-{one} core", style=bold]; }}"#
        )?;
    }
    picture.push_str(CORE_LINK_DRAWN)?;
    picture.push_str(concat!(
        r#"labeljust=c; fontsize=11; label="point with two lines: a link between core ASes    "#,
        r"arrow: a link to a child    dashed: a link that is cut    blue: interfaces\n",
        "bold box: a core AS    gray name: an AS outside the part that is shown    ",
        r#"red: links of the packet or the path, and where the packet is"; }"#,
        "\n",
    ))?;
    Ok(picture)
}

/// One AS more than are drawn with their routers.
#[test]
fn many_ases_are_drawn_without_routers(rt: HostRuntime) -> Result<(), Fail> {
    let alloc = rt.alloc();
    let topology = Topology::from_json(alloc, ring(alloc, 21, 1)?.as_bytes())?;
    assert_eq!(rt; topology.ases().len(), MAX_DETAILED + 1);
    let picture = core_ases_drawn(alloc, 21)?;
    expect_picture(&rt, alloc, &topology, &[], None, &picture)
}
