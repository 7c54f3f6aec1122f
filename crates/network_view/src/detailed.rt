//! The picture of a small network, with its routers and its interfaces.
#![tactic(auto, unfolding(crate::specs::Detailed::marked_text, crate::specs::Detailed::router_text, crate::specs::Detailed::routers_text, crate::specs::Detailed::beside_box, crate::specs::Detailed::box_look, crate::specs::Detailed::name_look, crate::specs::Detailed::name_text, crate::specs::Detailed::interface_text, crate::specs::Detailed::way_down, crate::specs::Detailed::way_up, crate::specs::Detailed::class_look, crate::specs::Detailed::line_text))]

ghost use Rattle.std.specs.Prelude.{◌≡◌, ◌++◌, OnOk};
ghost use Rattle.std.specs.String.{string_bytes};
ghost use Rattle.network_view.specs.Detailed.{beside_box, box_look, class_look, detailed_as, detailed_layout, detailed_legend, detailed_link, interface_text, line_text, marked_text, name_look, name_text, router_text, routers_text, way_down, way_up};

use crate::looks::{passed_look, state_look};
use crate::marks::{Router, is_at, was_passed};
use crate::names::{add_as_name, add_box, add_interface_name, add_isd, add_router_name};
use isd_as::IsdAs;
use policy_expr::WalkHop;
use scion_topology::{AsEntry, End, Link, LinkClass};
use std::alloc::AllocError;

/// The layout: names at the lower left of boxes, routers as small circles.
pub(crate) fn layout() -> &'static str
    ensures { result.now ≡ detailed_layout }
{
    "\
graph network {
labelloc=b; labeljust=l; ranksep=0.3; nodesep=0.2; fontname=\"sans-serif\";
node [shape=circle, width=0.3, fixedsize=true, fontsize=10, fontname=\"sans-serif\"];
edge [color=gray];
"
}

/// What lines, boxes and signs mean, below the picture.
pub(crate) fn legend() -> &'static str
    ensures { result.now ≡ detailed_legend }
{
    "labeljust=c; fontsize=11; label=\"thick: a link between core ASes    arrow: a \
     link to a child    dashed: a link that is cut\\nr0, r1: routers    numbers: interfaces    \
     gray line: which router has which interface\\nbold box: a core AS    red: links of the packet \
     or the path, and where the packet is\\ngray box: an AS outside the part that is shown\"; }\n"
}

/// The look of a router.
fn marked_text(marked: bool) -> &'static str
    ensures { result.now ≡ marked_text marked }
{
    if marked {
        ", style=filled, fillcolor=red]; "
    } else {
        "]; "
    }
}

/// Adds a router, with its number.
fn add_router(text: &mut String, at: &Option<Router>, router: Router) -> Result<(), AllocError>
    ensures { OnOk result (string_bytes text.new
        ≡ string_bytes text.old ++ router_text at.now router.ia router.number) }
{
    let Router { ia, number } = router;
    let look = marked_text(is_at(*at, ia, number));
    add_router_name(text, ia, number)?;
    write!(text, " [label=r{number}{look}")
}

/// Adds the routers of an AS, in the order of their numbers.
fn add_routers(
    text: &mut String,
    at: &Option<Router>,
    ia: IsdAs,
    routers: u8,
) -> Result<(), AllocError>
    ensures { OnOk result
        (string_bytes text.new ≡ string_bytes text.old ++ routers_text at.now ia routers) }
{
    for router in 0..routers {
        add_router(text, at, Router { ia, number: router })?;
    }
    Ok(())
}

/// The looks of an AS: of its box, and of its name, which is a node of its own, so that no line is
/// drawn over it.
fn as_looks(core: bool) -> (&'static str, &'static str)
    ensures boxed { result.0.now ≡ box_look core }
    ensures named { result.1.now ≡ name_look core }
{
    if core {
        (
            "label=\"\"; style=bold; ",
            " core\", shape=plain, fixedsize=false, fontsize=13]; ",
        )
    } else {
        (
            "label=\"\"; style=rounded; ",
            "\", shape=plain, fixedsize=false, fontsize=13]; ",
        )
    }
}

/// The look of an AS: one that is not in the part that is shown is gray.
fn beside_box(inside: bool) -> &'static str
    ensures { result.now ≡ beside_box inside }
{
    if inside {
        ""
    } else {
        "color=gray; node [color=gray, fontcolor=gray]; "
    }
}

/// Adds the name of an AS to its box.
fn add_name(text: &mut String, one: &AsEntry) -> Result<(), AllocError>
    ensures { OnOk result (string_bytes text.new ≡ string_bytes text.old ++ name_text one.now) }
{
    let (ia, look) = (one.ia, as_looks(one.core).1);
    add_as_name(text, ia)?;
    write!(text, " [label=\"{ia}{look}")
}

/// Adds an AS: a box with its name and its routers, in the box of its ISD.
pub(crate) fn add_as(
    text: &mut String,
    at: &Option<Router>,
    inside: bool,
    one: &AsEntry,
) -> Result<(), AllocError>
    ensures { OnOk result
        (string_bytes text.new ≡ string_bytes text.old ++ detailed_as at.now inside one.now) }
{
    let ia = one.ia;
    add_isd(text, ia.isd())?;
    add_box(text, ia)?;
    text.push_str(as_looks(one.core).0)?;
    text.push_str(beside_box(inside))?;
    add_name(text, one)?;
    add_routers(text, at, ia, one.routers)?;
    text.push_str("} }\n")
}

/// Adds an interface: its number, in the box of its AS.
fn add_interface(text: &mut String, end: &End) -> Result<(), AllocError>
    ensures { OnOk result
        (string_bytes text.new ≡ string_bytes text.old ++ interface_text end.now) }
{
    add_isd(text, end.ia.isd())?;
    add_box(text, end.ia)?;
    add_interface_name(text, end)?;
    let number = end.number;
    write!(
        text,
        " [label={number}, shape=plaintext, fixedsize=false, height=0.32]; }} }}\n"
    )
}

/// Adds the line from a router to its interface, which stands below it.
fn add_way_down(text: &mut String, end: &End) -> Result<(), AllocError>
    ensures { OnOk result (string_bytes text.new ≡ string_bytes text.old ++ way_down end.now) }
{
    add_router_name(text, end.ia, end.router)?;
    text.push_str(" -- ")?;
    add_interface_name(text, end)?;
    text.push_str(";\n")
}

/// Adds the line from a router to its interface, which stands above it.
fn add_way_up(text: &mut String, end: &End) -> Result<(), AllocError>
    ensures { OnOk result (string_bytes text.new ≡ string_bytes text.old ++ way_up end.now) }
{
    add_interface_name(text, end)?;
    text.push_str(" -- ")?;
    add_router_name(text, end.ia, end.router)?;
    text.push_str(";\n")
}

/// The look of a link by its class.
fn class_look(class: LinkClass) -> &'static str
    ensures { result.now ≡ class_look class }
{
    match class {
        LinkClass::Core => " [color=black, minlen=2, penwidth=3",
        LinkClass::Child => " [color=black, minlen=2, dir=forward",
    }
}

/// Adds the line of a link, between its interfaces.
fn add_line(text: &mut String, passed: &[WalkHop], link: &Link) -> Result<(), AllocError>
    ensures { OnOk result
        (string_bytes text.new ≡ string_bytes text.old ++ line_text passed.now link.now) }
{
    let class = class_look(link.class);
    let mark = passed_look(was_passed(passed, link));
    let state = state_look(link.up);
    add_interface_name(text, &link.a)?;
    text.push_str(" -- ")?;
    add_interface_name(text, &link.b)?;
    write!(text, "{class}{mark}{state}")
}

/// Adds a link: its interfaces, the lines to their routers, and the line between them.
pub(crate) fn add_link(text: &mut String, passed: &[WalkHop], link: &Link) -> Result<(), AllocError>
    ensures { OnOk result
        (string_bytes text.new ≡ string_bytes text.old ++ detailed_link passed.now link.now) }
{
    add_interface(text, &link.a)?;
    add_interface(text, &link.b)?;
    add_way_down(text, &link.a)?;
    add_way_up(text, &link.b)?;
    add_line(text, passed, link)
}
