//! The picture of a network of many ASes, each a node without its routers.
#![tactic(auto, unfolding(crate::specs::Overview::arrow_look, crate::specs::Overview::between_text, crate::specs::Overview::child_link, crate::specs::Overview::core_link, crate::specs::Overview::core_look, crate::specs::Overview::half_text, crate::specs::Overview::here_look, crate::specs::Overview::line_down, crate::specs::Overview::overview_as, crate::specs::Overview::point_look, crate::specs::Overview::point_name))]

ghost use Rattle.std.specs.Prelude.{◌≡◌, ◌++◌, OnOk};
ghost use Rattle.std.specs.String.{string_bytes};
ghost use Rattle.network_view.specs.Overview.{arrow_look, between_text, child_link, core_link, core_look, half_text, here_look, line_down, link_look, overview_as, overview_layout, overview_legend, overview_link, point_look, point_name, point_text};

use crate::looks::{beside_look, passed_look, state_look};
use crate::marks::{Router, is_in, was_passed};
use crate::names::{add_as_name, add_isd};
use policy_expr::WalkHop;
use scion_topology::{AsEntry, End, Link, LinkClass};
use std::alloc::AllocError;

/// The layout: names at the lower left of boxes, ASes as small boxes.
pub(crate) fn layout() -> &'static str
    ensures { result.now ≡ overview_layout }
{
    "\
graph network {
labelloc=b; labeljust=l; newrank=true; ranksep=0.6; fontname=\"sans-serif\";
node [shape=box, style=rounded, fontsize=11, fontname=\"sans-serif\"];
edge [fontsize=8, fontcolor=blue, fontname=\"sans-serif\", labeldistance=1.4, arrowsize=0.7];
"
}

/// What lines, boxes and numbers mean, below the picture.
pub(crate) fn legend() -> &'static str
    ensures { result.now ≡ overview_legend }
{
    "labeljust=c; fontsize=11; label=\"point with two lines: a link between core ASes    arrow: a \
     link to a child    dashed: a link that is cut    blue: interfaces\\nbold box: a core AS    \
     gray name: an AS outside the part that is shown    red: links of the packet or the path, and \
     where the packet is\"; }\n"
}

/// The look of an AS.
fn core_look(core: bool) -> &'static str
    ensures { result.now ≡ core_look core }
{
    if core { " core\", style=bold" } else { "\"" }
}

/// The end of an AS's line, with the look of the AS that has the packet.
fn here_look(here: bool) -> &'static str
    ensures { result.now ≡ here_look here }
{
    if here {
        ", style=filled, fillcolor=red]; }\n"
    } else {
        "]; }\n"
    }
}

/// Adds an AS: a node with its name, in the box of its ISD.
pub(crate) fn add_as(
    text: &mut String,
    at: &Option<Router>,
    inside: bool,
    one: &AsEntry,
) -> Result<(), AllocError>
    ensures { OnOk result
        (string_bytes text.new ≡ string_bytes text.old ++ overview_as at.now inside one.now) }
{
    let ia = one.ia;
    let core = core_look(one.core);
    let beside = beside_look(inside);
    let here = here_look(is_in(*at, ia));
    add_isd(text, ia.isd())?;
    add_as_name(text, ia)?;
    write!(text, " [label=\"{ia}{core}{beside}{here}")
}

/// Adds the name of the point of a link between core ASes: its interfaces.
pub(crate) fn add_point_name(text: &mut String, link: &Link) -> Result<(), AllocError>
    ensures { OnOk result (string_bytes text.new ≡ string_bytes text.old ++ point_name link.now) }
{
    let (a, b) = (link.a, link.b);
    write!(text, "\"{}#{}~{}#{}\"", a.ia, a.number, b.ia, b.number)
}

/// Adds the look of a link, at the end of its line.
fn add_look(text: &mut String, passed: &[WalkHop], link: &Link) -> Result<(), AllocError>
    ensures { OnOk result
        (string_bytes text.new ≡ string_bytes text.old ++ link_look passed.now link.now) }
{
    let mark = passed_look(was_passed(passed, link));
    let state = state_look(link.up);
    write!(text, "{mark}{state}")
}

/// Adds the look of a line down to an end of a link between core ASes, with the interface there.
fn add_line_down(text: &mut String, end: &End) -> Result<(), AllocError>
    ensures { OnOk result (string_bytes text.new ≡ string_bytes text.old ++ line_down end.now) }
{
    let number = end.number;
    write!(text, " [minlen=3, penwidth=2, headlabel={number}")
}

/// Adds the line from the point of a link to one of its ends.
fn add_half(text: &mut String, passed: &[WalkHop], link: &Link, end: &End) -> Result<(), AllocError>
    ensures { OnOk result
        (string_bytes text.new ≡ string_bytes text.old ++ half_text passed.now link.now end.now) }
{
    add_point_name(text, link)?;
    text.push_str(" -- ")?;
    add_as_name(text, end.ia)?;
    add_line_down(text, end)?;
    add_look(text, passed, link)
}

/// The look of the point of a link between core ASes.
fn point_look() -> &'static str
    ensures { result.now ≡ point_look }
{
    " [shape=point, width=0.1];\n"
}

/// Adds the point of a link between core ASes.
fn add_point(text: &mut String, link: &Link) -> Result<(), AllocError>
    ensures { OnOk result (string_bytes text.new ≡ string_bytes text.old ++ point_text link.now) }
{
    add_point_name(text, link)?;
    text.push_str(point_look())
}

/// Adds a link between core ASes: its point, and a line from there to each of its ends.
fn add_core_link(text: &mut String, passed: &[WalkHop], link: &Link) -> Result<(), AllocError>
    ensures { OnOk result
        (string_bytes text.new ≡ string_bytes text.old ++ core_link passed.now link.now) }
{
    add_point(text, link)?;
    add_half(text, passed, link, &link.a)?;
    add_half(text, passed, link, &link.b)
}

/// Adds the ASes of a link to a child.
fn add_between(text: &mut String, link: &Link) -> Result<(), AllocError>
    ensures { OnOk result (string_bytes text.new ≡ string_bytes text.old ++ between_text link.now) }
{
    add_as_name(text, link.a.ia)?;
    text.push_str(" -- ")?;
    add_as_name(text, link.b.ia)
}

/// Adds the look of an arrow, with the interfaces at its ends.
fn add_arrow_look(text: &mut String, link: &Link) -> Result<(), AllocError>
    ensures { OnOk result (string_bytes text.new ≡ string_bytes text.old ++ arrow_look link.now) }
{
    let (tail, head) = (link.a.number, link.b.number);
    write!(text, " [dir=forward, taillabel={tail}, headlabel={head}")
}

/// Adds a link to a child: an arrow between its ASes.
fn add_child_link(text: &mut String, passed: &[WalkHop], link: &Link) -> Result<(), AllocError>
    ensures { OnOk result
        (string_bytes text.new ≡ string_bytes text.old ++ child_link passed.now link.now) }
{
    add_between(text, link)?;
    add_arrow_look(text, link)?;
    add_look(text, passed, link)
}

/// Adds a link: a line between its ASes, or two that meet in its point.
pub(crate) fn add_link(text: &mut String, passed: &[WalkHop], link: &Link) -> Result<(), AllocError>
    ensures { OnOk result
        (string_bytes text.new ≡ string_bytes text.old ++ overview_link passed.now link.now) }
{
    match link.class {
        LinkClass::Core => add_core_link(text, passed, link),
        LinkClass::Child => add_child_link(text, passed, link),
    }
}
