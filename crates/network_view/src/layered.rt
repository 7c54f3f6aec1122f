//! The picture of a network of very many ASes, in layers by their distance from the core.
#![tactic(auto, unfolding(crate::specs::Layered::cell_text, crate::specs::Layered::cut_look, crate::specs::Layered::ends_text, crate::specs::Layered::hue_text, crate::specs::Layered::layer_label, crate::specs::Layered::layered_as, crate::specs::Layered::layered_class, crate::specs::Layered::layered_here, crate::specs::Layered::layered_link, crate::specs::Layered::layered_look, crate::specs::Layered::looks_text))]

ghost use Rattle.std.specs.Prelude.{◌≡◌, ◌<◌, ◌+◌, ◌++◌, ◌^◌, IfOk, OnOk, length, map, nat_eq};
ghost use Rattle.std.specs.HashSet.{contains};
ghost use Rattle.std.specs.String.{string_bytes};
ghost use Rattle.network_view.specs.Layers.{if_of, is_of, layer_ases, layer_by};
ghost use Rattle.network_view.specs.Layered.{begins_at_a, cell_text, cells_text, cut_look, ends_text, hue_of, hue_text, layer_label, layered_as, layered_class, layered_here, layered_layout, layered_legend, layered_link, layered_look, layers_text, looks_text};

use crate::extent::Addresses;
use crate::layers::{IN_A_ROW, LAYERS, layer_of, rows_of};
use crate::looks::{beside_look, passed_look};
use crate::marks::{is_in, was_passed};
use crate::names::add_as_name;
use crate::overview::add_point_name;
use crate::scene::Scene;
use isd_as::Isd;
use policy_expr::WalkHop;
use scion_topology::{AsEntry, Link, LinkClass};
use std::alloc::AllocError;

/// The number of colours.
const COLOURS: u16 = 8;

/// The layout: boxes of one size in their places, above straight lines.
pub(crate) fn layout() -> &'static str
    ensures { result.now ≡ layered_layout }
{
    "\
graph network {
layout=neato; inputscale=1.8; overlap=true; splines=line; outputorder=edgesfirst; \
         fontname=\"sans-serif\"; labelloc=b;
node [shape=box, style=\"rounded,filled\", fillcolor=white, width=1, height=0.24, fixedsize=true, \
         fontsize=9, fontname=\"sans-serif\"];
edge [arrowsize=0.5];
"
}

/// What lines, boxes and numbers mean, below the picture.
pub(crate) fn legend() -> &'static str
    ensures { result.now ≡ layered_legend }
{
    "fontsize=14; label=\"numbers at the left: how many links lead to the nearest core AS, 8 for 8 \
     and more    dark: a link between core ASes    arrow: a link to a child    black and dashed: a \
     link that is cut\\nbold box: a core AS    colour: its ISD    gray name: an AS outside the \
     part that is shown    red: links of the packet or the path, and where the packet is\"; }\n"
}

/// The look of an AS.
fn layered_look(core: bool) -> &'static str
    ensures { result.now ≡ layered_look core }
{
    if core { "\", penwidth=2.5" } else { "\"" }
}

/// The end of an AS's line, with the look of the AS that has the packet.
fn layered_here(here: bool) -> &'static str
    ensures { result.now ≡ layered_here here }
{
    if here { ", fillcolor=red];\n" } else { "];\n" }
}

/// The number of the colour of the ASes of an ISD.
#[tactic(auto, unfolding(crate::specs::Layered::hue_of))]
fn hue_of(isd: Isd) -> u16
    ensures { result ≡ hue_of isd }
{
    isd.number() % COLOURS + 1
}

/// Adds the colour of the ASes of an ISD.
fn add_hue(text: &mut String, isd: Isd) -> Result<(), AllocError>
    ensures { OnOk result (string_bytes text.new ≡ string_bytes text.old ++ hue_text isd) }
{
    let hue = hue_of(isd);
    write!(text, ", color=\"/dark28/{hue}\"")
}

/// Adds where an AS stands.
fn add_cell(text: &mut String, first_row: usize, place: usize) -> Result<(), AllocError>
    requires row { first_row < 2 ^ 63 }
    requires place { place < 2 ^ 63 }
    ensures { OnOk result (string_bytes text.new
        ≡ string_bytes text.old ++ cell_text first_row place) }
{
    let column = 2 * (place % IN_A_ROW);
    let row = first_row + place / IN_A_ROW;
    let tenths = 5 * (place % 2);
    write!(text, ", pos=\"{column},-{row}.{tenths}!\"")
}

/// Adds the looks of an AS.
fn add_looks(text: &mut String, scene: &Scene<'_>, one: &AsEntry) -> Result<(), AllocError>
    ensures { OnOk result (string_bytes text.new ≡ string_bytes text.old ++ looks_text
        (contains nat_eq scene.now.inside.now) one.now) }
{
    let ia = one.ia;
    let look = layered_look(one.core);
    let beside = beside_look(scene.inside.contains(&ia.number()));
    write!(text, " [label=\"{ia}{look}")?;
    add_hue(text, ia.isd())?;
    text.push_str(beside)
}

/// Adds an AS: a box with its name, in its place.
fn add_as(
    text: &mut String,
    scene: &Scene<'_>,
    one: &AsEntry,
    first_row: usize,
    place: usize,
) -> Result<(), AllocError>
    requires row { first_row < 2 ^ 63 }
    requires place { place < 2 ^ 63 }
    ensures { OnOk result (string_bytes text.new ≡ string_bytes text.old ++ layered_as
        scene.now.at.now (contains nat_eq scene.now.inside.now) first_row place one.now) }
{
    let here = layered_here(is_in(*scene.at, one.ia));
    add_as_name(text, one.ia)?;
    add_looks(text, scene, one)?;
    add_cell(text, first_row, place)?;
    text.push_str(here)
}

/// Adds the number of a layer before its first row, if it has an AS.
fn add_label(text: &mut String, layer: usize, row: usize, count: usize) -> Result<(), AllocError>
    ensures { OnOk result (string_bytes text.new
        ≡ string_bytes text.old ++ layer_label layer row count) }
{
    if count == 0 {
        return Ok(());
    }
    write!(
        text,
        "\"layer {layer}\" [label={layer}, shape=plain, fixedsize=false, pos=\"-2,-{row}.0!\"];\n"
    )
}

/// A layer: the sets by which layers are told apart, its number, and its first row.
#[derive(Drop)]
struct Layer<'a> {
    sets: &'a [Addresses],
    number: usize,
    first_row: usize,
}

/// Whether an AS is drawn, and is of this layer.
fn is_of(scene: &Scene<'_>, layer: &Layer<'_>, one: &AsEntry) -> bool
    ensures { result ≡ is_of (contains nat_eq scene.now.drawn.now)
        (layer_by (map (contains nat_eq) layer.now.sets.now)) layer.now.number one.now }
{
    scene.drawn.contains(&one.ia.number()) && layer_of(layer.sets, one.ia) == layer.number
}

/// Adds an AS in its place, if it is drawn and of this layer, and returns the place behind it.
fn add_if_of(
    text: &mut String,
    scene: &Scene<'_>,
    layer: &Layer<'_>,
    one: &AsEntry,
    place: usize,
) -> Result<usize, AllocError>
    requires row { layer.now.first_row < 2 ^ 63 }
    requires place { place < 2 ^ 63 }
    ensures text { OnOk result (string_bytes text.new ≡ string_bytes text.old
        ++ cells_text scene.now.at.now (contains nat_eq scene.now.inside.now) layer.now.first_row
        place (if_of (contains nat_eq scene.now.drawn.now)
        (layer_by (map (contains nat_eq) layer.now.sets.now)) layer.now.number one.now)) }
    ensures place { IfOk result (λ behind. behind ≡ place + length (if_of
        (contains nat_eq scene.now.drawn.now) (layer_by (map (contains nat_eq) layer.now.sets.now))
        layer.now.number one.now)) }
{
    if !is_of(scene, layer, one) {
        return Ok(place);
    }
    add_as(text, scene, one, layer.first_row, place)?;
    Ok(place + 1)
}

/// Adds the ASes of a layer, and returns how many they are.
fn add_layer(text: &mut String, scene: &Scene<'_>, layer: &Layer<'_>) -> Result<usize, AllocError>
    requires { layer.now.first_row < 2 ^ 63 }
    ensures text { OnOk result (string_bytes text.new ≡ string_bytes text.old
        ++ cells_text scene.now.at.now (contains nat_eq scene.now.inside.now) layer.now.first_row 0
        (layer_ases (layer_by (map (contains nat_eq) layer.now.sets.now))
        (contains nat_eq scene.now.drawn.now) scene.now.ases.now layer.now.number)) }
    ensures count { IfOk result (λ count. count ≡ length (layer_ases
        (layer_by (map (contains nat_eq) layer.now.sets.now)) (contains nat_eq scene.now.drawn.now)
        scene.now.ases.now layer.now.number)) }
    ensures few { IfOk result (λ count. count < 2 ^ 63) }
{
    let mut place = 0;
    for one in scene.ases {
        let behind = add_if_of(text, scene, layer, one, place)?;
        place = behind;
    }
    Ok(place)
}

/// Adds all layers, from the core on. For each of them it takes the time of the ASes.
pub(crate) fn add_layers(
    text: &mut String,
    scene: &Scene<'_>,
    sets: &[Addresses],
) -> Result<(), AllocError>
    ensures { OnOk result (string_bytes text.new ≡ string_bytes text.old ++ layers_text
        scene.now.at.now (contains nat_eq scene.now.inside.now)
        (contains nat_eq scene.now.drawn.now) (layer_by (map (contains nat_eq) sets.now))
        scene.now.ases.now 9) }
{
    let mut first_row = 0;
    for number in 0..LAYERS {
        let layer = Layer {
            sets,
            number,
            first_row,
        };
        let count = add_layer(text, scene, &layer)?;
        add_label(text, number, first_row, count)?;
        first_row += rows_of(count);
    }
    Ok(())
}

/// Whether the line of a link begins at its first end: at the AS of the smaller address.
fn begins_at_a(link: &Link) -> bool
    ensures { result ≡ begins_at_a link.now }
{
    link.a.ia.number() <= link.b.ia.number()
}

/// Adds the ASes of a link, between which its line is drawn.
fn add_ends(text: &mut String, begins: bool, link: &Link) -> Result<(), AllocError>
    ensures { OnOk result
        (string_bytes text.new ≡ string_bytes text.old ++ ends_text begins link.now) }
{
    let (a, b) = (link.a.ia, link.b.ia);
    if begins {
        add_as_name(text, a)?;
        text.push_str(" -- ")?;
        add_as_name(text, b)
    } else {
        add_as_name(text, b)?;
        text.push_str(" -- ")?;
        add_as_name(text, a)
    }
}

/// The look of a link by its class.
fn layered_class(begins: bool, class: LinkClass) -> &'static str
    ensures { result.now ≡ layered_class begins class }
{
    match class {
        LinkClass::Core => " [color=gray40, penwidth=2",
        LinkClass::Child if begins => " [color=gray70, dir=forward",
        LinkClass::Child => " [color=gray70, dir=back",
    }
}

/// The look of a link that is cut.
fn cut_look(up: bool) -> &'static str
    ensures { result.now ≡ cut_look up }
{
    if up {
        ""
    } else {
        ", color=black, style=dashed"
    }
}

/// Adds a link: a line between its ASes, with its interfaces as a tooltip.
pub(crate) fn add_link(text: &mut String, passed: &[WalkHop], link: &Link) -> Result<(), AllocError>
    ensures { OnOk result
        (string_bytes text.new ≡ string_bytes text.old ++ layered_link passed.now link.now) }
{
    let begins = begins_at_a(link);
    let class = layered_class(begins, link.class);
    let cut = cut_look(link.up);
    let mark = passed_look(was_passed(passed, link));
    add_ends(text, begins, link)?;
    write!(text, "{class}{cut}{mark}, tooltip=")?;
    add_point_name(text, link)?;
    text.push_str("];\n")
}
