//! The picture, in one of three forms.
#![tactic(auto, unfolding(crate::specs::Dot::text_of))]

ghost use Rattle.std.specs.Prelude.{◌≡◌, ◌++◌, IfOk, OnOk, count_by, nat_eq};
ghost use Rattle.std.specs.HashSet.{contains};
ghost use Rattle.std.specs.String.{string_bytes};
ghost use Rattle.network_view.specs.Dot.{ases_text, dot_of, form_of, if_drawn, layout, legend, link_text, links_text, listed_as, listed_text, text_of};
ghost use Rattle.network_view.specs.Extent.{is_link_drawn};
ghost use Rattle.network_view.specs.Layered.{layers_text};
ghost use Rattle.network_view.specs.Layers.{layer_of};

use crate::extent::{Addresses, Extent, inside, with_neighbours};
use crate::layers::nearest_core;
use crate::marks::Router;
use crate::scene::Scene;
use crate::{detailed, layered, overview};
use policy_expr::WalkHop;
use scion_topology::{AsEntry, Link};
use std::alloc::{AllocError, Global};

/// The largest number of ASes in a picture that has their routers and interfaces.
pub const MAX_DETAILED: usize = 20;

/// The largest number of ASes in a picture that is not in layers.
pub const MAX_OVERVIEW: usize = 60;

/// How a picture is drawn.
#[derive(Clone, Copy)]
enum Form {
    /// With routers and interfaces.
    Detailed,
    /// A node for each AS.
    Overview,
    /// A node for each AS, in layers by the distance from the core.
    Layered,
}

/// The form of a picture of so many ASes.
fn form_of(count: usize) -> Form
    ensures { result ≡ form_of count }
{
    if count <= MAX_DETAILED {
        Form::Detailed
    } else if count <= MAX_OVERVIEW {
        Form::Overview
    } else {
        Form::Layered
    }
}

/// How many ASes are drawn.
fn drawn_count(ases: &[AsEntry], drawn: &Addresses) -> usize
    ensures { result ≡ count_by (λ one. contains nat_eq drawn.now one.ia) ases.now }
{
    ases.iter()
        .filter(|one| drawn.contains(&one.ia.number()))
        .count()
}

/// What stands before the ASes and behind the links, in each form: the layout, and what lines and
/// signs mean.
fn frame(form: Form) -> (&'static str, &'static str)
    ensures front { result.0.now ≡ layout form }
    ensures back { result.1.now ≡ legend form }
{
    match form {
        Form::Detailed => (detailed::layout(), detailed::legend()),
        Form::Overview => (overview::layout(), overview::legend()),
        Form::Layered => (layered::layout(), layered::legend()),
    }
}

/// Adds an AS, with its routers or without them.
fn add_as(
    text: &mut String,
    scene: &Scene<'_>,
    detailed: bool,
    one: &AsEntry,
) -> Result<(), AllocError>
    ensures { OnOk result (string_bytes text.new ≡ string_bytes text.old ++ listed_as detailed
        scene.now.at.now (contains nat_eq scene.now.inside.now one.now.ia) one.now) }
{
    let inside = scene.inside.contains(&one.ia.number());
    if detailed {
        detailed::add_as(text, scene.at, inside, one)
    } else {
        overview::add_as(text, scene.at, inside, one)
    }
}

/// Adds an AS, if it is drawn.
fn add_if_drawn(
    text: &mut String,
    scene: &Scene<'_>,
    detailed: bool,
    one: &AsEntry,
) -> Result<(), AllocError>
    ensures { OnOk result (string_bytes text.new ≡ string_bytes text.old
        ++ if_drawn (contains nat_eq scene.now.drawn.now one.now.ia) (listed_as detailed
        scene.now.at.now (contains nat_eq scene.now.inside.now one.now.ia) one.now)) }
{
    if scene.drawn.contains(&one.ia.number()) {
        return add_as(text, scene, detailed, one);
    }
    Ok(())
}

/// Adds the ASes that are drawn.
fn add_listed(text: &mut String, scene: &Scene<'_>, detailed: bool) -> Result<(), AllocError>
    ensures { OnOk result (string_bytes text.new ≡ string_bytes text.old ++ listed_text
        (listed_as detailed scene.now.at.now) (contains nat_eq scene.now.inside.now)
        (contains nat_eq scene.now.drawn.now) scene.now.ases.now) }
{
    for one in scene.ases {
        add_if_drawn(text, scene, detailed, one)?;
    }
    Ok(())
}

/// Adds the ASes in layers.
fn add_layers(alloc: Global, text: &mut String, scene: &Scene<'_>) -> Result<(), AllocError>
    ensures { OnOk result (string_bytes text.new ≡ string_bytes text.old ++ layers_text
        scene.now.at.now (contains nat_eq scene.now.inside.now)
        (contains nat_eq scene.now.drawn.now) (layer_of (record { ases = scene.now.ases.now; links = scene.now.links.now }))
        scene.now.ases.now 9) }
{
    let sets = nearest_core(alloc, scene.ases, scene.links)?;
    layered::add_layers(text, scene, &sets)
}

/// Adds the ASes, in one of the forms.
fn add_ases(
    alloc: Global,
    text: &mut String,
    scene: &Scene<'_>,
    form: Form,
) -> Result<(), AllocError>
    ensures { OnOk result (string_bytes text.new ≡ string_bytes text.old ++ ases_text form
        (record { ases = scene.now.ases.now; links = scene.now.links.now })
        scene.now.at.now (contains nat_eq scene.now.inside.now)
        (contains nat_eq scene.now.drawn.now)) }
{
    match form {
        Form::Detailed => add_listed(text, scene, true),
        Form::Overview => add_listed(text, scene, false),
        Form::Layered => add_layers(alloc, text, scene),
    }
}

/// Adds a link, in one of the forms.
fn add_link(
    text: &mut String,
    form: Form,
    passed: &[WalkHop],
    link: &Link,
) -> Result<(), AllocError>
    ensures { OnOk result
        (string_bytes text.new ≡ string_bytes text.old ++ link_text form passed.now link.now) }
{
    match form {
        Form::Detailed => detailed::add_link(text, passed, link),
        Form::Overview => overview::add_link(text, passed, link),
        Form::Layered => layered::add_link(text, passed, link),
    }
}

/// Whether a link is drawn: one of its ends is in the part that is shown.
fn is_link_drawn(inside: &Addresses, link: &Link) -> bool
    ensures { result ≡ is_link_drawn (contains nat_eq inside.now) link.now }
{
    inside.contains(&link.a.ia.number()) || inside.contains(&link.b.ia.number())
}

/// Adds a link, if it is drawn.
fn add_link_if_drawn(
    text: &mut String,
    scene: &Scene<'_>,
    form: Form,
    link: &Link,
) -> Result<(), AllocError>
    ensures { OnOk result (string_bytes text.new ≡ string_bytes text.old
        ++ if_drawn (is_link_drawn (contains nat_eq scene.now.inside.now) link.now)
        (link_text form scene.now.passed.now link.now)) }
{
    if is_link_drawn(scene.inside, link) {
        return add_link(text, form, scene.passed, link);
    }
    Ok(())
}

/// Adds the links that are drawn.
fn add_links(text: &mut String, scene: &Scene<'_>, form: Form) -> Result<(), AllocError>
    ensures { OnOk result (string_bytes text.new ≡ string_bytes text.old ++ links_text form
        scene.now.passed.now (contains nat_eq scene.now.inside.now) scene.now.links.now) }
{
    for link in scene.links {
        add_link_if_drawn(text, scene, form, link)?;
    }
    Ok(())
}

/// The picture of what is shown.
fn text_of(alloc: Global, scene: &Scene<'_>, form: Form) -> Result<String, AllocError>
    ensures { IfOk result (λ text. string_bytes text ≡ text_of form
        (record { ases = scene.now.ases.now; links = scene.now.links.now })
        (contains nat_eq scene.now.inside.now) (contains nat_eq scene.now.drawn.now)
        scene.now.passed.now scene.now.at.now) }
{
    let (layout, legend) = frame(form);
    let mut text = String::from_str(alloc, layout)?;
    add_ases(alloc, &mut text, scene, form)?;
    add_links(&mut text, scene, form)?;
    text.push_str(legend)?;
    Ok(text)
}

/// The picture of a part of the network of these ASes and links: of each AS that is in the part, or
/// that a link joins to one, and of each link with an end in the part, in their order. The ASes
/// that are not in it are gray. With at most [`MAX_DETAILED`] ASes the picture has their routers
/// and interfaces; with more than [`MAX_OVERVIEW`] they stand in layers, by their distance from the
/// core. The links by which a packet has left these hops are drawn as passed. The router that has
/// the packet, if there is one, is marked, or its AS in a picture without routers.
///
/// `AllocError` if memory runs out. It takes time for each pair of a link and a hop, for all links
/// as many times as the part has hops, and for all ASes and links some twenty times.
pub fn network_dot(
    alloc: Global,
    ases: &[AsEntry],
    links: &[Link],
    extent: &Extent,
    passed: &[WalkHop],
    at: Option<Router>,
) -> Result<String, AllocError>
    ensures { IfOk result (λ text. string_bytes text ≡ dot_of
        (record { ases = ases.now; links = links.now }) extent.now passed.now at) }
{
    let inside = inside(alloc, ases, links, extent)?;
    let drawn = with_neighbours(links, &inside)?;
    let form = form_of(drawn_count(ases, &drawn));
    let scene = Scene {
        ases,
        links,
        inside: &inside,
        drawn: &drawn,
        passed,
        at: &at,
    };
    text_of(alloc, &scene, form)
}
