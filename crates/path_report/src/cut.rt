//! The links that are cut.
#![tactic(auto, unfolding(crate::specs::Cut::cut_line))]

ghost use Rattle.std.specs.Prelude.{◌≡◌, ◌++◌, OnOk};
ghost use Rattle.std.specs.String.{string_bytes};
ghost use Rattle.path_report.specs.Cut.{cut_line, cut_lines, cut_text, if_down};

use crate::json::add_json_cut;
use crate::line::add_link;
use scion_topology::Link;
use std::alloc::AllocError;

/// Adds the line of a link that is cut.
fn add_cut_line(text: &mut String, link: &Link) -> Result<(), AllocError>
    ensures { OnOk result (string_bytes text.new ≡ string_bytes text.old ++ cut_line link.now) }
{
    text.push_str("cut ")?;
    add_link(text, link)?;
    text.push_str("\n")
}

/// Adds the line of a link that is cut, in either form.
fn add_cut(text: &mut String, json: bool, link: &Link) -> Result<(), AllocError>
    ensures { OnOk result
        (string_bytes text.new ≡ string_bytes text.old ++ cut_text json link.now) }
{
    if json {
        add_json_cut(text, link)
    } else {
        add_cut_line(text, link)
    }
}

/// Adds the line of a link, if it is cut.
fn add_if_cut(text: &mut String, json: bool, link: &Link) -> Result<(), AllocError>
    ensures { OnOk result (string_bytes text.new
        ≡ string_bytes text.old ++ if_down link.now.up (cut_text json link.now)) }
{
    if link.up {
        return Ok(());
    }
    add_cut(text, json, link)
}

/// Adds the lines of the links that are cut.
pub(crate) fn add_cut_links(text: &mut String, json: bool, links: &[Link]) -> Result<(), AllocError>
    ensures { OnOk result
        (string_bytes text.new ≡ string_bytes text.old ++ cut_lines json links.now) }
{
    for link in links {
        add_if_cut(text, json, link)?;
    }
    Ok(())
}
