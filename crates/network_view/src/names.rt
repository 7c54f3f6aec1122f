//! Names in the picture.
#![tactic(auto, unfolding(crate::specs::Names::as_name, crate::specs::Names::box_name, crate::specs::Names::router_name, crate::specs::Names::interface_name, crate::specs::Names::isd_text, crate::specs::Names::box_text))]

ghost use Rattle.std.specs.Prelude.{◌≡◌, ◌++◌, OnOk};
ghost use Rattle.std.specs.String.{string_bytes};
ghost use Rattle.network_view.specs.Names.{as_name, box_name, box_text, interface_name, isd_text, router_name};

use isd_as::{Isd, IsdAs};
use scion_topology::End;
use std::alloc::AllocError;

/// Adds the name of an AS.
pub(crate) fn add_as_name(text: &mut String, ia: IsdAs) -> Result<(), AllocError>
    ensures { OnOk result (string_bytes text.new ≡ string_bytes text.old ++ as_name ia) }
{
    write!(text, "\"{ia}\"")
}

/// Adds the name of the box of an AS.
fn add_box_name(text: &mut String, ia: IsdAs) -> Result<(), AllocError>
    ensures { OnOk result (string_bytes text.new ≡ string_bytes text.old ++ box_name ia) }
{
    write!(text, "\"cluster_{ia}\"")
}

/// Adds the name of a router.
pub(crate) fn add_router_name(text: &mut String, ia: IsdAs, router: u8) -> Result<(), AllocError>
    ensures { OnOk result (string_bytes text.new ≡ string_bytes text.old ++ router_name ia router) }
{
    write!(text, "\"{ia} {router}\"")
}

/// Adds the name of an interface.
pub(crate) fn add_interface_name(text: &mut String, end: &End) -> Result<(), AllocError>
    ensures { OnOk result
        (string_bytes text.new ≡ string_bytes text.old ++ interface_name end.now) }
{
    let (ia, number) = (end.ia, end.number);
    write!(text, "\"{ia}#{number}\"")
}

/// Adds the opening of the box of an ISD, which is the same for all its ASes.
pub(crate) fn add_isd(text: &mut String, isd: Isd) -> Result<(), AllocError>
    ensures { OnOk result (string_bytes text.new ≡ string_bytes text.old ++ isd_text isd) }
{
    write!(text, "subgraph cluster_{isd} {{ label=\"ISD {isd}\"; ")
}

/// Adds the opening of the box of an AS.
pub(crate) fn add_box(text: &mut String, ia: IsdAs) -> Result<(), AllocError>
    ensures { OnOk result (string_bytes text.new ≡ string_bytes text.old ++ box_text ia) }
{
    text.push_str("subgraph ")?;
    add_box_name(text, ia)?;
    text.push_str(" { ")
}
