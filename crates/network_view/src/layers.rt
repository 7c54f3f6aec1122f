//! How far ASes are from the core.

ghost use Rattle.std.specs.Prelude.{◌≡◌, ◌<◌, ◌≤◌, ◌^◌, IfOk, count_by, map, nat_eq, not};
ghost use Rattle.std.specs.HashSet.{contains};
ghost use Rattle.network_view.specs.declared.extent.Centre.TheVariants.{Core};
ghost use Rattle.network_view.specs.Extent.{central};
ghost use Rattle.network_view.specs.Layers.{layer_by, nearest, rows_of};

use crate::extent::{Addresses, Centre, central, with_neighbours};
use isd_as::IsdAs;
use scion_topology::{AsEntry, Link};
use std::alloc::{AllocError, Global};

/// The largest layer: of the ASes at so many links from the core, or more.
const MAX_LAYER: usize = 8;

/// The number of layers.
pub(crate) const LAYERS: usize = MAX_LAYER + 1;

/// The ASes in a row.
pub(crate) const IN_A_ROW: usize = 32;

/// The ASes at most 0, 1, 2, .. links from these: so many sets.
fn nearest(
    alloc: Global,
    links: &[Link],
    these: Addresses,
    count: usize,
) -> Result<Vec<Addresses>, AllocError>
    ensures { IfOk result (λ sets. map (contains nat_eq) sets.items
        ≡ nearest links.now (contains nat_eq these) count) }
{
    let mut sets = Vec::new(alloc);
    let mut near = these;
    for _farther in 0..count {
        let next = with_neighbours(links, &near)?;
        sets.push(near)?;
        near = next;
    }
    Ok(sets)
}

/// The ASes at most 0, 1, 2, .. links from a core AS, for each layer but the last. It takes the
/// time of the ASes and the links for each of them.
pub(crate) fn nearest_core(
    alloc: Global,
    ases: &[AsEntry],
    links: &[Link],
) -> Result<Vec<Addresses>, AllocError>
    ensures { IfOk result (λ sets. map (contains nat_eq) sets.items
        ≡ nearest links.now (central Core ases.now) 8) }
{
    let core = central(alloc, ases, &Centre::Core)?;
    nearest(alloc, links, core, MAX_LAYER)
}

/// The layer of an AS: how many of these sets lack it.
pub(crate) fn layer_of(sets: &[Addresses], ia: IsdAs) -> usize
    ensures { result ≡ layer_by (map (contains nat_eq) sets.now) ia }
{
    sets.iter()
        .filter(|near| !near.contains(&ia.number()))
        .count()
}

/// The rows of so many ASes, and an empty row behind them.
pub(crate) fn rows_of(count: usize) -> usize
    requires { count < 2 ^ 63 }
    ensures rows { result ≡ rows_of count }
    ensures few { result ≤ 2 ^ 59 }
{
    (count + (IN_A_ROW - 1)) / IN_A_ROW + 1
}
