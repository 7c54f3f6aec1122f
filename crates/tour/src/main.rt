//! Makes the path segment of three ASes in a row, and prints it as JSON.
#![tactic(auto)]

use anyhow::Result;
use beaconing::{extend, originate, terminate};
use isd_as::{IfId, IsdAs};
use scion_topology::Topology;
use worked::row;

/// When the segment is made, in seconds.
const NOW: u32 = 1000;

fn main(rt: HostRuntime) -> Result<()> {
    let alloc = rt.alloc();
    let topology = Topology::from_json(alloc, row().as_bytes())?;
    let core = IsdAs::parse("1-ff00:0:110")?;
    let middle = IsdAs::parse("1-ff00:0:111")?;
    let leaf = IsdAs::parse("1-ff00:0:112")?;

    let begun = originate(alloc, &topology, core, IfId(1), NOW, 4660)?;
    let passed_on = extend(alloc, &topology, &begun, middle, IfId(2))?;
    let segment = terminate(alloc, &topology, &passed_on, leaf)?;
    let text = segment.to_json(alloc)?;
    println!(rt; "{}", text.as_str())?;
    Ok(())
}
