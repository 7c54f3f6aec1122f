//! First lines that are cut off.

use crate::row::row_sent;
use crate::table::run_over;
use event_lines::RunFault;
use std::alloc::Global;
use std::test::Fail;

/// Whether a run over these bytes replies that they are no JSON, and ends.
fn is_no_json(alloc: Global, input: &[u8]) -> bool {
    let (result, output) = run_over(alloc, input);
    result == Err(RunFault::Topology) && output.as_slice() == "topology no 10 NotJson\n".as_bytes()
}

#[test]
fn beginnings_of_a_topology(rt: HostRuntime) -> Result<(), Fail> {
    let [first, ..] = row_sent();
    let topology = first.0.as_bytes();
    for len in 0..topology.len() {
        assert!(rt; is_no_json(rt.alloc(), &topology[..len]));
    }
    Ok(())
}
