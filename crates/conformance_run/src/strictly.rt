//! A run of events with no leave to run out of memory, since nothing is refused.

use crate::event_runs::{expect_delivered, network};
use refusing::Shortage;
use std::alloc::AllocError;
use std::test::Fail;

#[test]
fn a_run_of_events_delivers(rt: HostRuntime) -> Result<(), Fail> {
    let net = network(rt.alloc(), &Shortage::none()).ok_or(AllocError)?;
    assert_eq!(rt; net.packets().len(), 1);
    expect_delivered(&rt, net.packet(0).ok_or(AllocError)?);
    Ok(())
}
