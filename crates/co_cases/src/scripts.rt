//! Worked sequences.

use co_frame::Outbox;
use co_node::Node;
use co_scripts::{
    APPLICATION, BLOCKS, EMERGENCIES, RPDOS, SEGMENTED, TPDOS, devices_of, first_wrong,
};
use std::process::Abort;
use std::test::Fail;

/// Fails unless the devices follow a script.
pub(crate) fn shows(rt: &impl Abort, devices: &mut [Node], script: &str) {
    let mut sent = Outbox::new();
    let wrong = first_wrong(devices, script, &mut sent);
    assert!(rt; wrong.is_none(), "{wrong:?}: {sent:?}");
}

// The same for new devices.
fn check(rt: &(impl AllocGlobal + Abort), script: &str) -> Result<(), Fail> {
    let mut devices = devices_of(rt.alloc(), script)?;
    shows(rt, devices.as_mut_slice(), script);
    Ok(())
}

#[test]
fn segmented(rt: HostRuntime) -> Result<(), Fail> {
    check(&rt, SEGMENTED)
}

#[test]
fn blocks_and_two_channels(rt: HostRuntime) -> Result<(), Fail> {
    check(&rt, BLOCKS)
}

#[test]
fn rpdos(rt: HostRuntime) -> Result<(), Fail> {
    check(&rt, RPDOS)
}

#[test]
fn tpdos(rt: HostRuntime) -> Result<(), Fail> {
    check(&rt, TPDOS)
}

#[test]
fn emergencies(rt: HostRuntime) -> Result<(), Fail> {
    check(&rt, EMERGENCIES)
}

#[test]
fn application(rt: HostRuntime) -> Result<(), Fail> {
    check(&rt, APPLICATION)
}
