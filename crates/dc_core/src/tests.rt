//! A core can be sent to another thread.
use crate::Core;
use dc_rules::{Config, Permit, Zones};
use dc_store::PlainStore;
use std::alloc::{AllocError, Global};
use std::test::Fail;

/// Takes what can be sent.
fn moves<T: Send>(_value: &T) {}

/// A configuration without zones and permissions.
fn config(alloc: Global) -> Result<Config, AllocError> {
    Ok(Config {
        size: 100,
        forward: false,
        ip: [0; 4],
        ipsend: [0; 4],
        zones: Zones::new(alloc)?,
        permit: Permit::new(alloc)?,
    })
}

#[test]
fn a_core_moves(rt: HostRuntime) -> Result<(), Fail> {
    let store = PlainStore::new(rt.alloc(), 100)?;
    let core = Core::new(rt.alloc(), config(rt.alloc())?, store)?;
    moves(&core);
    assert_eq!(rt; core.counts().accepted, 0);
    Ok(())
}
