use crate::gw_session_tests::gateways::config;
use g704_cas::CircuitNo;
use g726_codec::CodecKind;
use gw_state::{LoadFault, Loaded, load_gateway, state_file};
use gw_switch::{Gateway, GatewayConfig};
use q421_line::{Role, State};
use std::alloc::Global;
use std::test::Fail;

fn loaded(alloc: Global, config: &GatewayConfig, file: &[u8]) -> Result<Loaded, Fail> {
    match load_gateway(alloc, config, file) {
        Ok(loaded) => Ok(loaded),
        Err(LoadFault::OutOfMemory) => Err("out of memory")?,
        Err(_) => Err("not loaded")?,
    }
}

// Circuits 7 and 8 are given another codec and saved. Circuit 7 is incoming then: it begins as new. With
// memory refused at any of the requests that these calls make (`rt try --test --fail-alloc N`) there is no
// file or no gateway, and nothing else happens.
#[test]
fn state_with_ample_memory(rt: HostRuntime) -> Result<(), Fail> {
    let old = config(Role::Outgoing, CodecKind::G711, 8)?;
    let seven = CircuitNo::new(7).ok_or("no 7")?;
    let eight = CircuitNo::new(8).ok_or("no 8")?;
    let mut gateway = Gateway::open(rt.alloc(), &old)?;
    for c in [seven, eight] {
        assert!(rt; gateway.codec(c, CodecKind::G32, 96) == Ok(()));
    }
    let file = state_file(rt.alloc(), &old, &gateway)?;
    assert!(rt; file.starts_with(&[0x45, 0x31, 0x47, 0x53, 1, 0]));
    let new = config(Role::Incoming, CodecKind::G711, 8)?;
    let loaded = loaded(rt.alloc(), &new, file.as_slice())?;
    assert!(rt; loaded.old.circuits == old.circuits);
    let (renewed, kept) = (loaded.gateway.status(seven), loaded.gateway.status(eight));
    assert!(rt; renewed.role == Role::Incoming && renewed.state == State::Fault);
    assert!(rt; renewed.codec == CodecKind::G711 && kept.codec == CodecKind::G32);
    assert!(rt; kept == gateway.status(eight));
    Ok(())
}
