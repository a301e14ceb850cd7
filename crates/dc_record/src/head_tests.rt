//! Heads, byte for byte and read back, and zones that have none.
use crate::{HeadError, head_error, head_of};
use dc_event::MemorySource;
use dc_name::Name;
use dc_rules::{Config, Permit, Zones};
use dc_script::read_head;
use std::alloc::{AllocError, Global};
use std::test::Fail;

/// A configuration with zones of these names, in this order, each with one server.
fn config_of(alloc: Global, names: &[&[u8]]) -> Result<Config, AllocError> {
    let mut zones = Zones::new(alloc)?;
    for name in names {
        let Ok(name) = Name::from_dotted(name) else {
            continue;
        };
        let mut servers = [[0; 4]; 16];
        servers[0] = [198, 51, 100, 1];
        let _ = zones.add(&name, &servers);
    }
    let mut permit = Permit::new(alloc)?;
    let _ = permit.add(b"127");
    let _ = permit.add(b"10.0.0.255");
    Ok(Config {
        size: 10,
        forward: true,
        ip: [127, 0, 0, 1],
        ipsend: [1, 2, 3, 4],
        zones,
        permit,
    })
}

#[test]
fn a_head_is_read_back(rt: HostRuntime) -> Result<(), Fail> {
    let alloc: Global = rt.alloc();
    let config = config_of(alloc, &[b"", b"Example.COM", b"@"])?;
    assert!(rt; head_error(&config.zones).is_none());
    let text = head_of(alloc, &config, &[7; 32])?;
    assert!(rt;
        text.as_slice()
            == b"dnscache-script 2
cachesize 10
forwardonly yes
allow 127
allow 10.0.0.255
zone @ 198.51.100.1
zone example.com. 198.51.100.1
zone @. 198.51.100.1
seed 0707070707070707070707070707070707070707070707070707070707070707
begin
"
                .as_slice()
    );
    let mut source = MemorySource::new(text, 100, Vec::new(alloc));
    match read_head(alloc, &mut source) {
        Ok(script) => {
            assert!(rt;
                script.seed == [7; 32] && script.config.size == 100 && script.config.forward
            );
            assert!(rt; script.config.zones.as_slice().len() == 3);
            assert!(rt; script.config.permit.as_slice().len() == 2);
        }
        Err(_) => assert!(rt; false),
    }
    Ok(())
}

#[test]
fn heads_that_cannot_be_said(rt: HostRuntime) -> Result<(), Fail> {
    let alloc: Global = rt.alloc();
    let rows: [(&[&[u8]], Option<HeadError>); 5] = [
        (&[], Some(HeadError::Rootless)),
        (&[b"10.in-addr.arpa", b""], Some(HeadError::Rootless)),
        (&[b"", b"a b"], Some(HeadError::Unsaid)),
        (&[b"", b"com", b"a\nb.com"], Some(HeadError::Unsaid)),
        (&[b"", b"a\x00\xff.com"], None),
    ];
    for (names, wanted) in rows {
        assert!(rt; head_error(&config_of(alloc, names)?.zones) == wanted);
    }
    let mut config = config_of(alloc, &[b"10.in-addr.arpa", b""])?;
    config.zones.put_root_first();
    assert!(rt; head_error(&config.zones).is_none());
    Ok(())
}
