//! Worked rows.

use crate::{Config, NoMemory, Permit, PermitError, Rule, ZoneError, Zones, read_servers};
use dc_name::Name;
use std::alloc::Global;
use std::process::Abort;
use std::test::Fail;

/// The addresses of one server, and empty places.
fn only(server: [u8; 4]) -> [[u8; 4]; 16] {
    let mut places = [[0; 4]; 16];
    places[0] = server;
    places
}

fn name_of(rt: &impl Abort, text: &[u8]) -> Name {
    match Name::from_dotted(text) {
        Ok(name) => name,
        Err(_) => panic!(rt; "no name"),
    }
}

/// Three zones, the root among them.
fn three(rt: &impl Abort, alloc: Global) -> Result<Zones, NoMemory> {
    let mut zones = Zones::new(alloc)?;
    assert!(rt; zones.add(&Name::root(), &only([198, 51, 100, 1])).is_ok());
    assert!(rt;
        zones
            .add(&name_of(rt, b"com"), &only([198, 51, 100, 2]))
            .is_ok()
    );
    assert!(rt;
        zones
            .add(&name_of(rt, b"Example.Com"), &only([198, 51, 100, 3]))
            .is_ok()
    );
    Ok(zones)
}

#[test]
fn zones_are_found(rt: HostRuntime) -> Result<(), Fail> {
    let zones = three(&rt, rt.alloc())?;
    assert!(rt; zones.rule() == Rule::Two);
    let nearest: [(&[u8], &[u8]); 5] = [
        (b".", b"\0"),
        (b"org", b"\0"),
        (b"COM", b"\x03com\0"),
        (b"www.EXAMPLE.com", b"\x07example\x03com\0"),
        (b"example.com.org", b"\0"),
    ];
    for (text, zone) in nearest {
        let name = name_of(&rt, text);
        assert!(rt; zones.nearest(&name).wire() == zone);
        assert!(rt; zones.same_zone(&name, &zones.nearest(&name)));
    }
    assert!(rt; zones.servers(&name_of(&rt, b"cOM")) == Some(only([198, 51, 100, 2])));
    assert!(rt; zones.servers(&name_of(&rt, b"www.com")).is_none());
    assert!(rt; !zones.same_zone(&name_of(&rt, b"a.com"), &name_of(&rt, b"a.example.com")));
    assert!(rt; zones.in_zone(&name_of(&rt, b"com"), &name_of(&rt, b"a.com")));
    assert!(rt; !zones.in_zone(&name_of(&rt, b"com"), &name_of(&rt, b"a.example.com")));
    Ok(())
}

#[test]
fn the_root_is_put_first(rt: HostRuntime) -> Result<(), Fail> {
    let mut zones = Zones::new(rt.alloc())?;
    let names: [&[u8]; 4] = [b"10.in-addr.arpa", b"com", b".", b"org"];
    for (at, name) in names.iter().enumerate() {
        let server = only([198, 51, 100, at as u8]);
        assert!(rt; zones.add(&name_of(&rt, name), &server).is_ok());
    }
    zones.put_root_first();
    let order: [(&[u8], u8); 4] = [(b".", 2), (b"10.in-addr.arpa", 0), (b"com", 1), (b"org", 3)];
    for (zone, (name, last)) in zones.as_slice().iter().zip(order) {
        assert!(rt; zone.name().same(&name_of(&rt, name)));
        assert!(rt; *zone.servers() == only([198, 51, 100, last]));
    }
    Ok(())
}

#[test]
fn zones_that_are_refused(rt: HostRuntime) -> Result<(), Fail> {
    let mut zones = Zones::new(rt.alloc())?;
    let server = only([198, 51, 100, 1]);
    assert!(rt; zones.add(&name_of(&rt, b"com"), &server).is_ok());
    assert!(rt;
        zones.add(&name_of(&rt, b"COM"), &only([198, 51, 100, 9])) == Err(ZoneError::Duplicate)
    );
    assert!(rt; zones.servers(&name_of(&rt, b"com")) == Some(server));
    for high in 0..16u8 {
        for low in 0..16u8 {
            let mut name = Name::root();
            name.push(&[b'a' + high, b'a' + low]);
            let added = zones.add(&name, &server);
            assert!(rt;
                added.is_ok() || (added == Err(ZoneError::Full) && high == 15 && low == 15)
            );
        }
    }
    assert!(rt; zones.servers(&name_of(&rt, b"pp")).is_none());
    assert!(rt; zones.servers(&name_of(&rt, b"po")).is_some());
    Ok(())
}

#[test]
fn permissions(rt: HostRuntime) -> Result<(), Fail> {
    let mut permit = Permit::new(rt.alloc())?;
    let refused: [&[u8]; 6] = [b"1.2.", b"256", b"", b"1.2.3.4.5", b"01", b"a"];
    for text in refused {
        assert!(rt; permit.add(text) == Err(PermitError::BadName));
    }
    assert!(rt; !permit.allows([1, 2, 3, 4]));
    let added: [&[u8]; 4] = [b"127", b"10.1", b"192.0.2", b"198.51.100.7"];
    for text in added {
        assert!(rt; permit.add(text).is_ok());
    }
    let asked = [
        ([127, 9, 8, 7], true),
        ([10, 1, 0, 0], true),
        ([10, 2, 0, 0], false),
        ([192, 0, 2, 255], true),
        ([192, 0, 3, 2], false),
        ([198, 51, 100, 7], true),
        ([198, 51, 100, 8], false),
    ];
    for (addr, allowed) in asked {
        assert!(rt; permit.allows(addr) == allowed);
    }
    for _ in 4..4096 {
        assert!(rt; permit.add(b"127").is_ok());
    }
    assert!(rt; permit.add(b"11") == Err(PermitError::Full));
    assert!(rt; permit.add(b"x") == Err(PermitError::BadName));
    assert!(rt; !permit.allows([11, 0, 0, 1]));
    Ok(())
}

#[test]
fn servers_in_text(rt: HostRuntime) {
    let texts: [(&[u8], [[u8; 4]; 16]); 9] = [
        (b"", [[0; 4]; 16]),
        (b"198.51.100.1", only([198, 51, 100, 1])),
        (b"\n\n198.51.100.1\n", only([198, 51, 100, 1])),
        (b"198.51.100.1 a server\nx", only([198, 51, 100, 1])),
        (b" 198.51.100.1\n198.51.100.2", only([198, 51, 100, 2])),
        (
            b"a198.51.100.1\n0.0.0.0\n198.51.100.3\r\n",
            only([198, 51, 100, 3]),
        ),
        (b"198.51.100.1.\n198.51.100.4", only([198, 51, 100, 4])),
        (
            b"198.51.100\n198.51.100.256\n198.51.100.05\n198.51.100.5",
            only([198, 51, 100, 5]),
        ),
        (
            b"1.1.1.1\n1.1.1.1\n1.1.1.1\n1.1.1.1\n1.1.1.1\n1.1.1.1\n1.1.1.1\n1.1.1.1\n1.1.1.1\n1.1.1.1\n1.1.1.1\n1.1.1.1\n1.1.1.1\n1.1.1.1\n1.1.1.1\n1.1.1.1\n2.2.2.2",
            [[1; 4]; 16],
        ),
    ];
    for (text, wanted) in texts {
        assert!(rt; read_servers(text) == wanted);
    }
}

/// A value of this type may move to another thread.
fn sent<T: Send>(value: T) -> T {
    value
}

#[test]
fn configurations_are_copied_and_sent(rt: HostRuntime) -> Result<(), Fail> {
    let mut zones = three(&rt, rt.alloc())?;
    zones.set_rule(Rule::One);
    let mut permit = Permit::new(rt.alloc())?;
    assert!(rt; permit.add(b"127").is_ok());
    let config = Config {
        size: 1000000,
        forward: true,
        ip: [127, 0, 0, 1],
        ipsend: [0, 0, 0, 0],
        zones,
        permit,
    };
    let copied = sent(config.copy(rt.alloc())?);
    assert!(rt; copied.size == 1000000 && copied.forward);
    assert!(rt; copied.ip == [127, 0, 0, 1] && copied.ipsend == [0, 0, 0, 0]);
    assert!(rt; copied.zones.rule() == Rule::One);
    assert!(rt; copied.zones.nearest(&name_of(&rt, b"a.com")).wire() == b"\x03com\0".as_slice());
    assert!(rt; copied.permit.allows([127, 0, 0, 1]));
    Ok(())
}
