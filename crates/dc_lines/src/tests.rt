//! Each kind of line once or more. Most expected texts are of whole runs that were reckoned apart from this program.
use crate::*;
use dc_name::{Name, NameError};
use std::process::Abort;
use std::test::Fail;

const SERVER: [u8; 4] = [198, 51, 100, 1];

const CLIENT: [u8; 4] = [127, 0, 0, 1];

fn shows(rt: &impl Abort, out: &Line, expected: &[u8]) {
    assert_eq!(rt; out.text(), expected);
}

#[test]
fn queries_and_connections(rt: HostRuntime) -> Result<(), Fail> {
    let www = Name::from_dotted(b"www.Example.COM")?;
    let out = &mut Line::new();
    shows(&rt, out, b"");
    line_starting(out);
    shows(&rt, out, b"starting");
    line_query(out, 1, CLIENT, 4096, 0x1234, 1, &www);
    shows(&rt, out, b"query 1 7f000001:1000:1234 1 www.example.com.");
    line_query(
        out,
        u64::MAX,
        [10, 1, 255, 3],
        65535,
        0x00ab,
        65535,
        &Name::root(),
    );
    shows(
        &rt,
        out,
        b"query 18446744073709551615 0a01ff03:ffff:00ab 65535 .",
    );
    line_sent(out, 10, 49);
    shows(&rt, out, b"sent 10 49");
    line_stats(out, 4, 107, 2, 0);
    shows(&rt, out, b"stats 4 107 2 0");
    line_tcpopen(out, CLIENT, 4096);
    shows(&rt, out, b"tcpopen 7f000001:1000");
    Ok(())
}

#[test]
fn causes(rt: HostRuntime) {
    let out = &mut Line::new();
    let drops = [
        (DropCause::Axfr, b"drop 7 axfr".as_slice()),
        (DropCause::Malformed, b"drop 7 malformed".as_slice()),
        (DropCause::Turns, b"drop 7 turns".as_slice()),
        (DropCause::Aliases, b"drop 7 aliases".as_slice()),
        (DropCause::Foreign, b"drop 7 foreign".as_slice()),
        (DropCause::TooLong, b"drop 7 long".as_slice()),
        (DropCause::NoPort, b"drop 7 noport".as_slice()),
        (DropCause::Displaced, b"drop 7 displaced".as_slice()),
        (DropCause::Closed, b"drop 7 closed".as_slice()),
    ];
    for (cause, expected) in drops {
        line_drop(out, 7, cause);
        shows(&rt, out, expected);
    }
    let closes = [
        (
            CloseCause::Displaced,
            b"tcpclose 7f000001:0035 displaced".as_slice(),
        ),
        (
            CloseCause::Closed,
            b"tcpclose 7f000001:0035 closed".as_slice(),
        ),
        (
            CloseCause::Timeout,
            b"tcpclose 7f000001:0035 timeout".as_slice(),
        ),
        (
            CloseCause::Proto,
            b"tcpclose 7f000001:0035 proto".as_slice(),
        ),
        (CloseCause::Drop, b"tcpclose 7f000001:0035 drop".as_slice()),
        (CloseCause::Long, b"tcpclose 7f000001:0035 long".as_slice()),
    ];
    for (cause, expected) in closes {
        line_tcpclose(out, CLIENT, 53, cause);
        shows(&rt, out, expected);
    }
}

#[test]
fn lookups(rt: HostRuntime) -> Result<(), Fail> {
    let www = Name::from_dotted(b"www.a")?;
    let zone = Name::from_dotted(b"a")?;
    let out = &mut Line::new();
    let mut servers = [[0; 4]; 16];
    line_tx(out, 0, 1, &www, &Name::root(), &servers);
    shows(&rt, out, b"tx 0 1 www.a. .");
    servers[3] = [198, 51, 100, 9];
    servers[15] = SERVER;
    line_tx(out, 4, 28, &www, &zone, &servers);
    shows(&rt, out, b"tx 4 28 www.a. a. c6336409 c6336401");
    line_cached(out, 16, &www);
    shows(&rt, out, b"cached 16 www.a.");
    line_cached_cname(out, &www, &zone);
    shows(&rt, out, b"cached cname www.a. a.");
    line_cached_ns(out, &zone, &www);
    shows(&rt, out, b"cached ns a. www.a.");
    line_cached_nxdomain(out, &www);
    shows(&rt, out, b"cached nxdomain www.a.");
    Ok(())
}

#[test]
fn packets(rt: HostRuntime) -> Result<(), Fail> {
    let test = Name::from_dotted(b"test")?;
    let a = Name::from_dotted(b"a.test")?;
    let b = Name::from_dotted(b"b.test")?;
    let out = &mut Line::new();
    line_rr(out, SERVER, 300, 1, &a, &[192, 0, 2, 1]);
    shows(&rt, out, b"rr c6336401 300 1 a.test. c0000201");
    let hosts = [
        (
            HostKind::Ns,
            b"rr c6336401 172800 ns test. a.test.".as_slice(),
        ),
        (
            HostKind::Cname,
            b"rr c6336401 172800 cname test. a.test.".as_slice(),
        ),
        (
            HostKind::Ptr,
            b"rr c6336401 172800 ptr test. a.test.".as_slice(),
        ),
    ];
    for (kind, expected) in hosts {
        line_rr_host(out, SERVER, 172_800, kind, &test, &a);
        shows(&rt, out, expected);
    }
    line_rr_mx(out, SERVER, 60, &test, &b, 77);
    shows(&rt, out, b"rr c6336401 60 mx test. b.test. 77");
    line_rr_soa(out, SERVER, 500, &test, &a, &b, [1, 2, 3, 4, u32::MAX]);
    shows(
        &rt,
        out,
        b"rr c6336401 500 soa test. a.test. b.test. 1 2 3 4 4294967295",
    );
    line_nodata(out, SERVER, 300, 1, &a);
    shows(&rt, out, b"nodata c6336401 300 1 a.test.");
    line_nxdomain(out, SERVER, 3600, &a);
    shows(&rt, out, b"nxdomain c6336401 3600 a.test.");
    line_lame(out, SERVER, &Name::root(), &test);
    shows(&rt, out, b"lame c6336401 . test.");
    line_servfail(out, &a);
    shows(&rt, out, b"servfail a.test.");
    Ok(())
}

/// A space, a control and what isn't ASCII are shown as `?`; 33 and 126 stand as they are.
#[test]
fn names(rt: HostRuntime) -> Result<(), NameError> {
    let out = &mut Line::new();
    let odd = Name::from_dotted(b"\x00 !\x7e\x7f\x80\xff?AZ@[.z")?;
    line_servfail(out, &odd);
    shows(&rt, out, b"servfail ??!~????az@[.z.");
    Ok(())
}

/// 31 bytes of data are shown whole; of 32 and more the first 32, and dots.
#[test]
fn data(rt: HostRuntime) {
    let out = &mut Line::new();
    let bytes = [0xa7; 40];
    line_rr(out, SERVER, 0, 99, &Name::root(), &bytes[..0]);
    shows(&rt, out, b"rr c6336401 0 99 . ");
    line_rr(out, SERVER, 0, 99, &Name::root(), &bytes[..31]);
    shows(
        &rt,
        out,
        b"rr c6336401 0 99 . a7a7a7a7a7a7a7a7a7a7a7a7a7a7a7a7a7a7a7a7a7a7a7a7a7a7a7a7a7a7a7",
    );
    line_rr(out, SERVER, 0, 99, &Name::root(), &bytes[..32]);
    shows(
        &rt,
        out,
        b"rr c6336401 0 99 . a7a7a7a7a7a7a7a7a7a7a7a7a7a7a7a7a7a7a7a7a7a7a7a7a7a7a7a7a7a7a7a7...",
    );
    line_rr(out, SERVER, 0, 99, &Name::root(), &bytes);
    shows(
        &rt,
        out,
        b"rr c6336401 0 99 . a7a7a7a7a7a7a7a7a7a7a7a7a7a7a7a7a7a7a7a7a7a7a7a7a7a7a7a7a7a7a7a7...",
    );
}

/// A line may move to another thread.
#[test]
fn is_send(rt: HostRuntime) {
    fn sent<T: Send>(value: T) -> T {
        value
    }
    let mut out = sent(Line::new());
    line_starting(&mut out);
    shows(&rt, &out, b"starting");
}
