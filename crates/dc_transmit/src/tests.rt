//! Transmissions event by event, with all random words 0: the id is 0 and the local port is 1025.
use crate::{Progress, Transmit};
use dc_engine::{Effects, Event, Inbox, Kind};
use dc_name::Name;
use std::process::Abort;
use std::test::Fail;

/// What was done: how often, and to whom last.
#[derive(Drop)]
struct Wire {
    udp: u64,
    tcp: u64,
    written: u64,
    closed: u64,
    server: u8,
    port: u16,
    len: usize,
}

impl Effects for Wire {
    ghost acted = { λ a xs b. Unit {0} };

    fn reply(&mut self, _addr: [u8; 4], _port: u16, _bytes: &[u8]) {}

    fn conn_reply(&mut self, _conn: u64, _bytes: &[u8]) {}

    fn conn_close(&mut self, _conn: u64) {}

    fn udp(&mut self, _link: u64, local_port: u16, server: [u8; 4], query: &[u8]) {
        self.udp = self.udp.saturating_add(1);
        self.server = server[3];
        self.port = local_port;
        self.len = query.len();
    }

    fn tcp(&mut self, _link: u64, local_port: u16, server: [u8; 4]) {
        self.tcp = self.tcp.saturating_add(1);
        self.server = server[3];
        self.port = local_port;
    }

    fn link_write(&mut self, _link: u64, bytes: &[u8]) {
        self.written = self.written.saturating_add(1);
        self.len = bytes.len();
    }

    fn link_close(&mut self, link: u64) {
        self.closed = link;
    }

    fn line(&mut self, _text: &[u8]) {}

    ghost acted_none = { λ a. tt };

    ghost acted_both = { λ a b c xs ys p q. tt };
}

/// Two servers: 10.0.0.1 in the first place and 10.0.0.16 in the last.
const SERVERS: [[u8; 4]; 16] = [
    [10, 0, 0, 1],
    [0, 0, 0, 0],
    [0, 0, 0, 0],
    [0, 0, 0, 0],
    [0, 0, 0, 0],
    [0, 0, 0, 0],
    [0, 0, 0, 0],
    [0, 0, 0, 0],
    [0, 0, 0, 0],
    [0, 0, 0, 0],
    [0, 0, 0, 0],
    [0, 0, 0, 0],
    [0, 0, 0, 0],
    [0, 0, 0, 0],
    [0, 0, 0, 0],
    [10, 0, 0, 16],
];

/// An answer to the question for the address of `a`, with id 0: fine, with rcode 2, truncated, and for `b`.
const FINE: &[u8] = b"\x00\x00\x80\x00\x00\x01\x00\x00\x00\x00\x00\x00\x01a\x00\x00\x01\x00\x01";

const FAILED: &[u8] = b"\x00\x00\x80\x02\x00\x01\x00\x00\x00\x00\x00\x00\x01a\x00\x00\x01\x00\x01";

const CUT: &[u8] = b"\x00\x00\x82\x00\x00\x01\x00\x00\x00\x00\x00\x00\x01a\x00\x00\x01\x00\x01";

const OTHER: &[u8] = b"\x00\x00\x80\x00\x00\x01\x00\x00\x00\x00\x00\x00\x01b\x00\x00\x01\x00\x01";

/// The fine answer behind its length, with three more bytes; and its two parts.
const STREAM: &[u8] =
    b"\x00\x13\x00\x00\x80\x00\x00\x01\x00\x00\x00\x00\x00\x00\x01a\x00\x00\x01\x00\x01xyz";

const PART: &[u8] = b"\x00\x13\x00\x00\x80\x00";

const REST: &[u8] = b"\x00\x01\x00\x00\x00\x00\x00\x00\x01a\x00\x00\x01\x00\x01";

/// An event: its moment, kind, link, the last octet of the sender, and its bytes. And what follows it: the answer, the number of links
/// used by then, how many of them over TCP, how often a query was written, the last link that was closed, and the last octet of the
/// server that is asked.
type Step<'a> = (
    (u64, Kind, u64, u8, &'a [u8]),
    (Progress, u64, u64, u64, u64, u8),
);

/// Runs a transmission that starts at 0, and compares it step by step.
fn run<R: Abort>(
    rt: &R,
    transmit: &mut Transmit,
    inbox: &mut Inbox,
    recursive: bool,
    steps: &[Step<'_>],
) {
    let mut wire = Wire {
        udp: 0,
        tcp: 0,
        written: 0,
        closed: 0,
        server: 0,
        port: 0,
        len: 0,
    };
    let mut links = 0;
    let mut name = Name::root();
    name.push(b"A");
    transmit.stop(&mut wire);
    transmit.start(
        &SERVERS, &name, 1, recursive, &[0; 17], 0, &mut links, &mut wire,
    );
    let wait = if recursive { 3000 } else { 1000 };
    assert_eq!(rt; transmit.deadline(), Some(wait));
    for ((now, kind, id, from, bytes), (answer, used, tcp, written, closed, server)) in steps {
        let event = Event {
            now: *now,
            kind: *kind,
            id: *id,
            addr: [10, 0, 0, *from],
            port: 53,
            len: bytes.len(),
        };
        assert!(rt; event.len <= 65535);
        assert!(rt; event.now < 1 << 62);
        inbox.set(event, bytes);
        assert!(rt; links < 1000);
        let asked = transmit.link();
        assert!(rt; asked.is_some());
        let progress = transmit.on_event(inbox, &[0; 17], &mut links, &mut wire);
        assert_eq!(rt; progress, *answer);
        assert_eq!(rt; links, *used);
        assert_eq!(rt; wire.tcp, *tcp);
        assert_eq!(rt; wire.written, *written);
        assert_eq!(rt; wire.closed, *closed);
        assert_eq!(rt; wire.server, *server);
        assert_eq!(rt; wire.port, 1025);
        if let Progress::Packet = progress {
            assert!(rt; transmit.packet() == FINE);
            assert_eq!(rt; transmit.server(), [10, 0, 0, 16]);
            assert_eq!(rt; transmit.place(), 15);
        }
    }
}

/// What a core holds can be sent to another thread.
fn moves<T: Send>(_value: &T) {}

#[test]
fn transmissions(rt: HostRuntime) -> Result<(), Fail> {
    use Kind::{BindRefused, Datagram, LinkBytes, LinkDown, LinkUp, Tick};
    use Progress::{Failed, NoPort, Packet, Waiting};
    let mut transmit = Transmit::new(rt.alloc())?;
    moves(&transmit);
    let mut inbox = Inbox::new(rt.alloc())?;
    let mut long = [0; 513];
    long[..19].copy_from_slice(FINE);
    // the waits of a recursive transmission: bad news in the third round is ignored, and after the last try it has failed
    run(
        &rt,
        &mut transmit,
        &mut inbox,
        true,
        &[
            ((2999, Tick, 0, 0, b""), (Waiting, 1, 0, 0, 0, 1)),
            ((3000, Tick, 0, 0, b""), (Waiting, 2, 0, 0, 1, 16)),
            ((6000, Tick, 0, 0, b""), (Waiting, 3, 0, 0, 2, 1)),
            ((6000, LinkDown, 3, 0, b""), (Waiting, 3, 0, 0, 2, 1)),
            ((6000, Datagram, 3, 1, FAILED), (Waiting, 3, 0, 0, 2, 1)),
            ((17000, Tick, 0, 0, b""), (Waiting, 4, 0, 0, 3, 16)),
            ((28000, Tick, 0, 0, b""), (Waiting, 5, 0, 0, 4, 1)),
            ((28000, LinkDown, 5, 0, b""), (Waiting, 6, 0, 0, 5, 16)),
            ((72999, Tick, 0, 0, b""), (Waiting, 6, 0, 0, 5, 16)),
            ((73000, Tick, 0, 0, b""), (Failed, 6, 0, 0, 6, 16)),
        ],
    );
    // a server that failed; packets from elsewhere, of another link, to another question, and too long; the answer
    run(
        &rt,
        &mut transmit,
        &mut inbox,
        false,
        &[
            ((1, Datagram, 1, 1, FAILED), (Waiting, 2, 0, 0, 1, 16)),
            ((2, Datagram, 2, 1, FINE), (Waiting, 2, 0, 0, 1, 16)),
            ((3, Datagram, 1, 16, FINE), (Waiting, 2, 0, 0, 1, 16)),
            ((4, Datagram, 2, 16, OTHER), (Waiting, 2, 0, 0, 1, 16)),
            ((4, Datagram, 2, 16, &long), (Waiting, 2, 0, 0, 1, 16)),
            ((5, LinkUp, 2, 16, b""), (Waiting, 2, 0, 0, 1, 16)),
            ((6, LinkBytes, 2, 16, STREAM), (Waiting, 2, 0, 0, 1, 16)),
            ((7, Datagram, 2, 16, FINE), (Packet, 2, 0, 0, 2, 16)),
        ],
    );
    assert_eq!(rt; transmit.link(), None);
    // the tenth local port in a row that is refused
    run(
        &rt,
        &mut transmit,
        &mut inbox,
        false,
        &[
            ((0, BindRefused, 1, 0, b""), (Waiting, 2, 0, 0, 0, 1)),
            ((0, BindRefused, 2, 0, b""), (Waiting, 3, 0, 0, 0, 1)),
            ((0, BindRefused, 3, 0, b""), (Waiting, 4, 0, 0, 0, 1)),
            ((0, BindRefused, 4, 0, b""), (Waiting, 5, 0, 0, 0, 1)),
            ((0, BindRefused, 5, 0, b""), (Waiting, 6, 0, 0, 0, 1)),
            ((0, BindRefused, 6, 0, b""), (Waiting, 7, 0, 0, 0, 1)),
            ((0, BindRefused, 7, 0, b""), (Waiting, 8, 0, 0, 0, 1)),
            ((0, BindRefused, 8, 0, b""), (Waiting, 9, 0, 0, 0, 1)),
            ((0, BindRefused, 9, 0, b""), (Waiting, 10, 0, 0, 0, 1)),
            ((0, BindRefused, 10, 0, b""), (NoPort, 10, 0, 0, 10, 1)),
        ],
    );
    // a truncated answer: over TCP from the first server on; bytes behind the whole answer are ignored
    run(
        &rt,
        &mut transmit,
        &mut inbox,
        false,
        &[
            ((0, Datagram, 1, 1, CUT), (Waiting, 2, 1, 0, 1, 1)),
            ((1, LinkBytes, 2, 1, STREAM), (Waiting, 2, 1, 0, 1, 1)),
            ((2, Datagram, 2, 1, FINE), (Waiting, 2, 1, 0, 1, 1)),
            ((3, LinkUp, 2, 1, b""), (Waiting, 2, 1, 1, 1, 1)),
            ((4, LinkUp, 2, 1, b""), (Waiting, 2, 1, 1, 1, 1)),
            ((5, LinkBytes, 2, 1, PART), (Waiting, 2, 1, 1, 1, 1)),
            ((10000, Tick, 0, 0, b""), (Waiting, 3, 2, 1, 2, 16)),
            ((10001, LinkUp, 3, 16, b""), (Waiting, 3, 2, 2, 2, 16)),
            ((10002, LinkBytes, 3, 16, PART), (Waiting, 3, 2, 2, 2, 16)),
            ((10003, LinkBytes, 3, 16, REST), (Packet, 3, 2, 2, 3, 16)),
        ],
    );
    run(
        &rt,
        &mut transmit,
        &mut inbox,
        false,
        &[
            ((0, Datagram, 1, 1, CUT), (Waiting, 2, 1, 0, 1, 1)),
            ((1, LinkUp, 2, 1, b""), (Waiting, 2, 1, 1, 1, 1)),
            ((2, LinkDown, 2, 1, b""), (Waiting, 3, 2, 1, 2, 16)),
            ((3, LinkUp, 3, 16, b""), (Waiting, 3, 2, 2, 2, 16)),
            ((4, LinkBytes, 3, 16, STREAM), (Packet, 3, 2, 2, 3, 16)),
        ],
    );
    Ok(())
}
