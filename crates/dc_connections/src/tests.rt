//! Streams in pieces, and connections in turn.
use crate::Connections;
use std::alloc::AllocError;
use std::process::Abort;
use std::test::Fail;

/// Opens a connection.
fn open(rt: &impl Abort, connections: &mut Connections, number: u64) {
    assert!(rt; connections.len() < 20);
    assert!(rt; connections.find(number).is_none());
    connections.open(number, [192, 0, 2, 1], 1024, 10000);
}

/// Puts bytes behind those that came.
fn give(rt: &impl Abort, connections: &mut Connections, i: usize, bytes: &[u8]) {
    assert!(rt; i < connections.len());
    assert!(rt; connections.gathered_len(i) + bytes.len() <= 65537);
    connections.append(i, bytes);
}

/// Takes the messages off that are whole on the first connection, four at most, and writes each with a bar behind it.
fn hear(
    rt: &impl Abort,
    connections: &mut Connections,
    heard: &mut Vec<u8>,
) -> Result<(), AllocError> {
    for _ in 0..4 {
        assert!(rt; 0 < connections.len());
        if connections.is_whole(0) {
            heard.extend_from_slice(connections.message(0))?;
            heard.push(b'|')?;
            connections.take_off(0);
        }
    }
    Ok(())
}

#[test]
fn streams_come_in_pieces(rt: HostRuntime) -> Result<(), Fail> {
    let stream = b"\x00\x03abc\x00\x00\x00\x01z\x00\x05tail";
    for size in [1, 2, 5, 8, 16] {
        let mut connections = Connections::new(rt.alloc())?;
        let mut heard = Vec::new(rt.alloc());
        open(&rt, &mut connections, 7);
        for piece in stream.chunks(size) {
            give(&rt, &mut connections, 0, piece);
            hear(&rt, &mut connections, &mut heard)?;
        }
        assert!(rt; heard.as_slice() == b"abc||z|".as_slice());
        assert!(rt; 0 < connections.len());
        assert!(rt; connections.gathered_len(0) == 6);
    }
    Ok(())
}

#[test]
fn a_stream_goes_on_past_the_end_of_its_buffer(rt: HostRuntime) -> Result<(), Fail> {
    let mut connections = Connections::new(rt.alloc())?;
    open(&rt, &mut connections, 7);
    let mut message = vec![in rt.alloc(); 0u8; 602]?;
    message[0] = 2;
    message[1] = 88;
    give(&rt, &mut connections, 0, &message);
    for n in 0..250u8 {
        assert!(rt; message.len() == 602);
        message[601] = n + 1;
        give(&rt, &mut connections, 0, &message);
        assert!(rt; 0 < connections.len());
        assert!(rt; connections.is_whole(0));
        let heard = connections.message(0);
        assert!(rt; heard.len() == 600);
        assert!(rt; heard[599] == n);
        connections.take_off(0);
    }
    Ok(())
}

#[test]
fn connections_take_turns(rt: HostRuntime) -> Result<(), Fail> {
    let mut connections = Connections::new(rt.alloc())?;
    for number in 1..=20 {
        open(&rt, &mut connections, number);
    }
    give(&rt, &mut connections, 0, b"left over");
    assert!(rt; connections.len() == 20);
    connections.close(0);
    open(&rt, &mut connections, 21);
    connections.renew(5, 12345);
    connections.renew(1, 54321);
    let places: [(u64, Option<usize>); 5] = [
        (1, None),
        (2, Some(0)),
        (5, Some(3)),
        (20, Some(18)),
        (21, Some(19)),
    ];
    for (number, place) in places {
        assert!(rt; connections.find(number) == place);
    }
    assert!(rt; connections.len() == 20);
    assert!(rt; connections.gathered_len(19) == 0);
    assert!(rt; connections.deadline(3) == 12345);
    assert!(rt; connections.deadline(4) == 10000);
    assert!(rt; connections.number(19) == 21);
    assert!(rt; connections.addr(19) == [192, 0, 2, 1]);
    assert!(rt; connections.port(19) == 1024);
    Ok(())
}
