//! Whole replies, reckoned by hand from the format.
ghost use Rattle.std.specs.Prelude.{◌≡◌, ◌+◌, ◌≤◌, IsTrue, IfOk};

use crate::{Body, Reply};
use dc_name::Name;
use std::alloc::{AllocError, Global};
use std::process::Abort;
use std::test::Fail;

/// A reply to a request for the root, 17 bytes long, of id 7.
fn begun(alloc: Global) -> Result<Reply, AllocError>
    ensures { IfOk result (λ r. IsTrue r.begun) }
{
    let mut reply = Reply::new(alloc)?;
    reply.start(7, &Name::root(), 1, 1);
    Ok(reply)
}

/// A name of one label.
fn single(label: &[u8]) -> Name {
    let mut name = Name::root();
    name.push(label);
    name
}

/// Adds an address of a name, and says whether it fitted.
fn add(reply: &mut Reply, name: &Name) -> bool
    requires { IsTrue reply.old.begun }
    ensures { IsTrue reply.new.begun }
{
    reply.rr(name, 1, 0, Body::Bytes(&[0; 4]))
}

/// Adds so many bytes under the root.
fn pad(reply: &mut Reply, bytes: &[u8], len: usize) -> bool
    requires begun { IsTrue reply.old.begun }
    ensures { IsTrue reply.new.begun }
{
    match bytes.get(..len) {
        Some(part) => reply.rr(&Name::root(), 99, 0, Body::Bytes(part)),
        None => false,
    }
}

#[test]
fn localhost(rt: HostRuntime) -> Result<(), Fail> {
    let name = Name::from_dotted(b"localhost")?;
    let mut reply = Reply::new(rt.alloc())?;
    reply.start(0x1234, &name, 1, 1);
    assert!(rt; reply.rr(&name, 1, 655_360, Body::Bytes(&[127, 0, 0, 1])));
    let message =
        b"\x12\x34\x81\x80\0\x01\0\x01\0\0\0\0\x09localhost\0\0\x01\0\x01\xc0\x0c\0\x01\0\x01\0\x0a\0\0\0\x04\x7f\0\0\x01";
    assert_eq!(rt; reply.finish_udp(), message.as_slice());
    Ok(())
}

/// Pointers to the question's name, to suffixes of it and to a name inside data, whatever the case of their letters.
#[test]
fn pointers(rt: HostRuntime) -> Result<(), Fail> {
    let web = Name::from_dotted(b"web.EXAMPLE.com")?;
    let mut reply = Reply::new(rt.alloc())?;
    reply.start(1, &Name::from_dotted(b"WwW.Example.com")?, 255, 255);
    assert!(rt;
        reply.rr(
            &Name::from_dotted(b"www.example.com")?,
            5,
            300,
            Body::Host(&web)
        )
    );
    let mail = Name::from_dotted(b"mail.example.com")?;
    assert!(rt;
        reply.rr(
            &Name::from_dotted(b"example.com")?,
            15,
            60,
            Body::Mx(10, &mail)
        )
    );
    let server = Name::from_dotted(b"ns.example.com")?;
    assert!(rt;
        reply.rr(
            &Name::from_dotted(b"Com")?,
            6,
            1,
            Body::Soa(&server, &web, &[9; 20])
        )
    );
    let message =
        b"\0\x01\x81\x80\0\x01\0\x03\0\0\0\0\x03WwW\x07Example\x03com\0\0\xff\0\xff\xc0\x0c\0\x05\0\x01\0\0\x01\x2c\0\x06\x03web\xc0\x10\xc0\x10\0\x0f\0\x01\0\0\0\x3c\0\x09\0\x0a\x04mail\xc0\x10\xc0\x18\0\x06\0\x01\0\0\0\x01\0\x1b\x02ns\xc0\x10\xc0\x2d\x09\x09\x09\x09\x09\x09\x09\x09\x09\x09\x09\x09\x09\x09\x09\x09\x09\x09\x09\x09";
    assert_eq!(rt; reply.finish_udp(), message.as_slice());
    Ok(())
}

#[test]
fn codes(rt: HostRuntime) -> Result<(), Fail> {
    let mut reply = begun(rt.alloc())?;
    reply.nxdomain();
    assert_eq!(rt;
        reply.finish_udp(),
        b"\0\x07\x85\x83\0\x01\0\0\0\0\0\0\0\0\x01\0\x01".as_slice()
    );
    reply.start(8, &Name::root(), 2, 1);
    reply.servfail();
    assert_eq!(rt;
        reply.finish_tcp(),
        b"\0\x11\0\x08\x81\x82\0\x01\0\0\0\0\0\0\0\0\x02\0\x01".as_slice()
    );
    Ok(())
}

/// A datagram has 512 bytes at most; with one byte more it is cut behind the question. In a stream it is whole.
#[test]
fn datagrams(rt: HostRuntime) -> Result<(), Fail> {
    let name = Name::from_dotted(b"www.example.com")?;
    let text = [b'x'; 468];
    let mut reply = Reply::new(rt.alloc())?;
    reply.start(7, &name, 16, 1);
    assert!(rt; reply.rr(&name, 16, 5, Body::Bytes(&text[..467])));
    assert_eq!(rt; reply.finish_udp().len(), 512);
    reply.start(7, &name, 16, 1);
    assert!(rt; reply.rr(&name, 16, 5, Body::Bytes(&text)));
    let cut = b"\0\x07\x83\x80\0\x01\0\0\0\0\0\0\x03www\x07example\x03com\0\0\x10\0\x01";
    assert_eq!(rt; reply.finish_udp(), cut.as_slice());
    reply.start(7, &name, 16, 1);
    assert!(rt; reply.rr(&name, 16, 5, Body::Bytes(&text)));
    let whole = reply.finish_tcp();
    assert_eq!(rt; whole.len(), 515);
    assert!(rt; whole.starts_with(b"\x02\x01\0\x07\x81\x80\0\x01\0\x01\0\0\0\0\x03www".as_slice()));
    Ok(())
}

/// A hundred names are pointed to; the hundred and first is not.
#[test]
fn hundred_suffixes(rt: HostRuntime) -> Result<(), Fail> {
    let mut reply = begun(rt.alloc())?;
    for i in 0..101_u8 {
        assert!(rt; add(&mut reply, &single(&[b'0' + i / 10, b'0' + i % 10])));
    }
    assert!(rt; add(&mut reply, &single(b":0")));
    assert!(rt; add(&mut reply, &single(b"99")));
    let message = reply.finish_tcp();
    assert_eq!(rt; message.len(), 2 + 17 + 102 * 18 + 16);
    assert!(rt;
        message.ends_with(
            b"\x02:0\0\0\x01\0\x01\0\0\0\0\0\x04\0\0\0\0\xc7\x07\0\x01\0\x01\0\0\0\0\0\x04\0\0\0\0".as_slice()
        )
    );
    Ok(())
}

/// A suffix of 128 bytes is pointed to, one of 129 is not, but what stands above it is.
#[test]
fn long_suffixes(rt: HostRuntime) -> Result<(), Fail> {
    let cases = [(62, 17 + 128 + 14 + 16), (63, 17 + 129 + 14 + 64 + 2 + 14)];
    for (len, total) in cases {
        let mut reply = begun(rt.alloc())?;
        let mut name = single(&[b'a'; 63][..len]);
        name.push(&[b'b'; 63]);
        assert!(rt; add(&mut reply, &name));
        assert!(rt; add(&mut reply, &name));
        assert_eq!(rt; reply.finish_udp().len(), total);
    }
    Ok(())
}

/// The end of a message with a name twice, the first time behind so many bytes.
fn twice(rt: &impl Abort, reply: &mut Reply, padding: &[u8], end: &[u8])
    requires { IsTrue reply.old.begun }
{
    assert!(rt; reply.rr(&Name::root(), 99, 0, Body::Bytes(padding)));
    assert!(rt; add(reply, &single(b"x")));
    assert!(rt; add(reply, &single(b"x")));
    assert!(rt; reply.finish_tcp().ends_with(end));
}

/// A name at place 16383 is pointed to, one at 16384 is not.
#[test]
fn far_places(rt: HostRuntime) -> Result<(), Fail> {
    let bytes = vec![in rt.alloc(); 0_u8; 16356]?;
    let mut reply = begun(rt.alloc())?;
    twice(
        &rt,
        &mut reply,
        &bytes[..16355],
        b"\x01x\0\0\x01\0\x01\0\0\0\0\0\x04\0\0\0\0\xff\xff\0\x01\0\x01\0\0\0\0\0\x04\0\0\0\0".as_slice(),
    );
    reply.start(7, &Name::root(), 1, 1);
    twice(
        &rt,
        &mut reply,
        &bytes,
        b"\x01x\0\0\x01\0\x01\0\0\0\0\0\x04\0\0\0\0\x01x\0\0\x01\0\x01\0\0\0\0\0\x04\0\0\0\0".as_slice(),
    );
    Ok(())
}

/// A message has 65535 bytes at most; what makes it longer is refused, and leaves it as it was.
#[test]
fn longest(rt: HostRuntime) -> Result<(), Fail> {
    let bytes = vec![in rt.alloc(); 0_u8; 70000]?;
    let mut reply = begun(rt.alloc())?;
    assert!(rt; !pad(&mut reply, &bytes, 65508));
    assert!(rt; !pad(&mut reply, &bytes, 70000));
    assert_eq!(rt; reply.finish_udp().len(), 17);
    reply.start(7, &Name::root(), 1, 1);
    assert!(rt; pad(&mut reply, &bytes, 65507 - 17));
    assert!(rt; !add(&mut reply, &single(b"xyz")));
    assert!(rt; add(&mut reply, &single(b"x")));
    assert!(rt; !add(&mut reply, &Name::root()));
    let message = reply.finish_tcp();
    assert_eq!(rt; message.len(), 65537);
    assert!(rt; message.starts_with(b"\xff\xff\0\x07\x81\x80\0\x01\0\x02\0\0\0\0\0".as_slice()));
    assert!(rt; message.ends_with(b"\x01x\0\0\x01\0\x01\0\0\0\0\0\x04\0\0\0\0".as_slice()));
    Ok(())
}

/// A reply may move to another thread.
#[test]
fn is_send(rt: HostRuntime) -> Result<(), Fail> {
    fn sent<T: Send>(value: T) -> T
        ensures { result ≡ value }
    {
        value
    }
    let mut reply = sent(begun(rt.alloc())?);
    assert_eq!(rt; reply.finish_udp().len(), 17);
    Ok(())
}
