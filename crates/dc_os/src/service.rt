//! Sockets at the port on which clients are served: with more room for what waits, and, if that is wanted, sharing the port.

use crate::connecting::{ADDRESS_LEN, Carried, address, check, socket_for};
use libc::net as c;
use mio::net::{TcpListener, UdpSocket};
use std::io;
use std::net::Net;
use std::os::fd::{AsRawFd, OwnedFd};

/// How many bytes of requests the system is asked to keep until they are read. It may keep fewer: Linux does where `net.core.rmem_max` is
/// less.
const RECEIVE_BUFFER: i32 = 1_048_576;

/// How many connections may wait until they are accepted. The system may keep fewer.
const BACKLOG: i32 = 4096;

/// The port on which clients are served.
#[derive(Clone, Copy)]
pub(crate) struct ServicePort {
    /// Its number.
    pub(crate) number: u16,
    /// Whether other processes of the same user may serve on it too; the system then parts clients among them.
    pub(crate) shared: bool,
}

/// The bytes of a number, as an option's value.
fn value(number: i32) -> [u8; 16] {
    let mut bytes = [0u8; 16];
    bytes[..4].copy_from_slice(&number.to_ne_bytes());
    bytes
}

/// Lets a socket that isn't bound yet share its port, if that is wanted.
fn share(socket: &OwnedFd, port: ServicePort) -> io::Result<()> {
    if !port.shared {
        return Ok(());
    }
    let fd = socket.as_raw_fd();
    check(unsafe { c::setsockopt(fd, c::SOL_SOCKET, c::SO_REUSEPORT, &value(1), 4) })
}

/// A socket for clients' datagrams at this address.
pub(crate) fn datagrams(
    _net: &impl Net,
    addr: [u8; 4],
    port: ServicePort,
) -> io::Result<UdpSocket> {
    let socket = socket_for(Carried::Datagrams)?;
    let fd = socket.as_raw_fd();
    share(&socket, port)?;
    let _ = unsafe { c::setsockopt(fd, c::SOL_SOCKET, c::SO_RCVBUF, &value(RECEIVE_BUFFER), 4) };
    check(unsafe { c::bind(fd, &address(addr, port.number), ADDRESS_LEN) })?;
    Ok(UdpSocket::from(socket))
}

/// A socket for clients' connections at this address.
pub(crate) fn listener(
    _net: &impl Net,
    addr: [u8; 4],
    port: ServicePort,
) -> io::Result<TcpListener> {
    let socket = socket_for(Carried::Streams)?;
    let fd = socket.as_raw_fd();
    share(&socket, port)?;
    check(unsafe { c::setsockopt(fd, c::SOL_SOCKET, c::SO_REUSEADDR, &value(1), 4) })?;
    check(unsafe { c::bind(fd, &address(addr, port.number), ADDRESS_LEN) })?;
    check(c::listen(fd, BACKLOG))?;
    Ok(TcpListener::from(socket))
}
