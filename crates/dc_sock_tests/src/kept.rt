//! Calls that were kept.
use dc_system::{Accepted, Bound, Part, Received, Standing};

/// A call of the system, with what it was given and what it answered.
#[derive(Drop)]
pub enum Kept {
    Bind(usize, [u8; 4], u16, Bound),
    Connect(usize, [u8; 4], u16, bool),
    Send(usize, Vec<u8>, bool),
    SendTo(usize, [u8; 4], u16, Vec<u8>, bool),
    Receive(usize, Received, Vec<u8>),
    Listen(usize, [u8; 4], u16, bool),
    Accept(usize, usize, Accepted),
    Begin(usize, [u8; 4], u16, [u8; 4], u16, Bound),
    Stands(usize, Standing),
    Read(usize, Part, Vec<u8>),
    Write(usize, Vec<u8>, Option<usize>),
    Close(usize),
    Wait(Option<u64>, bool),
    Ready(Option<usize>),
    Now(Option<u64>),
    Print(Vec<u8>, bool),
}
