// What the host's record is made of; each module has what one part of it must be.
#![tactic(auto)]

use net::{Descriptor, Flow, InterfaceId, Port};

pub mod interfaces;
pub mod sockets;
pub mod threads;

// An interface: an address that is 0 is absent, and the first is the primary one (000, 2.1.3).
// stays: four fields for the addresses, as C's struct has them.
#[repr(C)]
#[derive(Clone, Copy, PartialEq, Eq, Default)]
pub struct Interface {
    pub mask: u32,
    pub first: u32,
    pub second: u32,
    pub third: u32,
    pub fourth: u32,
    pub id: InterfaceId,
}

// A socket (000, 2.1.4): 0 is absent or wildcard. Its queue stands in the crate queues.
// stays: a flag and a number for the error, as C's struct has them; the record's check says what they may be.
#[repr(C)]
#[derive(Clone, Copy, PartialEq, Eq, Default)]
pub struct Socket {
    pub laddr: u32,
    pub raddr: u32,
    pub lport: Port,
    pub rport: Port,
    pub live: bool,
    pub error: u8,
    pub bsdcompat: bool,
    pub reuse: bool,
}

// The head of a queued datagram; its bytes are in the store.
#[repr(C)]
#[derive(Clone, Copy, PartialEq, Eq, Default)]
pub struct Queued {
    pub flow: Flow,
    pub len: u16,
    pub iface: InterfaceId,
}

// An item of the out-queue. Kind 0 is a datagram, 1 a PORT notice, 2 a HOST notice.
// A notice goes back along the flow that it embeds, so one flow serves both.
// stays: a number for the kind, as C's struct has it; the record's check says what it may be.
#[repr(C)]
#[derive(Clone, Copy, PartialEq, Eq, Default)]
pub struct OutItem {
    pub flow: Flow,
    pub len: u16,
    pub kind: u8,
}

// Its kinds.
impl OutItem {
    pub const DATAGRAM: u8 = 0;

    pub const PORT: u8 = 1;

    pub const HOST: u8 = 2;
}

#[derive(Clone, Copy, PartialEq, Eq)]
pub enum Thread {
    Running,
    Waiting(Descriptor),
    Ended,
}
