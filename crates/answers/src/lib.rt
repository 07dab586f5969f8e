// What a step gives back, and why one is refused. The tables of refusals stand in the module.
#![tactic(auto)]

ghost use Rattle.std.specs.Prelude.{◌≡◌};
ghost use Rattle.answers.specs.Answers.{plain, told, named, valued, needing, read_of, polled, emitted};
ghost use Rattle.answers.specs.Options.{option_named};
ghost use Rattle.answers.specs.Refusals.{number_of};
ghost use Rattle.answers.specs.Reports.{report_number};

use net::{Descriptor, Port};
use state::{OutItem, Queued};

pub mod tables;

// Document 01's numbers that refuse, of calls, arrivals and the out step.
#[derive(Clone, Copy, PartialEq, Eq)]
pub enum Refusal {
    NotWellFormed = 1,
    OtherStore = 2,
    Ended = 3,
    StillWaiting = 4,
    NotOpen = 5,
    BadArgument = 6,
    LowPort = 7,
    NotOurAddress = 8,
    InUse = 9,
    ConnectionRefused = 10,
    PayloadTooLong = 11,
    NoPeer = 12,
    NoRoute = 13,
    WouldWait = 14,
    AllOpen = 15,
    ShortBuffer = 16,
    InterfacesRefused = 17,
    NotOurs = 24,
    BadSource = 25,
    ArrivalTooLong = 26,
    OutEmpty = 31,
}

// The numbers that do not, of calls, arrivals and the out step.
#[derive(Clone, Copy, PartialEq, Eq)]
pub enum Report {
    Done = 0,
    Waiting = 18,
    Delivered = 20,
    Dropped = 21,
    NoticeQueued = 22,
    NoticeNotQueued = 23,
    Heard = 27,
    NotTold = 28,
    Nobody = 29,
    Emitted = 30,
    Discarded = 32,
}

// The options that setopt and getopt name by a number.
#[derive(Clone, Copy, PartialEq, Eq)]
pub enum SocketOption {
    Bsdcompat = 1,
    Reuse = 2,
}

impl TryFrom<u8> for SocketOption {
    type Error = Refusal;

    ghost try_from_gives = { λ n r. r ≡ option_named n };

    fn try_from(n: u8) -> Result<Self, Refusal> {
        match n {
            1 => Ok(SocketOption::Bsdcompat),
            2 => Ok(SocketOption::Reuse),
            _ => Err(Refusal::BadArgument),
        }
    }
}

// Document 01's number, and what some answers give; a field that an answer does not use is 0.
// stays: one struct with a number, which C reads; Refusal and Report name the numbers.
#[repr(C)]
#[derive(Clone, Copy, PartialEq, Eq, Default)]
pub struct Answer {
    pub item: OutItem,
    pub address: u32,
    pub port: Port,
    pub len: u16,
    pub readable: u16,
    pub writable: u16,
    pub number: u8,
    pub descriptor: Descriptor,
    pub value: u8,
}

// Nothing but a number.
// stays: a number and no enum, since it promises of any.
pub fn numbered(n: u8) -> Answer
    ensures { result ≡ plain n }
{
    Answer {
        number: n,
        ..Answer::default()
    }
}

// Nothing but a refusal's number.
// stays: this and `reported`, since two enums have two definitions of their numbers.
pub fn refused(r: Refusal) -> Answer
    ensures { result ≡ plain (number_of r) }
{
    numbered(r as u8)
}

// Nothing but the number of what is done.
pub fn reported(what: Report) -> Answer
    ensures { result ≡ plain (report_number what) }
{
    numbered(what as u8)
}

// socket, 20 and 21.
// stays: n and k are numbers, since it promises of any two.
pub fn with_descriptor(n: u8, k: u8) -> Answer
    ensures { result ≡ told n k }
{
    Answer {
        descriptor: Descriptor(k),
        ..numbered(n)
    }
}

// getsockname and getpeername.
pub fn with_pair(address: u32, port: Port) -> Answer
    ensures { result ≡ named address port }
{
    Answer {
        address,
        port,
        ..reported(Report::Done)
    }
}

// geterr and getopt.
pub fn with_value(v: u8) -> Answer
    ensures { result ≡ valued v }
{
    Answer {
        value: v,
        ..reported(Report::Done)
    }
}

// 16, with the length needed.
pub fn with_need(len: u16) -> Answer
    ensures { result ≡ needing len }
{
    Answer {
        len,
        ..refused(Refusal::ShortBuffer)
    }
}

// A read.
pub fn from_sender(h: Queued) -> Answer
    ensures { result ≡ read_of h }
{
    Answer {
        address: h.flow.src,
        port: h.flow.sport,
        len: h.len,
        ..reported(Report::Done)
    }
}

// poll.
pub fn with_masks(readable: u16, writable: u16) -> Answer
    ensures { result ≡ polled readable writable }
{
    Answer {
        readable,
        writable,
        ..reported(Report::Done)
    }
}

// 30.
pub fn with_item(x: OutItem) -> Answer
    ensures { result ≡ emitted x }
{
    Answer {
        item: x,
        ..reported(Report::Emitted)
    }
}
