// The host for callers in C and Rust. The record crosses by value, its thread as two numbers; a request is one step.
#![tactic(auto)]

ghost use Rattle.std.specs.Prelude.{◌≡◌, []};
ghost use Rattle.lent.specs.List.{opened_list};
ghost use Rattle.udphost.specs.Requests.{reply_of, crossing, crossed_of, stepping};

use answers::Answer;
use host::{Host, Stepped};
use net::{Descriptor, Flow, Port};
use outqueue::OutQueue;
use queues::Queues;
use state::{Interface, Socket};

mod records;
mod requests;

// The record as C has it: thread is 0 running, 1 waiting on the descriptor awaited, 2 ended.
#[repr(C)]
#[derive(Clone, Copy)]
pub struct Record {
    pub interfaces: [Interface; 4],
    pub sockets: [Socket; 16],
    pub queues: Queues,
    pub out: OutQueue,
    pub icount: u8,
    // stays: numbers, C's bytes.
    pub thread: u8,
    pub awaited: u8,
}

// A step and its arguments; what a kind does not use is ignored.
#[repr(C)]
#[derive(Clone, Copy)]
pub struct Request {
    pub flow: Flow,
    pub src: u32,
    pub dst: u32,
    pub address: u32,
    pub port: Port,
    pub readers: u16,
    pub writers: u16,
    // stays: kind and option are numbers, C's bytes.
    pub kind: u8,
    pub descriptor: Descriptor,
    pub option: u8,
    pub on: bool,
}

// The record for the next step, and the answer.
#[repr(C)]
#[derive(Clone, Copy)]
pub struct Reply {
    pub next: Record,
    pub answer: Answer,
}

impl From<Stepped> for Reply {
    ghost from_gives = { λ r x. x ≡ reply_of r };

    fn from(r: Stepped) -> Reply {
        Reply {
            next: Record::from(r.host),
            answer: r.answer,
        }
    }
}

// ---- the functions that C calls, through udphost_c

// Opening over a lent list of interface records. After 2 or 17 the record is that of an ended host, the store untouched.
pub fn udphost_open(list: &[Interface], store: &mut [u8]) -> Reply
    ensures { crossing result store.new [] ≡ crossed_of (opened_list list.now store.old) }
{
    Reply::from(lent::opening(list, store))
}

// One step. A record whose thread's numbers are none is answered with 1, a kind that is none with 1, 2 or 6.
#[tactic(auto, unfolding(crate::specs::Requests::stepping))]
pub fn udphost_step(
    kept: Record,
    store: &mut [u8],
    request: Request,
    payload: &[u8],
    buffer: &mut [u8],
) -> Reply
    ensures { crossing result store.new buffer.new ≡ stepping kept store.old request payload.now buffer.old }
{
    match Host::try_from(kept) {
        Ok(host) => Reply::from(requests::make(host, store, request, payload, buffer)),
        Err(refusal) => Reply {
            next: kept,
            answer: answers::refused(refusal),
        },
    }
}
