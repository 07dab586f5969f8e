// What becomes of a datagram, and who hears of a notice. Nothing here is given interfaces, options to set or the thread.
#![tactic(auto)]

ghost use Rattle.std.specs.Prelude.{◌≡◌, ◌≤◌, length, is_none};
ghost use Rattle.queues.specs.Moves.{lent_bytes, carried, Carriable};
ghost use Rattle.outqueue.specs.Moves.{item_at, Some};
ghost use Rattle.delivery.specs.Landing.{delivered, delivering, landed, settled, arriving, looping};
ghost use Rattle.delivery.specs.Hearing.{turned, listens, heard_as, hearing};

use net::{Descriptor, Flow, InterfaceId};
use outqueue::OutQueue;
use queues::Queues;
use state::{OutItem, Queued, Socket};

// Of a datagram: the winner's queue took it or was full (document 01's 20 and 21);
// where nobody wins, a notice is queued or none is (22 and 23).
#[derive(Clone, Copy, PartialEq, Eq)]
pub enum Fate {
    Delivered(Descriptor),
    Dropped(Descriptor),
    NoticeQueued,
    NoticeNotQueued,
}

#[derive(Clone, Copy)]
pub struct Landing {
    pub queues: Queues,
    pub out: OutQueue,
    pub fate: Fate,
}

// Of a notice: its socket hears of it or is not to be told, or there is no such socket (27, 28, 29).
#[derive(Clone, Copy, PartialEq, Eq)]
pub enum Hearing {
    Heard(Descriptor),
    NotTold(Descriptor),
    Nobody,
}

// ---- a datagram

// Into the winner's queue, if it has room; no fate yet where nobody wins.
// stays: the store's length is a clause here and below; as an array it would be taken apart from the lent slice in every step.
// The bytes are the lent payload or, where none is lent, those of the out-queue's oldest item.
#[tactic(auto, using(matching::proofs::Winner::winner_small), unfolding(crate::specs::Landing::delivering))]
fn deliver(
    sockets: &[Socket; 16],
    queues: Queues,
    store: &mut [u8],
    h: Queued,
    payload: Option<&[u8]>,
) -> (Queues, Option<Fate>)
    requires { (length store.old ≡ 40960) × Carriable (lent_bytes payload) h.len (is_none payload) }
    ensures { delivered result.0 result.1 store.new ≡ delivering sockets.now queues store.old h (carried store.old (lent_bytes payload.entry) h.len (is_none payload.entry)) }
{
    let Some(b) = matching::scoring::winner(sockets, h.flow) else {
        return (queues, None);
    };
    let d = Descriptor(b.at as u8);
    if queues.counts[b.at] < 4 {
        let longer = queues.push(store, b.at, h, payload);
        (longer, Some(Fate::Delivered(d)))
    } else {
        (queues, Some(Fate::Dropped(d)))
    }
}

// The fate stands; where nobody won, a PORT notice for the sender, if there may be one and there is room.
#[tactic(auto, unfolding(crate::specs::Landing::settled, crate::specs::Landing::noticing))]
fn settle(
    queues: Queues,
    fate: Option<Fate>,
    out: OutQueue,
    store: &mut [u8],
    flow: Flow,
    may: bool,
) -> Landing
    requires { length store.old ≡ 40960 }
    ensures { landed result store.new ≡ settled (delivered queues fate store.old) out flow may }
{
    match fate {
        Some(fate) => Landing { queues, out, fate },
        None if may && out.count < 16 => Landing {
            queues,
            out: out.add_notice(store, flow, OutItem::PORT),
            fate: Fate::NoticeQueued,
        },
        None => Landing {
            queues,
            out,
            fate: Fate::NoticeNotQueued,
        },
    }
}

// stays: four parts of the host, since sockets are only read and a struct of them would be the host, which stands above.
// A datagram from outside, on the interface iface.
pub fn arrive(
    sockets: &[Socket; 16],
    queues: Queues,
    out: OutQueue,
    store: &mut [u8],
    flow: Flow,
    iface: InterfaceId,
    payload: &[u8],
) -> Landing
    requires { (length store.old ≡ 40960) × (length payload.now ≤ 512) }
    ensures { landed result store.new ≡ arriving sockets.now queues out store.old flow iface payload.now }
{
    let h = Queued {
        flow,
        len: payload.len() as u16,
        iface,
    };
    let (queues, fate) = deliver(sockets, queues, store, h, Some(payload));
    settle(queues, fate, out, store, flow, true)
}

// The out-queue's oldest item, a datagram, comes back in. Its bytes go into the winner's queue before its slot goes.
#[tactic(auto, using(crate::proofs::Cases::looped))]
pub fn loop_back(sockets: &[Socket; 16], queues: Queues, out: OutQueue, store: &mut [u8]) -> Landing
    requires some { Some out store.old }
    requires out_bound { (item_at out 0).len ≤ 512 }
    ensures { landed result store.new ≡ looping sockets.now queues out store.old }
{
    let x = out.items[0];
    let h = Queued {
        flow: x.flow,
        len: x.len,
        iface: InterfaceId(0),
    };
    let (queues, fate) = deliver(sockets, queues, store, h, None);
    let rest = out.remove(store);
    let may = net::is_loopback(x.flow.src);
    settle(queues, fate, rest, store, x.flow, may)
}

// ---- a notice

// The flow of an answer.
fn turn(f: Flow) -> Flow
    ensures { result ≡ turned f }
{
    Flow {
        src: f.dst,
        dst: f.src,
        sport: f.dport,
        dport: f.sport,
    }
}

fn is_listening(s: Socket) -> bool
    ensures { result ≡ listens s }
{
    s.raddr != 0 || !s.bsdcompat
}

// Who hears of a notice that embeds the flow: the socket that an answer would go to.
#[tactic(auto, using(matching::proofs::Winner::winner_small), unfolding(crate::specs::Hearing::hearing))]
pub fn hear(sockets: &[Socket; 16], flow: Flow) -> Hearing
    ensures { heard_as result ≡ hearing sockets.now flow }
{
    let Some(b) = matching::scoring::winner(sockets, turn(flow)) else {
        return Hearing::Nobody;
    };
    let d = Descriptor(b.at as u8);
    if is_listening(sockets[b.at]) {
        Hearing::Heard(d)
    } else {
        Hearing::NotTold(d)
    }
}
