// The out-queue: items in the record, payloads in the lent store's last 16 slots (000, 2.3.18).
#![tactic(auto)]

ghost use Rattle.std.specs.Prelude.{◌≡◌, [], ◌≤◌, ◌<◌, length};
ghost use Rattle.outqueue.specs.Moves.{source_of, destination_of, datagram_of, notice_of, no_items, with_item, without_first, left, added, removed, Room, Some};
ghost use Rattle.outqueue.specs.Fits.{item_ok, item_fits, out_ok};

use net::Flow;
use state::{Interface, OutItem};

// Item i is the i-th oldest; its payload is the slot of 512 bytes at byte 32,768 + 512 * i.
// stays: an array with its count beside, as it crosses to C.
#[repr(C)]
#[derive(Clone, Copy, Default)]
pub struct OutQueue {
    pub items: [OutItem; 16],
    pub count: u8,
}

// ---- what well-formedness asks of it

// stays: this and `destination`, since a step asks one of them, and each has its definition.
// A notice goes from the destination of what it embeds.
pub fn source(x: OutItem) -> u32
    ensures { result ≡ source_of x }
{
    match x.kind {
        OutItem::DATAGRAM => x.flow.src,
        _ => x.flow.dst,
    }
}

// And to its source.
pub fn destination(x: OutItem) -> u32
    ensures { result ≡ destination_of x }
{
    match x.kind {
        OutItem::DATAGRAM => x.flow.dst,
        _ => x.flow.src,
    }
}

fn is_item(interfaces: &[Interface; 4], x: OutItem) -> bool
    ensures { result ≡ item_ok interfaces.now x }
{
    x.kind <= OutItem::HOST
        && x.len <= 512
        && (x.kind == OutItem::DATAGRAM || x.len == 0)
        && state::interfaces::is_ours(interfaces, source(x))
}

// A place that is in use has an item, any other nothing.
fn item_fits(interfaces: &[Interface; 4], x: OutItem, used: bool) -> bool
    ensures { result ≡ item_fits interfaces.now used x }
{
    if used {
        is_item(interfaces, x)
    } else {
        x == OutItem::default()
    }
}

impl OutQueue {
    pub fn are_items(&self, interfaces: &[Interface; 4]) -> bool
        ensures { result ≡ out_ok interfaces.now self.now }
    {
        let n = self.count as usize;
        let mut places = self.items.iter().enumerate();
        n <= 16 && places.all(|(i, x)| item_fits(interfaces, *x, i < n))
    }
}

// ---- the moves

impl OutQueue {
    #[tactic(auto, unfolding(crate::specs::Moves::no_items, laws::specs::Places::copies))]
    pub fn empty() -> OutQueue
        ensures { result ≡ no_items }
    {
        OutQueue::default()
    }

    // The item x behind those that are there.
    #[tactic(auto, unfolding(crate::specs::Moves::with_item))]
    fn with_item(mut self, x: OutItem) -> OutQueue
        requires { self.count < 16 }
        ensures { result ≡ with_item self x }
    {
        self.items[self.count as usize] = x;
        self.count += 1;
        self
    }

    // A datagram (000, 2.3.19: dosend).
    pub fn add(self, store: &mut [u8], flow: Flow, payload: &[u8]) -> OutQueue
        requires room { Room self store.old }
        requires payload_len_bound { length payload.now ≤ 512 }
        ensures { left result store.new ≡ added self store.old (datagram_of flow (length payload.now)) payload.now }
    {
        store::slot_write(store, 32768 + 512 * self.count as usize, payload);
        self.with_item(OutItem {
            flow,
            len: payload.len() as u16,
            kind: OutItem::DATAGRAM,
        })
    }

    // A PORT or a HOST notice that embeds the flow: its slot is all zeros (000, 2.3.8).
    // stays: a byte for the kind, as the item has it for C; the promise is of any.
    pub fn add_notice(self, store: &mut [u8], flow: Flow, kind: u8) -> OutQueue
        requires { Room self store.old }
        ensures { left result store.new ≡ added self store.old (notice_of kind flow) [] }
    {
        store::slot_zero(store, 32768 + 512 * self.count as usize);
        self.with_item(OutItem { flow, len: 0, kind })
    }

    // The items without the oldest: the others one place further down.
    #[tactic(auto, using(laws::proofs::Splice::rotated_front), unfolding(crate::specs::Moves::without_first))]
    fn without_first(mut self) -> OutQueue
        requires { (1 ≤ self.count) × (self.count ≤ 16) }
        ensures { result ≡ without_first self }
    {
        let n = self.count as usize;
        self.items[0..n].rotate_left(1);
        self.items[n - 1] = OutItem::default();
        self.count -= 1;
        self
    }

    // The oldest item leaves, with its slot (000, 2.3.18: dequeue).
    pub fn remove(self, store: &mut [u8]) -> OutQueue
        requires { Some self store.old }
        ensures { left result store.new ≡ removed self store.old }
    {
        store::slots_pop(store, 32768, self.count as usize);
        self.without_first()
    }
}
