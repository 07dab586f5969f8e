// The sockets' queues: heads and counts in the record, payloads in the lent store. No move here is given a socket.
#![tactic(auto)]

ghost use Rattle.std.specs.Prelude.{◌≡◌, [], ◌≤◌, ◌<◌, length, is_none};
ghost use Rattle.queues.specs.Moves.{count_at, first_head, no_queues, with_head, without_first, lent_bytes, carried, Carriable, left, pushed, taken, cleared, emptied, Room, Some};
ghost use Rattle.queues.specs.Fits.{head_fits, queue_ok, queues_ok};

use state::{Queued, Socket};

// Socket k's queue is the heads from 4 * k, oldest first, and the four slots of 512 bytes from byte 2,048 * k.
// stays: arrays with their counts beside, as they cross to C.
#[repr(C)]
#[derive(Clone, Copy)]
pub struct Queues {
    pub heads: [Queued; 64],
    pub counts: [u8; 16],
}

// ---- what well-formedness asks of them

// The place i of a queue that holds n: in use, or with nothing in it.
fn head_fits(h: Queued, i: usize, n: usize) -> bool
    ensures { result ≡ head_fits n i h }
{
    if i < n {
        h.len <= 512
    } else {
        h == Queued::default()
    }
}

impl Queues {
    // The four places of socket k's queue; a closed socket's holds nothing.
    fn is_queue(&self, k: usize, live: bool) -> bool
        requires { k < 16 }
        ensures { result ≡ queue_ok live self.now k }
    {
        let n = self.counts[k] as usize;
        n <= 4 && (live || n == 0) && (0..4).all(|i| head_fits(self.heads[4 * k + i], i, n))
    }

    pub fn are_queues(&self, sockets: &[Socket; 16]) -> bool
        ensures { result ≡ queues_ok sockets.now self.now }
    {
        let mut places = sockets.iter().enumerate();
        places.all(|(k, s)| self.is_queue(k, s.live))
    }
}

// ---- the moves

impl Queues {
    #[tactic(auto, unfolding(crate::specs::Moves::no_queues, laws::specs::Places::copies))]
    pub fn empty() -> Queues
        ensures { result ≡ no_queues }
    {
        // stays: a literal, since what a derive says of an array of 64 leaves this goal open.
        Queues {
            heads: [Queued::default(); 64],
            counts: [0; 16],
        }
    }

    // The head h behind those of socket k.
    #[tactic(auto, unfolding(crate::specs::Moves::with_head))]
    fn with_head(mut self, k: usize, h: Queued) -> Queues
        requires { (k < 16) × (count_at self k < 4) }
        ensures { result ≡ with_head self k h }
    {
        let n = self.counts[k];
        self.heads[4 * k + n as usize] = h;
        self.counts[k] = n + 1;
        self
    }

    // A datagram with the head h behind those of socket k (000, delivery.in.udp.1), with the lent payload or, where none
    // is lent, with the bytes of the out-queue's oldest item (delivery.loopback.udp.1).
    pub fn push(self, store: &mut [u8], k: usize, h: Queued, payload: Option<&[u8]>) -> Queues
        requires room { Room self store.old k }
        requires carriable { Carriable (lent_bytes payload) h.len (is_none payload) }
        ensures { left result store.new [] ≡ pushed self store.old k h (carried store.old (lent_bytes payload.entry) h.len (is_none payload.entry)) }
    {
        let at = 2048 * k + 512 * self.counts[k] as usize;
        match payload {
            Some(bytes) => store::slot_write(store, at, bytes),
            None => store::slot_copy(store, at, 32768, h.len as usize),
        }
        self.with_head(k, h)
    }

    // Socket k's heads without the first: the others one place further down.
    // stays: its own beside the out-queue's: places and count are found otherwise, so a shared one would be told all three lines.
    #[tactic(auto, using(laws::proofs::Splice::rotated_is), unfolding(crate::specs::Moves::without_first))]
    fn without_first(mut self, k: usize) -> Queues
        requires { (k < 16) × (1 ≤ count_at self k) }
        ensures { result ≡ without_first self k }
    {
        self.heads[4 * k..4 * k + 4].rotate_left(1);
        self.heads[4 * k + 3] = Queued::default();
        self.counts[k] -= 1;
        self
    }

    // Socket k's oldest datagram goes into the buffer and leaves the queue (000, recvfrom.1 and recvfrom.6).
    pub fn take(self, store: &mut [u8], k: usize, buffer: &mut [u8]) -> Queues
        requires some { Some self store.old k }
        requires lent { ((first_head self k).len ≤ 512) × ((first_head self k).len ≤ length buffer.old) }
        ensures { left result store.new buffer.new ≡ taken self store.old k buffer.old }
    {
        let h = self.heads[4 * k];
        store::slot_read(store, 2048 * k, buffer, h.len as usize);
        store::slots_pop(store, 2048 * k, self.counts[k] as usize);
        self.without_first(k)
    }

    // Socket k holds nothing, and its 2,048 bytes are zero (000, close.1).
    // stays: the store's length is a clause; as an array it would be taken apart from the lent slice in every step.
    #[tactic(auto, using(laws::proofs::Splice::put_mid_is), unfolding(crate::specs::Moves::without_any, laws::specs::Places::copies))]
    pub fn clear(mut self, store: &mut [u8], k: usize) -> Queues
        requires { (k < 16) × (length store.old ≡ 40960) }
        ensures { left result store.new [] ≡ cleared self store.old k }
    {
        store::clear(store, 2048 * k, 2048);
        self.heads[4 * k..4 * k + 4].fill(Queued::default());
        self.counts[k] = 0;
        self
    }

    // Nobody holds anything, and bytes 0 to 32,767 are zero (000, exit.1).
    pub fn clear_all(store: &mut [u8]) -> Queues
        requires { length store.old ≡ 40960 }
        ensures { left result store.new [] ≡ emptied store.old }
    {
        store::clear(store, 0, 32768);
        Queues::empty()
    }
}
