// poll.
ghost use Rattle.std.specs.Prelude.{◌≡◌, [], cond, ◌&&◌, ◌||◌, not, ◌<◌, ◌^◌, eqb};
ghost use Rattle.answers.specs.Refusals.{refused_with};
ghost use Rattle.host.specs.Answers.{outcome};
ghost use Rattle.host.specs.Polling.{bit, all_open, ready_by, writable_at, ready_below, poll_refusal, polled_of};

use crate::{Host, Stepped};
use answers::Refusal;
use answers::tables::refuse_if;
use state::Socket;

// ---- bits of a mask

// stays: k < 16 is a clause, here and where a place is asked for: a number with a fact in it would not be C's Descriptor.
fn bit_at(mask: u16, k: usize) -> bool
    requires { k < 16 }
    ensures { result ≡ bit mask k }
{
    (mask >> k) % 2 == 1
}

// Every bit names an open descriptor.
// stays: a range, since bit k and socket k are found by k.
fn are_open(sockets: &[Socket; 16], mask: u16) -> bool
    ensures { result ≡ all_open sockets.now mask }
{
    (0..16).all(|k| !bit_at(mask, k) || sockets[k].live)
}

// What bit k of the mask adds.
fn ready_bit(s: Socket, mark: u8, mask: u16, k: usize) -> u16
    requires { k < 16 }
    ensures { result ≡ cond (bit mask k && (not (eqb mark 0) || not (eqb s.error 0))) (2 ^ k) 0 }
{
    if bit_at(mask, k) && (mark != 0 || s.error != 0) {
        1 << k
    } else {
        0
    }
}

// The bits of the mask whose descriptors are marked or have an error pending.
// stays: marks are numbers, and stand by place beside the sockets, since the definition `ready_by` takes the queues' counts so.
fn ready_bits(sockets: &[Socket; 16], marks: &[u8; 16], mask: u16) -> u16
    ensures { result ≡ ready_below mask (ready_by sockets.now marks.now) 16 }
{
    let mut bits = 0;
    for (k, s) in sockets.iter().enumerate() {
        bits += ready_bit(*s, marks[k], mask, k);
    }
    bits
}

impl Host {
    // Rows 1 to 4, and 5 if a bit names a closed descriptor.
    fn may_poll(&self, room: usize, readers: u16, writers: u16) -> Result<(), Refusal>
        ensures { refused_with result ≡ poll_refusal self.now room readers writers }
    {
        self.entry(room)?;
        let open = are_open(&self.sockets, readers) && are_open(&self.sockets, writers);
        refuse_if(!open, Refusal::NotOpen)
    }

    fn writable_bits(&self, mask: u16) -> u16
        ensures { result ≡ ready_below mask (writable_at self.now) 16 }
    {
        let mark = u8::from(self.out.count < 16);
        ready_bits(&self.sockets, &[mark; 16], mask)
    }

    // Each mask's ready bits.
    #[tactic(auto, using(crate::proofs::Refusals::checked), unfolding(crate::specs::Polling::polled_of))]
    pub fn poll(self, store: &[u8], readers: u16, writers: u16) -> Stepped
        ensures { outcome result store.now [] ≡ polled_of self store.now readers writers }
    {
        if let Err(refusal) = self.may_poll(store.len(), readers, writers) {
            return self.refused(refusal);
        }
        let readable = ready_bits(&self.sockets, &self.queues.counts, readers);
        let writable = self.writable_bits(writers);
        self.answered(answers::with_masks(readable, writable))
    }
}
