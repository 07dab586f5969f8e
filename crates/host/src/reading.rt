// recvfrom, resume, interrupt.
ghost use Rattle.std.specs.Prelude.{◌≡◌, [], ◌<◌, length, IfOk};
ghost use Rattle.answers.specs.Refusals.{refused_with};
ghost use Rattle.host.specs.Answers.{outcome};
ghost use Rattle.host.specs.Entered.{Ready, Holding};
ghost use Rattle.host.specs.Reading.{oldest_taken, waiting_on, received, awaited_by, resume_refusal, resumed_on, resumed, interrupted};

use crate::{Host, Stepped};
use answers::{Refusal, Report};
use net::Descriptor;
use state::Thread;

impl Host {
    // Socket k's oldest datagram goes into the buffer, if it fits, and the thread is t.
    #[tactic(auto, unfolding(crate::specs::Reading::oldest_taken))]
    fn take_oldest(self, store: &mut [u8], k: usize, buffer: &mut [u8], t: Thread) -> Stepped
        requires { Holding self (length store.old) k }
        ensures { outcome result store.new buffer.new ≡ oldest_taken self store.old k buffer.old t }
    {
        let h = self.queues.heads[4 * k];
        if buffer.len() < h.len as usize {
            return self.answered(answers::with_need(h.len));
        }
        let rest = self.queues.take(store, k, buffer);
        self.with_queues(rest)
            .with_thread(t)
            .answered(answers::from_sender(h))
    }

    // The thread waits on socket k, which is autobound if it has no local port.
    fn wait_on(self, d: Descriptor) -> Host
        ensures { result ≡ waiting_on self d.0 }
    {
        self.autobound(usize::from(d))
            .with_thread(Thread::Waiting(d))
    }

    #[tactic(auto, using(crate::proofs::Refusals::checked), unfolding(crate::specs::Reading::received))]
    pub fn recvfrom(
        self,
        store: &mut [u8],
        d: Descriptor,
        nonblocking: bool,
        buffer: &mut [u8],
    ) -> Stepped
        ensures { outcome result store.new buffer.new ≡ received self store.old d.0 nonblocking buffer.old }
    {
        let k = usize::from(d);
        let s = match self.call(store.len(), k) {
            Ok(s) => s,
            Err(refusal) => return self.refused(refusal),
        };
        if s.error != 0 {
            return self.without_error(k).refused(Refusal::ConnectionRefused);
        }
        if self.held_by(k) != 0 {
            return self.take_oldest(store, k, buffer, self.thread);
        }
        if nonblocking {
            return self.refused(Refusal::WouldWait);
        }
        self.wait_on(d).reported(Report::Waiting)
    }

    // Rows 1 to 3, and 6 if the thread does not wait; else the descriptor that it waits on.
    fn awaited(&self, room: usize) -> Result<Descriptor, Refusal>
        ensures refusal { refused_with result ≡ resume_refusal self.now room }
        ensures awaited { IfOk result (λ d. d.0 ≡ awaited_by self.now.thread) }
    {
        self.alive(room)?;
        state::threads::awaited(self.thread).ok_or(Refusal::BadArgument)
    }

    // The wait on socket k.
    #[tactic(auto, unfolding(crate::specs::Reading::resumed_on))]
    fn resume_on(self, store: &mut [u8], k: usize, buffer: &mut [u8]) -> Stepped
        requires ready { Ready self (length store.old) }
        requires k_bound { k < 16 }
        ensures { outcome result store.new buffer.new ≡ resumed_on self store.old k buffer.old }
    {
        if self.socket_at(k).error != 0 {
            return self
                .without_error(k)
                .with_thread(Thread::Running)
                .refused(Refusal::ConnectionRefused);
        }
        if self.held_by(k) != 0 {
            return self.take_oldest(store, k, buffer, Thread::Running);
        }
        self.reported(Report::Waiting)
    }

    #[tactic(auto, using(crate::proofs::Refusals::checked), unfolding(crate::specs::Reading::resumed))]
    pub fn resume(self, store: &mut [u8], buffer: &mut [u8]) -> Stepped
        ensures { outcome result store.new buffer.new ≡ resumed self store.old buffer.old }
    {
        match self.awaited(store.len()) {
            Ok(d) => self.resume_on(store, usize::from(d), buffer),
            Err(refusal) => self.refused(refusal),
        }
    }

    #[tactic(auto, using(crate::proofs::Refusals::checked), unfolding(crate::specs::Reading::interrupted))]
    pub fn interrupt(self, store: &[u8]) -> Stepped
        ensures { outcome result store.now [] ≡ interrupted self store.now }
    {
        match self.awaited(store.len()) {
            Ok(_) => self.with_thread(Thread::Running).reported(Report::Done),
            Err(refusal) => self.refused(refusal),
        }
    }
}
