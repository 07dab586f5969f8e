// close, exit.
ghost use Rattle.std.specs.Prelude.{◌≡◌, []};
ghost use Rattle.host.specs.Answers.{outcome};
ghost use Rattle.host.specs.Closing.{closed, exit_host, exited};

use crate::{Host, Stepped};
use answers::Report;
use net::Descriptor;
use queues::Queues;
use state::Thread;

impl Host {
    // Zeroes the socket and its slots.
    #[tactic(auto, using(crate::proofs::Refusals::checked), unfolding(crate::specs::Closing::closed))]
    pub fn close(self, store: &mut [u8], d: Descriptor) -> Stepped
        ensures { outcome result store.new [] ≡ closed self store.old d.0 }
    {
        let k = usize::from(d);
        if let Err(refusal) = self.call(store.len(), k) {
            return self.refused(refusal);
        }
        let empty = self.queues.clear(store, k);
        self.with_socket(k, binding::no_socket())
            .with_queues(empty)
            .reported(Report::Done)
    }

    // No socket, nothing held, and the thread ended; the out-queue stays.
    #[tactic(auto, unfolding(crate::specs::Closing::exit_host, laws::specs::Places::copies))]
    fn after_exit(self, queues: Queues) -> Host
        ensures { result ≡ exit_host self queues }
    {
        Host {
            sockets: [binding::no_socket(); 16],
            queues,
            thread: Thread::Ended,
            ..self
        }
    }

    #[tactic(auto, using(crate::proofs::Refusals::checked), unfolding(crate::specs::Closing::exited))]
    pub fn exit(self, store: &mut [u8]) -> Stepped
        ensures { outcome result store.new [] ≡ exited self store.old }
    {
        if let Err(refusal) = self.entry(store.len()) {
            return self.refused(refusal);
        }
        let empty = Queues::clear_all(store);
        self.after_exit(empty).reported(Report::Done)
    }
}
