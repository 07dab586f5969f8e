// Opening over an array of interface records with a count.
ghost use Rattle.std.specs.Prelude.{◌≡◌, []};
ghost use Rattle.host.specs.Answers.{outcome};
ghost use Rattle.host.specs.Opening.{empty_host, ended_host, opened};

use crate::{Host, Stepped};
use answers::{Report, tables};
use outqueue::OutQueue;
use queues::Queues;
use state::{Interface, Thread};

// A host with these interfaces, no socket open and nothing queued.
#[tactic(auto, unfolding(crate::specs::Opening::empty_host, laws::specs::Places::copies))]
fn empty_host(interfaces: [Interface; 4], n: u8, t: Thread) -> Host
    ensures { result ≡ empty_host interfaces n t }
{
    Host {
        interfaces,
        sockets: [binding::no_socket(); 16],
        queues: Queues::empty(),
        out: OutQueue::empty(),
        thread: t,
        icount: n,
    }
}

#[tactic(auto, unfolding(laws::specs::Places::copies))]
fn ended_host() -> Host
    ensures { result ≡ ended_host }
{
    empty_host([state::interfaces::no_interface(); 4], 0, Thread::Ended)
}

impl Host {
    #[tactic(auto, using(crate::proofs::Refusals::checked), unfolding(crate::specs::Opening::opened))]
    pub fn opening(interfaces: [Interface; 4], count: u8, store: &mut [u8]) -> Stepped
        ensures { outcome result store.new [] ≡ opened interfaces count store.old }
    {
        let accepted = state::interfaces::are_accepted(&interfaces, count as usize);
        if let Err(refusal) = tables::opening_rows(store.len(), accepted) {
            return ended_host().refused(refusal);
        }
        store::clear(store, 0, 40960);
        empty_host(interfaces, count, Thread::Running).reported(Report::Done)
    }
}
