// The thread: running, waiting in recvfrom on one descriptor, or ended.
ghost use Rattle.std.specs.Prelude.{◌≡◌};
ghost use Rattle.state.specs.Threads.{bound_at, thread_ok, ended, waiting, awaited_of};

use crate::{Socket, Thread};
use net::{Descriptor, Port};

// Socket k is open and has a local port.
#[tactic(auto, unfolding(crate::specs::Threads::bound_at))]
fn is_bound(sockets: &[Socket; 16], k: usize) -> bool
    ensures { result ≡ bound_at sockets.now k }
{
    sockets.get(k).is_some_and(|s| s.live && s.lport != Port(0))
}

// The descriptor that the thread waits on.
pub fn awaited(t: Thread) -> Option<Descriptor>
    ensures { result ≡ awaited_of t }
{
    match t {
        Thread::Waiting(d) => Some(d),
        _ => None,
    }
}

// A waiting descriptor is open with a local port.
#[tactic(auto, unfolding(crate::specs::Threads::thread_ok))]
pub fn is_thread(sockets: &[Socket; 16], t: Thread) -> bool
    ensures { result ≡ thread_ok sockets.now t }
{
    match t {
        Thread::Waiting(d) => is_bound(sockets, usize::from(d)),
        _ => true,
    }
}

pub fn is_ended(t: Thread) -> bool
    ensures { result ≡ ended t }
{
    matches!(t, Thread::Ended)
}

pub fn is_waiting(t: Thread) -> bool
    ensures { result ≡ waiting t }
{
    matches!(t, Thread::Waiting(_))
}
