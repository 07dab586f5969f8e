// The record to the host and back. The thread is the only part that differs: here an enum, there two numbers.
ghost use Rattle.std.specs.Prelude.{◌≡◌};
ghost use Rattle.udphost.specs.Crossing.{thread_number, thread_awaited, record_of, known_thread, known_host};

use crate::Record;
use answers::Refusal;
use host::Host;
use net::Descriptor;
use state::Thread;

// Nothing for numbers that are no thread's: an awaited descriptor only where it waits.
fn thread_of(thread: u8, awaited: u8) -> Option<Thread>
    ensures { result ≡ known_thread thread awaited }
{
    match (thread, awaited) {
        (0, 0) => Some(Thread::Running),
        (1, d) => Some(Thread::Waiting(Descriptor(d))),
        (2, 0) => Some(Thread::Ended),
        _ => None,
    }
}

// stays: a function, as neither type is this crate's, so there can be no From here; so too `thread_of`.
fn numbers_of(t: Thread) -> (u8, u8)
    ensures { result ≡ (thread_number t, thread_awaited t) }
{
    match t {
        Thread::Running => (0, 0),
        Thread::Waiting(d) => (1, d.0),
        Thread::Ended => (2, 0),
    }
}

impl TryFrom<Record> for Host {
    type Error = Refusal;

    ghost try_from_gives = { λ r h. h ≡ known_host r };

    fn try_from(r: Record) -> Result<Host, Refusal> {
        let Record {
            interfaces,
            sockets,
            queues,
            out,
            icount,
            thread,
            awaited,
        } = r;
        let thread = thread_of(thread, awaited).ok_or(Refusal::NotWellFormed)?;
        Ok(Host {
            interfaces,
            sockets,
            queues,
            out,
            thread,
            icount,
        })
    }
}

impl From<Host> for Record {
    ghost from_gives = { λ h r. r ≡ record_of h };

    fn from(h: Host) -> Record {
        let Host {
            interfaces,
            sockets,
            queues,
            out,
            thread,
            icount,
        } = h;
        let (thread, awaited) = numbers_of(thread);
        Record {
            interfaces,
            sockets,
            queues,
            out,
            icount,
            thread,
            awaited,
        }
    }
}
