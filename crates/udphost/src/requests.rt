// Which host call a request is.
ghost use Rattle.std.specs.Prelude.{◌≡◌};
ghost use Rattle.host.specs.Answers.{outcome};
ghost use Rattle.udphost.specs.Requests.{none_of, making};

use crate::Request;
use answers::Refusal;
use host::{Host, Stepped};

// No step: 1 and 2 as of every step, then 6.
fn none(h: Host, room: usize) -> Stepped
    ensures { result ≡ none_of h room }
{
    let refusal = h.ready(room).err().unwrap_or(Refusal::BadArgument);
    Stepped {
        host: h,
        answer: answers::refused(refusal),
    }
}

// The step that the kind chooses: 1 to 12 as in a script, then the others.
#[tactic(auto, unfolding(crate::specs::Requests::asked_of, crate::specs::Requests::making_of, history::specs::Steps::after))]
pub(crate) fn make(
    h: Host,
    store: &mut [u8],
    q: Request,
    payload: &[u8],
    buffer: &mut [u8],
) -> Stepped
    ensures { outcome result store.new buffer.new ≡ making h store.old q payload.now buffer.old }
{
    let d = q.descriptor;
    // stays: the kind is C's byte; an enum of the steps would be a second list of these, with each request taken apart twice.
    match q.kind {
        1 => h.socket(store),
        2 => h.bind(store, d, q.address, q.port),
        3 => h.connect(store, d, q.address, q.port),
        4 => h.disconnect(store, d),
        5 => h.sendto(store, d, q.address, q.port, payload),
        6 => h.recvfrom(store, d, q.on, buffer),
        7 => h.close(store, d),
        8 => h.setopt(store, d, q.option, q.on),
        9 => h.datagram(store, q.flow, payload),
        10 => h.notice(store, q.src, q.dst, q.flow),
        11 => h.out_step(store, buffer),
        12 => h.exit(store),
        13 => h.getsockname(store, d),
        14 => h.getpeername(store, d),
        15 => h.geterr(store, d),
        16 => h.getopt(store, d, q.option),
        17 => h.resume(store, buffer),
        18 => h.interrupt(store),
        19 => h.poll(store, q.readers, q.writers),
        _ => none(h, store.len()),
    }
}
