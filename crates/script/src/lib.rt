// What a script's bytes mean (document 01, "The script program"): fields of a step, and the host call that its kind chooses.
#![tactic(auto)]

ghost use Rattle.std.specs.Prelude.{◌≡◌, ◌+◌, ◌≤◌, length};
ghost use Rattle.script.specs.Fields.{word, long, fields_at, flow_in};
ghost use Rattle.script.specs.Steps.{made, made_of, making};

use answers::SocketOption;
use host::{Host, Stepped};
use net::{Descriptor, Flow, Port};

pub mod lines;
pub mod playing;
pub mod whole;

// The bytes of a script's header, and of each step behind it.
pub(crate) const HEADER: usize = 13;

pub(crate) const STEP: usize = 16;

// A step's 16 bytes.
#[derive(Clone, Copy)]
pub struct Fields {
    pub a: u32,
    pub b: u32,
    pub p: Port,
    pub q: Port,
    pub len: u16,
    pub kind: u8,
    // stays: a byte, as the definition `fields_at` reads it; the call makes it a Descriptor.
    pub d: u8,
}

// ---- numbers, all big-endian
// stays: two functions for two sizes, each with its own definition; one for both would be a match on the size.

fn word_at(s: &[u8], i: usize) -> u16
    requires { i + 2 ≤ length s.now }
    ensures { result ≡ word s.now i }
{
    u16::from_be_bytes([s[i], s[i + 1]])
}

fn long_at(s: &[u8], i: usize) -> u32
    requires { i + 4 ≤ length s.now }
    ensures { result ≡ long s.now i }
{
    u32::from_be_bytes([s[i], s[i + 1], s[i + 2], s[i + 3]])
}

// The step at byte i.
pub(crate) fn fields_at(s: &[u8], i: usize) -> Fields
    requires { i + 16 ≤ length s.now }
    ensures { result ≡ fields_at s.now i }
{
    Fields {
        a: long_at(s, i + 2),
        b: long_at(s, i + 8),
        p: Port(word_at(s, i + 6)),
        q: Port(word_at(s, i + 12)),
        len: word_at(s, i + 14),
        kind: s[i],
        d: s[i + 1],
    }
}

// ---- the call that the kind chooses

// From A:P to B:Q.
impl From<Fields> for Flow {
    ghost from_gives = { λ f flow. flow ≡ flow_in f };

    fn from(f: Fields) -> Flow {
        Flow {
            src: f.a,
            dst: f.b,
            sport: f.p,
            dport: f.q,
        }
    }
}

// The step f, where its kind is one; the payload is what it sends or what arrives, the buffer is lent to recvfrom and out.
#[tactic(auto, unfolding(crate::specs::Steps::making_of, history::specs::Steps::after))]
pub(crate) fn make(
    h: Host,
    store: &mut [u8],
    f: Fields,
    payload: &[u8],
    buffer: &mut [u8],
) -> Option<Stepped>
    ensures { made (made_of h result) store.new buffer.new ≡ making h store.old f payload.now buffer.old }
{
    let kind = f.kind;
    let d = Descriptor(f.d);
    // stays: numbers, since document 01 has the kind as a byte, 1 to 12 and others bad, and names this decision.
    match kind {
        1 => Some(h.socket(store)),
        2 => Some(h.bind(store, d, f.a, f.p)),
        3 => Some(h.connect(store, d, f.a, f.p)),
        4 => Some(h.disconnect(store, d)),
        5 => Some(h.sendto(store, d, f.a, f.p, payload)),
        6 => Some(h.recvfrom(store, d, true, buffer)),
        7 => Some(h.close(store, d)),
        8 => Some(h.setopt(store, d, SocketOption::Reuse as u8, f.p != Port(0))),
        9 => Some(h.datagram(store, Flow::from(f), payload)),
        10 => Some(h.notice(store, f.b, f.a, Flow::from(f))),
        11 => Some(h.out_step(store, buffer)),
        12 => Some(h.exit(store)),
        _ => None,
    }
}
