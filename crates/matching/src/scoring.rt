// Who gets a datagram (000, 2.3.20: match, score and lookup).
ghost use Rattle.std.specs.Prelude.{◌≡◌, ◌≤◌};
ghost use Rattle.matching.specs.Scores.{agrees, matched, one, score_of, best_of, found};

use crate::Best;
use net::{Flow, Port};
use state::Socket;

// stays: a port is asked as a number here, since the definitions `agrees` and `one` are of numbers.
// A part that the socket has must agree.
fn is_agreed(has: u32, given: u32) -> bool
    ensures { result ≡ agrees has given }
{
    has == 0 || has == given
}

// Every part agrees, and there is a local port.
fn is_match(s: Socket, f: Flow) -> bool
    ensures { result ≡ matched s f }
{
    s.live
        && s.lport != Port(0)
        && s.lport == f.dport
        && is_agreed(s.laddr, f.dst)
        && is_agreed(s.raddr, f.src)
        && is_agreed(s.rport.0 as u32, f.sport.0 as u32)
}

// A part that the socket has counts 1.
fn count_one(has: u32) -> u8
    ensures { (result ≡ one has) × (result ≤ 1) }
{
    u8::from(has != 0)
}

// How well a socket matches a flow: 0 to 4.
#[tactic(auto, unfolding(crate::specs::Scores::score_of))]
pub fn score(s: Socket, f: Flow) -> u8
    ensures { result ≡ score_of s f }
{
    if is_match(s, f) {
        1 + count_one(s.laddr) + count_one(s.raddr) + count_one(s.rport.0 as u32)
    } else {
        0
    }
}

// The greatest nonzero score, the lowest descriptor among equals; none where nobody matches.
pub fn winner(sockets: &[Socket; 16], f: Flow) -> Option<Best>
    ensures { result ≡ found (best_of sockets.now f) }
{
    let mut best: Option<Best> = None;
    for (at, s) in sockets.iter().enumerate() {
        let score = score(*s, f);
        if best.map_or(0, |b| b.score) < score {
            best = Some(Best { at, score });
        }
    }
    best
}
