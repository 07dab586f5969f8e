// What each socket must be, and what any two.
// stays: 0 is tested as a number in each place, as document 01 has it for what is absent; an Option would not be C's number.
ghost use Rattle.std.specs.Prelude.{◌≡◌, ◌<◌};
ghost use Rattle.state.specs.Sockets.{chained, local_known, error_known, socket_ok, sockets_ok, overlap, compatible, apart_at, all_apart, open_at};

use crate::{Interface, Socket, interfaces};
use net::Port;

// ---- one socket

// Remote port implies remote address, which implies local address, which implies local port.
fn is_chained(s: Socket) -> bool
    ensures { result ≡ chained s }
{
    (s.rport == Port(0) || s.raddr != 0)
        && (s.raddr == 0 || s.laddr != 0)
        && (s.laddr == 0 || s.lport != Port(0))
}

#[tactic(auto, unfolding(crate::specs::Sockets::local_known, crate::specs::Interfaces::own))]
fn is_local_known(interfaces: &[Interface; 4], a: u32) -> bool
    ensures { result ≡ local_known interfaces.now a }
{
    a == 0 || interfaces::is_ours(interfaces, a)
}

// stays: 10 is a digit here, since Refusal stands in answers, above this crate.
fn is_error_known(n: u8) -> bool
    ensures { result ≡ error_known n }
{
    n == 0 || n == 10
}

fn is_socket(interfaces: &[Interface; 4], s: Socket) -> bool
    ensures { result ≡ socket_ok interfaces.now s }
{
    if s.live {
        is_chained(s) && is_local_known(interfaces, s.laddr) && is_error_known(s.error)
    } else {
        s == Socket::default()
    }
}

pub fn are_sockets(interfaces: &[Interface; 4], sockets: &[Socket; 16]) -> bool
    ensures { result ≡ sockets_ok interfaces.now sockets.now }
{
    sockets.iter().all(|s| is_socket(interfaces, *s))
}

// ---- two sockets

// Two local addresses overlap: equal, or one wildcard.
pub fn is_overlap(a: u32, b: u32) -> bool
    ensures { result ≡ overlap a b }
{
    a == b || a == 0 || b == 0
}

// On one local port with overlapping local addresses both have reuse.
pub fn are_compatible(s: Socket, t: Socket) -> bool
    ensures { result ≡ compatible s t }
{
    !(s.lport == t.lport && is_overlap(s.laddr, t.laddr)) || (s.reuse && t.reuse)
}

// Socket k and every earlier one, if k has a local port.
#[tactic(auto, unfolding(laws::specs::Below::all_below))]
fn is_apart(sockets: &[Socket; 16], k: usize) -> bool
    requires { k < 16 }
    ensures { result ≡ apart_at sockets.now k }
{
    let s = sockets[k];
    s.lport == Port(0) || sockets[..k].iter().all(|t| are_compatible(*t, s))
}

pub fn are_apart(sockets: &[Socket; 16]) -> bool
    ensures { result ≡ all_apart sockets.now }
{
    (0..16).all(|k| is_apart(sockets, k))
}

// ---- a descriptor

// The descriptor names an open socket; one of 16 or more does not.
#[tactic(auto, unfolding(crate::specs::Sockets::open_at))]
pub fn is_open(sockets: &[Socket; 16], k: usize) -> bool
    ensures { result ≡ open_at sockets.now k }
{
    sockets.get(k).is_some_and(|s| s.live)
}
