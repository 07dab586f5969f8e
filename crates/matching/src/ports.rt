// Which ports are taken: "in use" for bind, and autobind (000, 2.3.3).
ghost use Rattle.std.specs.Prelude.{◌≡◌};
ghost use Rattle.matching.specs.Ports.{takes, leaves, in_use, port_free, auto_port};

use net::Port;
use state::Socket;

// The socket s keeps a socket with this reuse off the pair of address and port.
fn is_taking(s: Socket, reuse: bool, a: u32, p: Port) -> bool
    ensures { result ≡ takes s reuse a p.0 }
{
    s.live && s.lport == p && state::sockets::is_overlap(s.laddr, a) && !(s.reuse && reuse)
}

// Another open socket than k, which has this reuse, has that port, overlapping addresses, and not both have reuse.
pub fn is_in_use(sockets: &[Socket; 16], k: usize, reuse: bool, a: u32, p: Port) -> bool
    ensures { result ≡ in_use sockets.now k reuse a p.0 }
{
    sockets
        .iter()
        .enumerate()
        .any(|(j, s)| j != k && is_taking(*s, reuse, a, p))
}

// No socket has p as its local port.
pub fn is_port_free(sockets: &[Socket; 16], p: Port) -> bool
    ensures { result ≡ port_free sockets.now p.0 }
{
    sockets.iter().all(|s| s.lport != p)
}

// The lowest port of 1024 to 4999 that no socket has: 16 sockets leave one.
pub fn autobind(sockets: &[Socket; 16]) -> Port
    ensures { result.0 ≡ auto_port sockets.now }
{
    let p = (1024..5000).find(|p| is_port_free(sockets, Port(*p)));
    Port(p.unwrap())
}
