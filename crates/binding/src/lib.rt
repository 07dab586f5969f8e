// What the calls do to the sockets. Nothing here is given a queue.
#![tactic(auto)]

ghost use Rattle.std.specs.Prelude.{◌≡◌, ◌<◌, IfSome};
ghost use Rattle.state.specs.Places.{no_socket};
ghost use Rattle.binding.specs.Sockets.{new_socket, lowest_closed, below_16, with_local, with_remote, with_error, with_options, port_for};

use net::Port;
use state::Socket;

// ---- opening and closing

// An open socket with all its fields zero (000, socket.1).
pub fn new_socket() -> Socket
    ensures { result ≡ new_socket }
{
    Socket {
        live: true,
        ..Socket::default()
    }
}

pub fn no_socket() -> Socket
    ensures { result ≡ no_socket }
{
    Socket::default()
}

// The lowest closed descriptor; none where every one is open.
pub fn lowest_closed(sockets: &[Socket; 16]) -> Option<usize>
    ensures lowest { result ≡ below_16 (lowest_closed sockets.now) }
    ensures within { IfSome result (λ k. k < 16) }
{
    sockets.iter().position(|s| !s.live)
}

// ---- one field or pair of one socket

// stays: a function for each pair, since one that is told which pair to set would be a match over these two.
pub fn with_local(s: Socket, a: u32, p: Port) -> Socket
    ensures { result ≡ with_local s a p }
{
    Socket {
        laddr: a,
        lport: p,
        ..s
    }
}

pub fn with_remote(s: Socket, a: u32, p: Port) -> Socket
    ensures { result ≡ with_remote s a p }
{
    Socket {
        raddr: a,
        rport: p,
        ..s
    }
}

// stays: a number, as the socket's field has it for C; the promise is of any.
pub fn with_error(s: Socket, n: u8) -> Socket
    ensures { result ≡ with_error s n }
{
    Socket { error: n, ..s }
}

pub fn with_options(s: Socket, bsdcompat: bool, reuse: bool) -> Socket
    ensures { result ≡ with_options s bsdcompat reuse }
{
    Socket {
        bsdcompat,
        reuse,
        ..s
    }
}

// ---- the port that is meant

// A port that is given or already there; 0 asks for autobind (000, 2.3.3).
pub fn port_for(sockets: &[Socket; 16], p: Port) -> Port
    ensures { result ≡ port_for sockets.now p }
{
    if p == Port(0) {
        matching::ports::autobind(sockets)
    } else {
        p
    }
}
