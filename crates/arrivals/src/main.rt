// Every number that arrivals and the out step give, from the check that gives it first. A line is what is asked, the
// number and the descriptor. A read adds the sender, the length and the buffer's first byte; an out step adds the
// item's kind, flow and length and the buffer's first and fourth byte. What nothing was written to is 170.
#![tactic(auto)]

use answers::Answer;
use host::Host;
use net::{Descriptor, Flow, InterfaceId, Port};
use state::{Interface, Socket};
use std::net::{Ipv4Addr, SocketAddrV4};
use std::{fmt, io};

// 10.2.0.5 under 255.255.255.0, which is the host's own; 10.2.0.9; 10.2.0.8; 127.0.0.1; 224.0.0.1.
const OURS: u32 = 0x0a02_0005;

const MASK: u32 = 0xffff_ff00;

const NINE: u32 = 0x0a02_0009;

const EIGHT: u32 = 0x0a02_0008;

const LOOPBACK: u32 = 0x7f00_0001;

const MARTIAN: u32 = 0xe000_0001;

// What a lent buffer has before a step.
const UNTOUCHED: u8 = 170;

// ---- what lines are made of

fn pair(a: u32, p: Port) -> SocketAddrV4 {
    SocketAddrV4::new(Ipv4Addr::from(a), p.0)
}

// A flow as its two ends.
#[derive(Drop)]
struct Ends(Flow);

impl fmt::Display for Ends {
    fn fmt<W: fmt::Write>(&self, f: &mut fmt::Formatter<W>) -> fmt::Result {
        let Flow {
            src,
            dst,
            sport,
            dport,
        } = self.0;
        write!(f, "{} {}", pair(src, sport), pair(dst, dport))
    }
}

// An answer's number and descriptor.
#[derive(Drop)]
struct Told(Answer);

impl fmt::Display for Told {
    fn fmt<W: fmt::Write>(&self, f: &mut fmt::Formatter<W>) -> fmt::Result {
        write!(f, "{} {}", self.0.number, self.0.descriptor.0)
    }
}

fn flow(src: u32, sport: u16, dst: u32, dport: u16) -> Flow {
    Flow {
        src,
        dst,
        sport: Port(sport),
        dport: Port(dport),
    }
}

// ---- the host that every part begins with

// An open socket of this local port.
fn bound(port: u16) -> Socket {
    Socket {
        lport: Port(port),
        live: true,
        reuse: true,
        ..Socket::default()
    }
}

// Document 01's sockets 0 to 3, which share port 7000; then others; from 8 on as opening left them.
fn sockets(mut xs: [Socket; 16]) -> [Socket; 16] {
    xs[0] = bound(7000);
    xs[1] = Socket {
        laddr: OURS,
        ..xs[0]
    };
    xs[2] = Socket {
        raddr: NINE,
        ..xs[1]
    };
    xs[3] = Socket {
        rport: Port(6000),
        ..xs[2]
    };
    xs[4] = bound(7004);
    xs[5] = Socket {
        laddr: LOOPBACK,
        ..bound(7005)
    };
    xs[6] = Socket {
        bsdcompat: true,
        ..bound(7006)
    };
    xs[7] = Socket {
        lport: Port(7007),
        bsdcompat: true,
        ..xs[2]
    };
    xs
}

// 10.2.0.5 under 255.255.255.0, with these sockets.
fn opened(store: &mut [u8]) -> Host {
    let mut interfaces = [Interface::default(); 4];
    interfaces[0] = Interface {
        mask: MASK,
        first: OURS,
        id: InterfaceId(1),
        ..Interface::default()
    };
    let s = Host::opening(interfaces, 1, store);
    let sockets = sockets(s.host.sockets);
    Host { sockets, ..s.host }
}

// Where lines are printed, the store that every step is lent, and the host that the last step left.
#[derive(Drop)]
struct Trial<'a, R> {
    rt: &'a R,
    store: &'a mut [u8],
    host: Host,
}

impl<R: Print> Trial<'_, R> {
    // ---- steps with a line

    fn arrive(&mut self, f: Flow, payload: &[u8]) -> io::Result<()> {
        let s = self.host.datagram(self.store, f, payload);
        self.host = s.host;
        println!(self.rt;
            "datagram of {} {}: {}",
            payload.len(),
            Ends(f),
            Told(s.answer)
        )
    }

    // From src to dst; it embeds the flow f.
    fn hear(&mut self, src: u32, dst: u32, f: Flow) -> io::Result<()> {
        let s = self.host.notice(self.store, src, dst, f);
        self.host = s.host;
        let from = Ipv4Addr::from(src);
        let to = Ipv4Addr::from(dst);
        println!(self.rt; "notice {from} {to} {}: {}", Ends(f), Told(s.answer))
    }

    fn out(&mut self) -> io::Result<()> {
        let mut buffer = [UNTOUCHED; 512];
        let s = self.host.out_step(self.store, &mut buffer);
        self.host = s.host;
        let x = s.answer.item;
        println!(self.rt;
            "out: {} {} {} {} {} {}",
            Told(s.answer),
            x.kind,
            Ends(x.flow),
            x.len,
            buffer[0],
            buffer[3]
        )
    }

    fn read(&mut self, d: u8) -> io::Result<()> {
        let mut buffer = [UNTOUCHED; 512];
        let s = self
            .host
            .recvfrom(self.store, Descriptor(d), true, &mut buffer);
        self.host = s.host;
        let a = s.answer;
        println!(self.rt;
            "recvfrom {d}: {} {} {} {}",
            Told(a),
            pair(a.address, a.port),
            a.len,
            buffer[0]
        )
    }

    // ---- steps with no line

    fn open(&mut self) {
        self.host = opened(self.store);
    }

    // Three bytes of 7 from socket d.
    fn send(&mut self, d: u8, to: u32, port: u16) {
        let s = self
            .host
            .sendto(self.store, Descriptor(d), to, Port(port), &[7; 3]);
        self.host = s.host;
    }

    // n datagrams from 10.2.0.9:6000.
    fn crowd(&mut self, n: u8, port: u16) {
        let f = flow(NINE, 6000, OURS, port);
        for _ in 0..n {
            self.host = self.host.datagram(self.store, f, &[9; 3]).host;
        }
    }

    // ---- 1, 2 and the out step's 16, each before what would come next

    fn entries(&mut self, short: &mut [u8], icount: u8) -> io::Result<()> {
        self.open();
        self.host.icount = icount;
        let f = flow(MARTIAN, 6000, EIGHT, 7000);
        let mut buffer = [UNTOUCHED; 511];
        let s = self.host.datagram(short, f, &buffer);
        println!(self.rt;
            "datagram, store of 40959, icount {icount}: {}",
            Told(s.answer)
        )?;
        let s = self.host.notice(short, MARTIAN, EIGHT, f);
        println!(self.rt;
            "notice, store of 40959, icount {icount}: {}",
            Told(s.answer)
        )?;
        let s = self.host.out_step(short, &mut buffer);
        println!(self.rt;
            "out into 511, store of 40959, icount {icount}: {}",
            Told(s.answer)
        )?;
        let s = self.host.out_step(self.store, &mut buffer);
        println!(self.rt; "out into 511, icount {icount}: {}", Told(s.answer))
    }

    // ---- datagrams

    fn datagrams(&mut self) -> io::Result<()> {
        // Document 01's example.
        self.open();
        self.arrive(flow(NINE, 6000, OURS, 7000), &[1; 3])?;
        self.arrive(flow(NINE, 6001, OURS, 7000), &[2; 3])?;
        self.arrive(flow(EIGHT, 6000, OURS, 7000), &[3; 3])?;
        self.arrive(flow(NINE, 6000, OURS, 7001), &[4; 3])?;
        // "Fourth queued 20, fifth 21", and the first is read first.
        self.crowd(2, 7000);
        self.arrive(flow(NINE, 6000, OURS, 7000), &[5; 3])?;
        self.arrive(flow(NINE, 6000, OURS, 7000), &[6; 3])?;
        self.read(3)?;
        self.read(3)
    }

    fn refusals(&mut self) -> io::Result<()> {
        // 24 before 25 before 26; "127/8 counts as not ours here".
        self.open();
        self.arrive(flow(MARTIAN, 6000, EIGHT, 7000), &[1; 3])?;
        self.arrive(flow(NINE, 6000, LOOPBACK, 7000), &[1; 3])?;
        self.arrive(flow(MARTIAN, 6000, OURS, 7000), &[1; 3])?;
        self.arrive(flow(LOOPBACK, 6000, OURS, 7000), &[7; 513])?;
        self.arrive(flow(NINE, 6000, OURS, 7000), &[7; 513])?;
        // "Destination port 0 matches nobody": the first notice. The sixteenth is 22 too, then the out-queue is full.
        self.arrive(flow(NINE, 6000, OURS, 0), &[1; 3])?;
        self.crowd(14, 7001);
        self.arrive(flow(NINE, 6000, OURS, 7001), &[1; 3])?;
        self.arrive(flow(NINE, 6000, OURS, 7001), &[1; 3])?;
        self.out()
    }

    // ---- notices

    fn notices(&mut self) -> io::Result<()> {
        // "24 by the outer destination; 25 if any of its four addresses is martian or loopback".
        self.open();
        self.hear(MARTIAN, EIGHT, flow(OURS, 7000, NINE, 6000))?;
        self.hear(MARTIAN, OURS, flow(OURS, 7000, NINE, 6000))?;
        self.hear(NINE, OURS, flow(LOOPBACK, 7000, NINE, 6000))?;
        self.hear(NINE, OURS, flow(OURS, 7000, MARTIAN, 6000))?;
        // "The embedded source as local side": socket 3 sent the second of these, and nobody the first.
        self.hear(NINE, OURS, flow(NINE, 6000, OURS, 7000))?;
        self.hear(NINE, OURS, flow(OURS, 7000, NINE, 6000))?;
        self.read(3)?;
        self.read(3)?;
        // Under bsdcompat: 28 with no remote address, 27 with one.
        self.hear(NINE, OURS, flow(OURS, 7006, NINE, 6000))?;
        self.read(6)?;
        self.hear(NINE, OURS, flow(OURS, 7007, NINE, 6000))?;
        self.read(7)
    }

    // ---- the out step

    // 31, 30, 32; to our own configured address and from a loopback source it is 30.
    fn leaving(&mut self) -> io::Result<()> {
        self.open();
        self.out()?;
        self.send(4, NINE, 6000);
        self.out()?;
        self.send(4, MARTIAN, 6000);
        self.out()?;
        self.send(4, OURS, 7000);
        self.out()?;
        self.send(5, NINE, 6000);
        self.out()
    }

    fn inside(&mut self) -> io::Result<()> {
        // 20, then 21 behind four others.
        self.open();
        self.send(5, LOOPBACK, 7004);
        self.out()?;
        self.read(4)?;
        self.crowd(4, 7004);
        self.send(5, LOOPBACK, 7004);
        self.out()?;
        // "A notice is queued only if the sender's address is loopback, else 23".
        self.send(1, LOOPBACK, 7001);
        self.out()?;
        // 22, and the next step is 27 for the sender; under bsdcompat 28.
        self.send(4, LOOPBACK, 7001);
        self.out()?;
        self.out()?;
        self.read(4)?;
        self.send(6, LOOPBACK, 7001);
        self.out()?;
        self.out()
    }

    // ---- after exit: arrivals are answered, the out-queue stays, and no socket is left to hear

    fn exited(&mut self) -> io::Result<()> {
        self.open();
        self.send(4, LOOPBACK, 7001);
        self.out()?;
        self.send(4, NINE, 6000);
        self.host = self.host.exit(self.store).host;
        self.read(4)?;
        self.arrive(flow(NINE, 6000, OURS, 7004), &[1; 3])?;
        self.hear(NINE, OURS, flow(OURS, 7004, NINE, 6000))?;
        self.out()?;
        self.out()?;
        self.out()?;
        self.out()
    }
}

fn main(rt: HostRuntime) -> io::Result<()> {
    let mut store = [0; 40960];
    let mut short = [0; 40959];
    let host = opened(&mut store);
    let mut t = Trial {
        rt: &rt,
        store: &mut store,
        host,
    };
    t.entries(&mut short, 9)?;
    t.entries(&mut short, 1)?;
    t.datagrams()?;
    t.refusals()?;
    t.notices()?;
    t.leaving()?;
    t.inside()?;
    t.exited()
}
