// Every number that opening and the calls give, from the check that gives it first. A line is:
// what is asked, the number, and the answer's descriptor, address, port, length, value and ready masks.
#![tactic(auto)]

use answers::{Refusal, SocketOption};
use host::{Host, Stepped};
use net::{Descriptor, InterfaceId, Port};
use state::Interface;
use std::io;

// 10.2.0.5 under 255.255.255.0, which is the host's own; 10.2.0.9; 10.2.0.6, which is nobody's; 127.0.0.2.
const OURS: u32 = 0x0a02_0005;

const MASK: u32 = 0xffff_ff00;

const PEER: u32 = 0x0a02_0009;

const STRANGE: u32 = 0x0a02_0006;

const LOOPBACK: u32 = 0x7f00_0002;

// The options.
const BSDCOMPAT: u8 = SocketOption::Bsdcompat as u8;

const REUSE: u8 = SocketOption::Reuse as u8;

// 10.2.0.5 under 255.255.255.0, and no other interface.
fn one_interface() -> [Interface; 4] {
    let mut interfaces = [Interface::default(); 4];
    interfaces[0] = Interface {
        mask: MASK,
        first: OURS,
        id: InterfaceId(1),
        ..Interface::default()
    };
    interfaces
}

// A host with that interface.
fn opened(store: &mut [u8]) -> Host {
    Host::opening(one_interface(), 1, store).host
}

// Where lines are printed, the store that every step is lent, and the host that the last step left.
#[derive(Drop)]
struct Trial<'a, R> {
    rt: &'a R,
    store: &'a mut [u8],
    host: Host,
}

impl<R: Print> Trial<'_, R> {
    // ---- steps with a line

    // The line of step s.
    fn say(&mut self, asked: &str, s: Stepped) -> io::Result<()> {
        self.host = s.host;
        let a = s.answer;
        println!(self.rt;
            "{asked} {} {} {} {} {} {} {} {}",
            a.number, a.descriptor.0, a.address, a.port.0, a.len, a.value, a.readable, a.writable
        )
    }

    fn bind(&mut self, asked: &str, d: Descriptor, address: u32, port: Port) -> io::Result<()> {
        let s = self.host.bind(self.store, d, address, port);
        self.say(asked, s)
    }

    fn connect(&mut self, asked: &str, d: Descriptor, address: u32, port: Port) -> io::Result<()> {
        let s = self.host.connect(self.store, d, address, port);
        self.say(asked, s)
    }

    fn sockname(&mut self, asked: &str, d: Descriptor) -> io::Result<()> {
        let s = self.host.getsockname(self.store, d);
        self.say(asked, s)
    }

    fn send(&mut self, asked: &str, to: u32, port: Port, payload: &[u8]) -> io::Result<()> {
        let s = self
            .host
            .sendto(self.store, Descriptor(0), to, port, payload);
        self.say(asked, s)
    }

    fn read(&mut self, asked: &str, buffer: &mut [u8]) -> io::Result<()> {
        let s = self.host.recvfrom(self.store, Descriptor(0), true, buffer);
        self.say(asked, s)
    }

    fn resume(&mut self, asked: &str, buffer: &mut [u8]) -> io::Result<()> {
        let s = self.host.resume(self.store, buffer);
        self.say(asked, s)
    }

    // ---- what has no line

    fn open(&mut self) {
        self.host = opened(self.store);
    }

    fn socket(&mut self) {
        self.host = self.host.socket(self.store).host;
    }

    // Socket 0 waits for a datagram.
    fn wait(&mut self) {
        let mut buffer = [0; 512];
        let s = self
            .host
            .recvfrom(self.store, Descriptor(0), false, &mut buffer);
        self.host = s.host;
    }

    // 15 datagrams from socket 0.
    fn send_more(&mut self, payload: &[u8]) {
        for _ in 0..15 {
            let s = self
                .host
                .sendto(self.store, Descriptor(0), PEER, Port(6000), payload);
            self.host = s.host;
        }
    }

    // Three bytes are queued on socket 0.
    fn queue(&mut self) {
        self.host.queues.heads[0].len = 3;
        self.host.queues.counts[0] = 1;
    }

    // An error is pending on socket 0.
    fn fail(&mut self) {
        self.host.sockets[0].error = Refusal::ConnectionRefused as u8;
    }

    // ---- opening: 2, 17, and 2 before 17

    fn openings(&mut self, short: &mut [u8], long: &mut [u8]) -> io::Result<()> {
        let good = one_interface();
        let s = Host::opening(good, 1, self.store);
        self.say("open", s)?;
        self.say("open with 40959", Host::opening(good, 1, short))?;
        self.say("open with 40961", Host::opening(good, 1, long))?;
        let s = Host::opening(good, 2, self.store);
        self.say("open with a blank second", s)?;
        self.say("open with both", Host::opening(good, 2, short))?;
        let s = Host::opening(good, 0, self.store);
        self.say("open with none counted", s)
    }

    // ---- the entry checks in their order: 1, 2, 3, 4, 5

    fn entries(&mut self, short: &[u8]) -> io::Result<()> {
        self.open();
        self.host.icount = 9;
        self.say("socket of a broken record", self.host.socket(short))?;
        self.open();
        self.say("socket with a short store", self.host.socket(short))?;
        self.sockname("getsockname 16", Descriptor(16))?;
        self.bind("bind a closed one", Descriptor(3), 1, Port(1))
    }

    fn waits(&mut self) -> io::Result<()> {
        let mut buffer = [0; 512];
        self.open();
        self.socket();
        let s = self
            .host
            .recvfrom(self.store, Descriptor(0), false, &mut buffer);
        self.say("recvfrom waits", s)?;
        let s = self.host.close(self.store, Descriptor(9));
        self.say("close while waiting", s)?;
        let s = self.host.interrupt(self.store);
        self.say("interrupt", s)?;
        let s = self.host.interrupt(self.store);
        self.say("interrupt again", s)?;
        let s = self.host.exit(self.store);
        self.say("exit", s)?;
        self.read("recvfrom after exit", &mut buffer)
    }

    // ---- socket, bind and connect: 15, 6, 8, 7, 9, 13, 12, and which of two comes first

    fn names(&mut self) -> io::Result<()> {
        let d = Descriptor(0);
        self.open();
        let s = self.host.socket(self.store);
        self.say("socket", s)?;
        self.bind("bind to 1023", d, 0, Port(1023))?;
        self.bind("bind to a strange address and 1023", d, STRANGE, Port(1023))?;
        self.bind("bind to 1024", d, 0, Port(1024))?;
        self.bind("bind a bound one to a strange address", d, STRANGE, Port(1))
    }

    // With what names left.
    fn taken_names(&mut self) -> io::Result<()> {
        let d = Descriptor(1);
        self.socket();
        self.bind("bind to what is in use", d, OURS, Port(1024))?;
        self.bind("bind to a strange address in use", d, STRANGE, Port(1024))?;
        self.bind("bind to port 0", d, 0, Port(0))?;
        self.sockname("getsockname after autobind", d)?;
        let s = self.host.getpeername(self.store, d);
        self.say("getpeername without a peer", s)?;
        self.connect("connect to 0", d, 0, Port(9))?;
        self.connect("connect", d, PEER, Port(0))?;
        let s = self.host.getpeername(self.store, d);
        self.say("getpeername", s)?;
        let s = self.host.disconnect(self.store, d);
        self.say("disconnect", s)?;
        self.sockname("getsockname after disconnect", d)
    }

    fn all_open(&mut self) -> io::Result<()> {
        let d = Descriptor(2);
        let s = Host::opening(one_interface(), 0, self.store);
        self.say("open with an interface that is not counted", s)?;
        let s = Host::opening([Interface::default(); 4], 0, self.store);
        self.say("open with no interface", s)?;
        for _ in 0..16 {
            self.socket();
        }
        let s = self.host.socket(self.store);
        self.say("socket where 16 are open", s)?;
        self.connect("connect with no route", d, PEER, Port(9))?;
        self.connect("connect to loopback", d, LOOPBACK, Port(9))?;
        self.sockname("getsockname after it", d)
    }

    // ---- options

    fn options(&mut self) -> io::Result<()> {
        let d = Descriptor(0);
        self.open();
        self.socket();
        let s = self.host.setopt(self.store, d, 3, true);
        self.say("setopt 3", s)?;
        let s = self.host.setopt(self.store, d, REUSE, true);
        self.say("setopt reuse", s)?;
        let s = self.host.getopt(self.store, d, REUSE);
        self.say("getopt reuse", s)?;
        let s = self.host.getopt(self.store, d, 0);
        self.say("getopt 0", s)?;
        self.host = self.host.bind(self.store, d, 0, Port(7000)).host;
        let s = self.host.setopt(self.store, d, REUSE, false);
        self.say("setopt reuse once bound", s)?;
        let s = self.host.setopt(self.store, d, BSDCOMPAT, true);
        self.say("setopt bsdcompat once bound", s)?;
        let s = self.host.geterr(self.store, d);
        self.say("geterr", s)?;
        let s = self.host.poll(self.store, 1, 1);
        self.say("poll 1 1", s)?;
        let s = self.host.poll(self.store, 2, 1);
        self.say("poll 2 1", s)
    }

    // ---- sendto: 6, 11, 12, 13, 14; 10 from a pending error, which it clears

    fn sending(&mut self) -> io::Result<()> {
        let d = Descriptor(0);
        let full = [7; 512];
        let over = [7; 513];
        self.open();
        self.socket();
        self.send("sendto half an address, 513 bytes", PEER, Port(0), &over)?;
        self.send("sendto 513 bytes", PEER, Port(6000), &over)?;
        self.send("sendto nobody", 0, Port(0), &full)?;
        self.send("sendto 512 bytes", PEER, Port(6000), &full)?;
        self.sockname("getsockname after it", d)?;
        self.send_more(&full);
        self.send("sendto where 16 are queued", PEER, Port(6000), &full)?;
        self.fail();
        self.send("sendto with an error pending", PEER, Port(0), &over)?;
        let s = self.host.geterr(self.store, d);
        self.say("geterr after it", s)
    }

    // ---- recvfrom and resume: 16 with the length needed, a read, 14, 18, 10; 6 where nothing waits

    fn reading(&mut self) -> io::Result<()> {
        let mut small = [0; 2];
        let mut buffer = [0; 512];
        self.open();
        self.socket();
        self.queue();
        self.read("recvfrom into 2 bytes", &mut small)?;
        self.read("recvfrom", &mut buffer)?;
        self.read("recvfrom with nothing queued", &mut buffer)?;
        self.sockname("getsockname after it", Descriptor(0))
    }

    // With what reading left.
    fn resuming(&mut self) -> io::Result<()> {
        let mut small = [0; 2];
        let mut buffer = [0; 512];
        self.wait();
        self.resume("resume with nothing queued", &mut buffer)?;
        self.queue();
        self.resume("resume into 2 bytes", &mut small)?;
        self.resume("resume", &mut buffer)?;
        self.wait();
        self.fail();
        self.resume("resume with an error pending", &mut small)?;
        self.resume("resume once it runs", &mut buffer)
    }
}

fn main(rt: HostRuntime) -> io::Result<()> {
    let mut store = [0; 40960];
    let mut short = [0; 40959];
    let mut long = [0; 40961];
    let host = opened(&mut store);
    let mut t = Trial {
        rt: &rt,
        store: &mut store,
        host,
    };
    t.openings(&mut short, &mut long)?;
    t.entries(&short)?;
    t.waits()?;
    t.names()?;
    t.taken_names()?;
    t.all_open()?;
    t.options()?;
    t.sending()?;
    t.reading()?;
    t.resuming()
}
