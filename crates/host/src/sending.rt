// sendto.
ghost use Rattle.std.specs.Prelude.{◌≡◌, [], length, IfOk};
ghost use Rattle.answers.specs.Refusals.{refused_with};
ghost use Rattle.answers.specs.Tables.{first};
ghost use Rattle.host.specs.Answers.{outcome};
ghost use Rattle.host.specs.Entered.{Ready};
ghost use Rattle.host.specs.Sending.{half_given, both_absent, target, target_port, send_rows, flow_of, queued_out, sent};

use crate::{Host, Stepped};
use answers::{Refusal, Report, tables};
use net::{Descriptor, Flow, Port};
use state::Socket;

// ---- whom it is for

// Exactly one of address and port is 0.
fn is_half_given(a: u32, p: Port) -> bool
    ensures { result ≡ half_given a p.0 }
{
    (a == 0) != (p == Port(0))
}

fn is_both_absent(a: u32, p: Port) -> bool
    ensures { result ≡ both_absent a p.0 }
{
    a == 0 && p == Port(0)
}

// With both 0 the remote pair is meant.
fn target_address(s: Socket, a: u32, p: Port) -> u32
    ensures { result ≡ target s a p }
{
    if is_both_absent(a, p) { s.raddr } else { a }
}

// stays: this beside `target_address`, since they have two definitions.
fn target_port(s: Socket, a: u32, p: Port) -> Port
    ensures { result ≡ target_port s a p }
{
    if is_both_absent(a, p) { s.rport } else { p }
}

impl Host {
    // sendto's own rows: 6, 11, 12, 13, 14; else where it comes from and where it goes.
    // stays: the socket is read again, since the rows and the flow are defined of its place.
    fn may_send(&self, k: usize, address: u32, port: Port, len: usize) -> Result<Flow, Refusal>
        ensures refusal { refused_with result ≡ first (send_rows self.now k address port len) }
        ensures flow { IfOk result (λ f. f ≡ flow_of self.now k address port) }
    {
        let s = self.socket_at(k);
        let dst = target_address(s, address, port);
        let src = self.source_for(s, dst);
        tables::send_rows(
            is_half_given(address, port),
            len,
            is_both_absent(address, port) && (s.raddr == 0 || s.rport == Port(0)),
            src,
            self.out.count,
        )?;
        Ok(Flow {
            src,
            dst,
            sport: binding::port_for(&self.sockets, s.lport),
            dport: target_port(s, address, port),
        })
    }

    // From an open socket with no error pending.
    #[tactic(auto, using(crate::proofs::Refusals::checked), unfolding(crate::specs::Sending::queued_out))]
    fn queue_out(
        self,
        store: &mut [u8],
        k: usize,
        address: u32,
        port: Port,
        payload: &[u8],
    ) -> Stepped
        requires { Ready self (length store.old) }
        ensures { outcome result store.new [] ≡ queued_out self store.old k address port payload.now }
    {
        let flow = match self.may_send(k, address, port, payload.len()) {
            Ok(flow) => flow,
            Err(refusal) => return self.refused(refusal),
        };
        let longer = self.out.add(store, flow, payload);
        self.autobound(k).with_out(longer).reported(Report::Done)
    }

    #[tactic(auto, using(crate::proofs::Refusals::checked), unfolding(crate::specs::Sending::sent))]
    pub fn sendto(
        self,
        store: &mut [u8],
        d: Descriptor,
        address: u32,
        port: Port,
        payload: &[u8],
    ) -> Stepped
        ensures { outcome result store.new [] ≡ sent self store.old d.0 address port payload.now }
    {
        let k = usize::from(d);
        let s = match self.call(store.len(), k) {
            Ok(s) => s,
            Err(refusal) => return self.refused(refusal),
        };
        if s.error != 0 {
            return self.without_error(k).refused(Refusal::ConnectionRefused);
        }
        self.queue_out(store, k, address, port, payload)
    }
}
