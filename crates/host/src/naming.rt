// socket, bind, connect, disconnect, getsockname, getpeername.
ghost use Rattle.std.specs.Prelude.{◌≡◌, [], ◌<◌, ◌&&◌, not, eqb, IfOk};
ghost use Rattle.answers.specs.Refusals.{refused_with};
ghost use Rattle.state.specs.Interfaces.{ours};
ghost use Rattle.binding.specs.Sockets.{lowest_closed};
ghost use Rattle.host.specs.Answers.{outcome};
ghost use Rattle.host.specs.Form.{socket_at};
ghost use Rattle.host.specs.Naming.{socket_refusal, socketed, bind_refusal, bound, source_for, connect_refusal, connected, disconnected, local_given, peer_refusal, peer_given};

use crate::{Host, Stepped};
use answers::tables::{self, refuse_if};
use answers::{Refusal, Report};
use net::{Descriptor, Port};
use state::Socket;

impl Host {
    // ---- socket

    // The lowest closed descriptor; 15 where there is none.
    #[tactic(auto, using(crate::proofs::Passed::lowest_closed_upto))]
    fn may_open(&self, room: usize) -> Result<usize, Refusal>
        ensures refusal { refused_with result ≡ socket_refusal self.now room }
        ensures lowest { IfOk result (λ k. (k ≡ lowest_closed self.now.sockets) × (k < 16)) }
    {
        self.entry(room)?;
        binding::lowest_closed(&self.sockets).ok_or(Refusal::AllOpen)
    }

    #[tactic(auto, using(crate::proofs::Refusals::checked), unfolding(crate::specs::Naming::socketed))]
    pub fn socket(self, store: &[u8]) -> Stepped
        ensures { outcome result store.now [] ≡ socketed self store.now }
    {
        let k = match self.may_open(store.len()) {
            Ok(k) => k,
            Err(refusal) => return self.refused(refusal),
        };
        self.with_socket(k, binding::new_socket())
            .answered(answers::with_descriptor(Report::Done as u8, k as u8))
    }

    // ---- bind

    // Neither 0 nor ours.
    fn is_strange(&self, address: u32) -> bool
        ensures { result ≡ (not (eqb address 0) && not (ours self.now.interfaces address)) }
    {
        address != 0 && !state::interfaces::is_ours(&self.interfaces, address)
    }

    // stays: address and port apart, here and in the other calls, as document 01 and the definitions have them.
    // bind's rows; else the socket that is to be bound.
    fn may_bind(&self, room: usize, k: usize, address: u32, port: Port) -> Result<Socket, Refusal>
        ensures refusal { refused_with result ≡ bind_refusal self.now room k address port.0 }
        ensures found { IfOk result (λ s. s ≡ socket_at self.now k) }
    {
        let s = self.call(room, k)?;
        let used = matching::ports::is_in_use(&self.sockets, k, s.reuse, address, port);
        tables::bind_rows(s.lport != Port(0), self.is_strange(address), port, used)?;
        Ok(s)
    }

    #[tactic(auto, using(crate::proofs::Refusals::checked), unfolding(crate::specs::Naming::bound))]
    pub fn bind(self, store: &[u8], d: Descriptor, address: u32, port: Port) -> Stepped
        ensures { outcome result store.now [] ≡ bound self store.now d.0 address port }
    {
        let k = usize::from(d);
        let s = match self.may_bind(store.len(), k, address, port) {
            Ok(s) => s,
            Err(refusal) => return self.refused(refusal),
        };
        let p = binding::port_for(&self.sockets, port);
        self.with_socket(k, binding::with_local(s, address, p))
            .reported(Report::Done)
    }

    // ---- connect

    // connect's rows; else the socket, and its local address or the route's source.
    fn may_connect(&self, room: usize, k: usize, address: u32) -> Result<(Socket, u32), Refusal>
        ensures refusal { refused_with result ≡ connect_refusal self.now room k address }
        ensures found { IfOk result (λ x. x.0 ≡ socket_at self.now k) }
        ensures source { IfOk result (λ x. x.1 ≡ source_for self.now (socket_at self.now k) address) }
    {
        let s = self.call(room, k)?;
        let source = self.source_for(s, address);
        tables::connect_rows(address, source)?;
        Ok((s, source))
    }

    #[tactic(auto, using(crate::proofs::Refusals::checked), unfolding(crate::specs::Naming::connected))]
    pub fn connect(self, store: &[u8], d: Descriptor, address: u32, port: Port) -> Stepped
        ensures { outcome result store.now [] ≡ connected self store.now d.0 address port }
    {
        let k = usize::from(d);
        let (s, source) = match self.may_connect(store.len(), k, address) {
            Ok(found) => found,
            Err(refusal) => return self.refused(refusal),
        };
        let p = binding::port_for(&self.sockets, s.lport);
        let t = binding::with_local(s, source, p);
        self.with_socket(k, binding::with_remote(t, address, port))
            .reported(Report::Done)
    }

    // Clears the remote pair only.
    #[tactic(auto, using(crate::proofs::Refusals::checked), unfolding(crate::specs::Naming::disconnected))]
    pub fn disconnect(self, store: &[u8], d: Descriptor) -> Stepped
        ensures { outcome result store.now [] ≡ disconnected self store.now d.0 }
    {
        let k = usize::from(d);
        let s = match self.call(store.len(), k) {
            Ok(s) => s,
            Err(refusal) => return self.refused(refusal),
        };
        self.with_socket(k, binding::with_remote(s, 0, Port(0)))
            .reported(Report::Done)
    }

    // ---- getsockname, getpeername

    #[tactic(auto, using(crate::proofs::Refusals::checked), unfolding(crate::specs::Naming::local_given))]
    pub fn getsockname(self, store: &[u8], d: Descriptor) -> Stepped
        ensures { outcome result store.now [] ≡ local_given self store.now d.0 }
    {
        let k = usize::from(d);
        let s = match self.call(store.len(), k) {
            Ok(s) => s,
            Err(refusal) => return self.refused(refusal),
        };
        self.answered(answers::with_pair(s.laddr, s.lport))
    }

    // 12 where there is no remote address; else the socket.
    fn may_name_peer(&self, room: usize, k: usize) -> Result<Socket, Refusal>
        ensures refusal { refused_with result ≡ peer_refusal self.now room k }
        ensures found { IfOk result (λ s. s ≡ socket_at self.now k) }
    {
        let s = self.call(room, k)?;
        refuse_if(s.raddr == 0, Refusal::NoPeer)?;
        Ok(s)
    }

    #[tactic(auto, using(crate::proofs::Refusals::checked), unfolding(crate::specs::Naming::peer_given))]
    pub fn getpeername(self, store: &[u8], d: Descriptor) -> Stepped
        ensures { outcome result store.now [] ≡ peer_given self store.now d.0 }
    {
        let k = usize::from(d);
        let s = match self.may_name_peer(store.len(), k) {
            Ok(s) => s,
            Err(refusal) => return self.refused(refusal),
        };
        self.answered(answers::with_pair(s.raddr, s.rport))
    }
}
