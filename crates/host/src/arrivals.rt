// Arriving datagrams and arriving notices.
ghost use Rattle.std.specs.Prelude.{◌≡◌, [], ◌||◌};
ghost use Rattle.net.specs.Address.{stray};
ghost use Rattle.host.specs.Answers.{outcome};
ghost use Rattle.answers.specs.Refusals.{refused_with};
ghost use Rattle.answers.specs.Tables.{first};
ghost use Rattle.host.specs.Arrivals.{datagram_rows, arrived, notice_rows, noticed};

use crate::{Host, Stepped};
use answers::Refusal;
use answers::tables::refuse_if;
use net::Flow;

// One of a notice's four addresses is martian or loopback: the outer pair, or the embedded one.
fn is_stray_notice(src: u32, dst: u32, flow: Flow) -> bool
    ensures { result ≡ (stray src || stray dst || stray flow.src || stray flow.dst) }
{
    net::is_stray(src) || net::is_stray(dst) || net::is_stray(flow.src) || net::is_stray(flow.dst)
}

impl Host {
    // ---- a datagram

    // Rows 1 and 2, then 24, 25, 26.
    fn may_arrive(&self, room: usize, flow: Flow, len: usize) -> Result<(), Refusal>
        ensures { refused_with result ≡ first (datagram_rows self.now room flow len) }
    {
        self.ready(room)?;
        let own = state::interfaces::is_own(&self.interfaces, flow.dst);
        refuse_if(!own, Refusal::NotOurs)?;
        refuse_if(net::is_stray(flow.src), Refusal::BadSource)?;
        refuse_if(512 < len, Refusal::ArrivalTooLong)
    }

    // The bytes of a datagram that came in from outside.
    #[tactic(auto, using(crate::proofs::Refusals::checked), unfolding(crate::specs::Arrivals::arrived))]
    pub fn datagram(self, store: &mut [u8], flow: Flow, payload: &[u8]) -> Stepped
        ensures { outcome result store.new [] ≡ arrived self store.old flow payload.now }
    {
        if let Err(refusal) = self.may_arrive(store.len(), flow, payload.len()) {
            return self.refused(refusal);
        }
        let iface = state::interfaces::holder(&self.interfaces, flow.dst);
        let l = delivery::arrive(
            &self.sockets,
            self.queues,
            self.out,
            store,
            flow,
            iface,
            payload,
        );
        self.landed(l)
    }

    // ---- a notice

    // Rows 1 and 2, then 24 and 25.
    fn may_notice(&self, room: usize, src: u32, dst: u32, flow: Flow) -> Result<(), Refusal>
        ensures { refused_with result ≡ first (notice_rows self.now room src dst flow) }
    {
        self.ready(room)?;
        let own = state::interfaces::is_own(&self.interfaces, dst);
        refuse_if(!own, Refusal::NotOurs)?;
        refuse_if(is_stray_notice(src, dst, flow), Refusal::BadSource)
    }

    // A PORT or HOST notice from src to dst that embeds the flow; both are heard alike.
    #[tactic(auto, using(crate::proofs::Refusals::checked), unfolding(crate::specs::Arrivals::noticed))]
    pub fn notice(self, store: &[u8], src: u32, dst: u32, flow: Flow) -> Stepped
        ensures { outcome result store.now [] ≡ noticed self store.now src dst flow }
    {
        if let Err(refusal) = self.may_notice(store.len(), src, dst, flow) {
            return self.refused(refusal);
        }
        self.heard(flow)
    }
}
