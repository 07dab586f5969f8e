// The out step.
ghost use Rattle.std.specs.Prelude.{◌≡◌, length};
ghost use Rattle.outqueue.specs.Moves.{Some};
ghost use Rattle.host.specs.Answers.{outcome};
ghost use Rattle.answers.specs.Refusals.{refused_with};
ghost use Rattle.answers.specs.Tables.{first};
ghost use Rattle.host.specs.Emitting.{out_rows, without_oldest, bytes_without, handled_inside, leaving, stepped, Leaving};

use crate::{Host, Stepped};
use answers::tables::refuse_if;
use answers::{Refusal, Report};
use state::OutItem;

impl Host {
    // Rows 1 and 2, then 16 and 31.
    fn may_emit(&self, room: usize, lent: usize) -> Result<(), Refusal>
        ensures { refused_with result ≡ first (out_rows self.now room lent) }
    {
        self.ready(room)?;
        refuse_if(lent < 512, Refusal::ShortBuffer)?;
        refuse_if(self.out.count == 0, Refusal::OutEmpty)
    }

    // The oldest item is removed, with its slot.
    fn without_oldest(self, store: &mut [u8]) -> Host
        requires { Some self.out store.old }
        ensures { (result ≡ without_oldest self store.old) × (store.new ≡ bytes_without self store.old) }
    {
        let rest = self.out.remove(store);
        self.with_out(rest)
    }

    // A loopback destination.
    #[tactic(auto, unfolding(crate::specs::Emitting::handled_inside))]
    fn inside(self, store: &mut [u8], buffer: &[u8]) -> Stepped
        requires { Leaving self store.old (length buffer.now) }
        ensures { outcome result store.new buffer.now ≡ handled_inside self store.old buffer.now }
    {
        let x = self.out.items[0];
        if x.kind == OutItem::DATAGRAM {
            let l = delivery::loop_back(&self.sockets, self.queues, self.out, store);
            return self.landed(l);
        }
        self.without_oldest(store).heard(x.flow)
    }

    // Any other: discarded, or emitted with its payload.
    #[tactic(auto, unfolding(crate::specs::Emitting::leaving))]
    fn leave(self, store: &mut [u8], buffer: &mut [u8]) -> Stepped
        requires { Leaving self store.old (length buffer.old) }
        ensures { outcome result store.new buffer.new ≡ leaving self store.old buffer.old }
    {
        let x = self.out.items[0];
        let dst = outqueue::destination(x);
        if net::is_loopback(dst) {
            return self.inside(store, buffer);
        }
        if net::is_martian(dst) {
            return self.without_oldest(store).reported(Report::Discarded);
        }
        store::slot_read(store, 32768, buffer, x.len as usize);
        self.without_oldest(store).answered(answers::with_item(x))
    }

    // The oldest item of the out-queue goes out, or is handled inside.
    #[tactic(auto, using(crate::proofs::Refusals::checked), unfolding(crate::specs::Emitting::stepped))]
    pub fn out_step(self, store: &mut [u8], buffer: &mut [u8]) -> Stepped
        ensures { outcome result store.new buffer.new ≡ stepped self store.old buffer.old }
    {
        if let Err(refusal) = self.may_emit(store.len(), buffer.len()) {
            return self.refused(refusal);
        }
        self.leave(store, buffer)
    }
}
