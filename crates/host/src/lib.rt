// The host's record, what a step gives back, and the checks that every step begins with. The calls stand in the modules.
#![tactic(auto)]

ghost use Rattle.std.specs.Prelude.{◌≡◌, IfOk, OnOk};
ghost use Rattle.answers.specs.Refusals.{number_of, refused_with};
ghost use Rattle.answers.specs.Reports.{report_number};
ghost use Rattle.answers.specs.Tables.{first};
ghost use Rattle.delivery.specs.Fate.{fate_number, fate_at};
ghost use Rattle.host.specs.Answers.{answered, unchanged};
ghost use Rattle.host.specs.Arrivals.{landed_step, heard_step};
ghost use Rattle.host.specs.Entered.{Called};
ghost use Rattle.host.specs.Form.{well_formed, socket_at, count_at};
ghost use Rattle.host.specs.Moves.{with_socket, with_queues, with_out, with_thread};
ghost use Rattle.host.specs.Naming.{source_for};
ghost use Rattle.host.specs.Options.{without_error};
ghost use Rattle.host.specs.Sending.{autobound};
ghost use Rattle.host.specs.Tables.{ready_rows, alive_rows, entry_rows, call_rows};

use answers::tables::refuse_if;
use answers::{Answer, Refusal, Report};
use delivery::{Fate, Hearing, Landing};
use net::Flow;
use outqueue::OutQueue;
use queues::Queues;
use state::{Interface, Socket, Thread};

pub mod arrivals;
pub mod closing;
pub mod emitting;
pub mod naming;
pub mod opening;
pub mod options;
pub mod polling;
pub mod reading;
pub mod sending;

#[derive(Clone, Copy)]
pub struct Host {
    // stays: with the count icount beside, as the definitions and C's record have them.
    pub interfaces: [Interface; 4],
    pub sockets: [Socket; 16],
    pub queues: Queues,
    pub out: OutQueue,
    pub thread: Thread,
    pub icount: u8,
}

#[derive(Clone, Copy)]
pub struct Stepped {
    pub host: Host,
    pub answer: Answer,
}

// ---- the checks that steps begin with

impl Host {
    // Every step asks this first.
    #[tactic(auto, unfolding(crate::specs::Form::well_formed))]
    pub fn well_formed(&self) -> bool
        ensures { result ≡ well_formed self.now }
    {
        state::interfaces::are_accepted(&self.interfaces, self.icount as usize)
            && state::sockets::are_sockets(&self.interfaces, &self.sockets)
            && state::sockets::are_apart(&self.sockets)
            && self.queues.are_queues(&self.sockets)
            && self.out.are_items(&self.interfaces)
            && state::threads::is_thread(&self.sockets, self.thread)
    }

    // Rows 1 and 2, which every step begins with.
    pub fn ready(&self, room: usize) -> Result<(), Refusal>
        ensures { refused_with result ≡ first (ready_rows self.now room) }
    {
        refuse_if(!self.well_formed(), Refusal::NotWellFormed)?;
        refuse_if(room != 40960, Refusal::OtherStore)
    }

    // Rows 1 to 3.
    fn alive(&self, room: usize) -> Result<(), Refusal>
        ensures { refused_with result ≡ first (alive_rows self.now room) }
    {
        self.ready(room)?;
        refuse_if(state::threads::is_ended(self.thread), Refusal::Ended)
    }

    // Rows 1 to 4.
    fn entry(&self, room: usize) -> Result<(), Refusal>
        ensures { refused_with result ≡ first (entry_rows self.now room) }
    {
        self.alive(room)?;
        refuse_if(
            state::threads::is_waiting(self.thread),
            Refusal::StillWaiting,
        )
    }

    // Rows 1 to 5; else socket k.
    fn call(&self, room: usize, k: usize) -> Result<Socket, Refusal>
        ensures refusal { refused_with result ≡ first (call_rows self.now room k) }
        ensures passed { OnOk result (Called self.now room k) }
        ensures found { IfOk result (λ s. s ≡ socket_at self.now k) }
    {
        self.entry(room)?;
        refuse_if(!state::sockets::is_open(&self.sockets, k), Refusal::NotOpen)?;
        Ok(self.socket_at(k))
    }
}

// ---- what steps read and change

impl Host {
    // The host as it is, with an answer.
    fn answered(self, answer: Answer) -> Stepped
        ensures { result ≡ answered self answer }
    {
        Stepped { host: self, answer }
    }

    // The host as it is, with a number.
    fn reported(self, r: Report) -> Stepped
        ensures { result ≡ unchanged self (report_number r) }
    {
        self.answered(answers::reported(r))
    }

    // stays: each step tests its check itself, since with `?` each would be two functions, one of a Result and one of a Stepped.
    fn refused(self, r: Refusal) -> Stepped
        ensures { result ≡ unchanged self (number_of r) }
    {
        self.answered(answers::refused(r))
    }

    // Socket k; a closed one where there is no such descriptor.
    fn socket_at(&self, k: usize) -> Socket
        ensures { result ≡ socket_at self.now k }
    {
        self.sockets.get(k).copied().unwrap_or_default()
    }

    // How many datagrams socket k holds; none where there is no such descriptor.
    fn held_by(&self, k: usize) -> u8
        ensures { result ≡ count_at self.now k }
    {
        self.queues.counts.get(k).copied().unwrap_or_default()
    }

    // s as socket k; nothing changes where there is no such descriptor.
    #[tactic(auto, unfolding(crate::specs::Moves::with_socket))]
    fn with_socket(mut self, k: usize, s: Socket) -> Host
        ensures { result ≡ with_socket self k s }
    {
        // stays: a test and a store, since the loan of `get_mut` leaves two goals open.
        if k < 16 {
            self.sockets[k] = s;
        }
        self
    }

    // Socket k without its pending error.
    fn without_error(self, k: usize) -> Host
        ensures { result ≡ without_error self k }
    {
        let s = self.socket_at(k);
        self.with_socket(k, binding::with_error(s, 0))
    }

    // Socket k with a local port, autobound if it has none.
    fn autobound(self, k: usize) -> Host
        ensures { result ≡ autobound self k }
    {
        let s = self.socket_at(k);
        let p = binding::port_for(&self.sockets, s.lport);
        self.with_socket(k, binding::with_local(s, s.laddr, p))
    }

    // The socket's local address, or the route's source to dst where that is absent; 0 where there is none.
    // stays: 0 for none, as document 01 has it for what is absent, and the definition `route_source`.
    fn source_for(&self, s: Socket, dst: u32) -> u32
        ensures { result ≡ source_for self.now s dst }
    {
        if s.laddr == 0 {
            matching::routes::source(&self.interfaces, self.icount as usize, dst)
        } else {
            s.laddr
        }
    }

    #[tactic(auto, unfolding(crate::specs::Moves::with_queues))]
    fn with_queues(self, queues: Queues) -> Host
        ensures { result ≡ with_queues self queues }
    {
        Host { queues, ..self }
    }

    #[tactic(auto, unfolding(crate::specs::Moves::with_out))]
    fn with_out(self, out: OutQueue) -> Host
        ensures { result ≡ with_out self out }
    {
        Host { out, ..self }
    }

    #[tactic(auto, unfolding(crate::specs::Moves::with_thread))]
    fn with_thread(self, thread: Thread) -> Host
        ensures { result ≡ with_thread self thread }
    {
        Host { thread, ..self }
    }

    // What became of a datagram.
    fn landed(self, l: Landing) -> Stepped
        ensures { result ≡ landed_step self l.queues l.out (fate_number l.fate) (fate_at l.fate) }
    {
        // stays: Fate here, and Hearing below, get their numbers from answers, on which delivery does not stand.
        let answer = match l.fate {
            Fate::Delivered(d) => answers::with_descriptor(Report::Delivered as u8, d.0),
            Fate::Dropped(d) => answers::with_descriptor(Report::Dropped as u8, d.0),
            Fate::NoticeQueued => answers::reported(Report::NoticeQueued),
            Fate::NoticeNotQueued => answers::reported(Report::NoticeNotQueued),
        };
        self.with_queues(l.queues).with_out(l.out).answered(answer)
    }

    // The socket that sent what the notice embeds hears of it.
    #[tactic(auto, unfolding(crate::specs::Arrivals::heard_step))]
    fn heard(self, flow: Flow) -> Stepped
        ensures { result ≡ heard_step self flow }
    {
        match delivery::hear(&self.sockets, flow) {
            Hearing::Heard(d) => {
                let k = usize::from(d);
                let s = self.socket_at(k);
                self.with_socket(k, binding::with_error(s, Refusal::ConnectionRefused as u8))
                    .reported(Report::Heard)
            }
            Hearing::NotTold(_) => self.reported(Report::NotTold),
            Hearing::Nobody => self.reported(Report::Nobody),
        }
    }
}
