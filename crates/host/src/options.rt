// geterr, getopt, setopt.
ghost use Rattle.std.specs.Prelude.{◌≡◌, [], IfOk};
ghost use Rattle.answers.specs.Options.{option_number};
ghost use Rattle.answers.specs.Refusals.{refused_with};
ghost use Rattle.host.specs.Answers.{outcome};
ghost use Rattle.host.specs.Form.{socket_at};
ghost use Rattle.host.specs.Options.{error_given, option_refusal, option_of, option_given, set_refusal, with_option, option_set};

use crate::{Host, Stepped};
use answers::{Refusal, Report, SocketOption, tables};
use net::Descriptor;
use state::Socket;

fn option_value(s: Socket, option: SocketOption) -> u8
    ensures { result ≡ option_of s (option_number option) }
{
    match option {
        SocketOption::Bsdcompat => u8::from(s.bsdcompat),
        SocketOption::Reuse => u8::from(s.reuse),
    }
}

fn with_option(s: Socket, option: SocketOption, on: bool) -> Socket
    ensures { result ≡ with_option s (option_number option) on }
{
    match option {
        SocketOption::Bsdcompat => binding::with_options(s, on, s.reuse),
        SocketOption::Reuse => binding::with_options(s, s.bsdcompat, on),
    }
}

impl Host {
    // Answers 0, gives the pending error and clears it.
    #[tactic(auto, using(crate::proofs::Refusals::checked), unfolding(crate::specs::Options::error_given))]
    pub fn geterr(self, store: &[u8], d: Descriptor) -> Stepped
        ensures { outcome result store.now [] ≡ error_given self store.now d.0 }
    {
        let k = usize::from(d);
        let s = match self.call(store.len(), k) {
            Ok(s) => s,
            Err(refusal) => return self.refused(refusal),
        };
        self.without_error(k).answered(answers::with_value(s.error))
    }

    // getopt's rows; else the socket and the option.
    fn may_get(&self, room: usize, k: usize, option: u8) -> Result<(Socket, SocketOption), Refusal>
        ensures refusal { refused_with result ≡ option_refusal self.now room k option }
        ensures found { IfOk result (λ x. x.0 ≡ socket_at self.now k) }
        ensures named { IfOk result (λ x. option_number x.1 ≡ option) }
    {
        let s = self.call(room, k)?;
        let named = SocketOption::try_from(option)?;
        Ok((s, named))
    }

    // stays: the option is a number here and at setopt, as callers and the script give it.
    #[tactic(auto, using(crate::proofs::Refusals::checked), unfolding(crate::specs::Options::option_given))]
    pub fn getopt(self, store: &[u8], d: Descriptor, option: u8) -> Stepped
        ensures { outcome result store.now [] ≡ option_given self store.now d.0 option }
    {
        let k = usize::from(d);
        let (s, option) = match self.may_get(store.len(), k, option) {
            Ok(found) => found,
            Err(refusal) => return self.refused(refusal),
        };
        self.answered(answers::with_value(option_value(s, option)))
    }

    // setopt's rows; else the socket and the option.
    fn may_set(&self, room: usize, k: usize, option: u8) -> Result<(Socket, SocketOption), Refusal>
        ensures refusal { refused_with result ≡ set_refusal self.now room k option }
        ensures found { IfOk result (λ x. x.0 ≡ socket_at self.now k) }
        ensures named { IfOk result (λ x. option_number x.1 ≡ option) }
    {
        let s = self.call(room, k)?;
        let named = tables::set_rows(s, option)?;
        Ok((s, named))
    }

    #[tactic(auto, using(crate::proofs::Refusals::checked), unfolding(crate::specs::Options::option_set))]
    pub fn setopt(self, store: &[u8], d: Descriptor, option: u8, on: bool) -> Stepped
        ensures { outcome result store.now [] ≡ option_set self store.now d.0 option on }
    {
        let k = usize::from(d);
        let (s, option) = match self.may_set(store.len(), k, option) {
            Ok(found) => found,
            Err(refusal) => return self.refused(refusal),
        };
        self.with_socket(k, with_option(s, option, on))
            .reported(Report::Done)
    }
}
