// Tables of refusals. Rows 1 to 5, and those of the steps that are not here, stand in the crate host.
// stays: bind_rows, opening_rows and send_rows take flags for tests that are made elsewhere, since that is what they promise of.
ghost use Rattle.std.specs.Prelude.{◌≡◌, [], ◌∷◌, cond, ◌&&◌, not, ltb, eqb, IfOk};
ghost use Rattle.answers.specs.Options.{option_number};
ghost use Rattle.answers.specs.Refusals.{number_of, refused_with};
ghost use Rattle.answers.specs.Tables.{first, unknown_option};

use crate::{Refusal, SocketOption};
use net::Port;
use state::Socket;

// A row of a table of numbers: n where c holds, else what the rows below say.
// stays: any number, for a caller's own table; the theorem `one_result` has a row of it.
pub fn row(c: bool, n: u8, rest: u8) -> u8
    ensures { result ≡ cond c n rest }
{
    if c { n } else { rest }
}

// A row of a table of refusals: r where c holds; else nothing, and the rows below say.
pub fn refuse_if(c: bool, r: Refusal) -> Result<(), Refusal>
    ensures { refused_with result ≡ cond c (number_of r) 0 }
{
    if c { Err(r) } else { Ok(()) }
}

// Opening: 2, then 17.
pub fn opening_rows(room: usize, accepted: bool) -> Result<(), Refusal>
    ensures { refused_with result ≡ first ((not (eqb room 40960), 2) ∷ (not accepted, 17) ∷ []) }
{
    refuse_if(room != 40960, Refusal::OtherStore)?;
    refuse_if(!accepted, Refusal::InterfacesRefused)
}

// bind: 6, 8, 7, 9. Port 0 is never 7 or 9.
pub fn bind_rows(named: bool, strange: bool, p: Port, used: bool) -> Result<(), Refusal>
    ensures { refused_with result ≡ first ((named, 6) ∷ (strange, 8) ∷ (not (eqb p.0 0) && ltb p.0 1024, 7) ∷ (not (eqb p.0 0) && used, 9) ∷ []) }
{
    refuse_if(named, Refusal::BadArgument)?;
    refuse_if(strange, Refusal::NotOurAddress)?;
    refuse_if(p != Port(0) && p < Port(1024), Refusal::LowPort)?;
    refuse_if(p != Port(0) && used, Refusal::InUse)
}

// connect: 6, 13.
pub fn connect_rows(address: u32, source: u32) -> Result<(), Refusal>
    ensures { refused_with result ≡ first ((eqb address 0, 6) ∷ (eqb source 0, 13) ∷ []) }
{
    refuse_if(address == 0, Refusal::BadArgument)?;
    refuse_if(source == 0, Refusal::NoRoute)
}

// Option 1 is bsdcompat, 2 is reuse.
pub fn is_unknown(option: u8) -> bool
    ensures { result ≡ unknown_option option }
{
    SocketOption::try_from(option).is_err()
}

// setopt: 6 for an unknown option, 6 for reuse once there is a local port; else the option.
pub fn set_rows(s: Socket, option: u8) -> Result<SocketOption, Refusal>
    ensures refusal { refused_with result ≡ first ((unknown_option option, 6) ∷ (eqb option 2 && not (eqb s.lport.0 0), 6) ∷ []) }
    ensures named { IfOk result (λ o. option_number o ≡ option) }
{
    let named = SocketOption::try_from(option)?;
    refuse_if(
        named == SocketOption::Reuse && s.lport != Port(0),
        Refusal::BadArgument,
    )?;
    Ok(named)
}

// sendto: 6, 11, 12, 13, 14.
pub fn send_rows(
    half: bool,
    len: usize,
    nobody: bool,
    source: u32,
    count: u8,
) -> Result<(), Refusal>
    ensures { refused_with result ≡ first ((half, 6) ∷ (ltb 512 len, 11) ∷ (nobody, 12) ∷ (eqb source 0, 13) ∷ (eqb count 16, 14) ∷ []) }
{
    refuse_if(half, Refusal::BadArgument)?;
    refuse_if(512 < len, Refusal::PayloadTooLong)?;
    refuse_if(nobody, Refusal::NoPeer)?;
    refuse_if(source == 0, Refusal::NoRoute)?;
    refuse_if(count == 16, Refusal::WouldWait)
}
