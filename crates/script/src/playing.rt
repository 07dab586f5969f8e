// A script, step by step.
ghost use Rattle.std.specs.Prelude.{◌≡◌, ◌+◌, ◌≤◌, ◌*◌};
ghost use Rattle.script.specs.Playing.{turn, Turned, Playable, played, starting, At, Stage};

use crate::lines::Page;
use crate::{HEADER, STEP};
use host::Host;

// The bytes of the host's store, of a lent buffer, and of the longest payload.
pub(crate) const STORE: usize = 40960;

pub(crate) const BUFFER: usize = 512;

pub(crate) const PAYLOAD: usize = 65535;

// What a run lends: the host's store and buffer, and room for the longest payload.
#[derive(Drop)]
pub(crate) struct Memory {
    pub store: [u8; STORE],
    pub buffer: [u8; BUFFER],
    pub work: [u8; PAYLOAD],
}

// Step n + 1; no host where its kind is bad, which ends the script.
fn advance(host: Host, n: u32, input: &[u8], page: &mut Page, memory: &mut Memory) -> Option<Host>
    requires { Playable n input.now page.old }
    ensures { Turned host (turn input.now n host memory.old.store memory.old.buffer) result memory.new page.old page.new }
{
    let f = crate::fields_at(input, HEADER + STEP * n as usize);
    let Memory {
        store,
        buffer,
        work,
    } = memory;
    let (payload, _) = work.split_at_mut(f.len as usize);
    payload.fill(((n + 1) % 256) as u8);
    let Some(made) = crate::make(host, store, f, payload, buffer) else {
        page.put_closing(n + 1, b" bad\n");
        return None;
    };
    page.put_line(n + 1, f.kind, made.answer);
    Some(made.host)
}

// The m steps, up to one that ends the script.
pub(crate) fn play(
    start: Host,
    m: u32,
    input: &[u8],
    page: &mut Page,
    memory: &mut Memory,
) -> Option<Host>
    requires { Stage m input.now page.old }
    ensures { At (played input.now (starting start memory.old.store memory.old.buffer) m) result memory.new page.old page.new }
{
    let mut host = start;
    for n in 0..m {
        host = advance(host, n, input, page, memory)?;
    }
    Some(host)
}
