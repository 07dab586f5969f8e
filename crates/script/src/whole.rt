// A whole script in memory.
ghost use Rattle.std.specs.Prelude.{◌≡◌, ◌+◌, ◌≤◌, false, length};
ghost use Rattle.script.specs.Pages.{Room, Printed};
ghost use Rattle.script.specs.Whole.{headed, interfaces_in, steps_in, left_over, output_from, ran, running};

use crate::lines::Page;
use crate::playing::{self, BUFFER, Memory, PAYLOAD, STORE};
use crate::{HEADER, STEP};
use answers::Report;
use host::Host;
use net::InterfaceId;
use state::Interface;

// The step that ends a script after its own line.
const LAST: u32 = 60000;

// The bytes that the longest output takes.
pub const LONGEST: usize = 1440032;

fn is_headed(input: &[u8]) -> bool
    ensures { result ≡ headed input.now }
{
    input.len() >= HEADER && input.starts_with(b"UDS") && crate::word_at(input, 3) == 1
}

// Interface 1, and no other.
fn interfaces_in(input: &[u8]) -> [Interface; 4]
    requires { 13 ≤ length input.now }
    ensures { result ≡ interfaces_in input.now }
{
    let none = Interface::default();
    let one = Interface {
        mask: crate::long_at(input, 9),
        first: crate::long_at(input, 5),
        id: InterfaceId(1),
        ..none
    };
    [one, none, none, none]
}

// stays: 13 ≤ len is a clause, since a header that is there is known of the length alone.
// The whole steps of a script of len bytes, at most 60,000.
fn steps_in(len: usize) -> u32
    requires { 13 ≤ len }
    ensures count { result ≡ steps_in len }
    ensures few { result ≤ 60000 }
{
    ((len - HEADER) / STEP).min(LAST as usize) as u32
}

// Of a script that no step ends.
fn is_left_over(len: usize) -> bool
    requires { 13 ≤ len }
    ensures { result ≡ left_over len false }
{
    steps_in(len) < LAST && (len - HEADER) % STEP != 0
}

// All that the script prints.
fn print(input: &[u8], page: &mut Page, memory: &mut Memory)
    requires { Room page.old 1440032 }
    ensures { Printed page.old (output_from input.now memory.old.store memory.old.buffer) page.new }
{
    if !is_headed(input) {
        return page.put(b"bad header\n");
    }
    let opened = Host::opening(interfaces_in(input), 1, &mut memory.store);
    if opened.answer.number != Report::Done as u8 {
        return page.put(b"bad interface\n");
    }
    let m = steps_in(input.len());
    let played = playing::play(opened.host, m, input, page, memory);
    if played.is_some() && is_left_over(input.len()) {
        page.put_closing(m + 1, b" short\n");
    }
}

// All that a script prints goes to the start of out, and is as long as the result says. Where out has not the 1,440,032
// bytes that the longest output takes, nothing is written and the result is that number.
// stays: a number and no Result, as promised: a length, or the room that it needs.
pub fn run(input: &[u8], out: &mut [u8]) -> usize
    ensures out_after { ran result out.new ≡ running input.now out.old }
    ensures upper_bound { result ≤ 1440032 }
{
    if out.len() < LONGEST {
        return LONGEST;
    }
    let mut memory = Memory {
        store: [0; STORE],
        buffer: [0; BUFFER],
        work: [0; PAYLOAD],
    };
    let mut page = Page { out, at: 0 };
    print(input, &mut page, &mut memory);
    page.at
}
