// The script program: standard input to standard output. What it prints is `output` of what it read.
#![tactic(auto)]

ghost use Rattle.std.specs.Io.{ReadsAtMost};

use std::io;
use std::io::{Read, Write};

// A header and 60,000 steps: nothing behind them is read.
const LONGEST: usize = 960013;

// Room for all that is read, or written.
// stays: a function that knows no size: zeros written out in main are counted one by one, and the check does not end.
fn space<const N: usize>() -> [u8; N] {
    [0u8; N]
}

// Reads until buf is full or the input ends, and answers how many bytes it put at the start of buf.
fn read_full(input: &mut impl Read, buf: &mut [u8]) -> io::Result<usize>
    ensures { ReadsAtMost result buf.new }
{
    // stays: a loop: std reads up to a length only into a Vec, whose memory may run out, and every input is answered.
    let mut done = 0;
    while done < buf.len() {
        let n = input.read(&mut buf[done..])?;
        if n == 0 {
            break;
        }
        done += n;
    }
    Ok(done)
}

fn main(rt: HostRuntime) -> io::Result<()> {
    let mut input = space::<LONGEST>();
    let mut out = space::<{ script::whole::LONGEST }>();
    let n = read_full(&mut rt.stdin(), &mut input)?;
    let k = script::whole::run(&input[..n], &mut out);
    rt.stdout().write_all(&out[..k])
}
