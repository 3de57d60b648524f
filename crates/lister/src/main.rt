// The lister: reads a theme and a score as text from standard input, and writes where the theme stands to standard output.
//
// The input buffer holds more than any right input has, so that what lies behind it changes nothing of the answer; the output
// buffer holds every output.

#![tactic(auto)]

ghost use Rattle.std.specs.Prelude.{◌≤◌, IfOk, length};

use listing::{INPUT_ROOM, ROOM, list};
use std::io;
use std::io::Read;

fn main(rt: HostRuntime) -> io::Result<()> {
    let mut input = [0u8; INPUT_ROOM];
    let mut out = [0u8; ROOM];
    run(&rt, &mut input, &mut out)
}

// Reads as much as the input buffer holds, and writes the output of that.
fn run(rt: &(impl Input + Print), input: &mut [u8], out: &mut [u8]) -> io::Result<()> {
    let mut reader = rt.reader();
    let got = read_full(&mut reader, input)?;
    if let Ok(n) = list(&input[..got], out) {
        rt.write_all(&out[..n])?;
    }
    Ok(())
}

// Reads until the buffer is full or the input ends, and returns how many bytes it put at the start of the buffer.
fn read_full(reader: &mut impl Read, buffer: &mut [u8]) -> io::Result<usize>
    ensures { IfOk result (λ n. n ≤ length buffer.new) }
{
    let mut done = 0;
    for _ in 0..u64::MAX {
        let n = reader.read(&mut buffer[done..])?;
        if n == 0 {
            break;
        }
        done += n;
    }
    Ok(done)
}
