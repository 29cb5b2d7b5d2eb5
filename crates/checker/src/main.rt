// Reads a sheet from standard input, and writes its page or the refused line.
#![tactic(auto)]

ghost use Rattle.std.specs.Prelude.{◌≤◌, length, IfOk};

use archive::check::check;
use std::io;
use std::io::{Read, Write};

// One byte more than a sheet may have.
const MOST: usize = 4097;

// As much of the input as tells whether it is too long, in whatever parts it comes.
fn read_input<'a>(rt: &HostRuntime, text: &'a mut [u8; MOST]) -> io::Result<&'a [u8]>
    ensures { IfOk result (λ t. length t.now ≤ 4097) }
{
    let mut input = rt.stdin().take(MOST as u64);
    let mut room = &mut text[..];
    let count = io::copy(&mut input, &mut room)?;
    Ok(&text[..MOST.min(count as usize)])
}

fn main(rt: HostRuntime) -> io::Result<()> {
    let mut buffer = [0; MOST];
    let text = read_input(&rt, &mut buffer)?;
    let mut out = [0; 4096];
    match check(text, &mut out) {
        Ok(n) => rt.stdout().write_all(&out[..n]),
        Err(_) => rt.eprintln("the page does not fit"),
    }
}
