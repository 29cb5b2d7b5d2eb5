// A good text damaged in every way of four: each beginning of it, and each byte replaced by a space, a line end, a digit and a letter.
#![tactic(auto)]

use archive::check::check;
use std::io::Write;

const TEXT: &[u8] =
    b"1 bar\n200 12 A36 30\n1 bolt\nM20 330 1\n3 holes\n40 50 22\n80 100 22\n40 150 22\n7 loads\nD 50000\nL 60000\nA 0\nS 0\nR 0\nW 0\nE -7\n";

// The refused line, or `page` and its length.
fn tell(rt: &HostRuntime, text: &[u8]) -> anyhow::Result<()> {
    let mut out = vec![in rt.alloc(); 0; 4096]?;
    match check(text, &mut out) {
        Err(_) => rt.println("does not fit")?,
        Ok(n) => {
            out.truncate(n);
            if out.as_slice().starts_with(b"refused") {
                rt.stdout().write_all(out.as_slice())?;
            } else {
                println!(rt; "page {n}")?;
            }
        }
    }
    Ok(())
}

// The text with its byte at n replaced by each of four.
fn tell_replaced(rt: &HostRuntime, n: usize) -> anyhow::Result<()> {
    for b in [b' ', b'\n', b'7', b'Q'] {
        let mut text = Vec::from_slice(rt.alloc(), TEXT)?;
        if let Some(byte) = text.get_mut(n) {
            *byte = b;
        }
        tell(rt, text.as_slice())?;
    }
    Ok(())
}

fn main(rt: HostRuntime) -> anyhow::Result<()> {
    for n in 0..TEXT.len() {
        tell(&rt, &TEXT[..n])?;
    }
    for n in 0..TEXT.len() {
        tell_replaced(&rt, n)?;
    }
    Ok(())
}
