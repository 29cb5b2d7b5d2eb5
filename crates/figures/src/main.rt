// Texts from standard input, each checked and answered.
// A line `|TEXT` is a line of the text, `/TEXT` one without its end; `= ROOM` checks the text with so many bytes lent; any other line is repeated.
#![tactic(auto)]

use archive::check::check;
use std::io::Write;
use text::numbers::number;

fn answer(rt: &HostRuntime, text: &[u8], room: usize) -> anyhow::Result<()> {
    let mut out = vec![in rt.alloc(); 0; room]?;
    match check(text, &mut out) {
        Ok(n) => {
            out.truncate(n);
            rt.stdout().write_all(out.as_slice())?;
        }
        Err(_) => rt.stdout().write_all(b"refused 20\n")?,
    }
    Ok(())
}

// The room that a line `= ROOM` names.
fn room_in(line: &[u8]) -> Option<usize> {
    match line {
        [b'=', b' ', room @ ..] => Some(number(room)? as usize),
        _ => None,
    }
}

fn take(rt: &HostRuntime, text: &mut Vec<u8>, line: &[u8]) -> anyhow::Result<()> {
    match line {
        [b'|', rest @ ..] => {
            text.extend_from_slice(rest)?;
            text.push(b'\n')?;
        }
        [b'/', rest @ ..] => text.extend_from_slice(rest)?,
        _ => match room_in(line) {
            Some(room) => {
                answer(rt, text.as_slice(), room)?;
                text.clear();
            }
            None => {
                rt.stdout().write_all(line)?;
                rt.stdout().write_all(b"\n")?;
            }
        },
    }
    Ok(())
}

fn main(rt: HostRuntime) -> anyhow::Result<()> {
    let heap = rt.alloc();
    let mut text = Vec::new(heap);
    for line in rt.lines(heap) {
        let line = line?;
        take(&rt, &mut text, line.as_bytes())?;
    }
    Ok(())
}
