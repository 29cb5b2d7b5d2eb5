// A list of calls from standard input, one a line, replayed on a new sheet; each is printed with its answer.
#![tactic(auto)]

use archive::call::{Answer, Call, Halt};
use archive::replay::replay;
use limits::bank::{Both, Only};
use limits::norm::norm;
use sample::PerWidth;
use std::fmt;

mod parse;
mod tell;

use parse::call_in;
use tell::tell;

// A line that is no call, by its number from 1.
#[derive(Drop)]
struct NoCall {
    line: usize,
}

impl fmt::Display for NoCall {
    fn fmt<W: fmt::Write>(&self, f: &mut fmt::Formatter<W>) -> fmt::Result {
        write!(f, "line {} is no call", self.line)
    }
}

// The lines of the input and their calls; or the first line that is none.
fn calls_of(rt: &HostRuntime) -> anyhow::Result<Result<(Vec<String>, Vec<Call>), NoCall>> {
    let heap = rt.alloc();
    let mut lines = Vec::new(heap);
    let mut calls = Vec::new(heap);
    for line in rt.lines(heap) {
        let line = line?;
        let Some(call) = call_in(line.as_str()) else {
            return Ok(Err(NoCall {
                line: lines.len().saturating_add(1),
            }));
        };
        calls.push(call)?;
        lines.push(line)?;
    }
    Ok(Ok((lines, calls)))
}

fn tell_all(
    rt: &HostRuntime,
    lines: &[String],
    answers: Result<Vec<Answer>, Halt>,
) -> anyhow::Result<()> {
    match answers {
        Ok(answers) => {
            for (line, answer) in lines.iter().zip(answers.iter()) {
                tell(rt, line.as_str(), answer)?;
            }
        }
        Err(halt) => println!(rt; "{halt}")?,
    }
    Ok(())
}

fn main(rt: HostRuntime) -> anyhow::Result<()> {
    let heap = rt.alloc();
    let (lines, calls) = match calls_of(&rt)? {
        Ok(read) => read,
        Err(no_call) => return Ok(println!(rt; "{no_call}")?),
    };
    println!(rt; "by the norm")?;
    tell_all(
        &rt,
        lines.as_slice(),
        replay(heap, &norm(), calls.as_slice()),
    )?;
    println!(rt; "by the norm and one limit state more")?;
    let bank = Both {
        first: norm(),
        second: Only(PerWidth),
    };
    tell_all(&rt, lines.as_slice(), replay(heap, &bank, calls.as_slice()))
}
