// What a call answered, in print.
use archive::call::{Answer, Reply};
use judging::judgment::Judgment;
use std::io::Write;
use std::{fmt, io};

// A judgment's figures, and the least chain on the slip.
#[derive(Clone, Copy)]
struct Figures<'a> {
    judgment: &'a Judgment,
    slip: &'a [u8; 32],
}

impl fmt::Display for Figures<'_> {
    fn fmt<W: fmt::Write>(&self, f: &mut fmt::Formatter<W>) -> fmt::Result {
        let Figures { judgment, slip } = *self;
        write!(
            f,
            "{} {} {} {} {} {} {}, chain",
            judgment.kind.number(),
            judgment.row,
            judgment.state,
            judgment.greatest.0,
            judgment.strength.0,
            judgment.net_width.0,
            judgment.least.0,
        )?;
        for number in slip.iter().take_while(|n| **n != 0) {
            write!(f, " {number}")?;
        }
        Ok(())
    }
}

pub fn tell(rt: &HostRuntime, line: &str, answer: &Answer) -> io::Result<()> {
    match answer {
        Ok(Reply::Accepted) => println!(rt; "{line}: accepted"),
        Ok(Reply::Judged { judgment, slip }) => {
            println!(rt; "{line}: {}", Figures { judgment, slip })
        }
        Ok(Reply::Page(bytes)) => {
            println!(rt; "{line}: {} bytes", bytes.len())?;
            rt.stdout().write_all(bytes.as_slice())
        }
        Err(fault) => println!(rt; "{line}: {fault}"),
    }
}
