// A text checked: its page, or a line that says what is wrong and where.
ghost use Rattle.std.specs.Prelude.{◌≡◌, ◌^◌, ◌<◌, decimal};
ghost use Rattle.sections.specs.Texts.{spelled};
ghost use Rattle.text.specs.Drafts.{written};
ghost use Rattle.archive.specs.Again.{PagesReadAgain};
ghost use Rattle.archive.specs.Checks.{Sheets, Lays, Checks, refused_line};
ghost use Rattle.archive.specs.Faults.{check_number};

use crate::fault::{CheckFault, NoRoom};
use limits::norm::norm;
use reading::read::read;
use sections::line::Piece::{Number, Word};
use sections::line::{Piece, write_line};
use sheet::{Closed, Joint, Open};
use text::draft::Draft;
use writing::page::page;

// The closed sheet that the text describes.
fn sheet_of(text: &[u8]) -> Result<Closed, CheckFault>
    ensures { Sheets text.now result }
{
    let mut open = Open::new();
    let taken = read(&mut open, text)?;
    if taken != text.len() {
        let line = open.sheet().row().len() + 14;
        return Err(CheckFault::Trailing { line });
    }
    Joint::of(open.sheet())?;
    Ok(open.close())
}

// The number of a fault, as it is written.
fn number_of(fault: CheckFault) -> Piece<'static>
    ensures says { spelled result ≡ decimal (check_number fault) }
    ensures small { check_number fault < 2 ^ 64 }
{
    Number(fault.number().into())
}

// The line that says what is wrong and where.
fn refusal_line(fault: CheckFault) -> Draft
    ensures { written result ≡ refused_line fault }
{
    let mut draft = Draft::new();
    write_line(
        &mut draft,
        &[
            Word(b"refused"),
            number_of(fault),
            Number(fault.line() as u64),
        ],
    );
    draft
}

fn write_refusal(fault: CheckFault, out: &mut [u8]) -> Result<usize, NoRoom>
    ensures { Lays (refused_line fault) out.old result out.new }
{
    refusal_line(fault).copy_to(out).ok_or(NoRoom)
}

// Reads the text, judges it by the norm's limit states and writes its page to the front of `out`; or the refused line.
pub fn check(text: &[u8], out: &mut [u8]) -> Result<usize, NoRoom>
    ensures answer { Checks text.now out.old result out.new }
    ensures again { PagesReadAgain }
{
    match sheet_of(text) {
        Ok(sheet) => page(&sheet, &norm(), out).map_err(|_| NoRoom),
        Err(fault) => write_refusal(fault, out),
    }
}
