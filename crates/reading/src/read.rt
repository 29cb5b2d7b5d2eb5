// The first four sections of a page, read onto a sheet.
ghost use Rattle.reading.specs.Reads.{Reads, OneAnswer};
ghost use Rattle.sheet.specs.Kept.{open_account};

use crate::fault::{Cause, ReadFault};
use crate::reader::Reader;
use sheet::Open;

// No page is longer, in bytes.
const LONGEST: usize = 4096;

// Puts what the text says in place of all that the sheet held, and answers how many bytes that took.
// A refused text leaves the sheet as it was.
pub fn read(open: &mut Open, text: &[u8]) -> Result<usize, ReadFault>
    ensures answer { Reads text.now (open_account «open».old) result (open_account «open».new) }
    ensures once { OneAnswer }
{
    if text.len() > LONGEST {
        return Err(Cause::TooLong.on(0));
    }
    let mut reader = Reader::new(text);
    reader.sections()?;
    let Reader { cursor, sheet } = reader;
    *open = sheet;
    Ok(text.len() - cursor.rest().len())
}
