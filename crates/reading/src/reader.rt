// A page as it is read: the lines that are left of it, and the sheet that those before them make.
ghost use Rattle.std.specs.Prelude.{◌≤◌, length};
ghost use Rattle.reading.specs.Beginnings.{nothing};
ghost use Rattle.reading.specs.Stages.{At, Leads, at_start, whole};

mod bar;
mod bolt;
mod holes;
mod loads;

use crate::fault::ReadFault;
use sheet::Open;
use text::cursor::Cursor;

#[derive(Drop)]
pub(crate) struct Reader<'a> {
    pub(crate) cursor: Cursor<'a>,
    pub(crate) sheet: Open,
}

impl<'a> Reader<'a> {
    // At the start of a page, with a new sheet.
    pub(crate) fn new(page: &'a [u8]) -> Reader<'a>
        requires { length page.now ≤ 4096 }
        ensures { At page.entry.now nothing result }
    {
        Reader {
            cursor: Cursor::new(page),
            sheet: Open::new(),
        }
    }

    // The first four sections, each a method of its own, since its lines lead to a stage of their own.
    pub(crate) fn sections(&mut self) -> Result<(), ReadFault>
        ensures { Leads at_start whole self.old result self.new }
    {
        self.bar_section()?;
        self.bolt_section()?;
        self.holes_section()?;
        self.loads_section()
    }
}
