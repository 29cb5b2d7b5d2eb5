// The section of the holes: so many as its first line says, each put on the sheet.
ghost use Rattle.std.specs.Prelude.{ℕ, ◌+◌, ◌<◌};
ghost use Rattle.reading.specs.Stages.{Leads, LineLeads, with_bolt, with_holes, drilled};

use super::Reader;
use crate::fault::{Cause, ReadFault};
use crate::fields::hole_fields;
use crate::header::header;

impl Reader<'_> {
    fn hole_line(&mut self) -> Result<(), Cause>
        ensures { (n i : ℕ) → i < n → LineLeads (with_holes n i) (with_holes n (i + 1)) self.old result self.new }
    {
        let hole = hole_fields(&mut self.cursor).ok_or(Cause::Malformed)?;
        Ok(self.sheet.put(hole.x, hole.y, hole.diameter)?)
    }

    fn hole_lines(&mut self, count: u32) -> Result<(), ReadFault>
        ensures { Leads (with_holes count 0) drilled self.old result self.new }
    {
        for _i in 0..count {
            let line = self.cursor.line() + 1;
            self.hole_line().map_err(|cause| cause.on(line))?;
        }
        Ok(())
    }

    pub(super) fn holes_section(&mut self) -> Result<(), ReadFault>
        ensures { Leads with_bolt drilled self.old result self.new }
    {
        let count = header(&mut self.cursor, b"holes", 0..=32)?;
        self.hole_lines(count)
    }
}
