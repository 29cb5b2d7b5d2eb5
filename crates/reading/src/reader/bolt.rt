// The section of the bolt.
ghost use Rattle.reading.specs.Stages.{Leads, LineLeads, with_bar, at_bolt, with_bolt};

use super::Reader;
use crate::fault::{Cause, ReadFault};
use crate::fields::bolt_fields;
use crate::header::header;
use parts::bolt::Size;

impl Reader<'_> {
    fn bolt_line(&mut self) -> Result<(), Cause>
        ensures { LineLeads at_bolt with_bolt self.old result self.new }
    {
        let line = bolt_fields(&mut self.cursor).ok_or(Cause::Malformed)?;
        let size = Size::try_from(line.size)?;
        Ok(self.sheet.bolt(u32::from(size), line.stress, line.planes)?)
    }

    pub(super) fn bolt_section(&mut self) -> Result<(), ReadFault>
        ensures { Leads with_bar with_bolt self.old result self.new }
    {
        header(&mut self.cursor, b"bolt", 1..=1)?;
        let line = self.cursor.line() + 1;
        self.bolt_line().map_err(|cause| cause.on(line))
    }
}
