// The section of the loads: seven lines in any order, each letter once.
ghost use Rattle.std.specs.Prelude.{ℕ, ◌+◌, ◌<◌};
ghost use Rattle.reading.specs.Stages.{Leads, LineLeads, drilled, at_loads, with_loads, whole};

use super::Reader;
use crate::fault::{Cause, ReadFault};
use crate::fields::load_fields;
use crate::header::header;
use parts::load::LoadKind;

impl Reader<'_> {
    // One load, whose letter is not among those that `seen` marks.
    fn load_line(&mut self, seen: &mut [bool; 7]) -> Result<(), Cause>
        ensures { (i : ℕ) → i < 7 → LineLeads (with_loads i seen.old) (with_loads (i + 1) seen.new) self.old result self.new }
    {
        let (name, newtons) = load_fields(&mut self.cursor).ok_or(Cause::Malformed)?;
        let kind = LoadKind::try_from(name)?;
        let place = usize::from(kind);
        if seen[place] {
            return Err(Cause::LetterAgain);
        }
        seen[place] = true;
        Ok(self.sheet.load(char::from(kind), newtons)?)
    }

    fn load_lines(&mut self) -> Result<(), ReadFault>
        ensures { Leads at_loads whole self.old result self.new }
    {
        // A mark for each load, by its number.
        let mut seen = [false; 7];
        for _i in 0..7usize {
            let line = self.cursor.line() + 1;
            self.load_line(&mut seen).map_err(|cause| cause.on(line))?;
        }
        Ok(())
    }

    pub(super) fn loads_section(&mut self) -> Result<(), ReadFault>
        ensures { Leads drilled whole self.old result self.new }
    {
        header(&mut self.cursor, b"loads", 7..=7)?;
        self.load_lines()
    }
}
