// The section of the bar.
ghost use Rattle.std.specs.Prelude.{◌≡◌, ◌≢◌, MatchResult};
ghost use Rattle.parts.specs.Steels.{steel_name};
ghost use Rattle.parts.specs.declared.fault.Fault.TheVariants.{UnknownSteel};
ghost use Rattle.parts.specs.declared.steel.Steel.{Steel as AnySteel};
ghost use Rattle.reading.specs.Stages.{Leads, LineLeads, at_start, at_bar, with_bar};
ghost use Rattle.reading.specs.declared.fault.Cause.TheVariants.{Sheet};

use super::Reader;
use crate::fault::{Cause, ReadFault};
use crate::fields::bar_fields;
use crate::header::header;
use parts::steel::Steel;

// The steel that a bar's line calls by this name.
fn steel_named(name: &[u8]) -> Result<Steel, Cause>
    ensures { MatchResult result (λ s. name.now ≡ steel_name s) (λ cause. (cause ≡ Sheet UnknownSteel) × ((s : AnySteel) → name.now ≢ steel_name s)) }
{
    Ok(Steel::try_from(name)?)
}

impl Reader<'_> {
    fn bar_line(&mut self) -> Result<(), Cause>
        ensures { LineLeads at_bar with_bar self.old result self.new }
    {
        let line = bar_fields(&mut self.cursor).ok_or(Cause::Malformed)?;
        let steel = steel_named(line.steel)?;
        Ok(
            self.sheet
                .bar(line.width, line.thickness, u32::from(steel), line.edge)?,
        )
    }

    pub(super) fn bar_section(&mut self) -> Result<(), ReadFault>
        ensures { Leads at_start with_bar self.old result self.new }
    {
        header(&mut self.cursor, b"bar", 1..=1)?;
        let line = self.cursor.line() + 1;
        self.bar_line().map_err(|cause| cause.on(line))
    }
}
