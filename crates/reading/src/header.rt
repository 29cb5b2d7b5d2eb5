// The first line of a section.
ghost use Rattle.std.specs.Prelude.{◌≡◌, false};
ghost use Rattle.std.specs.Range.{range_inclusive_start, range_inclusive_end, range_inclusive_exhausted};
ghost use Rattle.reading.specs.Fields.{HeaderRead};

use crate::fault::{Cause, ReadFault};
use crate::fields::header_fields;
use std::ops::RangeInclusive;
use text::cursor::Cursor;

// Its count, one of `counts`, where its name is this one.
pub(crate) fn header(
    cursor: &mut Cursor<'_>,
    name: &[u8],
    counts: RangeInclusive<u32>,
) -> Result<u32, ReadFault>
    requires { range_inclusive_exhausted counts ≡ false }
    ensures { HeaderRead cursor.old name.now (range_inclusive_start counts) (range_inclusive_end counts) result cursor.new }
{
    let line = cursor.line() + 1;
    let (count, word) = header_fields(cursor).ok_or(Cause::Malformed.on(line))?;
    if word != name || !counts.contains(&count) {
        return Err(Cause::WrongSection.on(line));
    }
    Ok(count)
}
