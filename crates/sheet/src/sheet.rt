// The sheet. Its type keeps what holds of every sheet: ranges, and at most 32 holes, in number order, each in its place and apart from the others.
ghost use Rattle.std.specs.Prelude.{◌≡◌, true, length};
ghost use Rattle.parts.specs.Ranges.{bar_ranges, bolt_ranges};
ghost use Rattle.sheet.specs.Law.{lawful, holds, all_bearable};
ghost use Rattle.sheet.specs.Rows.{holes_of};

use crate::row::Row;
use parts::bar::Bar;
use parts::bolt::Bolt;

pub mod closed;
pub mod joint;
pub mod open;
pub mod reads;

// A change writes each field: a struct whose type keeps facts is not made by an update of another.
// No equality is derived: rows that differ past their counts alone are the same.
#[derive(Drop)]
pub struct Sheet {
    bar: Option<Bar>,
    bolt: Option<Bolt>,
    // In newtons, by the number of the load.
    loads: [i32; 7],
    // Last, by convention: the largest field.
    row: Row,
    ghost bar_ok: { holds bar_ranges bar ≡ true },
    ghost bolt_ok: { holds bolt_ranges bolt ≡ true },
    ghost seven: { length loads ≡ 7 },
    ghost bearable: { all_bearable loads ≡ true },
    ghost law: { lawful bar bolt (holes_of row) ≡ true },
}
