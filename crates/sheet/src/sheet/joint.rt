// A joint: a borrowed sheet that has bar, bolt and at least one hole. All that judges takes one, and so needs no premise.
ghost use Rattle.std.specs.Prelude.{◌≡◌, ◌<◌, true, is_some};

use super::Sheet;

pub mod lends;

#[derive(Clone, Copy)]
pub struct Joint<'a> {
    sheet: &'a Sheet,
    ghost barred: { is_some sheet.now.bar ≡ true },
    ghost bolted: { is_some sheet.now.bolt ≡ true },
    ghost some: { 0 < sheet.now.row.count },
}
