// A closed sheet.
ghost use Rattle.std.specs.Prelude.{◌≡◌};

use super::Sheet;
use super::open::Open;

#[derive(Drop)]
pub struct Closed {
    pub(crate) sheet: Sheet,
}

impl Closed {
    pub fn reopen(self) -> Open
        ensures { result.sheet ≡ self.sheet }
    {
        let Closed { sheet } = self;
        Open { sheet }
    }

    // Also a call of an open sheet: two types, so that a call on the wrong one does not build.
    pub fn sheet(&self) -> &Sheet
        ensures { result.now ≡ self.now.sheet }
    {
        &self.sheet
    }
}
