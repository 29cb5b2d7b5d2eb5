// What is said of a joint: its kind, and the figures that it rests on.
ghost use Rattle.std.specs.Prelude.{◌≡◌};
ghost use Rattle.judging.specs.Kinds.{verdict_number};

use parts::quantity::{Decinewtons, Micrometres};

#[derive(Clone, Copy, Debug, PartialEq, Eq)]
pub enum Kind {
    Passes,
    Overstressed,
    Reverses,
}

impl Kind {
    // A method and no conversion: seven numbers tell a judgment, and this names the one.
    pub fn number(self) -> u8
        ensures { result ≡ verdict_number self }
    {
        self as u8
    }
}

#[derive(Clone, Copy, Debug, PartialEq, Eq)]
pub struct Judgment {
    pub kind: Kind,
    // The numbers of the first of the greatest rows and of the first of the weakest limit states.
    pub row: u8,
    pub state: u8,
    // That row, and the strength of that limit state.
    pub greatest: Decinewtons,
    pub strength: Decinewtons,
    // The width of the least chain.
    pub net_width: Micrometres,
    // The least of the rows.
    pub least: Decinewtons,
}
