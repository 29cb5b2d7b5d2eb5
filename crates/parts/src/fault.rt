// Why a call on a sheet says no.
ghost use Rattle.std.specs.Prelude.{◌≡◌, Some};
ghost use Rattle.parts.specs.Refusals.{refusal_number, refusal_text};

use std::error::Error;
use std::fmt;

#[derive(Clone, Copy, Debug, PartialEq, Eq)]
pub enum Fault {
    OutOfRange,
    UnknownSteel,
    UnknownSize,
    HolesStand,
    NoBarOrBolt,
    Full,
    DiameterOutside,
    CentreOutside,
    // With the number of the first such hole.
    TooClose { hole: u8 },
    NoHoleThere,
    UnknownLoad,
    LoadOutOfRange,
    NoHoles,
}

impl Fault {
    // Not a conversion: two of them have the same number.
    pub fn number(self) -> u8
        ensures { result ≡ refusal_number self }
    {
        match self {
            Fault::OutOfRange => 1,
            Fault::UnknownSteel | Fault::UnknownSize => 2,
            Fault::HolesStand => 3,
            Fault::NoBarOrBolt => 4,
            Fault::Full => 5,
            Fault::DiameterOutside => 6,
            Fault::CentreOutside => 7,
            Fault::TooClose { .. } => 8,
            Fault::NoHoleThere => 9,
            Fault::UnknownLoad => 10,
            Fault::LoadOutOfRange => 11,
            Fault::NoHoles => 12,
        }
    }
}

impl fmt::Display for Fault {
    ghost output = { λ fault. Some (refusal_text fault) };

    fn fmt<W: fmt::Write>(&self, f: &mut fmt::Formatter<W>) -> fmt::Result {
        let number = self.number();
        match self {
            Fault::TooClose { hole } => write!(f, "refused {number}, too close to hole {hole}"),
            _ => write!(f, "refused {number}"),
        }
    }
}

impl Error for Fault {}
