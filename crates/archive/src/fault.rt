// Why a text is no sheet that can be judged.
ghost use Rattle.std.specs.Prelude.{◌≡◌};
ghost use Rattle.archive.specs.Faults.{check_number, check_layer, check_line};
ghost use Rattle.archive.specs.declared.fault.CheckFault.TheVariants.{Read, Sheet};

use parts::fault::Fault;
use reading::fault::{Layer, ReadFault};

#[derive(Clone, Copy, Debug, PartialEq, Eq)]
pub enum CheckFault {
    // What reading says, whole.
    Read(ReadFault),
    // Bytes follow the loads, on this line.
    Trailing { line: usize },
    // What the sheet says, whole; no line is meant.
    Sheet(Fault),
}

impl From<ReadFault> for CheckFault {
    ghost from_gives = { λ fault r. r ≡ Read fault };

    fn from(fault: ReadFault) -> Self {
        Self::Read(fault)
    }
}

impl From<Fault> for CheckFault {
    ghost from_gives = { λ fault r. r ≡ Sheet fault };

    fn from(fault: Fault) -> Self {
        Self::Sheet(fault)
    }
}

impl CheckFault {
    // A method and no conversion: number, layer and line are three facts of one fault.
    pub fn number(self) -> u8
        ensures { result ≡ check_number self }
    {
        match self {
            CheckFault::Read(fault) => fault.cause.number(),
            CheckFault::Trailing { .. } => 25,
            CheckFault::Sheet(fault) => fault.number(),
        }
    }

    // The text where only reading gives the number, else the sheet.
    pub fn layer(self) -> Layer
        ensures { result ≡ check_layer self }
    {
        match self {
            CheckFault::Read(fault) => fault.cause.layer(),
            CheckFault::Trailing { .. } => Layer::Text,
            CheckFault::Sheet(_) => Layer::Sheet,
        }
    }

    // From 1; 0 where no line is meant, since the refused line has that number.
    pub fn line(self) -> usize
        ensures { result ≡ check_line self }
    {
        match self {
            CheckFault::Read(fault) => fault.line,
            CheckFault::Trailing { line } => line,
            CheckFault::Sheet(_) => 0,
        }
    }
}

// The page, or the refused line, does not fit the buffer.
#[derive(Clone, Copy, Debug, PartialEq, Eq)]
pub struct NoRoom;
