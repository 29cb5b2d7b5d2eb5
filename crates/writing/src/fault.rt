// Why no page is written.
ghost use Rattle.std.specs.Prelude.{◌≡◌, Some};
ghost use Rattle.writing.specs.Faults.{page_number, page_refusal_text};
ghost use Rattle.writing.specs.declared.fault.PageFault.TheVariants.{Sheet};

use parts::fault::Fault;
use std::error::Error;
use std::fmt;

#[derive(Clone, Copy, Debug, PartialEq, Eq)]
pub enum PageFault {
    // What the sheet says, whole.
    Sheet(Fault),
    NoRoom,
}

impl From<Fault> for PageFault {
    ghost from_gives = { λ fault r. r ≡ Sheet fault };

    fn from(fault: Fault) -> Self {
        Self::Sheet(fault)
    }
}

impl PageFault {
    // A method and no conversion, which would not say whether the refusal's number is meant or the hole's.
    pub fn number(self) -> u8
        ensures { result ≡ page_number self }
    {
        match self {
            PageFault::Sheet(fault) => fault.number(),
            PageFault::NoRoom => 20,
        }
    }
}

impl fmt::Display for PageFault {
    ghost output = { λ fault. Some (page_refusal_text fault) };

    fn fmt<W: fmt::Write>(&self, f: &mut fmt::Formatter<W>) -> fmt::Result {
        match self {
            PageFault::Sheet(fault) => write!(f, "{fault}"),
            PageFault::NoRoom => write!(f, "refused {}", self.number()),
        }
    }
}

impl Error for PageFault {}
