// Why a text is refused: the cause, and the line where it stands, from 1; 0 where no line is meant, since a refusal is
// written with that number.
ghost use Rattle.reading.specs.Causes.{cause_number, cause_layer};
ghost use Rattle.reading.specs.declared.fault.Cause.TheVariants.{Sheet};
ghost use Rattle.std.specs.Prelude.{◌≡◌};

use parts::fault::Fault;

#[derive(Clone, Copy, Debug, PartialEq, Eq)]
pub enum Cause {
    TooLong,
    Malformed,
    WrongSection,
    LetterAgain,
    // What the sheet says, whole.
    Sheet(Fault),
}

// Which layer says no.
#[derive(Clone, Copy, Debug, PartialEq, Eq)]
pub enum Layer {
    Text,
    Sheet,
}

#[derive(Clone, Copy, Debug, PartialEq, Eq)]
pub struct ReadFault {
    pub cause: Cause,
    pub line: usize,
}

impl From<Fault> for Cause {
    ghost from_gives = { λ fault cause. cause ≡ Sheet fault };

    fn from(fault: Fault) -> Cause {
        Self::Sheet(fault)
    }
}

impl Cause {
    // The cause, told on this line.
    pub(crate) fn on(self, line: usize) -> ReadFault
        ensures { result ≡ record { cause = self; line = line } }
    {
        ReadFault { cause: self, line }
    }

    // A method and no conversion, which would not say whether the refusal's number is meant or the hole's.
    pub fn number(self) -> u8
        ensures { result ≡ cause_number self }
    {
        match self {
            Cause::TooLong => 21,
            Cause::Malformed => 22,
            Cause::WrongSection => 23,
            Cause::LetterAgain => 24,
            Cause::Sheet(fault) => fault.number(),
        }
    }

    pub fn layer(self) -> Layer
        ensures { result ≡ cause_layer self }
    {
        match self {
            Cause::Sheet(_) => Layer::Sheet,
            _ => Layer::Text,
        }
    }
}

impl ReadFault {
    // Its cause's number.
    pub fn number(self) -> u8
        ensures { result ≡ cause_number self.cause }
    {
        self.cause.number()
    }
}
