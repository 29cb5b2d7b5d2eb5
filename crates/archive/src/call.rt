// The nine calls of a sheet with their arguments, and what each answers: a reply, or why there is none.
ghost use Rattle.std.specs.Prelude.{◌≡◌, Some};
ghost use Rattle.archive.specs.Halts.{halt_text};
ghost use Rattle.archive.specs.declared.call.Halt.TheVariants.{NoMemory};

use judging::judgment::Judgment;
use std::alloc::{AllocError, AllocFailed};
use std::fmt;
use writing::fault::PageFault;

#[derive(Clone, Copy, Debug, PartialEq, Eq)]
pub enum Call {
    Bar {
        width: u32,
        thickness: u32,
        steel: u32,
        edge: u32,
    },
    Bolt {
        size: u32,
        stress: u32,
        planes: u32,
    },
    Put {
        x: u32,
        y: u32,
        diameter: u32,
    },
    Take {
        x: u32,
        y: u32,
    },
    Load {
        letter: char,
        newtons: i32,
    },
    Judge,
    // With so many bytes lent for it.
    Page {
        room: usize,
    },
    Close,
    Reopen,
}

#[derive(Drop)]
pub enum Reply {
    Accepted,
    // With the least chain on the slip.
    Judged { judgment: Judgment, slip: [u8; 32] },
    // The page's bytes.
    Page(Vec<u8>),
}

// The refusal of a call is the sheet's own, or that the page does not fit.
pub type Answer = Result<Reply, PageFault>;

// Why a list is not replayed to its end.
#[derive(Clone, Copy, Debug, PartialEq, Eq)]
pub enum Halt {
    // An open sheet does not take the call at this place, or a closed one.
    OutOfOrder { place: usize },
    NoMemory,
}

impl fmt::Display for Halt {
    ghost output = { λ halt. Some (halt_text halt) };

    fn fmt<W: fmt::Write>(&self, f: &mut fmt::Formatter<W>) -> fmt::Result {
        match self {
            Halt::OutOfOrder { place } => write!(
                f,
                "out of order: call {}",
                place.saturating_add(1)
            ),
            Halt::NoMemory => write!(f, "no memory"),
        }
    }
}

impl From<AllocError> for Halt {
    ghost from_gives = { λ _ r. r ≡ NoMemory };

    fn from(_e: AllocError) -> Halt {
        Halt::NoMemory
    }
}

impl<T: Drop> From<AllocFailed<T>> for Halt {
    ghost from_gives = { λ _ r. r ≡ NoMemory };

    fn from(_e: AllocFailed<T>) -> Halt {
        Halt::NoMemory
    }
}
