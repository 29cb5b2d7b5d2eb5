// The steels of Table 10.2.6 of the norm, with their yield and tensile stress.
ghost use Rattle.std.specs.Prelude.{◌≡◌, ◌≤◌, ◌≢◌, length, ok_or, MatchResult};
ghost use Rattle.parts.specs.Steels.{yield_stress, tensile_stress, steel_number, steel_of, steel_name};
ghost use Rattle.parts.specs.declared.fault.Fault.TheVariants.{UnknownSteel};
ghost use Rattle.parts.specs.declared.steel.Steel.{Steel as AnySteel};

use crate::fault::Fault;
use crate::quantity::Megapascals;

#[derive(Clone, Copy, Debug, PartialEq, Eq)]
pub enum Steel {
    A36,
    A529,
    A572Grade42,
    A572Grade50,
    A572Grade60,
    A572Grade65,
}

// In megapascals.
struct Stresses {
    yield_stress: u32,
    tensile_stress: u32,
}

// By the number of the steel less 1.
const STRESSES: [Stresses; 6] = [
    Stresses {
        yield_stress: 250,
        tensile_stress: 400,
    },
    Stresses {
        yield_stress: 290,
        tensile_stress: 415,
    },
    Stresses {
        yield_stress: 290,
        tensile_stress: 415,
    },
    Stresses {
        yield_stress: 345,
        tensile_stress: 450,
    },
    Stresses {
        yield_stress: 415,
        tensile_stress: 515,
    },
    Stresses {
        yield_stress: 450,
        tensile_stress: 550,
    },
];

// The steel of a number from 1 to 6.
// Written out, as a size's is: a conversion cannot be given to all types of a trait at once.
impl TryFrom<u32> for Steel {
    type Error = Fault;

    ghost try_from_gives = { λ number r. r ≡ ok_or (steel_of number) UnknownSteel };

    fn try_from(number: u32) -> Result<Steel, Fault> {
        match number {
            1 => Ok(Steel::A36),
            2 => Ok(Steel::A529),
            3 => Ok(Steel::A572Grade42),
            4 => Ok(Steel::A572Grade50),
            5 => Ok(Steel::A572Grade60),
            6 => Ok(Steel::A572Grade65),
            _ => Err(Fault::UnknownSteel),
        }
    }
}

impl From<Steel> for u32 {
    ghost from_gives = { λ steel number. number ≡ steel_number steel };

    fn from(steel: Steel) -> u32 {
        steel as u32 + 1
    }
}

// The steel that a page calls by this name.
impl TryFrom<&[u8]> for Steel {
    type Error = Fault;

    ghost try_from_gives = { λ name r. MatchResult r (λ s. name.now ≡ steel_name s) (λ e. (e ≡ UnknownSteel) × ((s : AnySteel) → name.now ≢ steel_name s)) };

    fn try_from(name: &[u8]) -> Result<Steel, Fault> {
        match name {
            b"A36" => Ok(Steel::A36),
            b"A529" => Ok(Steel::A529),
            b"A572-42" => Ok(Steel::A572Grade42),
            b"A572-50" => Ok(Steel::A572Grade50),
            b"A572-60" => Ok(Steel::A572Grade60),
            b"A572-65" => Ok(Steel::A572Grade65),
            _ => Err(Fault::UnknownSteel),
        }
    }
}

impl Steel {
    // Not a Display: a page takes bytes, and to put them on it cannot fail.
    pub fn name(self) -> &'static [u8]
        ensures name { result.now ≡ steel_name self }
        ensures short { length result.now ≤ 7 }
    {
        match self {
            Steel::A36 => b"A36",
            Steel::A529 => b"A529",
            Steel::A572Grade42 => b"A572-42",
            Steel::A572Grade50 => b"A572-50",
            Steel::A572Grade60 => b"A572-60",
            Steel::A572Grade65 => b"A572-65",
        }
    }

    pub fn yield_stress(self) -> Megapascals
        ensures { result.0 ≡ yield_stress self }
    {
        Megapascals(STRESSES[self as usize].yield_stress)
    }

    pub fn tensile_stress(self) -> Megapascals
        ensures { result.0 ≡ tensile_stress self }
    {
        Megapascals(STRESSES[self as usize].tensile_stress)
    }
}
