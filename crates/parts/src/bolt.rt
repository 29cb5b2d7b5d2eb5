// The bolts of one end: size, nominal shear stress and shear planes.
ghost use Rattle.std.specs.Prelude.{◌≡◌, ◌≤◌, ◌≢◌, length, ok_or, MatchResult};
ghost use Rattle.parts.specs.Sizes.{diameter_of, area_of, size_number, size_of, size_name};
ghost use Rattle.parts.specs.Ranges.{bolt_ranges};
ghost use Rattle.parts.specs.Holes.{drilled};
ghost use Rattle.parts.specs.declared.bolt.Size.{Size as AnySize};
ghost use Rattle.parts.specs.declared.fault.Fault.TheVariants.{UnknownSize};

use crate::fault::Fault;
use crate::hole::Hole;
use crate::quantity::Megapascals;

#[derive(Clone, Copy, Debug, PartialEq, Eq)]
pub enum Size {
    M16,
    M20,
    M22,
    M24,
}

// A bolt's round section: its diameter in millimetres, and its area in square millimetres.
struct Section {
    diameter: u32,
    area: u32,
}

// By the number of the size less 1.
const SECTIONS: [Section; 4] = [
    Section {
        diameter: 16,
        area: 201,
    },
    Section {
        diameter: 20,
        area: 314,
    },
    Section {
        diameter: 22,
        area: 380,
    },
    Section {
        diameter: 24,
        area: 452,
    },
];

// The size of a number from 1 to 4. Written out, as a steel's is: conversions cannot be given to all types of a trait at once.
impl TryFrom<u32> for Size {
    type Error = Fault;

    ghost try_from_gives = { λ number r. r ≡ ok_or (size_of number) UnknownSize };

    fn try_from(number: u32) -> Result<Size, Fault> {
        match number {
            1 => Ok(Size::M16),
            2 => Ok(Size::M20),
            3 => Ok(Size::M22),
            4 => Ok(Size::M24),
            _ => Err(Fault::UnknownSize),
        }
    }
}

impl From<Size> for u32 {
    ghost from_gives = { λ size number. number ≡ size_number size };

    fn from(size: Size) -> u32 {
        size as u32 + 1
    }
}

// The size that a page calls by this name.
impl TryFrom<&[u8]> for Size {
    type Error = Fault;

    ghost try_from_gives = { λ name r. MatchResult r (λ s. name.now ≡ size_name s) (λ e. (e ≡ UnknownSize) × ((s : AnySize) → name.now ≢ size_name s)) };

    fn try_from(name: &[u8]) -> Result<Size, Fault> {
        match name {
            b"M16" => Ok(Size::M16),
            b"M20" => Ok(Size::M20),
            b"M22" => Ok(Size::M22),
            b"M24" => Ok(Size::M24),
            _ => Err(Fault::UnknownSize),
        }
    }
}

impl Size {
    // Not a Display: a page takes bytes, and to put them on it cannot fail.
    pub fn name(self) -> &'static [u8]
        ensures name { result.now ≡ size_name self }
        ensures short { length result.now ≤ 3 }
    {
        match self {
            Size::M16 => b"M16",
            Size::M20 => b"M20",
            Size::M22 => b"M22",
            Size::M24 => b"M24",
        }
    }

    pub fn diameter(self) -> u32
        ensures { result ≡ diameter_of self }
    {
        SECTIONS[self as usize].diameter
    }

    pub fn area(self) -> u32
        ensures { result ≡ area_of self }
    {
        SECTIONS[self as usize].area
    }
}

#[derive(Clone, Copy, Debug, PartialEq, Eq)]
pub struct Bolt {
    pub size: Size,
    pub stress: Megapascals,
    pub planes: u32,
}

impl Bolt {
    pub fn in_range(&self) -> bool
        ensures { result ≡ bolt_ranges self.now }
    {
        (1..=1000).contains(&self.stress.0) && (1..=2).contains(&self.planes)
    }

    // Whether a hole's diameter suits: from the bolt's own to 8 mm more.
    pub fn suits(&self, hole: &Hole) -> bool
        ensures { result ≡ drilled self.now hole.now }
    {
        let d = self.size.diameter();
        (d..=d + 8).contains(&hole.diameter)
    }
}
