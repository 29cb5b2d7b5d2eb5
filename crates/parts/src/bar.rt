// The flat bar: width and thickness, its steel, and the least edge distance of Table 10.3.4, in millimetres.
ghost use Rattle.std.specs.Prelude.{◌≡◌};
ghost use Rattle.parts.specs.Ranges.{bar_ranges};
ghost use Rattle.parts.specs.Holes.{placed};

use crate::hole::Hole;
use crate::steel::Steel;

#[derive(Clone, Copy, Debug, PartialEq, Eq)]
pub struct Bar {
    pub width: u32,
    pub thickness: u32,
    pub steel: Steel,
    pub edge: u32,
}

impl Bar {
    pub fn in_range(&self) -> bool
        ensures { result ≡ bar_ranges self.now }
    {
        (50..=1000).contains(&self.width)
            && (3..=50).contains(&self.thickness)
            && (24..=200).contains(&self.edge)
    }

    // Whether a hole's centre keeps the edge distance, and 1,200 mm from the bolted end at most.
    pub fn has_place_for(&self, hole: &Hole) -> bool
        ensures { result ≡ placed self.now hole.now }
    {
        (self.edge..=1200).contains(&hole.x)
            && (self.edge..=self.width).contains(&hole.y)
            && self.edge <= self.width - hole.y
    }
}
