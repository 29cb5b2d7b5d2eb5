// A hole by its centre and diameter, in millimetres: x from the bolted end along the force, y from the lower side.
ghost use Rattle.std.specs.Prelude.{◌≡◌};
ghost use Rattle.parts.specs.Holes.{before, centred, apart};

#[derive(Clone, Copy, Debug, Default, PartialEq, Eq)]
pub struct Hole {
    pub x: u32,
    pub y: u32,
    pub diameter: u32,
}

impl Hole {
    // Holes are numbered by rising y, and by rising x where y is equal.
    // Not an order of the type, which would tell diameters apart.
    pub fn is_before(&self, other: &Hole) -> bool
        ensures { result ≡ before self.now other.now }
    {
        (self.y, self.x) < (other.y, other.x)
    }

    pub fn is_at(&self, x: u32, y: u32) -> bool
        ensures { result ≡ centred x y self.now }
    {
        (self.x, self.y) == (x, y)
    }

    // Whether two holes keep 2 2/3 bolt diameters from centre to centre.
    pub fn is_apart(&self, other: &Hole, diameter: u32) -> bool
        ensures { result ≡ apart diameter self.now other.now }
    {
        let along = u128::from(self.x.abs_diff(other.x));
        let across = u128::from(self.y.abs_diff(other.y));
        let d = u128::from(diameter);
        9 * (along * along + across * across) >= 64 * (d * d)
    }
}
