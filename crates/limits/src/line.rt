// A line of holes, those of equal y by rising x, and the lengths on which its bolts bear, in tenths of a millimetre.
ghost use Rattle.std.specs.Prelude.{◌≡◌, ◌*◌, min, sum, nat_le};
ghost use Rattle.limits.specs.Bearing.{InLine, line_of, roomy, lengths};

use parts::hole::Hole;

#[derive(Clone, Copy)]
pub(crate) struct HoleLine<'a> {
    holes: &'a [Hole],
    diameter: u32,
    ghost in_line: { InLine diameter holes.now },
}

impl<'a> HoleLine<'a> {
    // The line of these holes, for bolts of this diameter.
    pub(crate) fn of(holes: &'a [Hole], diameter: u32) -> HoleLine<'a>
        requires { InLine diameter holes.now }
        ensures holes { result.holes.now ≡ holes.now }
        ensures diameter { result.diameter ≡ diameter }
    {
        HoleLine { holes, diameter }
    }

    // The sum of one length for each hole.
    pub(crate) fn bearing_length(&self) -> u64
        ensures { result ≡ sum (lengths self.now.diameter (line_of self.now.holes.now)) }
    {
        if self.is_roomy() {
            return self.holes.len() as u64 * self.longest();
        }
        let end = self.capped(10 * self.holes[0].x as u64);
        let between: u64 = self
            .holes
            .windows(2)
            .map(|pair| {
                self.capped(10 * (pair[1].x - pair[0].x) as u64 - 5 * self.diameter as u64)
            })
            .sum();
        end + between
    }

    // Two or more holes, the first 1.5 bolt diameters or more from the end, the spacings 3 or more.
    fn is_roomy(&self) -> bool
        ensures { result ≡ roomy self.now.diameter (line_of self.now.holes.now) }
    {
        self.holes.len() > 1
            && self.is_far(self.holes[0].x)
            && self
                .holes
                .windows(2)
                .all(|pair| self.is_wide(pair[1].x - pair[0].x))
    }

    // Whether a hole is 1.5 bolt diameters or more from the end.
    fn is_far(&self, x: u32) -> bool
        ensures { result ≡ nat_le (3 * self.now.diameter) (2 * x) }
    {
        3 * self.diameter as u64 <= 2 * x as u64
    }

    // Whether a spacing is 3 bolt diameters or more.
    fn is_wide(&self, spacing: u32) -> bool
        ensures { result ≡ nat_le (3 * self.now.diameter) spacing }
    {
        3 * self.diameter <= spacing
    }

    // 2.4 bolt diameters.
    fn longest(&self) -> u64
        ensures { result ≡ 24 * self.now.diameter }
    {
        24 * self.diameter as u64
    }

    // The length, or 2.4 bolt diameters where that is less.
    fn capped(&self, length: u64) -> u64
        ensures { result ≡ min length (24 * self.now.diameter) }
    {
        length.min(self.longest())
    }
}
