// What holes take from a bar's width, and what the stagger of two neighbours of a chain gives back.
ghost use Rattle.std.specs.Prelude.{◌≡◌, ◌<◌, ◌≤◌, pos};
ghost use Rattle.chains.specs.Chains.{cut, term};

use parts::hole::Hole;
use parts::quantity::Micrometres;

// What a hole takes: its diameter and 2 mm.
pub(crate) fn cut_of(hole: &Hole) -> Micrometres
    requires { hole.now.diameter ≤ 32 }
    ensures { result.0 ≡ pos (cut hole.now) }
{
    Micrometres(1000 * (hole.diameter as i64 + 2))
}

// Two holes of a chain, one behind the other.
#[derive(Clone, Copy)]
pub(crate) struct Neighbours<'a> {
    pub(crate) low: &'a Hole,
    pub(crate) high: &'a Hole,
    ghost low_far: { low.now.x ≤ 1200 },
    ghost high_far: { high.now.x ≤ 1200 },
    ghost rising: { low.now.y < high.now.y },
}

impl Neighbours<'_> {
    // What they give back: s² / 4g, rounded down to whole micrometres. s is their distance along the force, g across it.
    #[tactic(auto, using(crate::proofs::Basics::square_most))]
    pub(crate) fn stagger(&self) -> Micrometres
        ensures { result.0 ≡ pos (term self.now.low.now self.now.high.now) }
    {
        let s = self.low.x.abs_diff(self.high.x);
        let g = self.high.y - self.low.y;
        Micrometres((250 * (s * s) / g) as i64)
    }
}
