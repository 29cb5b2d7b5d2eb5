// The search for the least chain, hole by hole in number order.
ghost use Rattle.std.specs.Prelude.{◌≡◌, ℕ, suc, ◌<◌, ◌≤◌, [], ◌∷◌, ◌++◌, length, pos, ◌+ℤ◌, ◌-ℤ◌, ◌≤ℤ◌, ◌<ℤ◌, Some, slice_get};
ghost use Rattle.chains.specs.Search.{Full, Slimmest, net_at};

use crate::holed_bar::HoledBar;
use crate::neighbours::{Neighbours, cut_of};
use arrayvec::ArrayVec;
use parts::hole::Hole;
use parts::quantity::Micrometres;
use std::cmp::min_by_key;

// The last step of the least chain that ends in a hole: the chain's width, and the place of the hole before, if there is one.
#[derive(Clone, Copy, Debug, Default, PartialEq, Eq)]
pub(crate) struct Step {
    pub(crate) net: Micrometres,
    // A place and no box: a box would be on the heap.
    pub(crate) before: Option<usize>,
}

impl HoledBar<'_> {
    // The step of the hole that comes behind those of the steps.
    fn step_to(&self, hole: &Hole, steps: &[Step]) -> Step
        requires next { slice_get self.now.holes.now (length steps.now) ≡ Some hole.now }
        requires full { Full self.now.width self.now.holes.now steps.now }
        ensures { Full self.now.width self.now.holes.now (steps.now ++ result ∷ []) }
    {
        let cut = cut_of(hole);
        let mut best = Step {
            net: Micrometres(1000 * self.width as i64) - cut,
            before: None,
        };
        for (place, (low, step)) in self.holes.iter().zip(steps).enumerate() {
            if low.y < hole.y {
                let pair = Neighbours { low, high: hole };
                let longer = Step {
                    net: step.net + pair.stagger() - cut,
                    before: Some(place),
                };
                best = min_by_key(best, longer, |step| step.net);
            }
        }
        best
    }

    // The steps of all holes.
    pub(crate) fn steps(&self) -> ArrayVec<Step, 32>
        ensures full { Full self.now.width self.now.holes.now result.items }
        ensures all { length result.items ≡ length self.now.holes.now }
    {
        let mut steps = ArrayVec::new();
        for hole in self.holes {
            let step = self.step_to(hole, &steps);
            steps.push(step);
        }
        steps
    }
}

// Where the least chain ends, by the place of its last hole, and its width.
pub(crate) fn narrowest_end(steps: &[Step]) -> (usize, Micrometres)
    requires some { 0 < length steps.now }
    ensures slimmest { Slimmest steps.now result.0 }
    ensures net { result.1.0 ≡ net_at steps.now result.0 }
{
    let (place, step) = steps
        .iter()
        .enumerate()
        .min_by_key(|(_, step)| step.net)
        .unwrap();
    (place, step.net)
}
