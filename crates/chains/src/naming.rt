// A chain from its last hole backwards, and how it comes onto a slip.
ghost use Rattle.std.specs.Prelude.{◌≡◌, ℕ, ◌≤◌, reverse, length};
ghost use Rattle.std.specs.Iterator.{YieldsFirst, item_count};
ghost use Rattle.chains.specs.Search.{number, Falling, led};
ghost use Rattle.chains.specs.Slips.{filed};

use crate::search::Step;

// Gives the numbers of the holes. Each step leads to an earlier place.
#[derive(Clone, Copy)]
pub(crate) struct Backwards<'a> {
    pub(crate) steps: &'a [Step],
    pub(crate) at: Option<usize>,
    ghost few: { length steps.now ≤ 32 },
    ghost within: { number at ≤ length steps.now },
    ghost falling: { Falling steps.now },
}

impl Iterator for Backwards<'_> {
    type Item = u8;

    ghost next_gives = { YieldsFirst (λ s. led s.steps.now s.at) };

    ghost remaining = { item_count (λ s. led s.steps.now s.at) };

    #[tactic(auto, using(crate::proofs::Led::led_more))]
    fn next(&mut self) -> Option<u8> {
        let place = self.at?;
        self.at = self.steps[place].before;
        Some(place as u8 + 1)
    }
}

// Writes the chain, first hole first, then a 0 if a place remains.
#[tactic(auto, using(crate::proofs::Led::led_short))]
pub(crate) fn write_chain(chain: Backwards<'_>, slip: &mut [u8; 32])
    ensures { slip.new ≡ filed (reverse (led chain.entry.steps.now chain.entry.at)) slip.old }
{
    let count = chain.count();
    // By places: what a loop over an adapter of `iter_mut` writes is not known after it.
    for (place, number) in (0..count).rev().zip(chain) {
        slip[place] = number;
    }
    if count < 32 {
        slip[count] = 0;
    }
}
