// A bank of limit states: one, or two banks put together, first and second.
ghost use Rattle.std.specs.Prelude.{◌≡◌, List, [], ◌∷◌, ◌++◌, ◌≤ℤ◌, ◌<ℤ◌};
ghost use Rattle.std.specs.List.{AllByRecursion};
ghost use Rattle.sheet.specs.Details.{Details, Sound, details};
ghost use Rattle.limits.specs.Rating.{rating, strength_of, FirstWeakest, Lawful};
ghost use Rattle.limits.specs.declared.rated.Rated.{Rated};
ghost use Rattle.std.proofs.Common.{rules};
ghost use Rattle.std.proofs.ByRecursion.{All-append};

use crate::limit_state::LimitState;
use crate::rated::Rated;
use sheet::Joint;
use std::cmp::min_by_key;

pub trait Bank {
    // Every limit state in it, in order, with its strength.
    ghost rated: { Self → Details → List Rated };

    // The first of the weakest.
    fn weakest(&self, joint: Joint<'_>) -> Rated
        ensures { FirstWeakest (rated self.now (details joint.entry)) result };

    ghost lawful: { (x : Self) (d : Details) → Sound d → AllByRecursion Lawful (rated x d) };
}

#[derive(Drop)]
pub struct Only<L>(pub L);

impl<L: LimitState> Bank for Only<L> {
    ghost rated = { λ b d. rating L.LimitState.NUMBER.value (L.LimitState.meaning b.0 d) ∷ [] };

    ghost lawful = { Prim.search rules };

    fn weakest(&self, joint: Joint<'_>) -> Rated {
        Rated {
            number: L::NUMBER.value,
            strength: self.0.strength(joint),
        }
    }
}

// The weaker of two, the first of equals.
fn weaker(first: Rated, second: Rated) -> Rated
    ensures first { strength_of first ≤ℤ strength_of second → result ≡ first }
    ensures second { strength_of second <ℤ strength_of first → result ≡ second }
{
    min_by_key(first, second, |rated| rated.strength)
}

#[derive(Drop)]
pub struct Both<P, Q> {
    pub first: P,
    pub second: Q,
}

impl<P: Bank, Q: Bank> Bank for Both<P, Q> {
    ghost rated = { λ b d. P.Bank.rated b.first d ++ Q.Bank.rated b.second d };

    ghost lawful = { λ x d w. All-append Lawful _ _ (P.Bank.lawful x.first d w) (Q.Bank.lawful x.second d w) };

    fn weakest(&self, joint: Joint<'_>) -> Rated {
        weaker(self.first.weakest(joint), self.second.weakest(joint))
    }
}
