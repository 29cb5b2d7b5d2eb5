// A length, a stress and a force are each a quantity of its own: sums and order stay within one.
// Micrometres and Decinewtons have a sum each: one sum for both would be that of a single type with a unit, and they are separate types.
ghost use Rattle.std.specs.Prelude.{◌≡◌, ◌+ℤ◌, ◌-ℤ◌, FitsSigned};
ghost use Rattle.std.specs.Int.{w64};

use std::ops::{Add, Sub};

// A net width or a stagger term, in thousandths of a millimetre.
#[derive(Clone, Copy, Debug, Default, PartialEq, Eq, PartialOrd, Ord)]
pub struct Micrometres(pub i64);

// A yield, tensile or shear stress.
#[derive(Clone, Copy, Debug, PartialEq, Eq, PartialOrd, Ord)]
pub struct Megapascals(pub u32);

// A row of the loads or a strength, in tenths of a newton.
#[derive(Clone, Copy, Debug, PartialEq, Eq, PartialOrd, Ord)]
pub struct Decinewtons(pub i64);

impl Add<Micrometres> for Micrometres {
    type Output = Micrometres;

    ghost can_add = { λ a b. FitsSigned w64 (a.0 +ℤ b.0) };

    ghost add_gives = { λ a b r. r.0 ≡ a.0 +ℤ b.0 };

    fn add(self, rhs: Micrometres) -> Micrometres {
        Micrometres(self.0 + rhs.0)
    }
}

impl Sub<Micrometres> for Micrometres {
    type Output = Micrometres;

    ghost can_sub = { λ a b. FitsSigned w64 (a.0 -ℤ b.0) };

    ghost sub_gives = { λ a b r. r.0 ≡ a.0 -ℤ b.0 };

    fn sub(self, rhs: Micrometres) -> Micrometres {
        Micrometres(self.0 - rhs.0)
    }
}

impl Add<Decinewtons> for Decinewtons {
    type Output = Decinewtons;

    ghost can_add = { λ a b. FitsSigned w64 (a.0 +ℤ b.0) };

    ghost add_gives = { λ a b r. r.0 ≡ a.0 +ℤ b.0 };

    fn add(self, rhs: Decinewtons) -> Decinewtons {
        Decinewtons(self.0 + rhs.0)
    }
}
