// Gross yielding (Chapter 4 of the norm): the bar yields across its whole section.
ghost use Rattle.limits.specs.Strengths.{gross_yielding};
ghost use Rattle.std.proofs.Common.{lit≤, mul-le-mul, arith};
ghost use Rattle.limits.specs.Bounds.{yield_most};

use crate::limit_state::LimitState;
use crate::number::Number;
use parts::quantity::Decinewtons;
use sheet::Joint;

#[derive(Clone, Copy)]
pub struct GrossYielding;

impl LimitState for GrossYielding {
    const NUMBER: Number = Number { value: 1 };

    ghost NUMBER = { record { value = 1; low = lit≤ tt; high = lit≤ tt } };

    ghost meaning = { λ _ d. gross_yielding d };

    ghost moderate = { λ x d w. omega (arith, mul-le-mul (yield_most d.bar.steel) (mul-le-mul w.width.1 w.thickness.1)) };

    fn strength(&self, joint: Joint<'_>) -> Decinewtons {
        let bar = joint.bar();
        let area = bar.width as u64 * bar.thickness as u64;
        let force = bar.steel.yield_stress().0 as u64 * area;
        Decinewtons((9 * force) as i64)
    }
}
