// Bolt shear (Section 10.3.6 of the norm): the bolts are cut in their shear planes.
ghost use Rattle.limits.specs.Strengths.{bolt_shear};
ghost use Rattle.std.proofs.Common.{lit≤, mul-le-mul, arith};
ghost use Rattle.limits.specs.Bounds.{area_most};

use crate::limit_state::LimitState;
use crate::number::Number;
use parts::quantity::Decinewtons;
use sheet::Joint;

#[derive(Clone, Copy)]
pub struct BoltGroup;

impl LimitState for BoltGroup {
    const NUMBER: Number = Number { value: 3 };

    ghost NUMBER = { record { value = 3; low = lit≤ tt; high = lit≤ tt } };

    ghost meaning = { λ _ d. bolt_shear d };

    ghost moderate = { λ x d w.
        let planes = mul-le-mul w.few w.planes.1 in
        omega (arith, mul-le-mul w.stress.1 (mul-le-mul (area_most d.bolt.size) planes)) };

    fn strength(&self, joint: Joint<'_>) -> Decinewtons {
        let bolt = joint.bolt();
        let planes = joint.holes().len() as u64 * bolt.planes as u64;
        let force = bolt.stress.0 as u64 * (bolt.size.area() as u64 * planes);
        Decinewtons((15 * force / 2) as i64)
    }
}
