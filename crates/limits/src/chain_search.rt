// Net rupture (Chapter 4 of the norm): the bar tears along its least chain of holes.
ghost use Rattle.std.specs.Prelude.{◌≡◌};
ghost use Rattle.limits.specs.Strengths.{counted, net_rupture};
ghost use Rattle.std.proofs.Common.{lit≤, mul-le-mul, arith};
ghost use Rattle.limits.specs.Bounds.{tensile_most, net_most};

use crate::limit_state::LimitState;
use crate::number::Number;
use chains::net_width;
use parts::quantity::{Decinewtons, Micrometres};
use sheet::Joint;

#[derive(Clone, Copy)]
pub struct ChainSearch;

// A width under zero counts as zero.
fn counted_width(width: Micrometres) -> u64
    ensures { result ≡ counted width.0 }
{
    width.0.max(0) as u64
}

impl LimitState for ChainSearch {
    const NUMBER: Number = Number { value: 2 };

    ghost NUMBER = { record { value = 2; low = lit≤ tt; high = lit≤ tt } };

    ghost meaning = { λ _ d. net_rupture d };

    ghost moderate = { λ x d w. omega (arith, mul-le-mul (tensile_most d.bar.steel) (mul-le-mul (net_most d w) w.thickness.1)) };

    fn strength(&self, joint: Joint<'_>) -> Decinewtons {
        let bar = joint.bar();
        let area = counted_width(net_width(joint)) * bar.thickness as u64;
        let force = bar.steel.tensile_stress().0 as u64 * area;
        Decinewtons((3 * force / 400) as i64)
    }
}
