// Bearing (Section 10.3.10 of the norm): the bolts bear on the bar, line by line.
ghost use Rattle.std.specs.Prelude.{◌≡◌};
ghost use Rattle.parts.specs.Sizes.{diameter_of};
ghost use Rattle.sheet.specs.Details.{details};
ghost use Rattle.limits.specs.Bearing.{bearing_length, lines, Lined};
ghost use Rattle.limits.specs.Strengths.{bearing};
ghost use Rattle.std.proofs.Common.{lit≤, mul-le-mul, arith};
ghost use Rattle.limits.specs.Bounds.{tensile_most, bearing_most};

use crate::limit_state::LimitState;
use crate::line::HoleLine;
use crate::number::Number;
use parts::quantity::Decinewtons;
use sheet::Joint;

#[derive(Clone, Copy)]
pub struct BearingLines;

impl BearingLines {
    // The sum of one length for each hole, in tenths of a millimetre.
    pub fn length(joint: Joint<'_>) -> u64
        ensures sum { result ≡ bearing_length (diameter_of (details joint.entry).bolt.size) (details joint.entry).holes }
        ensures lined { Lined (diameter_of (details joint.entry).bolt.size) (details joint.entry).holes (lines (details joint.entry).holes) }
    {
        let diameter = joint.bolt().size.diameter();
        joint
            .holes()
            .chunk_by(|hole, next| hole.y == next.y)
            .map(|holes| HoleLine::of(holes, diameter).bearing_length())
            .sum()
    }
}

impl LimitState for BearingLines {
    const NUMBER: Number = Number { value: 4 };

    ghost NUMBER = { record { value = 4; low = lit≤ tt; high = lit≤ tt } };

    ghost meaning = { λ _ d. bearing d };

    ghost moderate = { λ x d w. omega (arith, mul-le-mul (tensile_most d.bar.steel) (mul-le-mul w.thickness.1 (bearing_most d w))) };

    fn strength(&self, joint: Joint<'_>) -> Decinewtons {
        let bar = joint.bar();
        let area = BearingLines::length(joint) * bar.thickness as u64;
        let force = bar.steel.tensile_stress().0 as u64 * area;
        Decinewtons((3 * force / 4) as i64)
    }
}
