// A limit state. Its meaning is its strength for every joint, in tenths of a newton: it depends on the joint's details alone.
ghost use Rattle.std.specs.Prelude.{◌≡◌, ℕ, ◌≤◌, pos};
ghost use Rattle.sheet.specs.Details.{Details, Sound, details};
ghost use Rattle.limits.specs.declared.number.Number.{Number as AnyNumber};

use crate::number::Number;
use parts::quantity::Decinewtons;
use sheet::Joint;

pub trait LimitState {
    const NUMBER: Number;

    ghost NUMBER: { AnyNumber };

    ghost meaning: { Self → Details → ℕ };

    // Each limit state multiplies its own stress and lengths: one function for all four would only name a product.
    fn strength(&self, joint: Joint<'_>) -> Decinewtons
        ensures { result.0 ≡ pos (meaning self.now (details joint.entry)) };

    ghost lowest: { 1 ≤ NUMBER.value } = { NUMBER.low };

    ghost highest: { NUMBER.value ≤ 99 } = { NUMBER.high };

    ghost moderate: { (x : Self) (d : Details) → Sound d → meaning x d ≤ 1000000000 };
}
