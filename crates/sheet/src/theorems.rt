// What the tables of refusals come to.
ghost use Rattle.sheet.specs.Account.{FirstTells};

// A table of refusals gives its first line whose condition holds.
#[tactic(auto, using(crate::proofs::Tables::tells))]
pub fn first_tells()
    ensures { FirstTells }
{}
