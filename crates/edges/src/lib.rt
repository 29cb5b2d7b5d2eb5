// The worked figures at the edges, from the definitions alone.
#![tactic(auto)]

ghost use Rattle.edges.specs.Figures.{Figures};

// Every figure of the table holds.
pub fn figures_hold()
    ensures { Figures }
{}
