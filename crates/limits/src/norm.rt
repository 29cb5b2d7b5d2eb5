// The norm's own bank: gross yielding, net rupture, bolt shear and bearing, in this order.
ghost use Rattle.sheet.specs.Details.{details};
ghost use Rattle.limits.specs.Rating.{FirstWeakest};
ghost use Rattle.limits.specs.Norm.{norm_ratings};

use crate::bank::{Bank, Both, Only};
use crate::bearing_lines::BearingLines;
use crate::bolt_group::BoltGroup;
use crate::chain_search::ChainSearch;
use crate::gross_yielding::GrossYielding;
use crate::rated::Rated;
use sheet::Joint;

pub type Norm = Both<
    Both<Both<Only<GrossYielding>, Only<ChainSearch>>, Only<BoltGroup>>,
    Only<BearingLines>,
>;

pub fn norm() -> Norm {
    Both {
        first: Both {
            first: Both {
                first: Only(GrossYielding),
                second: Only(ChainSearch),
            },
            second: Only(BoltGroup),
        },
        second: Only(BearingLines),
    }
}

// The first of the weakest of the four.
pub fn weakest(joint: Joint<'_>) -> Rated
    ensures { FirstWeakest (norm_ratings (details joint.entry)) result }
{
    norm().weakest(joint)
}
