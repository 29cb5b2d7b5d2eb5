// What the search takes from a joint. Its type keeps the bounds, and that holes are numbered by rising y.
ghost use Rattle.std.specs.Prelude.{◌≡◌};
ghost use Rattle.sheet.specs.Details.{details};
ghost use Rattle.chains.specs.Search.{Ready};

use parts::hole::Hole;
use sheet::Joint;

#[derive(Clone, Copy)]
pub(crate) struct HoledBar<'a> {
    pub(crate) width: u32,
    pub(crate) holes: &'a [Hole],
    ghost ready: { Ready width holes.now },
}

impl<'a> From<Joint<'a>> for HoledBar<'a> {
    ghost from_gives = { λ joint bar. (bar.width ≡ (details joint).bar.width) × (bar.holes.now ≡ (details joint).holes) };

    #[tactic(auto, using(crate::proofs::Facts::joint_ready))]
    fn from(joint: Joint<'a>) -> HoledBar<'a> {
        HoledBar {
            width: joint.bar().width,
            holes: joint.holes(),
        }
    }
}
