// What a sheet is asked by its calls.
ghost use Rattle.std.specs.Prelude.{◌≡◌};
ghost use Rattle.sheet.specs.Account.{answer};
ghost use Rattle.sheet.specs.Calls.{put_fault};
ghost use Rattle.sheet.specs.Kept.{account};
ghost use Rattle.sheet.specs.Law.{none};

use super::Sheet;
use parts::fault::Fault;
use parts::hole::Hole;

impl Sheet {
    // The holes, in number order.
    pub fn row(&self) -> &[Hole]
        ensures { result.now ≡ (account self.now).holes }
    {
        self.row.as_slice()
    }

    pub(crate) fn is_empty(&self) -> bool
        ensures { result ≡ none (account self.now).holes }
    {
        self.row.is_empty()
    }

    // Why a hole cannot be put.
    #[tactic(auto, unfolding(crate::specs::Calls::put_fault_by))]
    pub(crate) fn accepts(&self, hole: &Hole) -> Result<(), Fault>
        ensures { result ≡ answer (put_fault (account self.now) hole.now) }
    {
        let (Some(bar), Some(bolt)) = (self.bar, self.bolt) else {
            return Err(Fault::NoBarOrBolt);
        };
        self.row.accepts(&bar, &bolt, hole)
    }
}
