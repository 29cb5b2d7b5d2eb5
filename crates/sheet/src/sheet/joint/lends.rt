// How a joint is had from a sheet, and what it lends.
ghost use Rattle.std.specs.Prelude.{◌≡◌, length};
ghost use Rattle.sheet.specs.Details.{details, JointOf};
ghost use Rattle.sheet.specs.Kept.{account};

use super::super::Sheet;
use super::Joint;
use parts::bar::Bar;
use parts::bolt::Bolt;
use parts::fault::Fault;
use parts::hole::Hole;

impl<'a> Joint<'a> {
    // Not a conversion, whose name would not say that the sheet is looked at: it may have no bar, no bolt or no hole.
    #[tactic(auto, using(crate::proofs::Joints::no_fault, crate::proofs::Joints::all_shown, crate::proofs::Joints::sheet_sound))]
    pub fn of(sheet: &'a Sheet) -> Result<Joint<'a>, Fault>
        ensures { JointOf (account sheet.now) result }
    {
        if sheet.bar.is_none() || sheet.bolt.is_none() {
            return Err(Fault::NoBarOrBolt);
        }
        if sheet.is_empty() {
            return Err(Fault::NoHoles);
        }
        Ok(Joint { sheet })
    }

    pub fn bar(&self) -> Bar
        ensures { result ≡ (details self.now).bar }
    {
        self.sheet.bar.unwrap()
    }

    pub fn bolt(&self) -> Bolt
        ensures { result ≡ (details self.now).bolt }
    {
        self.sheet.bolt.unwrap()
    }

    // The holes, in number order.
    pub fn holes(&self) -> &'a [Hole]
        ensures { result.now ≡ (details self.now).holes }
    {
        self.sheet.row()
    }

    // The loads in newtons, by their numbers.
    pub fn loads(&self) -> &'a [i32; 7]
        ensures { result.now ≡ (details self.now).loads }
    {
        &self.sheet.loads
    }
}
