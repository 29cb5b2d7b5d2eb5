// A joint judged by a bank of limit states.
ghost use Rattle.sheet.specs.Details.{details};
ghost use Rattle.sheet.specs.Kept.{open_account};
ghost use Rattle.judging.specs.Judging.{Tells, Judges};

use crate::judgment::Judgment;
use crate::rows::rows;
use crate::weighing::weighed;
use chains::least_chain;
use limits::bank::Bank;
use parts::fault::Fault;
use sheet::{Joint, Open};

// Judges a joint, and names its least chain on the slip.
pub fn judge_joint<B: Bank>(joint: Joint<'_>, bank: &B, slip: &mut [u8; 32]) -> Judgment
    ensures { Tells (B.rated bank.now) (details joint.entry) slip.old slip.new result }
{
    let net_width = least_chain(joint, slip);
    weighed(&rows(joint.loads()), bank.weakest(joint), net_width)
}

// Judges an open sheet.
pub fn judge<B: Bank>(sheet: &Open, bank: &B, slip: &mut [u8; 32]) -> Result<Judgment, Fault>
    ensures { Judges (B.rated bank.now) (open_account sheet.now) slip.old slip.new result }
{
    let joint = Joint::of(sheet.sheet())?;
    Ok(judge_joint(joint, bank, slip))
}
