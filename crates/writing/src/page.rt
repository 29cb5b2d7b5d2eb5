// The page of a closed sheet.
ghost use Rattle.sheet.specs.Details.{details};
ghost use Rattle.sheet.specs.Kept.{closed_account};
ghost use Rattle.writing.specs.Pages.{Drafted, Pages};

use crate::fault::PageFault;
use crate::verdict::{numbers_on, write_chain, write_verdict};
use judging::judge::judge_joint;
use limits::bank::Bank;
use sections::writes::{write_bar, write_bolt, write_holes, write_loads};
use sheet::{Closed, Joint};
use text::draft::Draft;

fn drafted<B: Bank>(joint: Joint<'_>, bank: &B) -> Draft
    ensures { Drafted (B.rated bank.now) (details joint.entry) result }
{
    let mut slip = [0; 32];
    let judgment = judge_joint(joint, bank, &mut slip);
    let mut draft = Draft::new();
    write_bar(&mut draft, &joint.bar());
    write_bolt(&mut draft, &joint.bolt());
    write_holes(&mut draft, joint.holes());
    write_loads(&mut draft, joint.loads());
    write_verdict(&mut draft, &judgment);
    write_chain(&mut draft, numbers_on(&slip));
    draft
}

// Judges a closed sheet by a bank, and writes its page to the front of `out`.
pub fn page<B: Bank>(sheet: &Closed, bank: &B, out: &mut [u8]) -> Result<usize, PageFault>
    ensures { Pages (B.rated bank.now) (closed_account sheet.now) out.old result out.new }
{
    let joint = Joint::of(sheet.sheet())?;
    drafted(joint, bank).copy_to(out).ok_or(PageFault::NoRoom)
}
