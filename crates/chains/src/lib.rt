// The least chain of holes across a flat bar, and the net width along it.
#![tactic(auto)]

mod holed_bar;
mod naming;
mod neighbours;
mod search;

ghost use Rattle.std.specs.Prelude.{◌≡◌};
ghost use Rattle.sheet.specs.Details.{details};
ghost use Rattle.chains.specs.Least.{Once};
ghost use Rattle.chains.specs.NetWidth.{net_width};
ghost use Rattle.chains.specs.Rounding.{Rounded};
ghost use Rattle.chains.specs.Slips.{Named};

use holed_bar::HoledBar;
use naming::{Backwards, write_chain};
use parts::quantity::Micrometres;
use search::narrowest_end;
use sheet::Joint;

// A slip is a fixed array, since it needs no heap; where the chain is shorter, a 0 ends it.
// Names the least chain of the joint's holes on the slip, first hole first, with a 0 behind it if a place remains, and answers its width.
pub fn least_chain(joint: Joint<'_>, slip: &mut [u8; 32]) -> Micrometres
    ensures named { Named (details joint.entry).bar.width (details joint.entry).holes slip.old slip.new result.0 }
    ensures net { result.0 ≡ net_width (details joint.entry).bar.width (details joint.entry).holes }
    ensures rounded { Rounded (details joint.entry).bar.width (details joint.entry).holes result.0 }
    ensures once { Once (details joint.entry).bar.width (details joint.entry).holes }
{
    let steps = HoledBar::from(joint).steps();
    let (end, net) = narrowest_end(&steps);
    let chain = Backwards {
        steps: &steps,
        at: Some(end),
    };
    write_chain(chain, slip);
    net
}

// The width of the least chain.
pub fn net_width(joint: Joint<'_>) -> Micrometres
    ensures { result.0 ≡ net_width (details joint.entry).bar.width (details joint.entry).holes }
{
    narrowest_end(&HoledBar::from(joint).steps()).1
}
