// An open sheet and the calls that it takes.
ghost use Rattle.std.specs.Prelude.{◌≡◌, Ok};
ghost use Rattle.sheet.specs.Account.{blank, FirstTells};
ghost use Rattle.sheet.specs.Calls.{Bars, Bolts, Loads, Puts, Takes, hole_at};
ghost use Rattle.sheet.specs.Kept.{account, open_account};
ghost use Rattle.sheet.specs.Numbering.{Joins, Leaves};

use super::Sheet;
use super::closed::Closed;
use crate::row::Row;
use parts::bar::Bar;
use parts::bolt::{Bolt, Size};
use parts::fault::Fault;
use parts::hole::Hole;
use parts::load::LoadKind;
use parts::quantity::Megapascals;
use parts::steel::Steel;

// Its calls take plain numbers, which come from outside.
#[derive(Drop)]
pub struct Open {
    pub(crate) sheet: Sheet,
}

impl Open {
    // A new sheet: without bar, bolt and holes, all loads 0.
    #[tactic(auto, unfolding(crate::specs::Law::lawful))]
    pub fn new() -> Open
        ensures { open_account result ≡ blank }
    {
        Open {
            sheet: Sheet {
                bar: None,
                bolt: None,
                loads: [0; 7],
                row: Row::new(),
            },
        }
    }

    #[tactic(auto, using(crate::proofs::Holes::law_none))]
    pub fn bar(&mut self, width: u32, thickness: u32, steel: u32, edge: u32) -> Result<(), Fault>
        ensures { Bars (open_account self.old) width thickness steel edge result (open_account self.new) }
    {
        if !self.sheet.is_empty() {
            return Err(Fault::HolesStand);
        }
        let steel = Steel::try_from(steel)?;
        let bar = Bar {
            width,
            thickness,
            steel,
            edge,
        };
        if !bar.in_range() {
            return Err(Fault::OutOfRange);
        }
        self.sheet = Sheet {
            bar: Some(bar),
            bolt: self.sheet.bolt,
            loads: self.sheet.loads,
            row: self.sheet.row,
        };
        Ok(())
    }

    #[tactic(auto, using(crate::proofs::Holes::law_none))]
    pub fn bolt(&mut self, size: u32, stress: u32, planes: u32) -> Result<(), Fault>
        ensures { Bolts (open_account self.old) size stress planes result (open_account self.new) }
    {
        if !self.sheet.is_empty() {
            return Err(Fault::HolesStand);
        }
        let size = Size::try_from(size)?;
        let bolt = Bolt {
            size,
            stress: Megapascals(stress),
            planes,
        };
        if !bolt.in_range() {
            return Err(Fault::OutOfRange);
        }
        self.sheet = Sheet {
            bar: self.sheet.bar,
            bolt: Some(bolt),
            loads: self.sheet.loads,
            row: self.sheet.row,
        };
        Ok(())
    }

    #[tactic(auto, using(crate::proofs::Tables::tells))]
    pub fn put(&mut self, x: u32, y: u32, diameter: u32) -> Result<(), Fault>
        ensures settled { Puts (open_account self.old) x y diameter result (open_account self.new) }
        ensures tables { FirstTells }
        ensures joins { result ≡ Ok tt → Joins (hole_at x y diameter) (open_account self.old).holes (open_account self.new).holes }
    {
        let hole = Hole { x, y, diameter };
        self.sheet.accepts(&hole)?;
        self.sheet = Sheet {
            bar: self.sheet.bar,
            bolt: self.sheet.bolt,
            loads: self.sheet.loads,
            row: self.sheet.row.with(hole),
        };
        Ok(())
    }

    #[tactic(auto, using(crate::proofs::Shift::no_centre, crate::proofs::Shift::at_centre))]
    pub fn take(&mut self, x: u32, y: u32) -> Result<(), Fault>
        ensures settled { Takes (open_account self.old) x y result (open_account self.new) }
        ensures leaves { result ≡ Ok tt → Leaves x y (open_account self.old).holes (open_account self.new).holes }
    {
        let place = self.sheet.row.place_at(x, y).ok_or(Fault::NoHoleThere)?;
        self.sheet = Sheet {
            bar: self.sheet.bar,
            bolt: self.sheet.bolt,
            loads: self.sheet.loads,
            row: self.sheet.row.without(place),
        };
        Ok(())
    }

    pub fn load(&mut self, letter: char, newtons: i32) -> Result<(), Fault>
        ensures { Loads (open_account self.old) letter newtons result (open_account self.new) }
    {
        let kind = LoadKind::try_from(letter)?;
        if !(-10_000_000..=10_000_000).contains(&newtons) {
            return Err(Fault::LoadOutOfRange);
        }
        let mut loads = self.sheet.loads;
        loads[usize::from(kind)] = newtons;
        self.sheet = Sheet {
            bar: self.sheet.bar,
            bolt: self.sheet.bolt,
            loads,
            row: self.sheet.row,
        };
        Ok(())
    }

    pub fn close(self) -> Closed
        ensures { result.sheet ≡ self.sheet }
    {
        let Open { sheet } = self;
        Closed { sheet }
    }

    pub fn sheet(&self) -> &Sheet
        ensures { result.now ≡ self.now.sheet }
    {
        &self.sheet
    }
}
