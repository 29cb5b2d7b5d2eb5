// A limit state of one's own, and a bank of it.
#![tactic(auto)]

ghost use Rattle.std.specs.Prelude.{◌*◌};
ghost use Rattle.std.proofs.Common.{lit≤, rules};

use limits::limit_state::LimitState;
use limits::number::Number;
use parts::quantity::Decinewtons;
use sheet::Joint;

// A joint that bears 50 N for each millimetre of its bar's width.
#[derive(Clone, Copy)]
pub struct PerWidth;

impl LimitState for PerWidth {
    const NUMBER: Number = Number { value: 77 };

    ghost NUMBER = { record { value = 77; low = lit≤ tt; high = lit≤ tt } };

    ghost meaning = { λ _ d. 500 * d.bar.width };

    ghost moderate = { Prim.search rules };

    fn strength(&self, joint: Joint<'_>) -> Decinewtons {
        Decinewtons(500 * joint.bar().width as i64)
    }
}

#[cfg(test)]
mod tests {
    use super::*;
    use judging::judge::judge;
    use judging::judgment::Kind;
    use judging::rows::rows;
    use limits::bank::Only;
    use parts::fault::Fault;
    use sheet::Open;
    use std::test::Fail;

    // A bar of 200 mm with one hole.
    fn one_hole() -> Result<Open, Fault> {
        let mut sheet = Open::new();
        sheet.bar(200, 10, 1, 40)?;
        sheet.bolt(2, 330, 1)?;
        sheet.put(40, 100, 22)?;
        Ok(sheet)
    }

    #[test]
    fn wind_reverses_the_force(rt: HostRuntime) -> Result<(), Fail> {
        let mut sheet = one_hole()?;
        sheet.load('D', 10_000)?;
        sheet.load('W', 20_000)?;
        let mut slip = [9u8; 32];
        let told = judge(&sheet, &Only(PerWidth), &mut slip)?;
        assert_eq!(rt; told.kind, Kind::Reverses);
        assert_eq!(rt; told.least.0, -170_000);
        assert_eq!(rt; rows(&[10_000, 0, 0, 0, 0, 20_000, 0])[16].0, -170_000);
        assert_eq!(rt; (told.row, told.greatest.0), (11, 380_000));
        assert_eq!(rt; (told.state, told.strength.0), (77, 100_000));
        Ok(())
    }

    #[test]
    fn nothing_loaded_passes(rt: HostRuntime) -> Result<(), Fail> {
        let mut slip = [9u8; 32];
        let told = judge(&one_hole()?, &Only(PerWidth), &mut slip)?;
        assert_eq!(rt; told.kind, Kind::Passes);
        assert_eq!(rt; (told.row, told.greatest.0), (1, 0));
        assert_eq!(rt; told.net_width.0, 176_000);
        assert_eq!(rt; (slip[0], slip[1], slip[2]), (1, 0, 9));
        Ok(())
    }
}
