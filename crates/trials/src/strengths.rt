// The norm's four strengths on examples.
use crate::sheets::bolted;
use limits::bank::Bank;
use limits::bearing_lines::BearingLines;
use limits::bolt_group::BoltGroup;
use limits::chain_search::ChainSearch;
use limits::gross_yielding::GrossYielding;
use limits::limit_state::LimitState;
use sheet::Joint;
use std::test::Fail;

#[test]
fn of_the_three_hole_bar(rt: HostRuntime) -> Result<(), Fail> {
    let mut sheet = bolted(24)?;
    sheet.put(40, 50, 22)?;
    sheet.put(80, 100, 22)?;
    sheet.put(40, 150, 22)?;
    let joint = Joint::of(sheet.sheet())?;
    assert_eq!(rt; GrossYielding.strength(joint).0, 5_400_000);
    assert_eq!(rt; ChainSearch.strength(joint).0, 5_184_000);
    assert_eq!(rt; BoltGroup.strength(joint).0, 2_331_450);
    assert_eq!(rt; BearingLines.strength(joint).0, 4_608_000);
    Ok(())
}

// 0.75 × 400 MPa × 12 mm × the sum of the lengths, in tenths of a newton: 36,000 for each millimetre.
fn bearing(near: u32, far: u32) -> Result<i64, Fail> {
    let mut sheet = bolted(24)?;
    sheet.put(near, 100, 22)?;
    sheet.put(far, 100, 22)?;
    let joint = Joint::of(sheet.sheet())?;
    Ok(BearingLines.strength(joint).0)
}

#[test]
fn of_one_line_in_bearing(rt: HostRuntime) -> Result<(), Fail> {
    assert_eq!(rt; bearing(30, 90)?, 36_000 * (48 + 48));
    assert_eq!(rt; bearing(30, 89)?, 36_000 * (30 + 48));
    assert_eq!(rt; bearing(29, 89)?, 36_000 * (29 + 48));
    Ok(())
}
