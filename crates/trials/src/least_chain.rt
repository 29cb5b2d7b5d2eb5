// The least chain on examples.
use crate::sheets::bolted;
use chains::{least_chain, net_width};
use sheet::Joint;
use std::test::Fail;

#[test]
fn names_all_three(rt: HostRuntime) -> Result<(), Fail> {
    let mut open = bolted(30)?;
    open.put(40, 50, 22)?;
    open.put(80, 100, 22)?;
    open.put(40, 150, 22)?;
    let mut slip = [9; 32];
    let joint = Joint::of(open.sheet())?;
    assert_eq!(rt; least_chain(joint, &mut slip).0, 144_000);
    assert_eq!(rt; slip[0], 1);
    assert_eq!(rt; slip[1], 2);
    assert_eq!(rt; slip[2], 3);
    assert_eq!(rt; slip[3], 0);
    assert_eq!(rt; slip[4], 9);
    assert_eq!(rt; slip[31], 9);
    assert_eq!(rt; net_width(joint).0, 144_000);
    Ok(())
}

#[test]
fn names_the_first_of_equals(rt: HostRuntime) -> Result<(), Fail> {
    let mut open = bolted(30)?;
    open.put(40, 50, 22)?;
    open.put(112, 104, 22)?;
    let mut slip = [9; 32];
    let joint = Joint::of(open.sheet())?;
    assert_eq!(rt; least_chain(joint, &mut slip).0, 176_000);
    assert_eq!(rt; slip[0], 1);
    assert_eq!(rt; slip[1], 0);
    assert_eq!(rt; slip[2], 9);
    assert_eq!(rt; slip[31], 9);
    Ok(())
}
