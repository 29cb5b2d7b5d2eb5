// The calls of a sheet, and their refusals, on examples.
use crate::sheets::bolted;
use parts::fault::Fault;
use sheet::Open;
use std::test::Fail;

#[test]
fn bar_and_bolt_are_set(rt: HostRuntime) {
    let mut sheet = Open::new();
    assert_eq!(rt; sheet.put(40, 50, 22), Err(Fault::NoBarOrBolt));
    assert_eq!(rt; sheet.bar(49, 12, 7, 30), Err(Fault::UnknownSteel));
    assert_eq!(rt; sheet.bar(49, 12, 1, 30), Err(Fault::OutOfRange));
    assert_eq!(rt; sheet.bar(200, 12, 1, 30), Ok(()));
    assert_eq!(rt; sheet.put(40, 50, 22), Err(Fault::NoBarOrBolt));
    assert_eq!(rt; sheet.bolt(5, 330, 1), Err(Fault::UnknownSize));
    assert_eq!(rt; sheet.bolt(2, 330, 3), Err(Fault::OutOfRange));
    assert_eq!(rt; sheet.bolt(2, 330, 1), Ok(()));
}

#[test]
fn holes_are_put_and_taken(rt: HostRuntime) -> Result<(), Fail> {
    let mut sheet = bolted(30)?;
    assert_eq!(rt; sheet.put(40, 50, 22), Ok(()));
    assert_eq!(rt; sheet.put(40, 103, 22), Err(Fault::TooClose { hole: 1 }));
    assert_eq!(rt; sheet.put(40, 104, 22), Ok(()));
    assert_eq!(rt; sheet.put(40, 29, 22), Err(Fault::CentreOutside));
    assert_eq!(rt; sheet.put(40, 29, 29), Err(Fault::DiameterOutside));
    assert_eq!(rt; sheet.bar(200, 12, 1, 30), Err(Fault::HolesStand));
    assert_eq!(rt; sheet.take(40, 51), Err(Fault::NoHoleThere));
    assert_eq!(rt; sheet.take(40, 50), Ok(()));
    assert_eq!(rt; sheet.put(40, 103, 22), Err(Fault::TooClose { hole: 1 }));
    Ok(())
}

#[test]
fn loads_are_set(rt: HostRuntime) {
    let mut sheet = Open::new();
    assert_eq!(rt; sheet.load('Q', 5), Err(Fault::UnknownLoad));
    assert_eq!(rt; sheet.load('D', 10_000_001), Err(Fault::LoadOutOfRange));
    assert_eq!(rt; sheet.load('D', -10_000_000), Ok(()));
    let mut again = sheet.close().reopen();
    assert_eq!(rt; again.load('E', 10_000_000), Ok(()));
}
