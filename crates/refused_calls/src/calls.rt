// The refusals that the calls of a sheet give, each on an example, in the order of their table.
use judging::judge::judge;
use judging::judgment::Judgment;
use limits::norm::norm;
use parts::fault::Fault;
use sheet::Open;
use std::fmt::Display;
use std::io;
use writing::fault::PageFault;
use writing::page::page;

fn tell<T: Drop, E: Display + Drop>(
    rt: &HostRuntime,
    example: &str,
    said: Result<T, E>,
) -> io::Result<()> {
    match said {
        Ok(_) => println!(rt; "{example}: accepted"),
        Err(fault) => println!(rt; "{example}: {fault}"),
    }
}

fn judged(sheet: Open) -> Result<Judgment, Fault> {
    judge(&sheet, &norm(), &mut [0; 32])
}

fn paged(sheet: Open, out: &mut [u8]) -> Result<usize, PageFault> {
    page(&sheet.close(), &norm(), out)
}

// A bar of 200 mm with edge distance 30, and M20 bolts.
fn bar_and_bolt() -> Open {
    let mut sheet = Open::new();
    let _ = sheet.bar(200, 12, 1, 30);
    let _ = sheet.bolt(2, 330, 1);
    sheet
}

fn one_hole() -> Open {
    let mut sheet = bar_and_bolt();
    let _ = sheet.put(40, 50, 22);
    sheet
}

// Two lines of sixteen holes.
fn all_holes() -> Open {
    let mut sheet = bar_and_bolt();
    for x in (40..=940).step_by(60) {
        let _ = sheet.put(x, 50, 22);
        let _ = sheet.put(x, 110, 22);
    }
    sheet
}

fn tell_bars_and_bolts(rt: &HostRuntime) -> io::Result<()> {
    tell(rt, "bar after one put", one_hole().bar(200, 12, 1, 30))?;
    tell(rt, "bolt after one put", one_hole().bolt(2, 330, 1))?;
    tell(rt, "a bar of steel 7", Open::new().bar(200, 12, 7, 30))?;
    tell(rt, "a bolt of size 5", Open::new().bolt(5, 330, 1))?;
    tell(rt, "a bar of width 49", Open::new().bar(49, 12, 1, 30))?;
    tell(rt, "a bolt with 3 planes", Open::new().bolt(2, 330, 3))
}

fn tell_holes(rt: &HostRuntime) -> io::Result<()> {
    tell(rt, "put on a new sheet", Open::new().put(40, 50, 22))?;
    tell(rt, "judge on a new sheet", judged(Open::new()))?;
    tell(
        rt,
        "page of a new sheet",
        paged(Open::new(), &mut [0; 4096]),
    )?;
    tell(rt, "the 33rd hole", all_holes().put(40, 170, 22))?;
    tell(rt, "M20, diameter 29", bar_and_bolt().put(40, 50, 29))?;
    tell(rt, "edge 30, y = 29", bar_and_bolt().put(40, 29, 22))?;
    tell(
        rt,
        "M20, (40, 50), then (40, 103)",
        one_hole().put(40, 103, 22),
    )?;
    tell(
        rt,
        "M20, (40, 50), then (40, 104)",
        one_hole().put(40, 104, 22),
    )?;
    tell(rt, "take on a new sheet", Open::new().take(40, 50))
}

fn tell_loads(rt: &HostRuntime) -> io::Result<()> {
    tell(rt, "load Q", Open::new().load('Q', 5))?;
    tell(
        rt,
        "load D of 10,000,001",
        Open::new().load('D', 10_000_001),
    )
}

fn tell_judgments(rt: &HostRuntime) -> io::Result<()> {
    tell(rt, "judge with bar and bolt only", judged(bar_and_bolt()))?;
    tell(
        rt,
        "page with bar and bolt only",
        paged(bar_and_bolt(), &mut [0; 4096]),
    )?;
    tell(rt, "page in 10 bytes", paged(one_hole(), &mut [0; 10]))?;
    tell(rt, "page in 4,096 bytes", paged(one_hole(), &mut [0; 4096]))
}

pub(crate) fn tell_all(rt: &HostRuntime) -> io::Result<()> {
    println!(rt; "# the calls of a sheet")?;
    tell_bars_and_bolts(rt)?;
    tell_holes(rt)?;
    tell_loads(rt)?;
    tell_judgments(rt)
}
