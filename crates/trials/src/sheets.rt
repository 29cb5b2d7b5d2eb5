// The sheet that the examples begin with.
use parts::fault::Fault;
use sheet::Open;

// With a bar of 200 mm, this edge distance, and M20 bolts.
pub(crate) fn bolted(edge: u32) -> Result<Open, Fault> {
    let mut sheet = Open::new();
    sheet.bar(200, 12, 1, edge)?;
    sheet.bolt(2, 330, 1)?;
    Ok(sheet)
}
