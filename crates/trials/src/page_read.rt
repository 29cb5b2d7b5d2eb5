use reading::read::read;
use sheet::Open;
use std::test::Fail;

#[test]
fn a_page_with_a_text_behind_it(rt: HostRuntime) -> Result<(), Fail> {
    let mut open = Open::new();
    let text =
        b"1 bar\n100 10 A36 30\n1 bolt\nM20 400 2\n1 holes\n50 50 22\n7 loads\nD 9\nL 8\nA 0\nS 0\nR 0\nW -5\nE 0\nend";
    let taken = read(&mut open, text)?;
    assert_eq!(rt; taken, text.len() - 3);
    Ok(())
}

#[test]
fn the_first_faulty_line_is_told(rt: HostRuntime) -> Result<(), Fail> {
    let mut open = Open::new();
    let text = b"1 bar\n100 10 A36 30\n1 bolt\nM18 4000 3\n0 holes\n";
    let Err(fault) = read(&mut open, text) else {
        return Err(Fail::new("a size of 18 mm is accepted"));
    };
    assert_eq!(rt; fault.number(), 2);
    assert_eq!(rt; fault.line, 4);
    Ok(())
}
