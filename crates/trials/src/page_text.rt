// Numbers and pieces on examples.
use std::test::Fail;
use text::cursor::Cursor;
use text::numbers::{number, signed_number};
use text::pieces::Piece;

#[test]
fn plain_numbers(rt: HostRuntime) {
    assert_eq!(rt; number(b"0"), Some(0));
    assert_eq!(rt; number(b"999999999"), Some(999_999_999));
    assert_eq!(rt; number(b"050"), None);
    assert_eq!(rt; number(b"+5"), None);
    assert_eq!(rt; number(b"1234567890"), None);
    assert_eq!(rt; number(b""), None);
}

#[test]
fn numbers_with_a_minus_sign(rt: HostRuntime) {
    assert_eq!(rt; signed_number(b"-7"), Some(-7));
    assert_eq!(rt; signed_number(b"7"), Some(7));
    assert_eq!(rt; signed_number(b"-0"), None);
    assert_eq!(rt; signed_number(b"-"), None);
}

#[test]
fn a_page_of_two_lines(rt: HostRuntime) -> Result<(), Fail> {
    let mut page = Cursor::new(b"2 holes\n50  60\n");
    let [count, name] = page.line_of::<Piece, 2>().ok_or("no line of two pieces")?;
    assert_eq!(rt; count.unsigned(), Some(2));
    assert_eq!(rt; name.signed(), None);
    assert_eq!(rt; name.line(), 1);
    assert!(rt; page.line_of::<Piece, 2>().is_none());
    assert_eq!(rt; page.rest().len(), 7);
    Ok(())
}
