// Numbers on a page: decimal, no leading zero, no plus sign, at most nine digits.
ghost use Rattle.std.specs.Prelude.{◌≡◌, ◌≤◌, length, MatchOption};
ghost use Rattle.std.specs.Str.Parse.{digits_value, AllDigits};
ghost use Rattle.text.specs.Figures.{Tells, TellsSigned};

// The number that `text` writes, where it writes one.
pub fn number(text: &[u8]) -> Option<u32>
    ensures { Tells text.now result }
{
    match text {
        [] | [b'0', _, ..] => None,
        _ if text.len() > 9 => None,
        _ => value(text),
    }
}

// The value of these digits, where they are digits.
// Not the library's parse, which takes a plus sign and a text of characters.
fn value(digits: &[u8]) -> Option<u32>
    requires { length digits.now ≤ 9 }
    ensures { MatchOption result (AllDigits 10 digits.now → ⊥) (λ n. AllDigits 10 digits.now × (n ≡ digits_value 10 digits.now)) }
{
    let mut n: u32 = 0;
    for digit in digits {
        n = n * 10 + char::from(*digit).to_digit(10)?;
    }
    Some(n)
}

// The same with a minus sign, which does not stand before 0.
pub fn signed_number(text: &[u8]) -> Option<i32>
    ensures { TellsSigned text.now result }
{
    if let [b'-', digits @ ..] = text {
        let n = number(digits)?;
        if n == 0 { None } else { Some(-(n as i32)) }
    } else {
        let n = number(text)?;
        Some(n as i32)
    }
}
