// A text cut at the first of a byte.
ghost use Rattle.std.specs.Prelude.{◌≡◌, ◌↔◌, IsTrue, MatchOption};
ghost use Rattle.text.specs.Words.{Lacks, CutAt};

// What stands before the first `at` and after it, where there is one.
pub fn cut(text: &[u8], at: u8) -> Option<(&[u8], &[u8])>
    ensures { MatchOption result (Lacks at text.now) (λ p. CutAt at text.now p.0.now p.1.now) }
{
    let end = text.iter().position(|b| *b == at)?;
    Some((&text[..end], &text[end + 1..]))
}

// Whether two texts are the same. A public promise that stands; it is the language's own equality.
pub fn same(a: &[u8], b: &[u8]) -> bool
    ensures { IsTrue result ↔ (a.now ≡ b.now) }
{
    a == b
}
