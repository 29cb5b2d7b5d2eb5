// The next line of a page, whole or as so many pieces. Where there is no such line, the cursor stays.
ghost use Rattle.text.specs.Cursors.{Passes, Taken};
ghost use Rattle.text.specs.Words.{Lacks};
ghost use Rattle.std.specs.Prelude.{◌≡◌, MatchOption};

use crate::cursor::Cursor;
use crate::cutting::cut;
use crate::pieces::{FromText, pieces_of};

impl<'a> Cursor<'a> {
    // The next line, without the byte that ends it.
    pub fn next(&mut self) -> Option<&'a [u8]>
        ensures { MatchOption result (Lacks 10 self.old.rest.now × (self.new ≡ self.old)) (λ l. Passes self.old l.now self.new) }
    {
        let (line, after) = self.passed()?;
        *self = after;
        Some(line)
    }

    // The next line as so many pieces.
    pub fn line_of<P: FromText<'a>, const N: usize>(&mut self) -> Option<[P; N]>
        ensures { Taken P.said P.is_sound N self.old result self.new }
    {
        let (line, after) = self.passed()?;
        let pieces = pieces_of(line, after.line)?;
        *self = after;
        Some(pieces)
    }

    // The next line, and the cursor behind it.
    fn passed(&self) -> Option<(&'a [u8], Cursor<'a>)>
        ensures { MatchOption result (Lacks 10 self.now.rest.now) (λ p. Passes self.now p.0.now p.1) }
    {
        let (line, rest) = cut(self.rest, b'\n')?;
        let after = Cursor {
            rest,
            line: self.line + 1,
        };
        Some((line, after))
    }
}
