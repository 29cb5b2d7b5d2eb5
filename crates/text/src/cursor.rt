// A page that is read line by line.
ghost use Rattle.std.specs.Prelude.{◌≡◌, ◌+◌, ◌^◌, ◌<◌, length};

pub mod lines;

// What is left of the page, and how many lines are taken from it. A line takes at least its end, so their number fits.
#[derive(Debug, PartialEq, Eq, Drop)]
pub struct Cursor<'a> {
    rest: &'a [u8],
    line: usize,
    ghost short: { line + length rest.now < 2 ^ 63 },
}

impl<'a> Cursor<'a> {
    // At the start of a page.
    pub fn new(text: &'a [u8]) -> Cursor<'a>
        ensures rest { result.rest.now ≡ text.now }
        ensures line { result.line ≡ 0 }
    {
        Cursor {
            rest: text,
            line: 0,
        }
    }

    // What is left of the page.
    pub fn rest(&self) -> &'a [u8]
        ensures { result.now ≡ self.now.rest.now }
    {
        self.rest
    }

    // The number of the line that was taken last; 0 before the first.
    pub fn line(&self) -> usize
        ensures count { result ≡ self.now.line }
        ensures room { result + length self.now.rest.now < 2 ^ 63 }
    {
        self.line
    }
}
