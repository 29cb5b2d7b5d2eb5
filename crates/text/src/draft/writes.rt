// What is written on a draft, and copied from it.
ghost use Rattle.std.specs.Prelude.{◌≡◌, [], ◌∷◌};
ghost use Rattle.text.specs.Drafts.{written, Adds, Laid};
ghost use Rattle.text.specs.Words.{header};

use super::Draft;
use arrayvec::ArrayVec;
use itoa::{Buffer, Integer};

impl Draft {
    pub fn new() -> Draft
        ensures { written result ≡ [] }
    {
        Draft {
            bytes: ArrayVec::new(),
        }
    }

    pub fn byte(&mut self, b: u8)
        ensures { Adds self.old (b ∷ []) self.new }
    {
        // A byte past the capacity is left out.
        let _ = self.bytes.try_push(b);
    }

    pub fn word(&mut self, w: &[u8])
        ensures { Adds self.old w.now self.new }
    {
        let room = self.bytes.remaining_capacity();
        let n = w.len().min(room);
        let _ = self.bytes.try_extend_from_slice(&w[..n]);
    }

    // The number in decimal, with a minus sign before it where it is under 0.
    pub fn number<I: Integer>(&mut self, n: I)
        ensures { Adds self.old (I.text n) self.new }
    {
        for b in Buffer::new().format(n).as_bytes() {
            self.byte(*b);
        }
    }

    // The first line of a section: its count and its name.
    pub fn header(&mut self, count: u64, name: &[u8])
        ensures { Adds self.old (header count name.now) self.new }
    {
        self.number(count);
        self.byte(b' ');
        self.word(name);
        self.byte(b'\n');
    }

    // The text, copied to the front of `out`, where it fits.
    pub fn copy_to(&self, out: &mut [u8]) -> Option<usize>
        ensures { Laid (written self.now) out.old result out.new }
    {
        let n = self.bytes.len();
        if n > out.len() {
            return None;
        }
        out[..n].copy_from_slice(self.bytes.as_slice());
        Some(n)
    }
}
