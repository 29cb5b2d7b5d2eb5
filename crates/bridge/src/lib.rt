// Checking a text, told by one number: what a program in another language calls.
#![tactic(auto)]

ghost use Rattle.std.specs.Prelude.{◌≡◌};
ghost use Rattle.bridge.specs.Told.{Told};

use archive::check::check;

// One number for both cases, since C has no `Result`.
// How many bytes of `out` are the answer; or the greatest number there is, where the answer does not fit and `out` is left.
pub fn wurgelzit_check(text: &[u8], out: &mut [u8]) -> usize
    ensures { Told text.now out.old result out.new }
{
    check(text, out).unwrap_or(usize::MAX)
}
