// The bridge, exported for a program in another language to link.
#![tactic(auto)]

ghost use Rattle.bridge.specs.Told.{Told};

// How many bytes of `out` are the answer; or the greatest number there is, where the answer does not fit and `out` is left.
#[unsafe(no_mangle)]
pub extern "C" fn wurgelzit_check(text: &[u8], out: &mut [u8]) -> usize
    ensures { Told text.now out.old result out.new }
{
    bridge::wurgelzit_check(text, out)
}
