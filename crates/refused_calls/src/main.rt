// The refusals of a sheet's own calls, each on an example.
#![tactic(auto)]

use std::io;

mod calls;

use calls::tell_all;

fn main(rt: HostRuntime) -> io::Result<()> {
    tell_all(&rt)
}
