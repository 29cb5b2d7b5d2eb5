// A text as it is written, before it is copied to the caller. It holds the first 4,096 bytes.
ghost use Rattle.std.specs.Prelude.{◌≤◌};
ghost use Rattle.arrayvec.specs.ArrayVec.{array_vec_len};

pub mod writes;

use arrayvec::ArrayVec;

const CAPACITY: usize = 4096;

#[derive(Debug, PartialEq, Eq, Drop)]
pub struct Draft {
    bytes: ArrayVec<u8, CAPACITY>,
    ghost room: { array_vec_len bytes ≤ 4096 },
}
