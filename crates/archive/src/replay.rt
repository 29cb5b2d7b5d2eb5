// A list of calls replayed from a new sheet.
ghost use Rattle.archive.specs.Promises.{Promises};
ghost use Rattle.archive.specs.Replays.{Replays};
ghost use Rattle.archive.specs.Standing.{HolesStand, LoadsLast};

use crate::call::{Answer, Call, Halt};
use crate::state::State;
use crate::step::Replayer;
use limits::bank::Bank;
use sheet::Open;
use std::alloc::Global;

// Hands each call the sheet that the one before left, and answers each. For every bank and every list.
pub fn replay<B: Bank>(heap: Global, bank: &B, calls: &[Call]) -> Result<Vec<Answer>, Halt>
    ensures replays { Replays (B.rated bank.now) calls.now result }
    ensures holes { HolesStand }
    ensures loads { LoadsLast }
    ensures promises { Promises (B.rated bank.now) calls.now result }
{
    let replayer = Replayer { bank, heap };
    let mut answers = Vec::new(heap);
    let mut state = State::Opened(Open::new());
    for (place, call) in calls.iter().enumerate() {
        let led = replayer.step(state, *call)?;
        let (next, answer) = led.ok_or(Halt::OutOfOrder { place })?;
        state = next;
        answers.push(answer)?;
    }
    Ok(answers)
}
