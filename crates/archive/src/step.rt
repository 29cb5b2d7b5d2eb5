// One call on a sheet.
ghost use Rattle.std.specs.Prelude.{◌≡◌, true, false, Ok, Option, vec_len};
ghost use Rattle.parts.specs.declared.fault.Fault.{Fault};
ghost use Rattle.sheet.specs.Account.{answer};
ghost use Rattle.sheet.specs.Kept.{open_account, closed_account};
ghost use Rattle.archive.specs.Given.{outcome, Gives};
ghost use Rattle.archive.specs.States.{account_of, opened, Leads};
ghost use Rattle.archive.specs.declared.call.Call.TheVariants.{Judge, Page};

use crate::call::{Answer, Call, Reply};
use crate::state::State;
use judging::judge::judge;
use limits::bank::Bank;
use parts::fault::Fault;
use sheet::{Closed, Open};
use std::alloc::{AllocError, Global};
use writing::page::page;

fn answered(said: Result<(), Fault>) -> Answer
    ensures { (fault : Option Fault) → said ≡ answer fault → result ≡ outcome fault }
{
    said?;
    Ok(Reply::Accepted)
}

// What the calls of a run rest on: a bank that judges, and a heap for its pages.
#[derive(Clone, Copy)]
pub(crate) struct Replayer<'a, B> {
    pub(crate) bank: &'a B,
    pub(crate) heap: Global,
}

impl<B: Bank> Replayer<'_, B> {
    fn judged(&self, sheet: &Open) -> Answer
        ensures { Gives (B.rated self.now.bank.now) (open_account sheet.now) Judge result }
    {
        let mut slip = [0; 32];
        let judgment = judge(sheet, self.bank, &mut slip)?;
        Ok(Reply::Judged { judgment, slip })
    }

    // The page, in as many of these bytes as it has.
    fn paged(&self, sheet: &Closed, mut bytes: Vec<u8>) -> Answer
        ensures { Gives (B.rated self.now.bank.now) (closed_account sheet.now) (Page (vec_len bytes)) result }
    {
        let count = page(sheet, self.bank, &mut bytes)?;
        bytes.truncate(count);
        Ok(Reply::Page(bytes))
    }

    // None where an open sheet does not take the call.
    fn at_open(&self, mut sheet: Open, call: Call) -> Option<(State, Answer)>
        ensures { Leads (B.rated self.now.bank.now) (open_account sheet) true call (Ok result) }
    {
        let answer = match call {
            Call::Bar {
                width,
                thickness,
                steel,
                edge,
            } => answered(sheet.bar(width, thickness, steel, edge)),
            Call::Bolt {
                size,
                stress,
                planes,
            } => answered(sheet.bolt(size, stress, planes)),
            Call::Put { x, y, diameter } => answered(sheet.put(x, y, diameter)),
            Call::Take { x, y } => answered(sheet.take(x, y)),
            Call::Load { letter, newtons } => answered(sheet.load(letter, newtons)),
            Call::Judge => self.judged(&sheet),
            Call::Close => return Some((State::Shut(sheet.close()), Ok(Reply::Accepted))),
            Call::Page { .. } | Call::Reopen => return None,
        };
        Some((State::Opened(sheet), answer))
    }

    // None where a closed sheet does not take the call.
    fn at_closed(&self, sheet: Closed, call: Call) -> Result<Option<(State, Answer)>, AllocError>
        ensures { Leads (B.rated self.now.bank.now) (closed_account sheet) false call result }
    {
        match call {
            Call::Page { room } => {
                let bytes = vec![in self.heap; 0; room]?;
                let answer = self.paged(&sheet, bytes);
                Ok(Some((State::Shut(sheet), answer)))
            }
            Call::Reopen => Ok(Some((State::Opened(sheet.reopen()), Ok(Reply::Accepted)))),
            _ => Ok(None),
        }
    }

    // The sheet and the answer after a call; None where the sheet, open or closed, does not take it.
    pub(crate) fn step(
        &self,
        state: State,
        call: Call,
    ) -> Result<Option<(State, Answer)>, AllocError>
        ensures { Leads (B.rated self.now.bank.now) (account_of state) (opened state) call result }
    {
        match state {
            State::Opened(sheet) => Ok(self.at_open(sheet, call)),
            State::Shut(sheet) => self.at_closed(sheet, call),
        }
    }
}
