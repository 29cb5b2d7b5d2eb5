// A judgment from the rows, the weakest limit state and the net width.
ghost use Rattle.std.specs.Prelude.{◌≡◌};
ghost use Rattle.judging.specs.Weighing.{Weighed, kind_of};

use crate::judgment::{Judgment, Kind};
use limits::rated::Rated;
use parts::quantity::{Decinewtons, Micrometres};
use std::cmp::Reverse;

// A force that would turn round counts before one that is too great.
fn kind(least: Decinewtons, greatest: Decinewtons, strength: Decinewtons) -> Kind
    ensures { result ≡ kind_of least.0 greatest.0 strength.0 }
{
    if least < Decinewtons(0) {
        Kind::Reverses
    } else if strength < greatest {
        Kind::Overstressed
    } else {
        Kind::Passes
    }
}

pub(crate) fn weighed(rows: &[Decinewtons; 19], weakest: Rated, net_width: Micrometres) -> Judgment
    ensures { Weighed rows.now weakest net_width result }
{
    let (place, greatest) = rows
        .iter()
        .enumerate()
        .min_by_key(|(_, row)| Reverse(**row))
        .unwrap();
    let least = rows.iter().min().unwrap();
    Judgment {
        kind: kind(*least, *greatest, weakest.strength),
        row: place as u8 + 1,
        state: weakest.number,
        greatest: *greatest,
        strength: weakest.strength,
        net_width,
        least: *least,
    }
}
