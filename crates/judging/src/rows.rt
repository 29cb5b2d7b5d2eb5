// The nineteen load combinations, in tenths of a newton.
ghost use Rattle.std.specs.Prelude.{◌≡◌, ◌<◌, pos, negsuc, ◌*ℤ◌, ◌≤ℤ◌, All, slice_range, ◌+◌, ◌*◌};
ghost use Rattle.judging.specs.Factors.{Small, weighted};
ghost use Rattle.judging.specs.Rows.{rows_of, row_at};

use parts::quantity::Decinewtons;
use std::array;

// Nineteen rows by seven factors, in tenths: dead, live, roof live, snow, rain, wind, earthquake.
// One flat table by a rule of the archive's: row by row, as the norm lists its combinations.
const FACTORS: [i64; 133] = [
    14, 0, 0, 0, 0, 0, 0, 12, 16, 5, 0, 0, 0, 0, 12, 16, 0, 5, 0, 0, 0, 12, 16, 0, 0, 5, 0, 0, 12,
    5, 16, 0, 0, 0, 0, 12, 0, 16, 0, 0, 8, 0, 12, 5, 0, 16, 0, 0, 0, 12, 0, 0, 16, 0, 8, 0, 12, 5,
    0, 0, 16, 0, 0, 12, 0, 0, 0, 16, 8, 0, 12, 5, 5, 0, 0, 13, 0, 12, 5, 0, 5, 0, 13, 0, 12, 5, 0,
    0, 5, 13, 0, 12, 5, 0, 2, 0, 0, 10, 12, 5, 0, 2, 0, 0, -10, 9, 0, 0, 0, 0, 13, 0, 9, 0, 0, 0,
    0, -13, 0, 9, 0, 0, 0, 0, 0, 10, 9, 0, 0, 0, 0, 0, -10,
];

// The seven factors of the row at a place. That they are small is said of plain numbers: a type of its own would hide them in the table.
#[tactic(auto, using(crate::proofs::Factors::seven_long))]
fn factors_of(place: usize) -> &'static [i64; 7]
    requires { place < 19 }
    ensures value { result.now ≡ slice_range FACTORS (7 * place) (7 * place + 7) }
    ensures small { All Small result.now }
{
    FACTORS[7 * place..7 * place + 7].as_array().unwrap()
}

// What a load adds to a row.
fn part(factor: i64, load: i32) -> Decinewtons
    requires { Small factor }
    ensures value { result.0 ≡ factor *ℤ load }
    ensures low_bound { negsuc 34359738367 ≤ℤ result.0 }
    ensures high_bound { result.0 ≤ℤ pos 34359738368 }
{
    Decinewtons(factor * load as i64)
}

// The sum of the loads, each times its factor.
fn row(factors: &[i64; 7], loads: &[i32; 7]) -> Decinewtons
    requires { All Small factors.now }
    ensures { result.0 ≡ weighted factors.now loads.now }
{
    let mut sum = Decinewtons(0);
    for (factor, load) in factors.iter().zip(loads) {
        sum = sum + part(*factor, *load);
    }
    sum
}

// The rows of seven loads in newtons, by their numbers.
#[tactic(auto, using(crate::proofs::Factors::row_is))]
pub fn rows(loads: &[i32; 7]) -> [Decinewtons; 19]
    ensures { result ≡ rows_of loads.now }
{
    array::from_fn(
        |place|
            requires { place < 19 }
            ensures { result ≡ row_at (rows_of loads.entry.now) place }
        { row(factors_of(place), loads) },
    )
}
