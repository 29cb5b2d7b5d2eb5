// What a limit state says of a joint: its number and its strength.
use parts::quantity::Decinewtons;

#[derive(Clone, Copy, Debug, PartialEq, Eq)]
pub struct Rated {
    pub number: u8,
    pub strength: Decinewtons,
}
