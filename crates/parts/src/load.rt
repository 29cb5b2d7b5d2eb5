// The seven loads, by their letters.
ghost use Rattle.std.specs.Prelude.{◌≡◌, ◌≢◌, ◌∷◌, [], ok_or, MatchResult};
ghost use Rattle.parts.specs.LoadKinds.{kind_number, kind_of, letter_of};
ghost use Rattle.parts.specs.declared.fault.Fault.TheVariants.{UnknownLoad};
ghost use Rattle.parts.specs.declared.load.LoadKind.{LoadKind as AnyKind};

use crate::fault::Fault;

#[derive(Clone, Copy, Debug, PartialEq, Eq)]
pub enum LoadKind {
    Dead,
    Live,
    RoofLive,
    Snow,
    Rain,
    Wind,
    Earthquake,
}

impl LoadKind {
    // In the order of their numbers.
    pub const ALL: [LoadKind; 7] = [
        LoadKind::Dead,
        LoadKind::Live,
        LoadKind::RoofLive,
        LoadKind::Snow,
        LoadKind::Rain,
        LoadKind::Wind,
        LoadKind::Earthquake,
    ];
}

impl TryFrom<char> for LoadKind {
    type Error = Fault;

    ghost try_from_gives = { λ letter r. r ≡ ok_or (kind_of letter) UnknownLoad };

    fn try_from(letter: char) -> Result<LoadKind, Fault> {
        match letter {
            'D' => Ok(LoadKind::Dead),
            'L' => Ok(LoadKind::Live),
            'A' => Ok(LoadKind::RoofLive),
            'S' => Ok(LoadKind::Snow),
            'R' => Ok(LoadKind::Rain),
            'W' => Ok(LoadKind::Wind),
            'E' => Ok(LoadKind::Earthquake),
            _ => Err(Fault::UnknownLoad),
        }
    }
}

// The load whose letter is this word.
impl TryFrom<&[u8]> for LoadKind {
    type Error = Fault;

    ghost try_from_gives = { λ name r. MatchResult r (λ k. name.now ≡ letter_of k ∷ []) (λ e. (e ≡ UnknownLoad) × ((k : AnyKind) → name.now ≢ letter_of k ∷ [])) };

    fn try_from(name: &[u8]) -> Result<LoadKind, Fault> {
        match name {
            [letter] => LoadKind::try_from(char::from(*letter)),
            _ => Err(Fault::UnknownLoad),
        }
    }
}

impl From<LoadKind> for char {
    ghost from_gives = { λ kind letter. letter ≡ letter_of kind };

    fn from(kind: LoadKind) -> char {
        match kind {
            LoadKind::Dead => 'D',
            LoadKind::Live => 'L',
            LoadKind::RoofLive => 'A',
            LoadKind::Snow => 'S',
            LoadKind::Rain => 'R',
            LoadKind::Wind => 'W',
            LoadKind::Earthquake => 'E',
        }
    }
}

// Its number, from 0 to 6: its place among a sheet's loads.
impl From<LoadKind> for usize {
    ghost from_gives = { λ kind number. number ≡ kind_number kind };

    fn from(kind: LoadKind) -> usize {
        kind as usize
    }
}
