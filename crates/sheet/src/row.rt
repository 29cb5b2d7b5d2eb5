// The holes of a sheet in a row, in number order: which is too close to a new one, and the row with one more or one fewer.
ghost use Rattle.std.specs.Prelude.{◌≡◌, ◌<◌, ◌≤◌, not, [], length, position, remove};
ghost use Rattle.std.specs.List.{prefix_len};
ghost use Rattle.parts.specs.Holes.{before, centred, apart};
ghost use Rattle.sheet.specs.Account.{answer};
ghost use Rattle.sheet.specs.Calls.{hole_fault};
ghost use Rattle.sheet.specs.Law.{none, add};

use parts::bar::Bar;
use parts::bolt::Bolt;
use parts::fault::Fault;
use parts::hole::Hole;

// An array and its count, and no vector of fixed capacity: a change copies the row into the sheet that it writes, and to copy a vector may fail.
#[derive(Clone, Copy)]
pub(crate) struct Row {
    count: usize,
    holes: [Hole; 32],
    ghost long: { length holes ≡ 32 },
    ghost few: { count ≤ 32 },
}

impl Row {
    ghost use Rattle.sheet.specs.Rows.{holes_of};

    pub(crate) fn new() -> Row
        ensures { holes_of result ≡ [] }
    {
        Row {
            count: 0,
            holes: [Hole::default(); 32],
        }
    }

    pub(crate) fn as_slice(&self) -> &[Hole]
        ensures { result.now ≡ holes_of self.now }
    {
        &self.holes[..self.count]
    }

    pub(crate) fn is_empty(&self) -> bool
        ensures { result ≡ none (holes_of self.now) }
    {
        self.count == 0
    }

    // The place of the first hole that is too close.
    fn crowding_place(&self, hole: &Hole, diameter: u32) -> Option<usize>
        ensures { result ≡ position (λ k. not (apart diameter k hole.now)) (holes_of self.now) }
    {
        self.as_slice()
            .iter()
            .position(|other| !other.is_apart(hole, diameter))
    }

    // Why a hole cannot be put among these.
    pub(crate) fn accepts(&self, bar: &Bar, bolt: &Bolt, hole: &Hole) -> Result<(), Fault>
        ensures { result ≡ answer (hole_fault bar.now bolt.now (holes_of self.now) hole.now) }
    {
        if self.count >= 32 {
            return Err(Fault::Full);
        }
        if !bolt.suits(hole) {
            return Err(Fault::DiameterOutside);
        }
        if !bar.has_place_for(hole) {
            return Err(Fault::CentreOutside);
        }
        match self.crowding_place(hole, bolt.size.diameter()) {
            Some(place) => Err(Fault::TooClose {
                hole: place as u8 + 1,
            }),
            None => Ok(()),
        }
    }

    // How many holes come before this one.
    fn place_of(&self, hole: &Hole) -> usize
        ensures within { result ≤ length (holes_of self.now) }
        ensures value { result ≡ prefix_len (λ k. before k hole.now) (holes_of self.now) }
    {
        self.as_slice()
            .iter()
            .take_while(|other| other.is_before(hole))
            .count()
    }

    // The row with one hole more, after those that come before it.
    pub(crate) fn with(self, hole: Hole) -> Row
        requires { length (holes_of self) < 32 }
        ensures { holes_of result ≡ add hole (holes_of self) }
    {
        let place = self.place_of(&hole);
        let Row { count, mut holes } = self;
        holes[count] = hole;
        holes[place..=count].rotate_right(1);
        Row {
            count: count + 1,
            holes,
        }
    }

    // The place of the hole whose centre is there.
    pub(crate) fn place_at(&self, x: u32, y: u32) -> Option<usize>
        ensures { result ≡ position (centred x y) (holes_of self.now) }
    {
        self.as_slice().iter().position(|hole| hole.is_at(x, y))
    }

    // The row without the hole at a place.
    pub(crate) fn without(self, place: usize) -> Row
        requires { place < length (holes_of self) }
        ensures { holes_of result ≡ remove (holes_of self) place }
    {
        let Row { count, mut holes } = self;
        holes[place..count].rotate_left(1);
        Row {
            count: count - 1,
            holes,
        }
    }
}
