// The next line of a page as the numbers and words that are due there.
ghost use Rattle.reading.specs.Fields.{HeaderFields, BarFields, BoltFields, HoleFields, LoadFields};
ghost use Rattle.reading.specs.Shapes.{HeaderShape, BarShape, BoltShape, HoleShape, LoadShape};
ghost use Rattle.std.specs.Option.{MatchOption};

use parts::hole::Hole;
use text::cursor::Cursor;
use text::pieces::Piece;

// A bar's line, with the name of its steel.
#[derive(Clone, Copy)]
pub(crate) struct BarLine<'a> {
    pub(crate) width: u32,
    pub(crate) thickness: u32,
    pub(crate) steel: &'a [u8],
    pub(crate) edge: u32,
}

// A bolt's line, with the name of its size.
#[derive(Clone, Copy)]
pub(crate) struct BoltLine<'a> {
    pub(crate) size: &'a [u8],
    pub(crate) stress: u32,
    pub(crate) planes: u32,
}

// A count and a name.
pub(crate) fn header_fields<'a>(cursor: &mut Cursor<'a>) -> Option<(u32, &'a [u8])>
    ensures { MatchOption result (HeaderShape cursor.old.rest.now → ⊥) (λ f. HeaderFields cursor.old f cursor.new) }
{
    let [count, name] = cursor.line_of::<Piece, 2>()?;
    Some((count.unsigned()?, name.text()))
}

pub(crate) fn bar_fields<'a>(cursor: &mut Cursor<'a>) -> Option<BarLine<'a>>
    ensures { MatchOption result (BarShape cursor.old.rest.now → ⊥) (λ f. BarFields cursor.old f cursor.new) }
{
    let [width, thickness, steel, edge] = cursor.line_of::<Piece, 4>()?;
    Some(BarLine {
        width: width.unsigned()?,
        thickness: thickness.unsigned()?,
        steel: steel.text(),
        edge: edge.unsigned()?,
    })
}

pub(crate) fn bolt_fields<'a>(cursor: &mut Cursor<'a>) -> Option<BoltLine<'a>>
    ensures { MatchOption result (BoltShape cursor.old.rest.now → ⊥) (λ f. BoltFields cursor.old f cursor.new) }
{
    let [size, stress, planes] = cursor.line_of::<Piece, 3>()?;
    Some(BoltLine {
        size: size.text(),
        stress: stress.unsigned()?,
        planes: planes.unsigned()?,
    })
}

pub(crate) fn hole_fields(cursor: &mut Cursor<'_>) -> Option<Hole>
    ensures { MatchOption result (HoleShape cursor.old.rest.now → ⊥) (λ f. HoleFields cursor.old f cursor.new) }
{
    let [x, y, diameter] = cursor.line_of::<Piece, 3>()?;
    Some(Hole {
        x: x.unsigned()?,
        y: y.unsigned()?,
        diameter: diameter.unsigned()?,
    })
}

// A letter and newtons.
pub(crate) fn load_fields<'a>(cursor: &mut Cursor<'a>) -> Option<(&'a [u8], i32)>
    ensures { MatchOption result (LoadShape cursor.old.rest.now → ⊥) (λ f. LoadFields cursor.old f cursor.new) }
{
    let [letter, newtons] = cursor.line_of::<Piece, 2>()?;
    Some((letter.text(), newtons.signed()?))
}
