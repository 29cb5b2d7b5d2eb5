// A line of a page, written piece by piece. It cannot fail; `write!` answers a `Result` whose error no clause rules out.
ghost use Rattle.std.specs.Prelude.{map};
ghost use Rattle.text.specs.Drafts.{Adds};
ghost use Rattle.text.specs.Words.{line};
ghost use Rattle.sections.specs.Texts.{spelled};

use text::draft::Draft;

#[derive(Clone, Copy, Debug, PartialEq, Eq)]
pub enum Piece<'a> {
    Number(u64),
    Signed(i64),
    Word(&'a [u8]),
}

fn write_piece(draft: &mut Draft, piece: Piece<'_>)
    ensures { Adds draft.old (spelled piece.entry) draft.new }
{
    match piece {
        Piece::Number(number) => draft.number(number),
        Piece::Signed(number) => draft.number(number),
        Piece::Word(word) => draft.word(word),
    }
}

// The pieces with a space between each two, and the line's end.
pub fn write_line(draft: &mut Draft, pieces: &[Piece<'_>])
    ensures { Adds draft.old (line (map spelled pieces.now)) draft.new }
{
    if let Some((first, others)) = pieces.split_first() {
        write_piece(draft, *first);
        for piece in others {
            draft.byte(b' ');
            write_piece(draft, *piece);
        }
    }
    draft.byte(b'\n');
}
