// The sections verdict and chain, written on a draft.
ghost use Rattle.std.specs.Prelude.{◌≡◌};
ghost use Rattle.chains.specs.Slips.{told};
ghost use Rattle.text.specs.Drafts.{Adds};
ghost use Rattle.writing.specs.Texts.{verdict_text, chain_line, chain_text};

use judging::judgment::Judgment;
use sections::line::Piece::{Number, Signed};
use sections::line::write_line;
use text::draft::Draft;

pub(crate) fn write_verdict(draft: &mut Draft, judgment: &Judgment)
    ensures { Adds draft.old (verdict_text judgment.now) draft.new }
{
    draft.header(1, b"verdict");
    write_line(
        draft,
        &[
            Number(judgment.kind.number().into()),
            Number(judgment.row.into()),
            Number(judgment.state.into()),
            Signed(judgment.greatest.0),
            Signed(judgment.strength.0),
            Signed(judgment.net_width.0),
            Signed(judgment.least.0),
        ],
    );
}

// The numbers on a slip: up to a 0, or to its end.
pub(crate) fn numbers_on(slip: &[u8; 32]) -> &[u8]
    ensures { result.now ≡ told slip.now }
{
    let count = slip.iter().position(|n| *n == 0).unwrap_or(slip.len());
    &slip[..count]
}

fn write_number(draft: &mut Draft, number: u8)
    ensures { Adds draft.old (chain_line number) draft.new }
{
    write_line(draft, &[Number(number.into())]);
}

pub(crate) fn write_chain(draft: &mut Draft, numbers: &[u8])
    ensures { Adds draft.old (chain_text numbers.now) draft.new }
{
    draft.header(numbers.len() as u64, b"chain");
    for number in numbers {
        write_number(draft, *number);
    }
}
