// The sections bar, bolt, holes and loads, written on a draft.
ghost use Rattle.std.specs.Prelude.{List};
ghost use Rattle.text.specs.Drafts.{Adds};
ghost use Rattle.sections.specs.Texts.{bar_text, bolt_text, hole_line, holes_text, load_line, loads_text, load_at, loads_in, LoadOrder};
ghost use Rattle.parts.specs.declared.load.LoadKind.{LoadKind as AnyKind};

use crate::line::Piece::{Number, Signed, Word};
use crate::line::write_line;
use parts::bar::Bar;
use parts::bolt::Bolt;
use parts::hole::Hole;
use parts::load::LoadKind;
use text::draft::Draft;

pub fn write_bar(draft: &mut Draft, bar: &Bar)
    ensures { Adds draft.old (bar_text bar.now) draft.new }
{
    draft.header(1, b"bar");
    write_line(
        draft,
        &[
            Number(bar.width.into()),
            Number(bar.thickness.into()),
            Word(bar.steel.name()),
            Number(bar.edge.into()),
        ],
    );
}

pub fn write_bolt(draft: &mut Draft, bolt: &Bolt)
    ensures { Adds draft.old (bolt_text bolt.now) draft.new }
{
    draft.header(1, b"bolt");
    write_line(
        draft,
        &[
            Word(bolt.size.name()),
            Number(bolt.stress.0.into()),
            Number(bolt.planes.into()),
        ],
    );
}

fn write_hole(draft: &mut Draft, hole: &Hole)
    ensures { Adds draft.old (hole_line hole.now) draft.new }
{
    write_line(
        draft,
        &[
            Number(hole.x.into()),
            Number(hole.y.into()),
            Number(hole.diameter.into()),
        ],
    );
}

pub fn write_holes(draft: &mut Draft, holes: &[Hole])
    ensures { Adds draft.old (holes_text holes.now) draft.new }
{
    draft.header(holes.len() as u64, b"holes");
    for hole in holes {
        write_hole(draft, hole);
    }
}

fn write_load(draft: &mut Draft, kind: LoadKind, loads: &[i32; 7])
    ensures { Adds draft.old (load_line (load_at loads.now kind)) draft.new }
{
    let letter = [char::from(kind) as u8];
    write_line(
        draft,
        &[Word(&letter), Signed(loads[usize::from(kind)].into())],
    );
}

// The order of the load lines is left open: each letter stands once.
pub fn write_loads(draft: &mut Draft, loads: &[i32; 7])
    ensures { (order : List AnyKind) × LoadOrder order × Adds draft.old (loads_text (loads_in order loads.now)) draft.new }
{
    draft.header(7, b"loads");
    for kind in LoadKind::ALL {
        write_load(draft, kind, loads);
    }
}
