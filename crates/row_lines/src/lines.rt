// The lines of a row, read. Any other line is the lamp's.
ghost use Rattle.std.specs.Prelude.{◌≡◌};
ghost use Rattle.text.specs.Readers.{Reads};
ghost use Rattle.row_lines.specs.RowLines.{make_at, count_at, mask_at, running_at, step_row_at, place_at, lamp_line_at, leaf_line_at, row_line_at};

use call_lines::lines::Line;
use text::words::{FromLine, Words};

// A row call: the size of the slice that is lent, and the number that its bytes begin at.
#[derive(Clone, Copy)]
pub struct RowStep {
    pub size: u16,
    pub fill: u8,
    pub clock: u64,
}

// A line of a lamp, at a place.
#[derive(Clone, Copy)]
pub struct AtPlace {
    pub place: u8,
    pub line: Line,
}

// What is done on the row that there is.
#[derive(Clone, Copy)]
pub enum OnRow {
    Count(u8),
    Mask(u32),
    Show,
    Step(RowStep),
    Turning,
    At(AtPlace),
}

// A line: a row is made, or asked, or a mask is read, which needs no row; any other is the lamp's.
#[derive(Clone, Copy)]
pub enum RowLine {
    Make(u8),
    OnRow(OnRow),
    Running(u32),
    Lamp(Line),
}

// The readers below read alike: each fills a case of its own, and `words.read()?` is all that they share.
#[tactic(auto, unfolding(crate::specs::RowLines::make_at))]
fn make_line(words: &mut Words) -> Option<RowLine>
    ensures { Reads (make_at words.old) result words.new }
{
    Some(RowLine::Make(words.read()?))
}

#[tactic(auto, unfolding(crate::specs::RowLines::count_at))]
fn count_line(words: &mut Words) -> Option<RowLine>
    ensures { Reads (count_at words.old) result words.new }
{
    Some(RowLine::OnRow(OnRow::Count(words.read()?)))
}

#[tactic(auto, unfolding(crate::specs::RowLines::mask_at))]
fn mask_line(words: &mut Words) -> Option<RowLine>
    ensures { Reads (mask_at words.old) result words.new }
{
    Some(RowLine::OnRow(OnRow::Mask(words.read()?)))
}

#[tactic(auto, unfolding(crate::specs::RowLines::running_at))]
fn running_line(words: &mut Words) -> Option<RowLine>
    ensures { Reads (running_at words.old) result words.new }
{
    Some(RowLine::Running(words.read()?))
}

#[tactic(auto, unfolding(crate::specs::RowLines::step_row_at))]
fn step_line(words: &mut Words) -> Option<RowLine>
    ensures { Reads (step_row_at words.old) result words.new }
{
    Some(RowLine::OnRow(OnRow::Step(RowStep {
        size: words.read()?,
        fill: words.read()?,
        clock: words.read()?,
    })))
}

#[tactic(auto, unfolding(crate::specs::RowLines::place_at))]
fn place_line(words: &mut Words) -> Option<RowLine>
    ensures { Reads (place_at words.old) result words.new }
{
    let place = words.read()?;
    let name = words.word()?;
    let line = Line::by_name(name, words)?;
    Some(RowLine::OnRow(OnRow::At(AtPlace { place, line })))
}

// A line of the lamp alone.
#[tactic(auto, unfolding(crate::specs::RowLines::lamp_line_at))]
fn lamp_line(name: &[u8], words: &mut Words) -> Option<RowLine>
    ensures { Reads (lamp_line_at name.now words.old) result words.new }
{
    Some(RowLine::Lamp(Line::by_name(name, words)?))
}

// A leaf: the readings of a mask, or the lamp's.
#[tactic(auto, unfolding(crate::specs::RowLines::leaf_line_at))]
fn leaf_line(words: &mut Words) -> Option<RowLine>
    ensures { Reads (leaf_line_at words.old) result words.new }
{
    if let Some(b"running") = words.ahead().word() {
        words.word()?;
        return running_line(words);
    }
    lamp_line(b"leaf", words)
}

// By its first word. (A `match` on names of more than a few letters is not proved.)
impl FromLine for RowLine {
    ghost named = { row_line_at };

    #[tactic(auto, unfolding(crate::specs::RowLines::row_line_at))]
    fn by_name(name: &[u8], words: &mut Words) -> Option<RowLine> {
        if name == b"row".as_slice() {
            make_line(words)
        } else if name == b"rowcount".as_slice() {
            count_line(words)
        } else if name == b"rowword".as_slice() {
            mask_line(words)
        } else if name == b"rowshow".as_slice() {
            Some(RowLine::OnRow(OnRow::Show))
        } else if name == b"rowstep".as_slice() {
            step_line(words)
        } else if name == b"turning".as_slice() {
            Some(RowLine::OnRow(OnRow::Turning))
        } else if name == b"at".as_slice() {
            place_line(words)
        } else if name == b"leaf".as_slice() {
            leaf_line(words)
        } else {
            lamp_line(name, words)
        }
    }
}
