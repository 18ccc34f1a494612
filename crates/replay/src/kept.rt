// What is kept from line to line, and the answer to a line: the lamp's own, or the row's. Neither sees the other; the task
// given last is of both.
use crate::state;
use crate::state::State;
use row_lines::answers;
use row_lines::lines::{OnRow, RowLine};
use rows::Row;
use text::words;
use text::writer::Sink;

// A line of more bytes is unreadable.
const LONGEST: usize = 4095;

// The lamp and the task given last, and the row, where there is one.
#[derive(Clone, Copy)]
pub struct Kept {
    state: State,
    row: Option<Row>,
}

// A line of more bytes than can be read is as one that cannot be.
fn read(line: &[u8]) -> Option<RowLine> {
    if LONGEST < line.len() {
        return None;
    }
    words::line(line)
}

// An empty line, and one that begins with `#`, has no answer.
fn is_silent(line: &[u8]) -> bool {
    matches!(line, [] | [b'#', ..])
}

impl Kept {
    pub(crate) fn new() -> Kept {
        Kept {
            state: State::new(),
            row: None,
        }
    }

    // A new row: the task that was given last is forgotten.
    fn make_row(&mut self, count: u8, out: &mut impl Sink) {
        let turn = answers::make(count, out);
        self.row = Some(turn.row);
        self.state.task = None;
    }

    fn on_row(&mut self, what: OnRow, out: &mut impl Sink) {
        match self.row {
            Some(row) => {
                let turn = answers::on_row(row, what, self.state.task, out);
                self.row = Some(turn.row);
                self.state.give(turn.task);
            }
            None => state::error(out),
        }
    }

    // A line that asks for nothing is an error.
    fn run(&mut self, line: Option<RowLine>, out: &mut impl Sink) {
        match line {
            Some(RowLine::Make(count)) => self.make_row(count, out),
            Some(RowLine::OnRow(what)) => self.on_row(what, out),
            Some(RowLine::Running(mask)) => answers::turning(mask, out),
            Some(RowLine::Lamp(line)) => self.state.run(line, out),
            None => state::error(out),
        }
    }

    // One line, and the newline behind its answer.
    pub(crate) fn answer(&mut self, line: &[u8], out: &mut impl Sink) {
        if is_silent(line) {
            return;
        }
        self.run(read(line), out);
        out.byte(b'\n');
    }
}
