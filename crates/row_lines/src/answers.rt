// What the lines of a row come to, and the texts of their answers, into any sink; the newline is the caller's.
// Into a `Sink`, not by `Display`: the same bytes go to a buffer and into the row's sum, and writing cannot fail.
ghost use Rattle.std.specs.Prelude.{◌≡◌, ◌++◌, cond, ◌+◌, ◌%◌, ◌<◌, min, length};
ghost use Rattle.std.specs.List.{fold};
ghost use Rattle.text.specs.Ascii.{ascii};
ghost use Rattle.std.specs.Str.{bytes_eq};
ghost use Rattle.lamp_lines.specs.Answers.{status_text, answer_text};
ghost use Rattle.row_lines.specs.RowAnswers.{lamp_text, lamps_text, row_sum, row_text, then_row, Turned, shown_row, unread, fresh_place, fresh_row, with_count, with_mask, turning_text, says, lent_bytes, slice_text, kept_text, lent_text, step_with, step_row, last_start, on_lamp_asked, asked_of, lamp_answer, lamp_hidden, called_at, lamp_missing, edited_at, edited_on, answered_place, on_row};

use crate::lines::{AtPlace, OnRow, RowStep};
use crate::sum::Sum;
use call_lines::lines;
use call_lines::lines::{Line, OnLamp};
use color::Color;
use lamp::{Answer, Call, Lamp, LoopSettings};
use lamp_lines::answers::{answer, bar, ending, lamp_numbers, status};
use matter::{Bounds, ColorLoopDirectionEnum, Refusal};
use remaining_time::RemainingTime;
use rows::{MOST, Row, RowAnswer, lowest_running, running_count};
use tasks::{Running, Task};
use text::writer::{Sink, decimal, hex, spaced, spaced_all, spaced_or_dash, text};

// The longest slice that is lent.
const LONGEST: usize = 1024;

// The row after a line, and the task that its lamp gave.
#[derive(Clone, Copy)]
pub struct RowTurn {
    pub row: Row,
    pub task: Option<Task>,
}

// What a line at a place asks of the lamp there.
#[derive(Clone, Copy)]
pub enum Asked {
    Call(Call),
    Place(Lamp),
    Edit(OnLamp),
}

// A lamp's fields, with no blank before the first, and a line's end.
#[tactic(auto, unfolding(crate::specs::RowAnswers::lamp_text))]
fn lamp_line<S: Sink>(out: &mut S, lamp: Lamp)
    ensures { out.new ≡ fold S.push out.old (lamp_text lamp) }
{
    let list = lamp_numbers(lamp);
    decimal(out, list[0]);
    spaced_all(out, &list[1..]);
    ending(out, lamp.running);
    out.byte(b'\n');
}

#[tactic(auto, unfolding(crate::specs::RowAnswers::lamps_text))]
fn all_lamps<S: Sink>(out: &mut S, lamps: &[Lamp])
    ensures { out.new ≡ fold S.push out.old (lamps_text lamps.now) }
{
    for l in lamps {
        lamp_line(out, *l);
    }
}

// Of the lamps at the row's places.
#[tactic(auto, unfolding(crate::specs::RowAnswers::row_sum))]
fn sum_of(row: Row) -> u32
    ensures { result ≡ row_sum row }
{
    let mut sum = Sum { value: 0 };
    let placed = MOST.min(row.count) as usize;
    all_lamps(&mut sum, &row.lamps[..placed]);
    sum.value
}

// A row's count, word and sum.
#[tactic(auto, unfolding(crate::specs::RowAnswers::row_text))]
fn row_numbers<S: Sink>(out: &mut S, row: Row)
    ensures { out.new ≡ fold S.push out.old (row_text row) }
{
    spaced(out, row.count as u64);
    spaced(out, row.running_mask as u64);
    spaced(out, sum_of(row) as u64);
}

// The row behind what was answered.
fn then_row<S: Sink>(out: &mut S, row: Row)
    ensures { out.new ≡ fold S.push out.old (then_row row) }
{
    bar(out);
    row_numbers(out, row);
}

// The row as it is: made, with another count, or to be seen.
fn shown<S: Sink>(row: Row, out: &mut S) -> RowTurn
    ensures { Turned (shown_row row) S.push out.old out.new result }
{
    text(out, b"ok");
    then_row(out, row);
    RowTurn { row, task: None }
}

fn error<S: Sink>(row: Row, out: &mut S) -> RowTurn
    ensures { Turned (unread row) S.push out.old out.new result }
{
    text(out, b"error");
    RowTurn { row, task: None }
}

// A lamp as `new 153 500 31 0 0` makes it. It repeats `lamp`'s private `fresh`: `Lamp::new` gives a `Result`, and these
// numbers leave no refusal to answer here.
fn fresh_lamp() -> Lamp
    ensures { result ≡ fresh_place }
{
    let bounds = Bounds { min: 153, max: 500 };
    Lamp {
        clock: 0,
        bounds,
        color: Color::new(31, bounds),
        looping: LoopSettings {
            active: false,
            direction: ColorLoopDirectionEnum::Increment,
            time: 25,
            start: 8960,
            stored: 0,
        },
        remaining: RemainingTime { tenths: 0 },
        options: 0,
        running: Running::Idle,
    }
}

// A row of fresh lamps. There are 32 behind every count.
#[tactic(auto, unfolding(crate::specs::RowAnswers::fresh_row))]
pub fn fresh_row(count: u8) -> Row
    ensures { result ≡ fresh_row count }
{
    Row::new(count, [fresh_lamp(); 32])
}

// `row`: a row of fresh lamps.
pub fn make<S: Sink>(count: u8, out: &mut S) -> RowTurn
    ensures { Turned (shown_row (fresh_row count)) S.push out.old out.new result }
{
    shown(fresh_row(count), out)
}

// The row with another count, and the same word and lamps.
fn with_count(row: Row, count: u8) -> Row
    ensures { result ≡ with_count row count }
{
    Row { count, ..row }
}

// The row with another word, true or not.
fn with_mask(row: Row, running_mask: u32) -> Row
    ensures { result ≡ with_mask row running_mask }
{
    Row {
        running_mask,
        ..row
    }
}

// How many run, and the lowest place that does, from the word alone.
#[tactic(auto, unfolding(crate::specs::RowAnswers::turning_text))]
pub fn turning<S: Sink>(mask: u32, out: &mut S)
    ensures { out.new ≡ fold S.push out.old (turning_text mask) }
{
    decimal(out, running_count(mask) as u64);
    spaced_or_dash(out, lowest_running(mask));
}

// The row's own.
fn row_turning<S: Sink>(row: Row, out: &mut S) -> RowTurn
    ensures { Turned (says row (turning_text row.running_mask)) S.push out.old out.new result }
{
    turning(row.running_mask, out);
    RowTurn { row, task: None }
}

// The byte at a place of a slice that is lent.
fn byte_at(from: u8, i: usize) -> u8
    ensures { result ≡ (from + i) % 256 }
{
    from.wrapping_add((i % 256) as u8)
}

fn fill(bytes: &mut [u8], from: u8)
    ensures { bytes.new ≡ lent_bytes from (length bytes.old) }
{
    for (i, b) in bytes.iter_mut().enumerate() {
        *b = byte_at(from, i);
    }
}

// Whether every byte is as it was lent. Each by its place, since no second slice is there for `==`.
fn is_filled(bytes: &[u8], from: u8) -> bool
    ensures { result ≡ bytes_eq bytes.now (lent_bytes from (length bytes.now)) }
{
    bytes
        .iter()
        .enumerate()
        .all(|(i, b)| *b == byte_at(from, i))
}

// The bytes of a slice; `-` where there is none. Not text's `spaced_or_dash`, which takes a number.
#[tactic(auto, unfolding(crate::specs::RowAnswers::slice_text))]
fn slice<S: Sink>(out: &mut S, bytes: &[u8])
    ensures { out.new ≡ fold S.push out.old (slice_text bytes.now) }
{
    if bytes.is_empty() {
        return text(out, b" -");
    }
    out.byte(b' ');
    hex(out, bytes);
}

#[tactic(auto, unfolding(crate::specs::RowAnswers::kept_text))]
fn kept<S: Sink>(out: &mut S, bytes: &[u8], from: u8)
    ensures { out.new ≡ fold S.push out.old (kept_text bytes.now from) }
{
    if is_filled(bytes, from) {
        text(out, b" kept");
    } else {
        text(out, b" written");
    }
}

// The wait, the slice, and whether it is as it was lent.
fn lent<S: Sink>(out: &mut S, wait: u64, bytes: &[u8], from: u8)
    ensures { out.new ≡ fold S.push out.old (lent_text wait bytes.now from) }
{
    bar(out);
    spaced(out, wait);
    bar(out);
    slice(out, bytes);
    bar(out);
    kept(out, bytes, from);
}

// A row call with this slice.
fn step_with<S: Sink>(row: Row, bytes: &mut [u8], asked: RowStep, out: &mut S) -> RowTurn
    ensures { Turned (step_with row (length bytes.old) asked.fill asked.clock) S.push out.old out.new result }
{
    fill(bytes, asked.fill);
    let stepped = row.step(bytes, asked.clock);
    status(out, stepped.verdict);
    then_row(out, stepped.row);
    lent(out, stepped.wait, bytes, asked.fill);
    RowTurn {
        row: stepped.row,
        task: None,
    }
}

// A row call. A slice above 1,024 bytes is an error.
#[tactic(auto, unfolding(crate::specs::RowAnswers::step_row))]
fn step<S: Sink>(row: Row, asked: RowStep, out: &mut S) -> RowTurn
    ensures { Turned (step_row row asked) S.push out.old out.new result }
{
    let size = asked.size as usize;
    if LONGEST < size {
        return error(row, out);
    }
    let mut space = [0; LONGEST];
    step_with(row, &mut space[..size], asked, out)
}

// A start of the task given last.
fn start_of(last: Option<Task>, clock: u64) -> Option<Asked>
    ensures { result ≡ last_start last clock }
{
    Some(Asked::Call(Call::Start { task: last?, clock }))
}

fn asked_of(what: OnLamp) -> Option<Asked>
    ensures { result ≡ on_lamp_asked what }
{
    match what {
        OnLamp::Call(call) => Some(Asked::Call(call)),
        OnLamp::Poke(fields) => Some(Asked::Edit(OnLamp::Poke(fields))),
        OnLamp::Record(running) => Some(Asked::Edit(OnLamp::Record(running))),
        OnLamp::Show => Some(Asked::Edit(OnLamp::Show)),
        OnLamp::Set(_) => None,
    }
}

// What a line asks of a lamp in a row, where the task given last is this.
fn asked_at(line: Line, last: Option<Task>) -> Option<Asked>
    ensures { result ≡ asked_of line last }
{
    match line {
        Line::Lamp(lamp) => Some(Asked::Place(lamp)),
        Line::OnLamp(what) => asked_of(what),
        Line::StartLast(clock) => start_of(last, clock),
        Line::New(_) | Line::Ask(_) | Line::Help => None,
    }
}

// The answer of the lamp at the place. The clause is this private function's alone, and its caller has tested the place: a
// struct of places would be made and taken apart at once, since the row's public functions take any byte.
fn lamp_answer(answered: RowAnswer, place: u8) -> Answer
    requires { place < 32 }
    ensures { result ≡ lamp_answer answered place }
{
    Answer {
        verdict: answered.verdict,
        lamp: answered.row.lamps[place as usize],
        notices: answered.notices,
        task: answered.task,
        wait: answered.wait,
    }
}

// A refusal with no lamp to show.
fn without_lamp<S: Sink>(out: &mut S, verdict: Result<(), Refusal>)
    ensures { out.new ≡ fold S.push out.old (status_text verdict ++ ascii " | - | - | - | 0 | -") }
{
    status(out, verdict);
    text(out, b" | - | - | - | 0 | -");
}

// What the lamp at the place answers, of a row of so many.
fn place_text<S: Sink>(out: &mut S, answered: RowAnswer, count: u8, place: u8)
    ensures { out.new ≡ fold S.push out.old (cond (lamp_hidden count place) (status_text answered.verdict ++ ascii " | - | - | - | 0 | -") (answer_text (lamp_answer answered place))) }
{
    if MOST < count || count <= place {
        return without_lamp(out, answered.verdict);
    }
    answer(out, lamp_answer(answered, place));
}

// A call of the lamp at a place.
#[tactic(auto, unfolding(crate::specs::RowAnswers::called_at))]
fn called<S: Sink>(row: Row, place: u8, call: Call, out: &mut S) -> RowTurn
    ensures { Turned (called_at row place call) S.push out.old out.new result }
{
    let answered = row.call_at(place, call);
    place_text(out, answered, row.count, place);
    then_row(out, answered.row);
    RowTurn {
        row: answered.row,
        task: answered.task,
    }
}

// An edit's answer, and its lamp in the row.
#[tactic(auto, unfolding(crate::specs::RowAnswers::edited_at))]
fn edited<S: Sink>(row: Row, place: u8, edit: Answer, out: &mut S) -> RowTurn
    ensures { Turned (edited_at row place edit) S.push out.old out.new result }
{
    if row.count <= place || MOST <= place {
        return error(row, out);
    }
    let next = row.with_lamp(place, edit.lamp);
    answer(out, edit);
    then_row(out, next);
    RowTurn {
        row: next,
        task: None,
    }
}

// The same of what is done on the lamp there.
#[tactic(auto, unfolding(crate::specs::RowAnswers::edited_at))]
fn edited_on<S: Sink>(row: Row, place: u8, what: OnLamp, out: &mut S) -> RowTurn
    ensures { Turned (edited_on row place what) S.push out.old out.new result }
{
    if MOST <= place {
        return error(row, out);
    }
    let lamp = row.lamps[place as usize];
    edited(row, place, lines::on_lamp(lamp, what), out)
}

// A line at a place, where the task given last is this.
#[tactic(auto, unfolding(crate::specs::RowAnswers::answered_place))]
fn at_place<S: Sink>(row: Row, asked: AtPlace, last: Option<Task>, out: &mut S) -> RowTurn
    ensures { Turned (answered_place row asked.place (asked_of asked.line last)) S.push out.old out.new result }
{
    let AtPlace { place, line } = asked;
    match asked_at(line, last) {
        Some(Asked::Call(call)) => called(row, place, call, out),
        Some(Asked::Place(lamp)) => edited(row, place, lines::shown(lamp), out),
        Some(Asked::Edit(what)) => edited_on(row, place, what, out),
        None => error(row, out),
    }
}

// A line of the row, where the task given last is this.
#[tactic(auto, unfolding(crate::specs::RowAnswers::on_row))]
pub fn on_row<S: Sink>(row: Row, what: OnRow, last: Option<Task>, out: &mut S) -> RowTurn
    ensures { Turned (on_row row what last) S.push out.old out.new result }
{
    match what {
        OnRow::Count(count) => shown(with_count(row, count), out),
        OnRow::Mask(mask) => shown(with_mask(row, mask), out),
        OnRow::Show => shown(row, out),
        OnRow::Step(asked) => step(row, asked, out),
        OnRow::Turning => row_turning(row, out),
        OnRow::At(asked) => at_place(row, asked, last, out),
    }
}
