// The run of `fade`: the lamp, its command, its start and its steps, and the lines that they give.
#![tactic(auto)]

ghost use Rattle.std.specs.Prelude.{◌≡◌, ◌+◌, ◌<◌, ◌≤◌, ◌^◌, ◌++◌, length, take, true};
ghost use Rattle.text.specs.Written.{Wrote};
ghost use Rattle.fade_line.specs.Text.{fitting};
ghost use Rattle.fade_run.specs.Run.{line_of, one_text, start_of, after_command, commanded, after_making, fade_within, fade_of, is_over, text, moved};
ghost use Rattle.fade_run.specs.Inner.{rest, step_of, next_text};

use commands::invoke;
use fade_line::reader::Wanted;
use fade_line::writer;
use fade_line::writer::{LONGEST, Line};
use lamp::{Answer, Lamp};
use matter::{Bounds, Command, CommandOptions, OnOff, Request};
use tasks::Task;

// A start, and a step, that is to come, with how many more steps there may be. The clock and that number are two fields, and
// two parameters below, since the definitions of `specs/` take them one by one.
#[derive(Clone, Copy)]
pub struct Starting {
    pub lamp: Lamp,
    pub task: Task,
    pub clock: u64,
    pub left: u16,
}

#[derive(Clone, Copy)]
pub struct Stepping {
    pub lamp: Lamp,
    pub clock: u64,
    pub left: u16,
}

// Where a run stands: what is to be written next. A refusal is its number, and any byte is taken: a `Refusal` would ask more
// of callers.
#[derive(Clone, Copy)]
pub enum Fade {
    BadLine,
    Refused(u8),
    Start(Starting),
    Step(Stepping),
    Over,
}

fn start_of(lamp: Lamp, given: Option<Task>, clock: u64, left: u16) -> Fade
    ensures { result ≡ start_of left clock lamp given }
{
    match given {
        None => Fade::Over,
        Some(task) => Fade::Start(Starting {
            lamp,
            task,
            clock,
            left,
        }),
    }
}

fn after_command(answer: Answer, clock: u64, left: u16) -> Fade
    ensures { result ≡ after_command left clock answer }
{
    match answer.verdict {
        Ok(()) => start_of(answer.lamp, answer.task, clock, left),
        Err(refusal) => Fade::Refused(u8::from(refusal)),
    }
}

fn command(lamp: Lamp, wanted: Wanted) -> Fade
    ensures { result ≡ commanded wanted.tenths wanted lamp }
{
    let command = Command::MoveToHue {
        hue: wanted.hue,
        direction: wanted.direction,
        time: wanted.tenths,
    };
    let options = CommandOptions {
        mask: 0,
        overrides: 0,
    };
    after_command(
        invoke(lamp, Request { options, command }, OnOff::On, wanted.clock),
        wanted.clock,
        wanted.tenths,
    )
}

fn begin(wanted: Wanted) -> Fade
    ensures { result ≡ fade_within wanted.tenths wanted }
{
    match Lamp::new(Bounds { min: 153, max: 500 }, 31, 0, wanted.clock) {
        Err(refusal) => Fade::Refused(u8::from(refusal)),
        Ok(lamp) => command(lamp, wanted),
    }
}

#[tactic(auto, unfolding(crate::specs::Run::line_of))]
fn line_of(answer: Answer, clock: u64) -> Line
    ensures { result ≡ line_of answer clock }
{
    Line {
        clock,
        hue: answer.lamp.color.hue,
        tenths: answer.lamp.remaining.tenths,
        wait: answer.wait,
        notices: answer.notices,
    }
}

// The step that follows an answer to a call at this clock.
#[tactic(auto, unfolding(crate::specs::Inner::step_of))]
fn step_of(answer: Answer, clock: u64, left: u16) -> Fade
    requires { clock + answer.wait < 2 ^ 64 }
    ensures { result ≡ step_of answer clock left }
{
    if answer.verdict.is_err() || !answer.lamp.running.is_running() || left == 0 {
        return Fade::Over;
    }
    Fade::Step(Stepping {
        lamp: answer.lamp,
        clock: clock + answer.wait,
        left: left - 1,
    })
}

// Into a slice behind a place, as `fade_line` writes.
fn write_answer(answer: Answer, clock: u64, out: &mut [u8], at: usize) -> usize
    ensures { Wrote out.old at (fitting out.old at (one_text answer clock)) out.new result }
{
    match answer.verdict {
        Ok(()) => writer::write_line(out, at, line_of(answer, clock)),
        Err(refusal) => writer::write_refused(out, at, u8::from(refusal)),
    }
}

impl Fade {
    // The run that a line asks for; a line that asks for none is bad.
    #[tactic(auto, unfolding(crate::specs::Run::fade_of))]
    pub fn new(asked: Option<Wanted>) -> Fade
        ensures { result ≡ fade_of asked }
    {
        match asked {
            Some(wanted) => begin(wanted),
            None => Fade::BadLine,
        }
    }

    pub fn is_over(self) -> bool
        ensures { result ≡ is_over self }
    {
        matches!(self, Fade::Over)
    }

    // An answer to a call at this clock is written.
    fn report(&mut self, answer: Answer, clock: u64, left: u16, out: &mut [u8], at: usize) -> usize
        requires { clock + answer.wait < 2 ^ 64 }
        ensures { (self.new ≡ step_of answer clock left) × Wrote out.old at (fitting out.old at (one_text answer clock)) out.new result }
    {
        *self = step_of(answer, clock, left);
        write_answer(answer, clock, out, at)
    }

    // The next line is written from `at` on.
    fn write_next(&mut self, out: &mut [u8], at: usize) -> usize
        ensures { (self.new ≡ rest self.old) × Wrote out.old at (fitting out.old at (next_text self.old)) out.new result }
    {
        let now = *self;
        match now {
            Fade::BadLine => {
                *self = Fade::Over;
                writer::write_bad_line(out, at)
            }
            Fade::Refused(number) => {
                *self = Fade::Over;
                writer::write_refused(out, at, number)
            }
            Fade::Start(s) => {
                self.report(s.lamp.start(s.task, s.clock), s.clock, s.left, out, at)
            }
            Fade::Step(s) => self.report(s.lamp.step(s.clock), s.clock, s.left, out, at),
            Fade::Over => at,
        }
    }

    // As many lines as fit are written from the slice's beginning on; the result is the place after them, and the run what
    // is left of it. The contract leaves free how many (something is written where the run is not over and the slice has
    // 512 places), what stands in the slice behind them, and of the run that is left all but its text. A `while`, since the
    // run and the room decide how many lines there are.
    pub fn write(&mut self, out: &mut [u8]) -> usize
        ensures fade_after { take result out.new ++ text self.new ≡ text self.old }
        ensures len_in_bounds { result ≤ length out.new }
        ensures len_value { moved self.old (length out.old) result ≡ true }
    {
        let mut at = 0;
        while LONGEST <= out.len() - at && !self.is_over() {
            at = self.write_next(out, at);
        }
        at
    }
}
