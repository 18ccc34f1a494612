// A line: what it asks, and what the lines that make, show or set a lamp come to. One whose last word does not end it,
// or that has a word not as asked, asks for nothing.
ghost use Rattle.std.specs.Prelude.{◌≡◌};
ghost use Rattle.text.specs.Readers.{Reads};
ghost use Rattle.call_lines.specs.Lines.{making_at, line_at, made, shown_answer, with_record, on_lamp};

use crate::leaves::Leaf;
use crate::setters::Setting;
use crate::{invocations, leaves, setters};
use lamp::{Answer, Call, Lamp};
use lamp_lines::{fields, records};
use matter::{Bounds, Refusal};
use tasks::Running;
use text::words::{FromLine, Words};

#[derive(Clone, Copy)]
pub struct Making {
    pub bounds: Bounds,
    pub features: u32,
    pub options: u8,
    pub clock: u64,
}

// What is done on the lamp that there is.
#[derive(Clone, Copy)]
pub enum OnLamp {
    Call(Call),
    Poke(Lamp),
    Record(Running),
    Show,
    Set(Setting),
}

#[derive(Clone, Copy)]
pub enum Line {
    Lamp(Lamp),
    New(Making),
    OnLamp(OnLamp),
    StartLast(u64),
    Ask(Leaf),
    Help,
}

#[tactic(auto, unfolding(crate::specs::Lines::making_at))]
fn new_lamp(words: &mut Words) -> Option<Line>
    ensures { Reads (making_at words.old) result words.new }
{
    Some(Line::New(Making {
        bounds: fields::bounds(words)?,
        features: words.read()?,
        options: words.read()?,
        clock: words.read()?,
    }))
}

// By its first word. (A `match` on names of more than a few letters is not proved.)
impl FromLine for Line {
    ghost named = { line_at };

    #[tactic(auto, unfolding(crate::specs::Lines::line_at))]
    fn by_name(name: &[u8], words: &mut Words) -> Option<Line> {
        if name == b"cmd".as_slice() {
            Some(Line::OnLamp(OnLamp::Call(invocations::invoke(words)?)))
        } else if name == b"step".as_slice() {
            Some(Line::OnLamp(OnLamp::Call(invocations::step(words)?)))
        } else if name == b"startlast".as_slice() {
            Some(Line::StartLast(words.read()?))
        } else if name == b"start".as_slice() {
            Some(Line::OnLamp(OnLamp::Call(invocations::begin(words)?)))
        } else if name == b"halt".as_slice() {
            Some(Line::OnLamp(OnLamp::Call(invocations::halt(words)?)))
        } else if name == b"bounds".as_slice() {
            Some(Line::OnLamp(OnLamp::Call(invocations::set_bounds(words)?)))
        } else if name == b"leaf".as_slice() {
            Some(Line::Ask(leaves::read(words)?))
        } else if name == b"set".as_slice() {
            Some(Line::OnLamp(OnLamp::Set(setters::read(words)?)))
        } else if name == b"lamp".as_slice() {
            Some(Line::Lamp(fields::idle_lamp(words)?))
        } else if name == b"new".as_slice() {
            new_lamp(words)
        } else if name == b"poke".as_slice() {
            Some(Line::OnLamp(OnLamp::Poke(fields::idle_lamp(words)?)))
        } else if name == b"record".as_slice() {
            Some(Line::OnLamp(OnLamp::Record(records::running(words)?)))
        } else if name == b"show".as_slice() {
            Some(Line::OnLamp(OnLamp::Show))
        } else if name == b"help".as_slice() {
            Some(Line::Help)
        } else {
            None
        }
    }
}

pub fn make(making: Making) -> Result<Lamp, Refusal>
    ensures { result ≡ made making }
{
    let Making {
        bounds,
        features,
        options,
        clock,
    } = making;
    Lamp::new(bounds, features, options, clock)
}

// A lamp that was put in place, or is shown.
pub fn shown(lamp: Lamp) -> Answer
    ensures { result ≡ shown_answer lamp }
{
    lamp.unchanged(Ok(()))
}

// The lamp with another running record.
fn recorded(lamp: Lamp, running: Running) -> Answer
    ensures { result ≡ shown_answer (with_record lamp running) }
{
    shown(Lamp { running, ..lamp })
}

#[tactic(auto, unfolding(crate::specs::Lines::on_lamp))]
pub fn on_lamp(lamp: Lamp, what: OnLamp) -> Answer
    ensures { result ≡ on_lamp lamp what }
{
    match what {
        OnLamp::Call(call) => commands::call(lamp, call),
        OnLamp::Poke(fields) => recorded(fields, lamp.running),
        OnLamp::Record(running) => recorded(lamp, running),
        OnLamp::Show => shown(lamp),
        OnLamp::Set(setting) => setters::set(lamp, setting),
    }
}
