// Writing answers, into any sink. Not by `Display`: the same bytes go to a buffer and into the sum of a row, and writing
// cannot fail.
ghost use Rattle.std.specs.Prelude.{◌≡◌, ◌++◌, ◌∷◌, []};
ghost use Rattle.std.specs.List.{fold};
ghost use Rattle.text.specs.Ascii.{ascii};
ghost use Rattle.text.specs.Digits.{spaced_all};
ghost use Rattle.lamp_lines.specs.Answers.{signed_text, lamp_numbers, notices_text, delta_text, task_text, given_text, status_text, numbered_status_text, running_text, reported_text, behind_status, answer_text, numbered_answer_text};

use lamp::{Answer, Lamp, NumberedAnswer};
use matter::Refusal;
use notices::Notices;
use tasks::{Running, Task};
use text::writer::{Sink, signed, spaced, spaced_all, spaced_or_dash, text};

pub fn bar<S: Sink>(out: &mut S)
    ensures { out.new ≡ fold S.push out.old (ascii " |") }
{
    text(out, b" |");
}

// A signed number behind a blank.
#[tactic(auto, unfolding(crate::specs::Answers::signed_text))]
fn signed_number<S: Sink>(out: &mut S, n: i64)
    ensures { out.new ≡ fold S.push out.old (signed_text n) }
{
    text(out, b" ");
    signed(out, n);
}

// A name, and numbers behind it.
fn named<S: Sink>(out: &mut S, name: &[u8], list: &[u64])
    ensures { out.new ≡ fold S.push out.old (name.now ++ spaced_all list.now) }
{
    text(out, name);
    spaced_all(out, list);
}

// A lamp's fields, in the protocol's order. C's words of a lamp are another layout, so no conversion serves both.
pub fn lamp_numbers(lamp: Lamp) -> [u64; 18]
    ensures { result ≡ lamp_numbers lamp }
{
    let Lamp {
        bounds,
        clock,
        options,
        remaining,
        color,
        looping,
        ..
    } = lamp;
    [
        bounds.min as u64,
        bounds.max as u64,
        clock,
        options as u64,
        remaining.tenths as u64,
        color.stamps.hue,
        color.stamps.saturation,
        color.stamps.mireds,
        color.hue as u64,
        color.saturation as u64,
        color.mireds as u64,
        u64::from(u8::from(color.mode)),
        u64::from(u8::from(color.emode)),
        looping.active as u64,
        u64::from(u8::from(looping.direction)),
        looping.time as u64,
        looping.start as u64,
        looping.stored as u64,
    ]
}

// The notices in their order; `-` where there is none.
#[tactic(auto, unfolding(crate::specs::Answers::notices_text, text::specs::Digits::spaced_all))]
fn notices<S: Sink>(out: &mut S, list: Notices)
    ensures { out.new ≡ fold S.push out.old (notices_text list) }
{
    if list.len == 0 {
        return text(out, b" -");
    }
    for notice in list.used() {
        spaced(out, u64::from(*notice));
    }
}

// Behind a blank, or `-`, as `spaced_or_dash` writes a byte: a delta has a sign.
fn delta<S: Sink>(out: &mut S, delta: Option<i64>)
    ensures { out.new ≡ fold S.push out.old (delta_text delta) }
{
    match delta {
        None => text(out, b" -"),
        Some(delta) => signed_number(out, delta),
    }
}

fn task<S: Sink>(out: &mut S, task: Task)
    ensures { out.new ≡ fold S.push out.old (task_text task) }
{
    match task {
        Task::HueSaturationMoveTo(t) => {
            text(out, b" move_to");
            delta(out, t.delta);
            spaced_or_dash(out, t.saturation);
            spaced_all(out, &[t.ms as u64, t.enhanced as u64]);
        }
        Task::HueMove(t) => named(
            out,
            b" hue_move",
            &[
                u64::from(u8::from(t.direction)),
                t.rate as u64,
                t.enhanced as u64,
            ],
        ),
        Task::SaturationMove(t) => named(
            out,
            b" sat_move",
            &[u64::from(u8::from(t.direction)), t.rate as u64],
        ),
        Task::ColorTemperatureMoveTo(t) => named(out, b" ct_to", &[t.target as u64, t.ms as u64]),
        Task::ColorTemperatureMove(t) => {
            text(out, b" ct_move");
            signed_number(out, t.rate);
            spaced_all(out, &[t.min as u64, t.max as u64]);
        }
        Task::ColorLoop(t) => named(
            out,
            b" loop",
            &[u64::from(u8::from(t.direction)), t.seconds as u64],
        ),
        Task::Stop => text(out, b" stop"),
    }
}

// Behind a blank, or `-`, as `spaced_or_dash` writes a byte: a task has a name and numbers.
fn given<S: Sink>(out: &mut S, given: Option<Task>)
    ensures { out.new ≡ fold S.push out.old (given_text given) }
{
    match given {
        None => text(out, b" -"),
        Some(t) => task(out, t),
    }
}

// `refused` and the number, whichever byte it is.
fn refused<S: Sink>(out: &mut S, number: u8)
    ensures { out.new ≡ fold S.push out.old (ascii "refused" ++ spaced_all (number ∷ [])) }
{
    named(out, b"refused", &[u64::from(number)]);
}

pub fn status<S: Sink>(out: &mut S, verdict: Result<(), Refusal>)
    ensures { out.new ≡ fold S.push out.old (status_text verdict) }
{
    match verdict {
        Ok(()) => text(out, b"ok"),
        Err(refusal) => refused(out, u8::from(refusal)),
    }
}

// The status of a number, whichever byte it is.
pub fn numbered_status<S: Sink>(out: &mut S, number: u8)
    ensures { out.new ≡ fold S.push out.old (numbered_status_text number) }
{
    if number == 0 {
        text(out, b"ok");
    } else {
        refused(out, number);
    }
}

pub fn ending<S: Sink>(out: &mut S, running: Running)
    ensures { out.new ≡ fold S.push out.old (running_text running) }
{
    if running.is_running() {
        text(out, b" running");
    } else {
        text(out, b" idle");
    }
}

// The notices, the task given and the wait.
fn reported<S: Sink>(out: &mut S, list: Notices, task: Option<Task>, wait: u64)
    ensures { out.new ≡ fold S.push out.old (reported_text list task wait) }
{
    bar(out);
    notices(out, list);
    bar(out);
    given(out, task);
    bar(out);
    spaced(out, wait);
}

// The lamp, what is reported, and whether it runs.
#[tactic(auto, unfolding(crate::specs::Answers::behind_status))]
fn behind_status<S: Sink>(out: &mut S, lamp: Lamp, list: Notices, task: Option<Task>, wait: u64)
    ensures { out.new ≡ fold S.push out.old (behind_status lamp list task wait) }
{
    bar(out);
    spaced_all(out, &lamp_numbers(lamp));
    reported(out, list, task, wait);
    bar(out);
    ending(out, lamp.running);
}

#[tactic(auto, unfolding(crate::specs::Answers::answer_text))]
pub fn answer<S: Sink>(out: &mut S, answer: Answer)
    ensures { out.new ≡ fold S.push out.old (answer_text answer) }
{
    status(out, answer.verdict);
    behind_status(out, answer.lamp, answer.notices, answer.task, answer.wait);
}

// An answer by its number, as `answer` writes one by its verdict.
#[tactic(auto, unfolding(crate::specs::Answers::numbered_answer_text))]
pub fn numbered_answer<S: Sink>(out: &mut S, a: NumberedAnswer)
    ensures { out.new ≡ fold S.push out.old (numbered_answer_text a) }
{
    numbered_status(out, a.number);
    behind_status(out, a.lamp, a.notices, a.task, a.wait);
}
