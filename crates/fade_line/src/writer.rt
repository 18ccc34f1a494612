// Writing `fade`'s lines. The public functions write into a caller's slice from `at` on and give the place after what they
// wrote: where the slice has no room for the longest line, nothing, and `at`. They take the slice and the place, not any
// sink, since what they write depends on its room; no `Display`, which gives no place.
ghost use Rattle.std.specs.Prelude.{◌≡◌, ◌+◌, min, length};
ghost use Rattle.std.specs.List.{fold};
ghost use Rattle.text.specs.Written.{pasted};
ghost use Rattle.text.specs.Digits.{spaced_all};
ghost use Rattle.fade_line.specs.Text.{numbers, state_text, line_text, refused_text, bad_line_text, room_for, fitting};

use notices::Notices;
use text::buffer;
use text::buffer::Buffer;
use text::writer::{Sink, decimal, spaced, text};

// More than any line takes.
pub const LONGEST: usize = 512;

// What a line of a fade reports.
#[derive(Clone, Copy)]
pub struct Line {
    pub clock: u64,
    pub hue: u16,
    pub tenths: u16,
    pub wait: u64,
    pub notices: Notices,
}

#[tactic(auto, unfolding(crate::specs::Text::room_for))]
fn has_room(at: usize, len: usize) -> bool
    ensures { result ≡ room_for at len }
{
    at <= len && LONGEST <= len - at
}

fn notices<S: Sink>(out: &mut S, list: Notices)
    ensures { out.new ≡ fold S.push out.old (spaced_all (numbers list)) }
{
    for number in list.used() {
        spaced(out, u64::from(*number));
    }
}

// Clock, hue, remaining tenths and wait, and a colon.
#[tactic(auto, unfolding(crate::specs::Text::state_text))]
fn state<S: Sink>(out: &mut S, line: Line)
    ensures { out.new ≡ fold S.push out.old (state_text line) }
{
    decimal(out, line.clock);
    spaced(out, u64::from(line.hue));
    spaced(out, u64::from(line.tenths));
    spaced(out, line.wait);
    out.byte(b':');
}

#[tactic(auto, unfolding(crate::specs::Text::line_text))]
fn report<S: Sink>(out: &mut S, line: Line)
    ensures { out.new ≡ fold S.push out.old (line_text line) }
{
    state(out, line);
    notices(out, line.notices);
    out.byte(b'\n');
}

// The number as it is printed, whatever byte it is: the text is defined for each.
#[tactic(auto, unfolding(crate::specs::Text::refused_text))]
fn refusal<S: Sink>(out: &mut S, number: u8)
    ensures { out.new ≡ fold S.push out.old (refused_text number) }
{
    text(out, b"refused");
    spaced(out, u64::from(number));
    out.byte(b'\n');
}

// The test for room stands in each of the three functions below, since each writes another text behind it.
pub fn write_line(out: &mut [u8], at: usize, line: Line) -> usize
    ensures value { result ≡ at + length (fitting out.old at (line_text line)) }
    ensures out_after { out.new ≡ pasted out.old at (fitting out.old at (line_text line)) }
{
    if !has_room(at, out.len()) {
        return at;
    }
    let mut to = Buffer { out, at };
    report(&mut to, line);
    to.at
}

// Any byte is printed as it is: to take a `Refusal` would ask more of callers.
pub fn write_refused(out: &mut [u8], at: usize, number: u8) -> usize
    ensures value { result ≡ at + length (fitting out.old at (refused_text number)) }
    ensures out_after { out.new ≡ pasted out.old at (fitting out.old at (refused_text number)) }
{
    if !has_room(at, out.len()) {
        return at;
    }
    let mut to = Buffer { out, at };
    refusal(&mut to, number);
    to.at
}

pub fn write_bad_line(out: &mut [u8], at: usize) -> usize
    ensures value { result ≡ at + length (fitting out.old at bad_line_text) }
    ensures out_after { out.new ≡ pasted out.old at (fitting out.old at bad_line_text) }
{
    if !has_room(at, out.len()) {
        return at;
    }
    buffer::write(out, at, b"bad line\n")
}
