// A leaf's function, asked for its answer: no lamp has a part in it. Into a `Sink`, not by `Display`, as
// `lamp_lines` writes its answers: writing cannot fail.
ghost use Rattle.std.specs.Prelude.{◌≡◌};
ghost use Rattle.text.specs.Readers.{Reads};
ghost use Rattle.std.specs.List.{fold};
ghost use Rattle.call_lines.specs.Leaves.{delta_asked_at, remaining_asked_at, leave_asked_at, mode_of_asked_at, current_hue_asked_at, leaf_at, bit_text, delta_text, remaining_text, leave_text, leaf_text};

use crate::invocations;
use lamp_lines::enums::{enumerated, on_off};
use matter::{CommandOptions, DirectionEnum, EnhancedColorModeEnum, OnOff};
use remaining_time::RemainingTime;
use text::words::Words;
use text::writer::{Sink, decimal, signed};

#[derive(Clone, Copy)]
pub struct DeltaAsked {
    pub current: u16,
    pub target: u16,
    pub direction: DirectionEnum,
}

#[derive(Clone, Copy)]
pub struct RemainingAsked {
    pub old: u16,
    pub ms: u64,
    pub is_start: bool,
}

#[derive(Clone, Copy)]
pub struct LeaveAsked {
    pub on_off: OnOff,
    pub options: u8,
    pub given: CommandOptions,
}

#[derive(Clone, Copy)]
pub enum Leaf {
    Delta(DeltaAsked),
    Remaining(RemainingAsked),
    Leave(LeaveAsked),
    ModeOf(EnhancedColorModeEnum),
    CurrentHue(u16),
}

// Each of these readers fills a case of its own.
#[tactic(auto, unfolding(crate::specs::Leaves::delta_asked_at))]
fn delta_asked(words: &mut Words) -> Option<Leaf>
    ensures { Reads (delta_asked_at words.old) result words.new }
{
    Some(Leaf::Delta(DeltaAsked {
        current: words.read()?,
        target: words.read()?,
        direction: enumerated(words)?,
    }))
}

#[tactic(auto, unfolding(crate::specs::Leaves::remaining_asked_at))]
fn remaining_asked(words: &mut Words) -> Option<Leaf>
    ensures { Reads (remaining_asked_at words.old) result words.new }
{
    Some(Leaf::Remaining(RemainingAsked {
        old: words.read()?,
        ms: words.read()?,
        is_start: words.read()?,
    }))
}

#[tactic(auto, unfolding(crate::specs::Leaves::leave_asked_at))]
fn leave_asked(words: &mut Words) -> Option<Leaf>
    ensures { Reads (leave_asked_at words.old) result words.new }
{
    Some(Leaf::Leave(LeaveAsked {
        on_off: on_off(words)?,
        options: words.read()?,
        given: invocations::options(words)?,
    }))
}

#[tactic(auto, unfolding(crate::specs::Leaves::mode_of_asked_at))]
fn mode_of_asked(words: &mut Words) -> Option<Leaf>
    ensures { Reads (mode_of_asked_at words.old) result words.new }
{
    Some(Leaf::ModeOf(enumerated(words)?))
}

#[tactic(auto, unfolding(crate::specs::Leaves::current_hue_asked_at))]
fn current_hue_asked(words: &mut Words) -> Option<Leaf>
    ensures { Reads (current_hue_asked_at words.old) result words.new }
{
    Some(Leaf::CurrentHue(words.read()?))
}

// The leaf's name and what it is asked. (A `match` on names of more than a few letters is not proved.)
#[tactic(auto, unfolding(crate::specs::Leaves::leaf_at))]
pub fn read(words: &mut Words) -> Option<Leaf>
    ensures { Reads (leaf_at words.old) result words.new }
{
    let name = words.word()?;
    if name == b"delta".as_slice() {
        delta_asked(words)
    } else if name == b"remaining".as_slice() {
        remaining_asked(words)
    } else if name == b"leave".as_slice() {
        leave_asked(words)
    } else if name == b"mode_of".as_slice() {
        mode_of_asked(words)
    } else if name == b"shown".as_slice() {
        current_hue_asked(words)
    } else {
        None
    }
}

// 0 or 1: the library prints a bool by a word.
#[tactic(auto, unfolding(text::specs::Digits::decimal))]
fn bit<S: Sink>(out: &mut S, b: bool)
    ensures { out.new ≡ fold S.push out.old (bit_text b) }
{
    decimal(out, u64::from(b));
}

#[tactic(auto, unfolding(crate::specs::Leaves::delta_text))]
fn delta<S: Sink>(asked: DeltaAsked, out: &mut S)
    ensures { out.new ≡ fold S.push out.old (delta_text asked) }
{
    let path = hue::hue_path_delta(asked.current, asked.target, asked.direction);
    signed(out, path.delta as i64);
    out.byte(b' ');
    bit(out, path.is_tie);
}

#[tactic(auto, unfolding(crate::specs::Leaves::remaining_text))]
fn remaining<S: Sink>(asked: RemainingAsked, out: &mut S)
    ensures { out.new ≡ fold S.push out.old (remaining_text asked) }
{
    let old = RemainingTime { tenths: asked.old };
    let written = old.write_remaining_time_quietly(asked.ms, asked.is_start);
    bit(out, written.reported);
    out.byte(b' ');
    decimal(out, written.remaining.tenths as u64);
}

fn may_execute<S: Sink>(asked: LeaveAsked, out: &mut S)
    ensures { out.new ≡ fold S.push out.old (leave_text asked) }
{
    let LeaveAsked {
        on_off,
        options,
        given,
    } = asked;
    let may = matter::should_continue(on_off, options, given.mask, given.overrides);
    bit(out, may);
}

// Puts the answer, without a newline.
#[tactic(auto, unfolding(crate::specs::Leaves::leaf_text))]
pub fn ask<S: Sink>(leaf: Leaf, out: &mut S)
    ensures { out.new ≡ fold S.push out.old (leaf_text leaf) }
{
    match leaf {
        Leaf::Delta(asked) => delta(asked, out),
        Leaf::Remaining(asked) => remaining(asked, out),
        Leaf::Leave(asked) => may_execute(asked, out),
        Leaf::ModeOf(emode) => decimal(out, u64::from(u8::from(matter::color_mode_of(emode)))),
        Leaf::CurrentHue(stored) => decimal(out, hue::current_hue(stored) as u64),
    }
}
