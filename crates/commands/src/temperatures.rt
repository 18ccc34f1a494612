// The commands of the colour temperature, with the caller's limits. `cmd_`: the source's names and parameters.
// Carried over from project-chip/rs-matter, commit 43f61585a4 (Apache-2.0, see NOTICE), and changed.
ghost use Rattle.std.specs.Prelude.{◌≡◌, pos, ◌+ℤ◌};
ghost use Rattle.matter.specs.Requests.{request, options};
ghost use Rattle.commands.specs.Answers.{command_answer};
ghost use Rattle.matter.specs.Rules.{signed};
ghost use Rattle.progress.specs.Progress.{clamp};
ghost use Rattle.tasks.specs.declared.Task.{Task};
ghost use Rattle.commands.specs.Commands.{giving, asked, lo, hi, step_limits, temperature_task, mireds_step};
ghost use Rattle.commands.specs.Inner.{accepted_outcome};

use crate::hues::step_delta;
use crate::outcomes::{Outcome, given};
use crate::with_options;
use lamp::{Answer, Lamp};
use matter::{Bounds, Command, MoveModeEnum, OnOff, StepModeEnum};
use progress::clamped_sum;
use tasks::{ColorTemperatureMove, ColorTemperatureMoveTo, Task};

// The caller's limit, or the physical one for 0.
fn limit_asked(physical: u16, n: u16) -> u16
    ensures { result ≡ asked physical n }
{
    if n == 0 { physical } else { n }
}

// Between which mireds a command moves: the caller's limits within the physical bounds.
fn low_limit(bounds: Bounds, min: u16) -> u16
    ensures { result ≡ lo bounds min }
{
    bounds.lower_limit(limit_asked(bounds.min, min))
}

fn high_limit(bounds: Bounds, max: u16) -> u16
    ensures { result ≡ hi bounds max }
{
    bounds.upper_limit(limit_asked(bounds.max, max))
}

// Between which mireds a step goes: limits that cross count as 0, both of them.
fn step_limits(bounds: Bounds, min: u16, max: u16) -> Bounds
    ensures { result ≡ step_limits bounds min max }
{
    let low = low_limit(bounds, min);
    let high = high_limit(bounds, max);
    if high < low {
        return Bounds {
            min: low_limit(bounds, 0),
            max: high_limit(bounds, 0),
        };
    }
    Bounds {
        min: low,
        max: high,
    }
}

// A move by so many mireds between two limits; the time is in tenths.
fn between(lamp: Lamp, limits: Bounds, from: u16, delta: i64, tenths: u16) -> Outcome
    ensures { result ≡ accepted_outcome (giving lamp (temperature_task (clamp limits.min limits.max (pos from +ℤ delta)) tenths)) }
{
    let task = ColorTemperatureMoveTo {
        target: clamped_sum(limits.min, limits.max, from, delta),
        ms: (tenths as u32) * 100,
    };
    given(lamp, Task::ColorTemperatureMoveTo(task))
}

pub(crate) fn to_mireds(lamp: Lamp, mireds: u16, tenths: u16) -> Outcome
    ensures { result ≡ accepted_outcome (giving lamp (temperature_task (clamp lamp.bounds.min lamp.bounds.max (pos mireds)) tenths)) }
{
    between(lamp, lamp.bounds, mireds, 0, tenths)
}

pub(crate) fn step_mireds(
    lamp: Lamp,
    mode: StepModeEnum,
    size: u16,
    tenths: u16,
    min: u16,
    max: u16,
) -> Outcome
    ensures { result ≡ accepted_outcome (giving lamp (temperature_task (mireds_step lamp mode size min max) tenths)) }
{
    between(
        lamp,
        step_limits(lamp.bounds, min, max),
        lamp.color.mireds,
        step_delta(mode, size),
        tenths,
    )
}

pub(crate) fn move_mireds(lamp: Lamp, mode: MoveModeEnum, rate: u16, min: u16, max: u16) -> Outcome
    ensures { result ≡ accepted_outcome (giving lamp (Task.ColorTemperatureMove (record { rate = signed mode rate; min = asked lamp.bounds.min min; max = asked lamp.bounds.max max }))) }
{
    let task = ColorTemperatureMove {
        rate: mode.signed(rate as u32),
        min: limit_asked(lamp.bounds.min, min),
        max: limit_asked(lamp.bounds.max, max),
    };
    given(lamp, Task::ColorTemperatureMove(task))
}

// MoveToColorTemperature: within the physical bounds.
pub fn cmd_move_to_color_temperature(
    lamp: Lamp,
    mireds: u16,
    transition_time_ds: u16,
    options_mask: u8,
    options_override: u8,
    on_off: OnOff,
    clock: u64,
) -> Answer
    ensures { result ≡ command_answer lamp (request (Command.MoveToColorTemperature mireds transition_time_ds) (options options_mask options_override)) on_off clock }
{
    let command = Command::MoveToColorTemperature {
        mireds,
        time: transition_time_ds,
    };
    with_options(lamp, command, options_mask, options_override, on_off, clock)
}

// MoveColorTemperature: at a rate in mireds a second, within the caller's limits, where 0 is the physical one.
pub fn cmd_move_color_temperature(
    lamp: Lamp,
    move_mode: MoveModeEnum,
    rate: u16,
    color_temperature_minimum_mireds: u16,
    color_temperature_maximum_mireds: u16,
    options_mask: u8,
    options_override: u8,
    on_off: OnOff,
    clock: u64,
) -> Answer
    ensures { result ≡ command_answer lamp (request (Command.MoveColorTemperature move_mode rate color_temperature_minimum_mireds color_temperature_maximum_mireds) (options options_mask options_override)) on_off clock }
{
    let command = Command::MoveColorTemperature {
        mode: move_mode,
        rate,
        min: color_temperature_minimum_mireds,
        max: color_temperature_maximum_mireds,
    };
    with_options(lamp, command, options_mask, options_override, on_off, clock)
}

// StepColorTemperature: by a step, within the caller's limits, where 0 is the physical one; limits that cross count as 0.
pub fn cmd_step_color_temperature(
    lamp: Lamp,
    step_mode: StepModeEnum,
    step_size: u16,
    transition_time_ds: u16,
    color_temperature_minimum_mireds: u16,
    color_temperature_maximum_mireds: u16,
    options_mask: u8,
    options_override: u8,
    on_off: OnOff,
    clock: u64,
) -> Answer
    ensures { result ≡ command_answer lamp (request (Command.StepColorTemperature step_mode step_size transition_time_ds color_temperature_minimum_mireds color_temperature_maximum_mireds) (options options_mask options_override)) on_off clock }
{
    let command = Command::StepColorTemperature {
        mode: step_mode,
        size: step_size,
        time: transition_time_ds,
        min: color_temperature_minimum_mireds,
        max: color_temperature_maximum_mireds,
    };
    with_options(lamp, command, options_mask, options_override, on_off, clock)
}
