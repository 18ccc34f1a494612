// The commands of the saturation alone. `cmd_`: the source's names and parameters.
// Carried over from project-chip/rs-matter, commit 43f61585a4 (Apache-2.0, see NOTICE), and changed.
ghost use Rattle.std.specs.Prelude.{◌≡◌};
ghost use Rattle.matter.specs.Requests.{request, options};
ghost use Rattle.commands.specs.Answers.{command_answer};
ghost use Rattle.tasks.specs.declared.Task.{Task};
ghost use Rattle.commands.specs.Commands.{giving, saturation_task, saturation_step};
ghost use Rattle.commands.specs.Inner.{accepted_outcome};

use crate::outcomes::{Outcome, given};
use crate::with_options;
use lamp::{Answer, Lamp};
use matter::{Command, MoveModeEnum, OnOff, StepModeEnum};
use tasks::{HueSaturationMoveTo, SaturationMove, Task};

fn saturation_step(mode: StepModeEnum, now: u8, size: u8) -> u8
    ensures { result ≡ saturation_step mode now size }
{
    match mode {
        StepModeEnum::Up => now.saturating_add(size).min(254),
        StepModeEnum::Down => now.saturating_sub(size),
    }
}

// A move to a saturation; the time is in tenths.
pub(crate) fn to_saturation(lamp: Lamp, saturation: u8, tenths: u16) -> Outcome
    ensures { result ≡ accepted_outcome (giving lamp (saturation_task saturation tenths)) }
{
    let task = HueSaturationMoveTo {
        delta: None,
        saturation: Some(saturation),
        ms: (tenths as u32) * 100,
        enhanced: false,
    };
    given(lamp, Task::HueSaturationMoveTo(task))
}

pub(crate) fn step_saturation(lamp: Lamp, mode: StepModeEnum, size: u8, tenths: u16) -> Outcome
    ensures { result ≡ accepted_outcome (giving lamp (saturation_task (saturation_step mode lamp.color.saturation size) tenths)) }
{
    to_saturation(
        lamp,
        saturation_step(mode, lamp.color.saturation, size),
        tenths,
    )
}

pub(crate) fn move_saturation(lamp: Lamp, mode: MoveModeEnum, rate: u8) -> Outcome
    ensures { result ≡ accepted_outcome (giving lamp (Task.SaturationMove (record { direction = mode; rate = rate }))) }
{
    let task = SaturationMove {
        direction: mode,
        rate: rate as u32,
    };
    given(lamp, Task::SaturationMove(task))
}

// MoveToSaturation.
pub fn cmd_move_to_saturation(
    lamp: Lamp,
    saturation: u8,
    transition_time_ds: u16,
    options_mask: u8,
    options_override: u8,
    on_off: OnOff,
    clock: u64,
) -> Answer
    ensures { result ≡ command_answer lamp (request (Command.MoveToSaturation saturation transition_time_ds) (options options_mask options_override)) on_off clock }
{
    let command = Command::MoveToSaturation {
        saturation,
        time: transition_time_ds,
    };
    with_options(lamp, command, options_mask, options_override, on_off, clock)
}

// MoveSaturation: at a rate in units a second.
pub fn cmd_move_saturation(
    lamp: Lamp,
    move_mode: MoveModeEnum,
    rate: u8,
    options_mask: u8,
    options_override: u8,
    on_off: OnOff,
    clock: u64,
) -> Answer
    ensures { result ≡ command_answer lamp (request (Command.MoveSaturation move_mode rate) (options options_mask options_override)) on_off clock }
{
    let command = Command::MoveSaturation {
        mode: move_mode,
        rate,
    };
    with_options(lamp, command, options_mask, options_override, on_off, clock)
}

// StepSaturation: by a step, as far as 0 or 254.
pub fn cmd_step_saturation(
    lamp: Lamp,
    step_mode: StepModeEnum,
    step_size: u8,
    transition_time_ds: u16,
    options_mask: u8,
    options_override: u8,
    on_off: OnOff,
    clock: u64,
) -> Answer
    ensures { result ≡ command_answer lamp (request (Command.StepSaturation step_mode step_size transition_time_ds) (options options_mask options_override)) on_off clock }
{
    let command = Command::StepSaturation {
        mode: step_mode,
        size: step_size,
        time: transition_time_ds,
    };
    with_options(lamp, command, options_mask, options_override, on_off, clock)
}
