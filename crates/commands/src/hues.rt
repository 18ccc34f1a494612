// The commands of the hue. `cmd_`: the source's names and parameters.
// Carried over from project-chip/rs-matter, commit 43f61585a4 (Apache-2.0, see NOTICE), and changed.
ghost use Rattle.std.specs.Prelude.{◌≡◌, false, cond};
ghost use Rattle.matter.specs.Requests.{request, options};
ghost use Rattle.commands.specs.Answers.{command_answer};
ghost use Rattle.notices.specs.Names.{hue_tie};
ghost use Rattle.notices.specs.Notices.{only};
ghost use Rattle.commands.specs.Commands.{giving, giving_with, giving_hue, hue_task, hue_move_task, step_delta, stored};
ghost use Rattle.commands.specs.Inner.{accepted_outcome};

use crate::outcomes::{Outcome, given, given_with};
use crate::with_options;
use hue::hue_path_delta;
use lamp::{Answer, Lamp};
use matter::{Command, DirectionEnum, MoveModeEnum, OnOff, StepModeEnum};
use tasks::{HueMove, HueSaturationMoveTo, Task};

// A plain hue, or a plain step of it, on the stored circle.
pub(crate) fn stored_hue(hue: u8) -> u16
    ensures { result ≡ stored hue }
{
    (hue as u16) * 256
}

// A rate in enhanced units: a plain one is 256 of them.
pub(crate) fn enhanced_rate(rate: u8, is_enhanced: bool) -> u32
    ensures { result ≡ cond is_enhanced rate (stored rate) }
{
    if is_enhanced {
        rate as u32
    } else {
        (rate as u32) * 256
    }
}

// A step's size with its sign.
pub(crate) fn step_delta(mode: StepModeEnum, size: u16) -> i64
    ensures { result ≡ step_delta mode size }
{
    match mode {
        StepModeEnum::Up => size as i64,
        StepModeEnum::Down => -(size as i64),
    }
}

// A move by so much of the hue, with a saturation or without; the time is in tenths.
fn by_delta(
    lamp: Lamp,
    delta: i64,
    is_tie: bool,
    saturation: Option<u8>,
    tenths: u16,
    enhanced: bool,
) -> Outcome
    ensures { result ≡ accepted_outcome (giving_with lamp (hue_task delta saturation tenths enhanced) (only is_tie hue_tie)) }
{
    let task = HueSaturationMoveTo {
        delta: Some(delta),
        saturation,
        ms: (tenths as u32) * 100,
        enhanced,
    };
    given_with(lamp, Task::HueSaturationMoveTo(task), is_tie)
}

// A move to a stored hue, with a saturation or without.
pub(crate) fn to_hue(
    lamp: Lamp,
    hue: u16,
    direction: DirectionEnum,
    saturation: Option<u8>,
    tenths: u16,
    enhanced: bool,
) -> Outcome
    ensures { result ≡ accepted_outcome (giving_hue lamp hue direction saturation tenths enhanced) }
{
    let path = hue_path_delta(lamp.color.hue, hue, direction);
    by_delta(
        lamp,
        path.delta as i64,
        path.is_tie,
        saturation,
        tenths,
        enhanced,
    )
}

// A move to a plain hue.
pub(crate) fn to_plain_hue(lamp: Lamp, hue: u8, direction: DirectionEnum, tenths: u16) -> Outcome
    ensures { result ≡ accepted_outcome (giving_hue lamp (stored hue) direction None tenths false) }
{
    to_hue(lamp, stored_hue(hue), direction, None, tenths, false)
}

// The hue that a command with both means: the enhanced one, or the plain one on the stored circle.
fn target_hue(hue: u8, is_enhanced: bool, enhanced_hue: u16) -> u16
    ensures { result ≡ cond is_enhanced enhanced_hue (stored hue) }
{
    if is_enhanced {
        enhanced_hue
    } else {
        stored_hue(hue)
    }
}

// A move to a hue, by its shortest way, and to a saturation.
pub(crate) fn to_both(
    lamp: Lamp,
    hue: u8,
    saturation: u8,
    tenths: u16,
    is_enhanced: bool,
    enhanced_hue: u16,
) -> Outcome
    ensures { result ≡ accepted_outcome (giving_hue lamp (cond is_enhanced enhanced_hue (stored hue)) DirectionEnum.Shortest (Some saturation) tenths is_enhanced) }
{
    let target = target_hue(hue, is_enhanced, enhanced_hue);
    to_hue(
        lamp,
        target,
        DirectionEnum::Shortest,
        Some(saturation),
        tenths,
        is_enhanced,
    )
}

// A step of the hue in stored units.
pub(crate) fn step_hue(
    lamp: Lamp,
    mode: StepModeEnum,
    size: u16,
    tenths: u16,
    enhanced: bool,
) -> Outcome
    ensures { result ≡ accepted_outcome (giving lamp (hue_task (step_delta mode size) None tenths enhanced)) }
{
    by_delta(lamp, step_delta(mode, size), false, None, tenths, enhanced)
}

// A move of the hue at a rate in enhanced units.
pub(crate) fn move_hue(lamp: Lamp, mode: MoveModeEnum, rate: u32, enhanced: bool) -> Outcome
    ensures { result ≡ accepted_outcome (giving lamp (hue_move_task mode rate enhanced)) }
{
    let task = HueMove {
        direction: mode,
        rate,
        enhanced,
    };
    given(lamp, Task::HueMove(task))
}

// MoveToHue: to a plain hue, by the way that `direction` asks for.
pub fn cmd_move_to_hue(
    lamp: Lamp,
    hue: u8,
    direction: DirectionEnum,
    transition_time_ds: u16,
    options_mask: u8,
    options_override: u8,
    on_off: OnOff,
    clock: u64,
) -> Answer
    ensures { result ≡ command_answer lamp (request (Command.MoveToHue hue direction transition_time_ds) (options options_mask options_override)) on_off clock }
{
    let command = Command::MoveToHue {
        hue,
        direction,
        time: transition_time_ds,
    };
    with_options(lamp, command, options_mask, options_override, on_off, clock)
}

// EnhancedMoveToHue: the same, to an enhanced hue.
pub fn cmd_enhanced_move_to_hue(
    lamp: Lamp,
    enhanced_hue: u16,
    direction: DirectionEnum,
    transition_time_ds: u16,
    options_mask: u8,
    options_override: u8,
    on_off: OnOff,
    clock: u64,
) -> Answer
    ensures { result ≡ command_answer lamp (request (Command.EnhancedMoveToHue enhanced_hue direction transition_time_ds) (options options_mask options_override)) on_off clock }
{
    let command = Command::EnhancedMoveToHue {
        hue: enhanced_hue,
        direction,
        time: transition_time_ds,
    };
    with_options(lamp, command, options_mask, options_override, on_off, clock)
}

// MoveHue: at a rate in plain units a second, or in enhanced ones.
pub fn cmd_move_hue(
    lamp: Lamp,
    move_mode: MoveModeEnum,
    rate: u8,
    options_mask: u8,
    options_override: u8,
    is_enhanced: bool,
    on_off: OnOff,
    clock: u64,
) -> Answer
    ensures { result ≡ command_answer lamp (request (Command.MoveHue move_mode rate is_enhanced) (options options_mask options_override)) on_off clock }
{
    let command = Command::MoveHue {
        mode: move_mode,
        rate,
        enhanced: is_enhanced,
    };
    with_options(lamp, command, options_mask, options_override, on_off, clock)
}

// EnhancedMoveHue: at a rate in enhanced units a second.
pub fn cmd_enhanced_move_hue(
    lamp: Lamp,
    move_mode: MoveModeEnum,
    rate: u16,
    options_mask: u8,
    options_override: u8,
    on_off: OnOff,
    clock: u64,
) -> Answer
    ensures { result ≡ command_answer lamp (request (Command.EnhancedMoveHue move_mode rate) (options options_mask options_override)) on_off clock }
{
    let command = Command::EnhancedMoveHue {
        mode: move_mode,
        rate,
    };
    with_options(lamp, command, options_mask, options_override, on_off, clock)
}

// StepHue: by a step in plain units.
pub fn cmd_step_hue(
    lamp: Lamp,
    step_mode: StepModeEnum,
    step_size: u8,
    transition_time_ds: u16,
    options_mask: u8,
    options_override: u8,
    on_off: OnOff,
    clock: u64,
) -> Answer
    ensures { result ≡ command_answer lamp (request (Command.StepHue step_mode step_size transition_time_ds) (options options_mask options_override)) on_off clock }
{
    let command = Command::StepHue {
        mode: step_mode,
        size: step_size,
        time: transition_time_ds,
    };
    with_options(lamp, command, options_mask, options_override, on_off, clock)
}

// EnhancedStepHue: by a step in enhanced units.
pub fn cmd_enhanced_step_hue(
    lamp: Lamp,
    step_mode: StepModeEnum,
    step_size: u16,
    transition_time_ds: u16,
    options_mask: u8,
    options_override: u8,
    on_off: OnOff,
    clock: u64,
) -> Answer
    ensures { result ≡ command_answer lamp (request (Command.EnhancedStepHue step_mode step_size transition_time_ds) (options options_mask options_override)) on_off clock }
{
    let command = Command::EnhancedStepHue {
        mode: step_mode,
        size: step_size,
        time: transition_time_ds,
    };
    with_options(lamp, command, options_mask, options_override, on_off, clock)
}

// MoveToHueAndSaturation, and the enhanced one: the hue by its shortest way.
pub fn cmd_move_to_hue_and_saturation(
    lamp: Lamp,
    hue: u8,
    saturation: u8,
    transition_time_ds: u16,
    options_mask: u8,
    options_override: u8,
    is_enhanced: bool,
    enhanced_hue: u16,
    on_off: OnOff,
    clock: u64,
) -> Answer
    ensures { result ≡ command_answer lamp (request (Command.MoveToHueAndSaturation hue saturation transition_time_ds is_enhanced enhanced_hue) (options options_mask options_override)) on_off clock }
{
    let command = Command::MoveToHueAndSaturation {
        hue,
        saturation,
        time: transition_time_ds,
        enhanced: is_enhanced,
        enhanced_hue,
    };
    with_options(lamp, command, options_mask, options_override, on_off, clock)
}
