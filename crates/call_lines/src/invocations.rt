// Reading a call of the lamp: a command, a start, a step, a halt or new bounds.
ghost use Rattle.text.specs.Readers.{Reads};
ghost use Rattle.call_lines.specs.Commands.{move_to_hue_at, move_hue_at, step_hue_at, enhanced_move_to_hue_at, enhanced_move_hue_at, enhanced_step_hue_at, move_to_hue_and_saturation_at, move_to_saturation_at, move_saturation_at, step_saturation_at, move_to_color_temperature_at, move_color_temperature_at, step_color_temperature_at, color_loop_set_at, options_at, command_at};
ghost use Rattle.call_lines.specs.Calls.{invoke_at, begin_at, step_at, halt_at, set_bounds_at};

use lamp::Call;
use lamp_lines::enums::{enumerated, on_off};
use lamp_lines::{fields, moves};
use matter::{Command, CommandOptions, Request};
use text::words::Words;

// The readers below read alike: each fills a case of its own, and `words.read()?` is all that they share.
#[tactic(auto, unfolding(crate::specs::Commands::move_to_hue_at))]
fn move_to_hue(words: &mut Words) -> Option<Command>
    ensures { Reads (move_to_hue_at words.old) result words.new }
{
    Some(Command::MoveToHue {
        hue: words.read()?,
        direction: enumerated(words)?,
        time: words.read()?,
    })
}

#[tactic(auto, unfolding(crate::specs::Commands::move_hue_at))]
fn move_hue(words: &mut Words) -> Option<Command>
    ensures { Reads (move_hue_at words.old) result words.new }
{
    Some(Command::MoveHue {
        mode: enumerated(words)?,
        rate: words.read()?,
        enhanced: words.read()?,
    })
}

#[tactic(auto, unfolding(crate::specs::Commands::step_hue_at))]
fn step_hue(words: &mut Words) -> Option<Command>
    ensures { Reads (step_hue_at words.old) result words.new }
{
    Some(Command::StepHue {
        mode: enumerated(words)?,
        size: words.read()?,
        time: words.read()?,
    })
}

#[tactic(auto, unfolding(crate::specs::Commands::enhanced_move_to_hue_at))]
fn enhanced_move_to_hue(words: &mut Words) -> Option<Command>
    ensures { Reads (enhanced_move_to_hue_at words.old) result words.new }
{
    Some(Command::EnhancedMoveToHue {
        hue: words.read()?,
        direction: enumerated(words)?,
        time: words.read()?,
    })
}

#[tactic(auto, unfolding(crate::specs::Commands::enhanced_move_hue_at))]
fn enhanced_move_hue(words: &mut Words) -> Option<Command>
    ensures { Reads (enhanced_move_hue_at words.old) result words.new }
{
    Some(Command::EnhancedMoveHue {
        mode: enumerated(words)?,
        rate: words.read()?,
    })
}

#[tactic(auto, unfolding(crate::specs::Commands::enhanced_step_hue_at))]
fn enhanced_step_hue(words: &mut Words) -> Option<Command>
    ensures { Reads (enhanced_step_hue_at words.old) result words.new }
{
    Some(Command::EnhancedStepHue {
        mode: enumerated(words)?,
        size: words.read()?,
        time: words.read()?,
    })
}

#[tactic(auto, unfolding(crate::specs::Commands::move_to_hue_and_saturation_at))]
fn move_to_hue_and_saturation(words: &mut Words) -> Option<Command>
    ensures { Reads (move_to_hue_and_saturation_at words.old) result words.new }
{
    Some(Command::MoveToHueAndSaturation {
        hue: words.read()?,
        saturation: words.read()?,
        time: words.read()?,
        enhanced: words.read()?,
        enhanced_hue: words.read()?,
    })
}

#[tactic(auto, unfolding(crate::specs::Commands::move_to_saturation_at))]
fn move_to_saturation(words: &mut Words) -> Option<Command>
    ensures { Reads (move_to_saturation_at words.old) result words.new }
{
    Some(Command::MoveToSaturation {
        saturation: words.read()?,
        time: words.read()?,
    })
}

#[tactic(auto, unfolding(crate::specs::Commands::move_saturation_at))]
fn move_saturation(words: &mut Words) -> Option<Command>
    ensures { Reads (move_saturation_at words.old) result words.new }
{
    Some(Command::MoveSaturation {
        mode: enumerated(words)?,
        rate: words.read()?,
    })
}

#[tactic(auto, unfolding(crate::specs::Commands::step_saturation_at))]
fn step_saturation(words: &mut Words) -> Option<Command>
    ensures { Reads (step_saturation_at words.old) result words.new }
{
    Some(Command::StepSaturation {
        mode: enumerated(words)?,
        size: words.read()?,
        time: words.read()?,
    })
}

#[tactic(auto, unfolding(crate::specs::Commands::move_to_color_temperature_at))]
fn move_to_color_temperature(words: &mut Words) -> Option<Command>
    ensures { Reads (move_to_color_temperature_at words.old) result words.new }
{
    Some(Command::MoveToColorTemperature {
        mireds: words.read()?,
        time: words.read()?,
    })
}

#[tactic(auto, unfolding(crate::specs::Commands::move_color_temperature_at))]
fn move_color_temperature(words: &mut Words) -> Option<Command>
    ensures { Reads (move_color_temperature_at words.old) result words.new }
{
    Some(Command::MoveColorTemperature {
        mode: enumerated(words)?,
        rate: words.read()?,
        min: words.read()?,
        max: words.read()?,
    })
}

#[tactic(auto, unfolding(crate::specs::Commands::step_color_temperature_at))]
fn step_color_temperature(words: &mut Words) -> Option<Command>
    ensures { Reads (step_color_temperature_at words.old) result words.new }
{
    Some(Command::StepColorTemperature {
        mode: enumerated(words)?,
        size: words.read()?,
        time: words.read()?,
        min: words.read()?,
        max: words.read()?,
    })
}

#[tactic(auto, unfolding(crate::specs::Commands::color_loop_set_at))]
fn color_loop_set(words: &mut Words) -> Option<Command>
    ensures { Reads (color_loop_set_at words.old) result words.new }
{
    let flags = words.read()?;
    let action = enumerated(words)?;
    let direction = enumerated(words)?;
    let time = words.read()?;
    let start_hue = words.read()?;
    Some(Command::ColorLoopSet {
        flags,
        action,
        direction,
        time,
        start_hue,
    })
}

// The command of a name, with its arguments behind it. (A `match` on names of more than a few letters is not proved.)
#[tactic(auto, unfolding(crate::specs::Commands::command_at))]
fn command_by_name(name: &[u8], words: &mut Words) -> Option<Command>
    ensures { Reads (command_at name.now words.old) result words.new }
{
    if name == b"move_to_hue".as_slice() {
        move_to_hue(words)
    } else if name == b"move_hue".as_slice() {
        move_hue(words)
    } else if name == b"step_hue".as_slice() {
        step_hue(words)
    } else if name == b"enhanced_move_to_hue".as_slice() {
        enhanced_move_to_hue(words)
    } else if name == b"enhanced_move_hue".as_slice() {
        enhanced_move_hue(words)
    } else if name == b"enhanced_step_hue".as_slice() {
        enhanced_step_hue(words)
    } else if name == b"move_to_hue_and_saturation".as_slice() {
        move_to_hue_and_saturation(words)
    } else if name == b"move_to_saturation".as_slice() {
        move_to_saturation(words)
    } else if name == b"move_saturation".as_slice() {
        move_saturation(words)
    } else if name == b"step_saturation".as_slice() {
        step_saturation(words)
    } else if name == b"move_to_color_temperature".as_slice() {
        move_to_color_temperature(words)
    } else if name == b"move_color_temperature".as_slice() {
        move_color_temperature(words)
    } else if name == b"step_color_temperature".as_slice() {
        step_color_temperature(words)
    } else if name == b"color_loop_set".as_slice() {
        color_loop_set(words)
    } else if name == b"stop_move_step".as_slice() {
        Some(Command::StopMoveStep)
    } else {
        None
    }
}

// The mask and the override.
#[tactic(auto, unfolding(crate::specs::Commands::options_at))]
pub(crate) fn options(words: &mut Words) -> Option<CommandOptions>
    ensures { Reads (options_at words.old) result words.new }
{
    let mask = words.read()?;
    let overrides = words.read()?;
    Some(CommandOptions { mask, overrides })
}

// A command's name, the on/off word, its arguments, its options and the clock.
#[tactic(auto, unfolding(crate::specs::Calls::invoke_at))]
pub(crate) fn invoke(words: &mut Words) -> Option<Call>
    ensures { Reads (invoke_at words.old) result words.new }
{
    let name = words.word()?;
    let on_off = on_off(words)?;
    let command = command_by_name(name, words)?;
    let options = options(words)?;
    Some(Call::Command {
        request: Request { options, command },
        on_off,
        clock: words.read()?,
    })
}

#[tactic(auto, unfolding(crate::specs::Calls::begin_at))]
pub(crate) fn begin(words: &mut Words) -> Option<Call>
    ensures { Reads (begin_at words.old) result words.new }
{
    let name = words.word()?;
    Some(Call::Start {
        task: moves::task(name, words)?,
        clock: words.read()?,
    })
}

#[tactic(auto, unfolding(crate::specs::Calls::step_at))]
pub(crate) fn step(words: &mut Words) -> Option<Call>
    ensures { Reads (step_at words.old) result words.new }
{
    Some(Call::Step {
        clock: words.read()?,
    })
}

#[tactic(auto, unfolding(crate::specs::Calls::halt_at))]
pub(crate) fn halt(words: &mut Words) -> Option<Call>
    ensures { Reads (halt_at words.old) result words.new }
{
    Some(Call::Halt {
        clock: words.read()?,
    })
}

#[tactic(auto, unfolding(crate::specs::Calls::set_bounds_at))]
pub(crate) fn set_bounds(words: &mut Words) -> Option<Call>
    ensures { Reads (set_bounds_at words.old) result words.new }
{
    let bounds = fields::bounds(words)?;
    let clock = words.read()?;
    Some(Call::SetBounds { bounds, clock })
}
