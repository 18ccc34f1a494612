// What is checked of a command by itself, in one row each: Stop mode, and its own numbers.
ghost use Rattle.std.specs.Prelude.{◌≡◌};
ghost use Rattle.commands.specs.Commands.{is_stop, cause_if, constrained, nonzero, moving, checks};

use matter::{Command, MoveModeEnum, Refusal};

// Whether it is a move in Stop mode, and the cause that its numbers give; a move in Stop mode can have a cause too.
#[derive(Clone, Copy, Debug, PartialEq, Eq)]
pub struct Checks {
    pub stop: bool,
    pub cause: Result<(), Refusal>,
}

fn is_stop(mode: MoveModeEnum) -> bool
    ensures { result ≡ is_stop mode }
{
    matches!(mode, MoveModeEnum::Stop)
}

// A cause where the test holds.
fn cause_if(test: bool, cause: Refusal) -> Result<(), Refusal>
    ensures { result ≡ cause_if test (Err cause) }
{
    if test { Err(cause) } else { Ok(()) }
}

// A number out of its range.
fn constrained(bad: bool) -> Checks
    ensures { result ≡ constrained bad }
{
    Checks {
        stop: false,
        cause: cause_if(bad, Refusal::ConstraintError),
    }
}

// A rate or a step of 0.
fn nonzero(n: u16) -> Checks
    ensures { result ≡ nonzero n }
{
    Checks {
        stop: false,
        cause: cause_if(n == 0, Refusal::InvalidCommand),
    }
}

fn moving(mode: MoveModeEnum, rate: u16) -> Checks
    ensures { result ≡ moving mode rate }
{
    Checks {
        stop: is_stop(mode),
        cause: nonzero(rate).cause,
    }
}

pub(crate) fn checks_of(command: Command) -> Checks
    ensures { result ≡ checks command }
{
    match command {
        Command::MoveToHue { hue, .. } => constrained(254 < hue),
        Command::MoveHue { mode, rate, .. } => moving(mode, rate as u16),
        Command::StepHue { size, .. } => nonzero(size as u16),
        Command::MoveToSaturation { saturation, .. } => constrained(254 < saturation),
        Command::MoveSaturation { mode, rate } => moving(mode, rate as u16),
        Command::StepSaturation { size, .. } => nonzero(size as u16),
        Command::MoveToHueAndSaturation {
            hue,
            saturation,
            enhanced,
            ..
        } => constrained((!enhanced & (254 < hue)) | (254 < saturation)),
        Command::EnhancedMoveToHue { .. } => constrained(false),
        Command::EnhancedMoveHue { mode, rate } => moving(mode, rate),
        Command::EnhancedStepHue { size, .. } => nonzero(size),
        Command::MoveToColorTemperature { mireds, .. } => constrained(mireds == 0),
        Command::MoveColorTemperature { mode, rate, .. } => moving(mode, rate),
        Command::StepColorTemperature { size, .. } => nonzero(size),
        Command::ColorLoopSet { .. } => constrained(false),
        Command::StopMoveStep => constrained(false),
    }
}
