// The commands that are served.
// Carried over from project-chip/rs-matter, commit 43f61585a4 (Apache-2.0, see NOTICE), and changed.
use crate::enums::{
    ColorLoopActionEnum, ColorLoopDirectionEnum, DirectionEnum, MoveModeEnum, StepModeEnum,
};

// OptionsMask and OptionsOverride, which come with every command.
#[derive(Clone, Copy, Debug, PartialEq, Eq)]
pub struct CommandOptions {
    pub mask: u8,
    pub overrides: u8,
}

// The commands that are served, each with the arguments that the source's function of that name takes. Times are in
// tenths of a second.
#[derive(Clone, Copy, Debug, PartialEq, Eq)]
pub enum Command {
    MoveToHue {
        hue: u8,
        direction: DirectionEnum,
        time: u16,
    },
    MoveHue {
        mode: MoveModeEnum,
        rate: u8,
        enhanced: bool,
    },
    StepHue {
        mode: StepModeEnum,
        size: u8,
        time: u16,
    },
    MoveToSaturation {
        saturation: u8,
        time: u16,
    },
    MoveSaturation {
        mode: MoveModeEnum,
        rate: u8,
    },
    StepSaturation {
        mode: StepModeEnum,
        size: u8,
        time: u16,
    },
    MoveToHueAndSaturation {
        hue: u8,
        saturation: u8,
        time: u16,
        enhanced: bool,
        enhanced_hue: u16,
    },
    EnhancedMoveToHue {
        hue: u16,
        direction: DirectionEnum,
        time: u16,
    },
    EnhancedMoveHue {
        mode: MoveModeEnum,
        rate: u16,
    },
    EnhancedStepHue {
        mode: StepModeEnum,
        size: u16,
        time: u16,
    },
    MoveToColorTemperature {
        mireds: u16,
        time: u16,
    },
    MoveColorTemperature {
        mode: MoveModeEnum,
        rate: u16,
        min: u16,
        max: u16,
    },
    StepColorTemperature {
        mode: StepModeEnum,
        size: u16,
        time: u16,
        min: u16,
        max: u16,
    },
    ColorLoopSet {
        flags: u8,
        action: ColorLoopActionEnum,
        direction: ColorLoopDirectionEnum,
        time: u16,
        start_hue: u16,
    },
    StopMoveStep,
}

// A command as it is received: with its options.
#[derive(Clone, Copy, Debug, PartialEq, Eq)]
pub struct Request {
    pub options: CommandOptions,
    pub command: Command,
}
