// The vocabulary of the Color Control cluster: enums, bitmaps, commands, limits, and the causes of a refusal.
#![tactic(auto)]

mod commands;
mod enums;
mod limits;
mod options;
mod refusals;

pub use commands::{Command, CommandOptions, Request};
pub use enums::{
    ColorLoopActionEnum, ColorLoopDirectionEnum, ColorModeEnum, DirectionEnum,
    EnhancedColorModeEnum, MoveModeEnum, Numbered, OnOff, Reserved, StepModeEnum, color_mode_of,
};
pub use limits::{Bounds, CLOCK_LIMIT};
pub use options::{
    COLOR_LOOP, COLOR_TEMPERATURE, ENHANCED_HUE, EXECUTE_IF_OFF, HUE_AND_SATURATION, UPDATE_ACTION,
    UPDATE_DIRECTION, UPDATE_START_HUE, UPDATE_TIME, XY, contains, default_color_mode,
    should_continue,
};
pub use refusals::{Refusal, number_of};
