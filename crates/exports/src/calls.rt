// A call in ten words: its kind, the clock, the on/off number; then a command's mask, override and five arguments, a
// task's kind and six numbers, or a new minimum and maximum.
ghost use Rattle.std.specs.Prelude.{◌≡◌};
ghost use Rattle.exports.specs.Calls as C;
ghost use Rattle.exports.specs.Calls.{hue_command, saturation_command, enhanced_command, mireds_command, loop_command, command_of, request_of, command_fits, command_known, command_numbers, call_of, call_known};

use crate::failures::UNREADABLE;
use crate::moves::TaskNumbers;
use crate::words::at;
use crate::{bounds, enums, words};
use lamp::{Answer, Call, Lamp, NumberedAnswer};
use matter::{
    ColorLoopActionEnum, ColorLoopDirectionEnum, Command, CommandOptions, DirectionEnum,
    MoveModeEnum, OnOff, Request, StepModeEnum,
};

pub const CALL_WORDS: usize = 10;

// The kinds of calls: a command's number in the cluster, and START, STEP, HALT and SET_BOUNDS past those. They are
// numbers since C writes them (docs/WORDS.md).
const MOVE_TO_HUE: u64 = 0;

const MOVE_HUE: u64 = 1;

const STEP_HUE: u64 = 2;

const MOVE_TO_SATURATION: u64 = 3;

const MOVE_SATURATION: u64 = 4;

const STEP_SATURATION: u64 = 5;

const MOVE_TO_HUE_AND_SATURATION: u64 = 6;

const MOVE_TO_COLOR_TEMPERATURE: u64 = 10;

const ENHANCED_MOVE_TO_HUE: u64 = 64;

const ENHANCED_MOVE_HUE: u64 = 65;

const ENHANCED_STEP_HUE: u64 = 66;

const COLOR_LOOP_SET: u64 = 68;

const STOP_MOVE_STEP: u64 = 71;

const MOVE_COLOR_TEMPERATURE: u64 = 75;

const STEP_COLOR_TEMPERATURE: u64 = 76;

const START: u64 = 256;

const STEP: u64 = 257;

const HALT: u64 = 258;

const SET_BOUNDS: u64 = 259;

// A command's number, options and arguments, as C writes them; `known` says whether they are a command.
// Check and reading are apart, not one `TryFrom`: `measure` reads without the check.
#[derive(Clone, Copy)]
pub struct CommandNumbers {
    pub kind: u64,
    pub mask: u64,
    pub overrides: u64,
    pub a: u64,
    pub b: u64,
    pub c: u64,
    pub d: u64,
    pub e: u64,
}

impl CommandNumbers {
    fn from_words(w: &[u64]) -> CommandNumbers
        ensures { result ≡ command_numbers w.now }
    {
        CommandNumbers {
            kind: at(w, 0),
            mask: at(w, 3),
            overrides: at(w, 4),
            a: at(w, 5),
            b: at(w, 6),
            c: at(w, 7),
            d: at(w, 8),
            e: at(w, 9),
        }
    }

    #[tactic(auto, unfolding(crate::specs::Calls::hue_command))]
    fn hue_command(self) -> Command
        ensures { result ≡ hue_command self }
    {
        match self.kind {
            MOVE_TO_HUE => Command::MoveToHue {
                hue: words::byte(self.a),
                direction: enums::read(self.b),
                time: words::short(self.c),
            },
            MOVE_HUE => Command::MoveHue {
                mode: enums::read(self.a),
                rate: words::byte(self.b),
                enhanced: words::flag(self.c),
            },
            _ => Command::StepHue {
                mode: enums::read(self.a),
                size: words::byte(self.b),
                time: words::short(self.c),
            },
        }
    }

    #[tactic(auto, unfolding(crate::specs::Calls::saturation_command))]
    fn saturation_command(self) -> Command
        ensures { result ≡ saturation_command self }
    {
        match self.kind {
            MOVE_TO_SATURATION => Command::MoveToSaturation {
                saturation: words::byte(self.a),
                time: words::short(self.b),
            },
            MOVE_SATURATION => Command::MoveSaturation {
                mode: enums::read(self.a),
                rate: words::byte(self.b),
            },
            STEP_SATURATION => Command::StepSaturation {
                mode: enums::read(self.a),
                size: words::byte(self.b),
                time: words::short(self.c),
            },
            _ => Command::MoveToHueAndSaturation {
                hue: words::byte(self.a),
                saturation: words::byte(self.b),
                time: words::short(self.c),
                enhanced: words::flag(self.d),
                enhanced_hue: words::short(self.e),
            },
        }
    }

    #[tactic(auto, unfolding(crate::specs::Calls::enhanced_command))]
    fn enhanced_command(self) -> Command
        ensures { result ≡ enhanced_command self }
    {
        match self.kind {
            ENHANCED_MOVE_TO_HUE => Command::EnhancedMoveToHue {
                hue: words::short(self.a),
                direction: enums::read(self.b),
                time: words::short(self.c),
            },
            ENHANCED_MOVE_HUE => Command::EnhancedMoveHue {
                mode: enums::read(self.a),
                rate: words::short(self.b),
            },
            _ => Command::EnhancedStepHue {
                mode: enums::read(self.a),
                size: words::short(self.b),
                time: words::short(self.c),
            },
        }
    }

    #[tactic(auto, unfolding(crate::specs::Calls::mireds_command))]
    fn mireds_command(self) -> Command
        ensures { result ≡ mireds_command self }
    {
        match self.kind {
            MOVE_TO_COLOR_TEMPERATURE => Command::MoveToColorTemperature {
                mireds: words::short(self.a),
                time: words::short(self.b),
            },
            MOVE_COLOR_TEMPERATURE => Command::MoveColorTemperature {
                mode: enums::read(self.a),
                rate: words::short(self.b),
                min: words::short(self.c),
                max: words::short(self.d),
            },
            _ => Command::StepColorTemperature {
                mode: enums::read(self.a),
                size: words::short(self.b),
                time: words::short(self.c),
                min: words::short(self.d),
                max: words::short(self.e),
            },
        }
    }

    #[tactic(auto, unfolding(crate::specs::Calls::loop_command))]
    fn loop_command(self) -> Command
        ensures { result ≡ loop_command self }
    {
        Command::ColorLoopSet {
            flags: words::byte(self.a),
            action: enums::read(self.b),
            direction: enums::read(self.c),
            time: words::short(self.d),
            start_hue: words::short(self.e),
        }
    }

    // By families, each with a function of its own that looks at the kind again: they are those of the commands' files.
    #[tactic(auto, unfolding(crate::specs::Calls::command_of))]
    fn command(self) -> Command
        ensures { result ≡ command_of self }
    {
        match self.kind {
            MOVE_TO_HUE..=STEP_HUE => self.hue_command(),
            MOVE_TO_SATURATION..=MOVE_TO_HUE_AND_SATURATION => self.saturation_command(),
            COLOR_LOOP_SET => self.loop_command(),
            STOP_MOVE_STEP => Command::StopMoveStep,
            ENHANCED_MOVE_TO_HUE..=ENHANCED_STEP_HUE => self.enhanced_command(),
            _ => self.mireds_command(),
        }
    }

    #[tactic(auto, unfolding(crate::specs::Calls::request_of))]
    fn request(self) -> Request
        ensures { result ≡ request_of self }
    {
        Request {
            options: CommandOptions {
                mask: words::byte(self.mask),
                overrides: words::byte(self.overrides),
            },
            command: self.command(),
        }
    }

    // Whether each argument is within its field: sixteen bits at most, eight for some, 0 or 1 for a flag.
    // By the kind here and in `known`: kinds with the same widths have not the same enums.
    #[tactic(auto, unfolding(crate::specs::Calls::command_fits))]
    fn fits(self) -> bool
        ensures { result ≡ command_fits self }
    {
        self.mask <= 255
            && self.overrides <= 255
            && self.a <= 65535
            && self.b <= 65535
            && self.c <= 65535
            && self.d <= 65535
            && self.e <= 65535
            && match self.kind {
                MOVE_TO_HUE | MOVE_TO_SATURATION | COLOR_LOOP_SET => self.a <= 255,
                MOVE_HUE => self.b <= 255 && self.c <= 1,
                STEP_HUE | MOVE_SATURATION | STEP_SATURATION => self.b <= 255,
                MOVE_TO_HUE_AND_SATURATION => self.a <= 255 && self.b <= 255 && self.d <= 1,
                _ => true,
            }
    }

    // Whether the kind and the enums' numbers exist, and each argument is within its field.
    #[tactic(auto, unfolding(crate::specs::Calls::command_known))]
    fn known(self) -> bool
        ensures { result ≡ command_known self }
    {
        self.fits()
            && match self.kind {
                MOVE_TO_HUE | ENHANCED_MOVE_TO_HUE => enums::is_known::<DirectionEnum>(self.b),
                MOVE_HUE | MOVE_SATURATION | ENHANCED_MOVE_HUE | MOVE_COLOR_TEMPERATURE => {
                    enums::is_known::<MoveModeEnum>(self.a)
                }
                STEP_HUE | STEP_SATURATION | ENHANCED_STEP_HUE | STEP_COLOR_TEMPERATURE => {
                    enums::is_known::<StepModeEnum>(self.a)
                }
                MOVE_TO_SATURATION
                | MOVE_TO_HUE_AND_SATURATION
                | MOVE_TO_COLOR_TEMPERATURE
                | STOP_MOVE_STEP => true,
                COLOR_LOOP_SET => {
                    enums::is_known::<ColorLoopActionEnum>(self.b)
                        && enums::is_known::<ColorLoopDirectionEnum>(self.c)
                }
                _ => false,
            }
    }
}

// Whether the words are a call: as many as it has, with a kind and enums' numbers that exist, and each within its field.
#[tactic(auto, unfolding(crate::specs::Calls::call_known))]
pub(crate) fn call_known(w: &[u64]) -> bool
    ensures { result ≡ call_known w.now }
{
    let kind = at(w, 0);
    w.len() == CALL_WORDS
        && ((kind == START && TaskNumbers::from_words(w, 3).known())
            || kind == STEP
            || kind == HALT
            || (kind == SET_BOUNDS && bounds::fit(w, 3))
            || (CommandNumbers::from_words(w).known() && enums::is_known::<OnOff>(at(w, 2))))
}

// The call that the words mean; `call_known` says whether they are one, and stands apart since `measure` reads without it.
#[tactic(auto, unfolding(crate::specs::Calls::call_of))]
pub fn call_of(w: &[u64]) -> Call
    ensures { result ≡ call_of w.now }
{
    let clock = at(w, 1);
    match at(w, 0) {
        STEP => Call::Step { clock },
        START => Call::Start {
            task: TaskNumbers::from_words(w, 3).task(),
            clock,
        },
        HALT => Call::Halt { clock },
        SET_BOUNDS => Call::SetBounds {
            bounds: bounds::read(w, 3),
            clock,
        },
        _ => Call::Command {
            request: CommandNumbers::from_words(w).request(),
            on_off: enums::read(at(w, 2)),
            clock,
        },
    }
}

// The answer to a call. A kind past the last one is no call.
#[tactic(auto, unfolding(crate::specs::Calls::called))]
pub fn called(lamp: Lamp, w: &[u64]) -> Option<Answer>
    ensures { result ≡ C.called lamp w.now }
{
    if SET_BOUNDS < at(w, 0) {
        None
    } else {
        Some(commands::call(lamp, call_of(w)))
    }
}

// The answer to a call by its number. Words that are no call have UNREADABLE, and leave the lamp as it was.
#[tactic(auto, unfolding(crate::specs::Calls::sent, crate::specs::Calls::called))]
pub fn sent(lamp: Lamp, w: &[u64]) -> NumberedAnswer
    ensures { result ≡ C.sent lamp w.now }
{
    match called(lamp, w) {
        Some(answer) => answer.numbered(),
        None => lamp.numbered(UNREADABLE),
    }
}
