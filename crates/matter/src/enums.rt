// The Color Control cluster's enums, with their numbers. An enum's number is what a command or an attribute carries; a
// number that no case has is reserved.
// Carried over from project-chip/rs-matter, commit 43f61585a4 (Apache-2.0, see NOTICE), and changed.
ghost use Rattle.std.specs.Prelude.{◌≡◌, ℕ, List, Result};
ghost use Rattle.matter.specs.declared.enums.Reserved.{Reserved};
ghost use Rattle.matter.specs.Rules.{signed, color_mode_of};
ghost use Rattle.matter.specs.Numbers.{found_in, direction_number, directions, direction_found, move_mode_number, move_modes, move_mode_found, step_mode_number, step_modes, step_mode_found, loop_action_number, loop_actions, loop_action_found, loop_direction_number, loop_directions, loop_direction_found, color_mode_number, color_modes, color_mode_found, enhanced_color_mode_number, enhanced_color_modes, enhanced_color_mode_found, on_off_number, on_offs, on_off_found};

// A number that no case of an enum has.
#[derive(Clone, Copy, Debug, PartialEq, Eq)]
pub struct Reserved {
    pub number: u8,
}

// An enum of the cluster: its cases are found by their numbers. Each enum has its three impls, since none can be for a list of
// types.
pub trait Numbered: TryFrom<u8, Error = Reserved> + Copy {
    ghost number: { Self → ℕ };

    ghost cases: { List Self };

    ghost finds: { (n : ℕ) (r : Result Self Reserved) → Self.try_from_gives n r → r ≡ found_in number cases n };
}

// Which way round the circle of hues a move-to goes.
#[derive(Clone, Copy, Debug, PartialEq, Eq)]
pub enum DirectionEnum {
    Shortest = 0,
    Longest = 1,
    Up = 2,
    Down = 3,
}

impl From<DirectionEnum> for u8 {
    ghost from_gives = { λ x n. n ≡ direction_number x };

    fn from(case: DirectionEnum) -> u8 {
        case as u8
    }
}

impl TryFrom<u8> for DirectionEnum {
    type Error = Reserved;

    ghost try_from_gives = { λ n r. r ≡ direction_found n };

    fn try_from(number: u8) -> Result<Self, Reserved> {
        match number {
            0 => Ok(DirectionEnum::Shortest),
            1 => Ok(DirectionEnum::Longest),
            2 => Ok(DirectionEnum::Up),
            3 => Ok(DirectionEnum::Down),
            _ => Err(Reserved { number }),
        }
    }
}

impl Numbered for DirectionEnum {
    ghost number = { direction_number };

    ghost cases = { directions };

    ghost finds = { λ _ _ e. e };
}

// What a move at a rate does: stop, or go up or down.
#[derive(Clone, Copy, Debug, PartialEq, Eq)]
pub enum MoveModeEnum {
    Stop = 0,
    Up = 1,
    Down = 3,
}

impl MoveModeEnum {
    // A rate with the sign of its direction.
    pub fn signed(self, rate: u32) -> i64
        ensures { result ≡ signed self rate }
    {
        match self {
            MoveModeEnum::Stop => 0,
            MoveModeEnum::Up => rate as i64,
            MoveModeEnum::Down => -(rate as i64),
        }
    }
}

impl From<MoveModeEnum> for u8 {
    ghost from_gives = { λ x n. n ≡ move_mode_number x };

    fn from(case: MoveModeEnum) -> u8 {
        case as u8
    }
}

impl TryFrom<u8> for MoveModeEnum {
    type Error = Reserved;

    ghost try_from_gives = { λ n r. r ≡ move_mode_found n };

    fn try_from(number: u8) -> Result<Self, Reserved> {
        match number {
            0 => Ok(MoveModeEnum::Stop),
            1 => Ok(MoveModeEnum::Up),
            3 => Ok(MoveModeEnum::Down),
            _ => Err(Reserved { number }),
        }
    }
}

impl Numbered for MoveModeEnum {
    ghost number = { move_mode_number };

    ghost cases = { move_modes };

    ghost finds = { λ _ _ e. e };
}

// Which way a step goes.
#[derive(Clone, Copy, Debug, PartialEq, Eq)]
pub enum StepModeEnum {
    Up = 1,
    Down = 3,
}

impl From<StepModeEnum> for u8 {
    ghost from_gives = { λ x n. n ≡ step_mode_number x };

    fn from(case: StepModeEnum) -> u8 {
        case as u8
    }
}

impl TryFrom<u8> for StepModeEnum {
    type Error = Reserved;

    ghost try_from_gives = { λ n r. r ≡ step_mode_found n };

    fn try_from(number: u8) -> Result<Self, Reserved> {
        match number {
            1 => Ok(StepModeEnum::Up),
            3 => Ok(StepModeEnum::Down),
            _ => Err(Reserved { number }),
        }
    }
}

impl Numbered for StepModeEnum {
    ghost number = { step_mode_number };

    ghost cases = { step_modes };

    ghost finds = { λ _ _ e. e };
}

// What the colour-loop command does with the loop.
#[derive(Clone, Copy, Debug, PartialEq, Eq)]
pub enum ColorLoopActionEnum {
    Deactivate = 0,
    ActivateFromColorLoopStartEnhancedHue = 1,
    ActivateFromEnhancedCurrentHue = 2,
}

impl From<ColorLoopActionEnum> for u8 {
    ghost from_gives = { λ x n. n ≡ loop_action_number x };

    fn from(case: ColorLoopActionEnum) -> u8 {
        case as u8
    }
}

impl TryFrom<u8> for ColorLoopActionEnum {
    type Error = Reserved;

    ghost try_from_gives = { λ n r. r ≡ loop_action_found n };

    fn try_from(number: u8) -> Result<Self, Reserved> {
        match number {
            0 => Ok(ColorLoopActionEnum::Deactivate),
            1 => Ok(ColorLoopActionEnum::ActivateFromColorLoopStartEnhancedHue),
            2 => Ok(ColorLoopActionEnum::ActivateFromEnhancedCurrentHue),
            _ => Err(Reserved { number }),
        }
    }
}

impl Numbered for ColorLoopActionEnum {
    ghost number = { loop_action_number };

    ghost cases = { loop_actions };

    ghost finds = { λ _ _ e. e };
}

// Which way the colour loop turns.
#[derive(Clone, Copy, Debug, PartialEq, Eq)]
pub enum ColorLoopDirectionEnum {
    Decrement = 0,
    Increment = 1,
}

impl From<ColorLoopDirectionEnum> for u8 {
    ghost from_gives = { λ x n. n ≡ loop_direction_number x };

    fn from(case: ColorLoopDirectionEnum) -> u8 {
        case as u8
    }
}

impl TryFrom<u8> for ColorLoopDirectionEnum {
    type Error = Reserved;

    ghost try_from_gives = { λ n r. r ≡ loop_direction_found n };

    fn try_from(number: u8) -> Result<Self, Reserved> {
        match number {
            0 => Ok(ColorLoopDirectionEnum::Decrement),
            1 => Ok(ColorLoopDirectionEnum::Increment),
            _ => Err(Reserved { number }),
        }
    }
}

impl Numbered for ColorLoopDirectionEnum {
    ghost number = { loop_direction_number };

    ghost cases = { loop_directions };

    ghost finds = { λ _ _ e. e };
}

// Which attributes the colour is read from.
#[derive(Clone, Copy, Debug, PartialEq, Eq)]
pub enum ColorModeEnum {
    CurrentHueAndCurrentSaturation = 0,
    CurrentXAndCurrentY = 1,
    ColorTemperatureMireds = 2,
}

impl From<ColorModeEnum> for u8 {
    ghost from_gives = { λ x n. n ≡ color_mode_number x };

    fn from(case: ColorModeEnum) -> u8 {
        case as u8
    }
}

impl TryFrom<u8> for ColorModeEnum {
    type Error = Reserved;

    ghost try_from_gives = { λ n r. r ≡ color_mode_found n };

    fn try_from(number: u8) -> Result<Self, Reserved> {
        match number {
            0 => Ok(ColorModeEnum::CurrentHueAndCurrentSaturation),
            1 => Ok(ColorModeEnum::CurrentXAndCurrentY),
            2 => Ok(ColorModeEnum::ColorTemperatureMireds),
            _ => Err(Reserved { number }),
        }
    }
}

impl Numbered for ColorModeEnum {
    ghost number = { color_mode_number };

    ghost cases = { color_modes };

    ghost finds = { λ _ _ e. e };
}

// ColorModeEnum, and the enhanced hue. Two types, as the cluster has two attributes.
#[derive(Clone, Copy, Debug, PartialEq, Eq)]
pub enum EnhancedColorModeEnum {
    CurrentHueAndCurrentSaturation = 0,
    CurrentXAndCurrentY = 1,
    ColorTemperatureMireds = 2,
    EnhancedCurrentHueAndCurrentSaturation = 3,
}

impl From<EnhancedColorModeEnum> for u8 {
    ghost from_gives = { λ x n. n ≡ enhanced_color_mode_number x };

    fn from(case: EnhancedColorModeEnum) -> u8 {
        case as u8
    }
}

impl TryFrom<u8> for EnhancedColorModeEnum {
    type Error = Reserved;

    ghost try_from_gives = { λ n r. r ≡ enhanced_color_mode_found n };

    fn try_from(number: u8) -> Result<Self, Reserved> {
        match number {
            0 => Ok(EnhancedColorModeEnum::CurrentHueAndCurrentSaturation),
            1 => Ok(EnhancedColorModeEnum::CurrentXAndCurrentY),
            2 => Ok(EnhancedColorModeEnum::ColorTemperatureMireds),
            3 => Ok(EnhancedColorModeEnum::EnhancedCurrentHueAndCurrentSaturation),
            _ => Err(Reserved { number }),
        }
    }
}

impl Numbered for EnhancedColorModeEnum {
    ghost number = { enhanced_color_mode_number };

    ghost cases = { enhanced_color_modes };

    ghost finds = { λ _ _ e. e };
}

// What the on/off cluster beside the lamp says: off, on, or that there is none, which has a number too.
#[derive(Clone, Copy, Debug, PartialEq, Eq)]
pub enum OnOff {
    Off = 0,
    On = 1,
    NoHandler = 2,
}

impl From<OnOff> for u8 {
    ghost from_gives = { λ x n. n ≡ on_off_number x };

    fn from(case: OnOff) -> u8 {
        case as u8
    }
}

impl TryFrom<u8> for OnOff {
    type Error = Reserved;

    ghost try_from_gives = { λ n r. r ≡ on_off_found n };

    fn try_from(number: u8) -> Result<Self, Reserved> {
        match number {
            0 => Ok(OnOff::Off),
            1 => Ok(OnOff::On),
            2 => Ok(OnOff::NoHandler),
            _ => Err(Reserved { number }),
        }
    }
}

impl Numbered for OnOff {
    ghost number = { on_off_number };

    ghost cases = { on_offs };

    ghost finds = { λ _ _ e. e };
}

// The ColorMode that matches an EnhancedColorMode. A rule of the cluster with a name, not the same value in another type, so no
// `From`.
pub fn color_mode_of(mode: EnhancedColorModeEnum) -> ColorModeEnum
    ensures { result ≡ color_mode_of mode }
{
    match mode {
        EnhancedColorModeEnum::CurrentHueAndCurrentSaturation => {
            ColorModeEnum::CurrentHueAndCurrentSaturation
        }
        EnhancedColorModeEnum::CurrentXAndCurrentY => ColorModeEnum::CurrentXAndCurrentY,
        EnhancedColorModeEnum::ColorTemperatureMireds => ColorModeEnum::ColorTemperatureMireds,
        EnhancedColorModeEnum::EnhancedCurrentHueAndCurrentSaturation => {
            ColorModeEnum::CurrentHueAndCurrentSaturation
        }
    }
}
