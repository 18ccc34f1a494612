// The cluster's bitmaps (OptionsBitmap, UpdateFlagsBitmap, Feature) and what is decided by them.
// Carried over from project-chip/rs-matter, commit 43f61585a4 (Apache-2.0, see NOTICE), and changed.
ghost use Rattle.std.specs.Prelude.{◌≡◌};
ghost use Rattle.matter.specs.Flags.{has_flag};
ghost use Rattle.matter.specs.Rules.{may_execute, default_color_mode};

use crate::enums::{EnhancedColorModeEnum, OnOff};

// The bits of the cluster's bitmaps: OptionsBitmap, UpdateFlagsBitmap, Feature. Numbers, since a command and a lamp carry any.
pub const EXECUTE_IF_OFF: u32 = 1;

pub const UPDATE_ACTION: u32 = 1;

pub const UPDATE_DIRECTION: u32 = 2;

pub const UPDATE_TIME: u32 = 4;

pub const UPDATE_START_HUE: u32 = 8;

pub const HUE_AND_SATURATION: u32 = 1;

pub const ENHANCED_HUE: u32 = 2;

pub const COLOR_LOOP: u32 = 4;

pub const XY: u32 = 8;

pub const COLOR_TEMPERATURE: u32 = 16;

// Whether a bitmap has a flag, which is a power of two. No bitmap has the flag 0.
#[tactic(auto, unfolding(crate::specs::Flags::has_flag))]
pub fn contains(bits: u32, flag: u32) -> bool
    ensures { result ≡ has_flag bits flag }
{
    if flag == 0 {
        return false;
    }
    bits / flag % 2 == 1
}

// Whether a command may execute: without an on/off cluster, or on, always. Off: ExecuteIfOff of the override where the mask has it,
// else of the lamp's own options. The name and the parameters are the source's.
pub fn should_continue(on_off: OnOff, options: u8, options_mask: u8, options_override: u8) -> bool
    ensures { result ≡ may_execute on_off options options_mask options_override }
{
    match on_off {
        OnOff::NoHandler | OnOff::On => true,
        OnOff::Off => {
            if contains(options_mask as u32, EXECUTE_IF_OFF) {
                contains(options_override as u32, EXECUTE_IF_OFF)
            } else {
                contains(options as u32, EXECUTE_IF_OFF)
            }
        }
    }
}

// The first colour mode that the features have, in the order XY, hue and saturation, mireds; XY where they have none.
#[tactic(auto, unfolding(crate::specs::Rules::default_color_mode))]
pub fn default_color_mode(feature_map: u32) -> EnhancedColorModeEnum
    ensures { result ≡ default_color_mode feature_map }
{
    if contains(feature_map, XY) {
        return EnhancedColorModeEnum::CurrentXAndCurrentY;
    }
    if contains(feature_map, HUE_AND_SATURATION) {
        return EnhancedColorModeEnum::CurrentHueAndCurrentSaturation;
    }
    if contains(feature_map, COLOR_TEMPERATURE) {
        return EnhancedColorModeEnum::ColorTemperatureMireds;
    }
    EnhancedColorModeEnum::CurrentXAndCurrentY
}
