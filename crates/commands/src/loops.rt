// The colour loop's command. `cmd_`: the source's names and parameters.
// Carried over from project-chip/rs-matter, commit 43f61585a4 (Apache-2.0, see NOTICE), and changed.
ghost use Rattle.std.specs.Prelude.{◌≡◌, cond, []};
ghost use Rattle.notices.specs.Numerals.{in_front};
ghost use Rattle.lamp.specs.Answers.{at_clock};
ghost use Rattle.commands.specs.Commands.{skip, updated, updated_reported, deactivated, activated, acted, loop_set};
ghost use Rattle.matter.specs.Requests.{request, options};
ghost use Rattle.commands.specs.Answers.{command_answer};
ghost use Rattle.commands.specs.Inner.{accepted_outcome};

use crate::outcomes::{Outcome, nothing};
use crate::with_options;
use color::cons_change;
use lamp::{Answer, Lamp, LoopSettings};
use matter::{
    ColorLoopActionEnum, ColorLoopDirectionEnum, Command, OnOff, UPDATE_ACTION, UPDATE_DIRECTION,
    UPDATE_START_HUE, UPDATE_TIME, contains,
};
use notices::{Notice, Numeral};
use tasks::{ColorLoop, Task};

// The one or the other.
fn choice<T: Copy>(test: bool, new: T, old: T) -> T
    ensures { result ≡ cond test new old }
{
    if test { new } else { old }
}

// The settings after the update by flags.
fn updated_settings(
    s: LoopSettings,
    flags: u8,
    direction: ColorLoopDirectionEnum,
    time: u16,
    start_hue: u16,
) -> LoopSettings
    ensures { result ≡ updated s flags direction time start_hue }
{
    let bits = flags as u32;
    LoopSettings {
        direction: choice(contains(bits, UPDATE_DIRECTION), direction, s.direction),
        time: choice(contains(bits, UPDATE_TIME), time, s.time),
        start: choice(contains(bits, UPDATE_START_HUE), start_hue, s.start),
        ..s
    }
}

// The update's notices in front of a list.
fn cons_updated(list: Numeral, flags: u8) -> Numeral
    ensures { result ≡ in_front (updated_reported flags) list }
{
    let bits = flags as u32;
    list.note(Notice::MarkedDirty)
        .note_if(
            contains(bits, UPDATE_START_HUE),
            Notice::ColorLoopStartEnhancedHue,
        )
        .note_if(contains(bits, UPDATE_TIME), Notice::ColorLoopTime)
        .note_if(contains(bits, UPDATE_DIRECTION), Notice::ColorLoopDirection)
}

// Off: where the loop is active, the stored hue comes back and the Stop task is given.
#[tactic(auto, unfolding(crate::specs::Commands::deactivated))]
fn deactivate(lamp: Lamp) -> Outcome
    ensures { result ≡ accepted_outcome (deactivated lamp []) }
{
    if !lamp.looping.active {
        return nothing(lamp);
    }
    let set = lamp
        .color
        .set_hue(lamp.looping.stored, true, true, lamp.clock);
    let device = Numeral::new().note(Notice::DeviceHueSaturation);
    Outcome {
        color: set.color,
        looping: LoopSettings {
            active: false,
            ..lamp.looping
        },
        reported: cons_change(set.change, device, false)
            .note(Notice::ColorLoopActive)
            .note(Notice::TaskGiven),
        task: Some(Task::Stop),
    }
}

// On: the hue is stored, unless the loop is active already, the first hue is set, and the loop's task is given.
#[tactic(auto, unfolding(crate::specs::Commands::activated))]
fn activate(lamp: Lamp, seed: u16) -> Outcome
    ensures { result ≡ accepted_outcome (activated lamp [] seed) }
{
    let old = lamp.looping;
    let active = old.active;
    let set = lamp.color.set_hue(seed, true, true, lamp.clock);
    let given = Numeral::new()
        .note(Notice::TaskGiven)
        .note(Notice::DeviceHueSaturation);
    Outcome {
        color: set.color,
        looping: LoopSettings {
            active: true,
            stored: choice(active, old.stored, lamp.color.hue),
            ..old
        },
        reported: cons_change(set.change, given, true)
            .note_if(!active, Notice::ColorLoopActive)
            .note_if(!active, Notice::ColorLoopStoredEnhancedHue),
        task: Some(Task::ColorLoop(ColorLoop {
            direction: old.direction,
            seconds: old.time,
        })),
    }
}

// The action, where the update has one.
fn act(lamp: Lamp, acts: bool, action: ColorLoopActionEnum) -> Outcome
    ensures { result ≡ accepted_outcome (cond acts (acted lamp [] action) (skip lamp)) }
{
    if !acts {
        return nothing(lamp);
    }
    match action {
        ColorLoopActionEnum::Deactivate => deactivate(lamp),
        ColorLoopActionEnum::ActivateFromColorLoopStartEnhancedHue => {
            activate(lamp, lamp.looping.start)
        }
        ColorLoopActionEnum::ActivateFromEnhancedCurrentHue => activate(lamp, lamp.color.hue),
    }
}

// What the command does at its clock.
#[tactic(auto, unfolding(crate::specs::Commands::loop_set))]
pub(crate) fn set_loop(
    lamp: Lamp,
    clock: u64,
    flags: u8,
    action: ColorLoopActionEnum,
    direction: ColorLoopDirectionEnum,
    time: u16,
    start_hue: u16,
) -> Outcome
    ensures { result ≡ accepted_outcome (loop_set (at_clock lamp clock) flags action direction time start_hue) }
{
    let changed = Lamp {
        clock,
        looping: updated_settings(lamp.looping, flags, direction, time, start_hue),
        ..lamp
    };
    let done = act(changed, contains(flags as u32, UPDATE_ACTION), action);
    Outcome {
        reported: cons_updated(done.reported, flags),
        ..done
    }
}

// ColorLoopSet.
pub fn cmd_color_loop_set(
    lamp: Lamp,
    update_flags: u8,
    action: ColorLoopActionEnum,
    direction: ColorLoopDirectionEnum,
    time: u16,
    start_hue: u16,
    options_mask: u8,
    options_override: u8,
    on_off: OnOff,
    clock: u64,
) -> Answer
    ensures { result ≡ command_answer lamp (request (Command.ColorLoopSet update_flags action direction time start_hue) (options options_mask options_override)) on_off clock }
{
    let command = Command::ColorLoopSet {
        flags: update_flags,
        action,
        direction,
        time,
        start_hue,
    };
    with_options(lamp, command, options_mask, options_override, on_off, clock)
}
