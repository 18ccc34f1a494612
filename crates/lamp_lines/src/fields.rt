// Reading a lamp's fields, in their order on a line.
ghost use Rattle.text.specs.Readers.{Reads};
ghost use Rattle.lamp_lines.specs.Fields.{bounds_at, stamps_at, color_at, loop_settings_at, idle_lamp_at};

use crate::enums::enumerated;
use color::{Color, Stamps};
use lamp::{Lamp, LoopSettings};
use matter::Bounds;
use remaining_time::RemainingTime;
use tasks::Running;
use text::words::Words;

// The readers below read alike: each fills a struct of its own, in the order of the words.
#[tactic(auto, unfolding(crate::specs::Fields::bounds_at))]
pub fn bounds(words: &mut Words) -> Option<Bounds>
    ensures { Reads (bounds_at words.old) result words.new }
{
    let min = words.read()?;
    let max = words.read()?;
    Some(Bounds { min, max })
}

#[tactic(auto, unfolding(crate::specs::Fields::stamps_at))]
fn stamps(words: &mut Words) -> Option<Stamps>
    ensures { Reads (stamps_at words.old) result words.new }
{
    Some(Stamps {
        hue: words.read()?,
        saturation: words.read()?,
        mireds: words.read()?,
    })
}

#[tactic(auto, unfolding(crate::specs::Fields::color_at))]
fn color(words: &mut Words) -> Option<Color>
    ensures { Reads (color_at words.old) result words.new }
{
    Some(Color {
        stamps: stamps(words)?,
        hue: words.read()?,
        saturation: words.read()?,
        mireds: words.read()?,
        mode: enumerated(words)?,
        emode: enumerated(words)?,
    })
}

#[tactic(auto, unfolding(crate::specs::Fields::loop_settings_at))]
fn loop_settings(words: &mut Words) -> Option<LoopSettings>
    ensures { Reads (loop_settings_at words.old) result words.new }
{
    Some(LoopSettings {
        active: words.read()?,
        direction: enumerated(words)?,
        time: words.read()?,
        start: words.read()?,
        stored: words.read()?,
    })
}

// An idle lamp with the fields that follow.
#[tactic(auto, unfolding(crate::specs::Fields::idle_lamp_at))]
pub fn idle_lamp(words: &mut Words) -> Option<Lamp>
    ensures { Reads (idle_lamp_at words.old) result words.new }
{
    Some(Lamp {
        bounds: bounds(words)?,
        clock: words.read()?,
        options: words.read()?,
        remaining: RemainingTime {
            tenths: words.read()?,
        },
        color: color(words)?,
        looping: loop_settings(words)?,
        running: Running::Idle,
    })
}
