// Reading a task: by its name, what it asks for. A record has the same numbers after its initial values.
ghost use Rattle.text.specs.Readers.{Reads};
ghost use Rattle.lamp_lines.specs.Moves.{dashed, move_to_at, hue_move_at, saturation_move_at, mireds_to_at, mireds_move_at, color_loop_at, task_at};

use crate::enums::enumerated;
use tasks::{
    ColorLoop, ColorTemperatureMove, ColorTemperatureMoveTo, HueMove, HueSaturationMoveTo,
    SaturationMove, Task,
};
use text::numbers::FromWord;
use text::words::Words;

// A value, or `-` for none.
fn dashed<T: FromWord>(words: &mut Words) -> Option<Option<T>>
    ensures { Reads (dashed T.meaning words.old) result words.new }
{
    match words.word()? {
        b"-" => Some(None),
        word => Some(Some(T::from_word(word)?)),
    }
}

// The readers below read alike: each fills the case of its own task, in the order of the words.
#[tactic(auto, unfolding(crate::specs::Moves::move_to_at, crate::specs::Moves::delta_at, crate::specs::Moves::target_at))]
fn move_to(words: &mut Words) -> Option<Task>
    ensures { Reads (move_to_at words.old) result words.new }
{
    Some(Task::HueSaturationMoveTo(HueSaturationMoveTo {
        delta: dashed(words)?,
        saturation: dashed(words)?,
        ms: words.read()?,
        enhanced: words.read()?,
    }))
}

#[tactic(auto, unfolding(crate::specs::Moves::hue_move_at))]
fn hue_move(words: &mut Words) -> Option<Task>
    ensures { Reads (hue_move_at words.old) result words.new }
{
    Some(Task::HueMove(HueMove {
        direction: enumerated(words)?,
        rate: words.read()?,
        enhanced: words.read()?,
    }))
}

#[tactic(auto, unfolding(crate::specs::Moves::saturation_move_at))]
fn saturation_move(words: &mut Words) -> Option<Task>
    ensures { Reads (saturation_move_at words.old) result words.new }
{
    Some(Task::SaturationMove(SaturationMove {
        direction: enumerated(words)?,
        rate: words.read()?,
    }))
}

#[tactic(auto, unfolding(crate::specs::Moves::mireds_to_at))]
fn mireds_to(words: &mut Words) -> Option<Task>
    ensures { Reads (mireds_to_at words.old) result words.new }
{
    Some(Task::ColorTemperatureMoveTo(ColorTemperatureMoveTo {
        target: words.read()?,
        ms: words.read()?,
    }))
}

#[tactic(auto, unfolding(crate::specs::Moves::mireds_move_at))]
fn mireds_move(words: &mut Words) -> Option<Task>
    ensures { Reads (mireds_move_at words.old) result words.new }
{
    Some(Task::ColorTemperatureMove(ColorTemperatureMove {
        rate: words.read()?,
        min: words.read()?,
        max: words.read()?,
    }))
}

#[tactic(auto, unfolding(crate::specs::Moves::color_loop_at))]
fn color_loop(words: &mut Words) -> Option<Task>
    ensures { Reads (color_loop_at words.old) result words.new }
{
    Some(Task::ColorLoop(ColorLoop {
        direction: enumerated(words)?,
        seconds: words.read()?,
    }))
}

// The task of a name, with its numbers behind it. (A `match` on names of more than a few letters is not proved.)
#[tactic(auto, unfolding(crate::specs::Moves::task_at))]
pub fn task(name: &[u8], words: &mut Words) -> Option<Task>
    ensures { Reads (task_at name.now words.old) result words.new }
{
    if name == b"move_to".as_slice() {
        move_to(words)
    } else if name == b"hue_move".as_slice() {
        hue_move(words)
    } else if name == b"sat_move".as_slice() {
        saturation_move(words)
    } else if name == b"ct_to".as_slice() {
        mireds_to(words)
    } else if name == b"ct_move".as_slice() {
        mireds_move(words)
    } else if name == b"loop".as_slice() {
        color_loop(words)
    } else if name == b"stop".as_slice() {
        Some(Task::Stop)
    } else {
        None
    }
}
