// What a command comes to, before the answer is built from it.
ghost use Rattle.std.specs.Prelude.{◌≡◌};
ghost use Rattle.notices.specs.Names.{hue_tie};
ghost use Rattle.notices.specs.Notices.{only};
ghost use Rattle.commands.specs.Commands.{skip, giving, giving_with};
ghost use Rattle.commands.specs.Inner.{accepted_outcome};

use color::Color;
use lamp::{Lamp, LoopSettings};
use notices::{Notice, Numeral};
use tasks::Task;

// All of the lamp that an accepted command can change but its clock, what it reports, and its task.
#[derive(Clone, Copy, Debug, PartialEq, Eq)]
pub struct Outcome {
    pub color: Color,
    pub looping: LoopSettings,
    pub reported: Numeral,
    pub task: Option<Task>,
}

// A task given, and its tie reported where there is one.
#[tactic(auto, unfolding(notices::specs::Numerals::in_front))]
pub(crate) fn given_with(lamp: Lamp, task: Task, is_tie: bool) -> Outcome
    ensures { result ≡ accepted_outcome (giving_with lamp task (only is_tie hue_tie)) }
{
    Outcome {
        color: lamp.color,
        looping: lamp.looping,
        reported: Numeral::new()
            .note_if(is_tie, Notice::HueTie)
            .note(Notice::TaskGiven),
        task: Some(task),
    }
}

// A task given.
pub(crate) fn given(lamp: Lamp, task: Task) -> Outcome
    ensures { result ≡ accepted_outcome (giving lamp task) }
{
    given_with(lamp, task, false)
}

// Nothing done: a refusal, or a command that may not execute (document 01's pass-over).
#[tactic(auto, unfolding(notices::specs::Numerals::in_front))]
pub(crate) fn nothing(lamp: Lamp) -> Outcome
    ensures { result ≡ accepted_outcome (skip lamp) }
{
    Outcome {
        color: lamp.color,
        looping: lamp.looping,
        reported: Numeral::new(),
        task: None,
    }
}
