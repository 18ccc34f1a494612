// Reading a running record: its name, the clock and the initial values at its start, and its task's numbers.
ghost use Rattle.std.specs.Prelude.{◌≡◌};
ghost use Rattle.text.specs.Readers.{Reads};
ghost use Rattle.lamp_lines.specs.Records.{initial_at, record_of, record_at, running_at};

use crate::moves;
use tasks::{
    ColorTemperatureRun, ColorTemperatureToRun, HueRun, HueSaturationRun, Running, SaturationRun,
    Task,
};
use text::words::Words;

// The clock at a start and the initial values: a hue or mireds, a saturation, or a hue and a saturation. One struct for all:
// of an enum, `record` would have to match the cases with the task's.
#[derive(Clone, Copy)]
struct Initial {
    start: u64,
    number: u16,
    saturation: u8,
}

// By the task's name. (A `match` on names of more than a few letters is not proved.)
#[tactic(auto, unfolding(crate::specs::Records::initial_at))]
fn initial_values(name: &[u8], words: &mut Words) -> Option<Initial>
    ensures { Reads (initial_at name.now words.old) result words.new }
{
    let start = words.read()?;
    if name == b"sat_move".as_slice() {
        return Some(Initial {
            start,
            number: 0,
            saturation: words.read()?,
        });
    }
    let number = words.read()?;
    let saturation = if name == b"move_to".as_slice() {
        words.read()?
    } else {
        0
    };
    Some(Initial {
        start,
        number,
        saturation,
    })
}

// The record of a task; a Stop task has none. In a move of the color temperature, the limits that it runs between take the
// place of the caller's.
#[tactic(auto, unfolding(crate::specs::Records::record_of))]
fn record(initial: Initial, task: Task) -> Option<Running>
    ensures { result ≡ record_of initial task }
{
    let Initial {
        start,
        number,
        saturation,
    } = initial;
    match task {
        Task::HueSaturationMoveTo(task) => Some(Running::HueSaturationMoveTo(HueSaturationRun {
            start,
            hue: number,
            saturation,
            task,
        })),
        Task::HueMove(task) => Some(Running::HueMove(HueRun {
            start,
            hue: number,
            task,
        })),
        Task::SaturationMove(task) => Some(Running::SaturationMove(SaturationRun {
            start,
            saturation,
            task,
        })),
        Task::ColorTemperatureMoveTo(task) => {
            Some(Running::ColorTemperatureMoveTo(ColorTemperatureToRun {
                start,
                mireds: number,
                task,
            }))
        }
        Task::ColorTemperatureMove(task) => {
            Some(Running::ColorTemperatureMove(ColorTemperatureRun {
                start,
                mireds: number,
                rate: task.rate,
                lo: task.min,
                hi: task.max,
            }))
        }
        Task::ColorLoop(task) => Some(Running::ColorLoop {
            direction: task.direction,
            hue: number,
            seconds: task.seconds,
            start,
        }),
        Task::Stop => None,
    }
}

fn record_by_name(name: &[u8], words: &mut Words) -> Option<Running>
    ensures { Reads (record_at name.now words.old) result words.new }
{
    record(initial_values(name, words)?, moves::task(name, words)?)
}

// `idle`, or a record by its task's name.
#[tactic(auto, unfolding(crate::specs::Records::running_at))]
pub fn running(words: &mut Words) -> Option<Running>
    ensures { Reads (running_at words.old) result words.new }
{
    match words.word()? {
        b"idle" => Some(Running::Idle),
        name => record_by_name(name, words),
    }
}
