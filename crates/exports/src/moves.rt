// Tasks and running records as numbers: a kind and its numbers in the protocol's order, unused places 0.
ghost use Rattle.std.specs.Prelude.{◌≡◌, ◌≤◌, ◌+◌};
ghost use Rattle.exports.specs.Words.{at};
ghost use Rattle.exports.specs.Moves.{numbers, delta_of, target_of, move_to_of, hue_move_of, saturation_move_of, mireds_to_of, mireds_move_of, color_loop_of, task_of, running_of, task_fits, task_known, record_known, move_to_numbers, hue_move_numbers, saturation_move_numbers, mireds_to_numbers, mireds_move_numbers, color_loop_numbers, task_numbers, given_numbers, record_numbers};

use crate::{enums, words};
use matter::{ColorLoopDirectionEnum, MoveModeEnum};
use tasks::{
    ColorLoop, ColorTemperatureMove, ColorTemperatureMoveTo, ColorTemperatureRun,
    ColorTemperatureToRun, HueMove, HueRun, HueSaturationMoveTo, HueSaturationRun, Running,
    SaturationMove, SaturationRun, Task,
};

// The kinds of tasks and records, numbers since C reads and writes them (docs/WORDS.md). 0 is no task, and an idle lamp.
const MOVE_TO: u64 = 1;

const HUE_MOVE: u64 = 2;

const SATURATION_MOVE: u64 = 3;

const MIREDS_TO: u64 = 4;

const MIREDS_MOVE: u64 = 5;

const LOOP: u64 = 6;

const STOP: u64 = 7;

// The largest size of a signed number.
const LARGEST: u64 = 9223372036854775807;

// A task's kind and its six numbers, as C has them; `known` says whether they are a task.
// Check and reading are apart, not one `TryFrom`: `measure` reads without the check.
#[derive(Clone, Copy, Default)]
pub struct TaskNumbers {
    pub kind: u64,
    pub a: u64,
    pub b: u64,
    pub c: u64,
    pub d: u64,
    pub e: u64,
    pub f: u64,
}

// A record's start: the clock and the numbers found there, and its task.
#[derive(Clone, Copy, Default)]
pub struct RecordNumbers {
    pub start: u64,
    pub x: u64,
    pub y: u64,
    pub task: TaskNumbers,
}

#[tactic(auto, unfolding(crate::specs::Moves::delta_of))]
fn delta(sign: u64, size: u64) -> Option<i64>
    ensures { result ≡ delta_of sign size }
{
    if sign == 0 {
        None
    } else {
        Some(words::signed(sign, size))
    }
}

#[tactic(auto, unfolding(crate::specs::Moves::target_of))]
fn target(given: u64, saturation: u64) -> Option<u8>
    ensures { result ≡ target_of given saturation }
{
    if given == 0 {
        None
    } else {
        Some(words::byte(saturation))
    }
}

impl TaskNumbers {
    // The seven words from the first one on.
    pub(crate) fn from_words(w: &[u64], first: usize) -> TaskNumbers
        requires { first ≤ 21 }
        ensures { result ≡ numbers (at w.now first) (at w.now (first + 1)) (at w.now (first + 2)) (at w.now (first + 3)) (at w.now (first + 4)) (at w.now (first + 5)) (at w.now (first + 6)) }
    {
        TaskNumbers {
            kind: words::at(w, first),
            a: words::at(w, first + 1),
            b: words::at(w, first + 2),
            c: words::at(w, first + 3),
            d: words::at(w, first + 4),
            e: words::at(w, first + 5),
            f: words::at(w, first + 6),
        }
    }

    #[tactic(auto, unfolding(crate::specs::Moves::move_to_of))]
    fn move_to(self) -> HueSaturationMoveTo
        ensures { result ≡ move_to_of self }
    {
        HueSaturationMoveTo {
            delta: delta(self.a, self.b),
            saturation: target(self.c, self.d),
            ms: words::long(self.e),
            enhanced: words::flag(self.f),
        }
    }

    #[tactic(auto, unfolding(crate::specs::Moves::hue_move_of))]
    fn hue_move(self) -> HueMove
        ensures { result ≡ hue_move_of self }
    {
        HueMove {
            direction: enums::read(self.a),
            rate: words::long(self.b),
            enhanced: words::flag(self.c),
        }
    }

    #[tactic(auto, unfolding(crate::specs::Moves::saturation_move_of))]
    fn saturation_move(self) -> SaturationMove
        ensures { result ≡ saturation_move_of self }
    {
        SaturationMove {
            direction: enums::read(self.a),
            rate: words::long(self.b),
        }
    }

    #[tactic(auto, unfolding(crate::specs::Moves::mireds_to_of))]
    fn mireds_to(self) -> ColorTemperatureMoveTo
        ensures { result ≡ mireds_to_of self }
    {
        ColorTemperatureMoveTo {
            target: words::short(self.a),
            ms: words::long(self.b),
        }
    }

    #[tactic(auto, unfolding(crate::specs::Moves::mireds_move_of))]
    fn mireds_move(self) -> ColorTemperatureMove
        ensures { result ≡ mireds_move_of self }
    {
        ColorTemperatureMove {
            rate: words::signed(self.a, self.b),
            min: words::short(self.c),
            max: words::short(self.d),
        }
    }

    #[tactic(auto, unfolding(crate::specs::Moves::color_loop_of))]
    fn color_loop(self) -> ColorLoop
        ensures { result ≡ color_loop_of self }
    {
        ColorLoop {
            direction: enums::read::<ColorLoopDirectionEnum>(self.a),
            seconds: words::short(self.b),
        }
    }

    // Whether each number is within its field. `fits`, `known` and `task` all go by the kind, and each asks another thing:
    // the widths, the enums' numbers, the task.
    #[tactic(auto, unfolding(crate::specs::Moves::task_fits))]
    fn fits(self) -> bool
        ensures { result ≡ task_fits self }
    {
        match self.kind {
            MOVE_TO => {
                self.b <= LARGEST
                    && self.c <= 1
                    && self.d <= 255
                    && self.e <= 4294967295
                    && self.f <= 1
            }
            HUE_MOVE => self.b <= 4294967295 && self.c <= 1,
            SATURATION_MOVE => self.b <= 4294967295,
            MIREDS_TO => self.a <= 65535 && self.b <= 4294967295,
            MIREDS_MOVE => self.b <= LARGEST && self.c <= 65535 && self.d <= 65535,
            LOOP => self.b <= 65535,
            _ => true,
        }
    }

    // Whether the kind and the enums' numbers exist, and each number is within its field.
    #[tactic(auto, unfolding(crate::specs::Moves::task_known))]
    pub(crate) fn known(self) -> bool
        ensures { result ≡ task_known self }
    {
        self.fits()
            && match self.kind {
                MOVE_TO | MIREDS_MOVE => self.a <= 2,
                HUE_MOVE | SATURATION_MOVE => enums::is_known::<MoveModeEnum>(self.a),
                LOOP => enums::is_known::<ColorLoopDirectionEnum>(self.a),
                MIREDS_TO | STOP => true,
                _ => false,
            }
    }

    #[tactic(auto, unfolding(crate::specs::Moves::task_of))]
    pub(crate) fn task(self) -> Task
        ensures { result ≡ task_of self }
    {
        match self.kind {
            MOVE_TO => Task::HueSaturationMoveTo(self.move_to()),
            HUE_MOVE => Task::HueMove(self.hue_move()),
            SATURATION_MOVE => Task::SaturationMove(self.saturation_move()),
            MIREDS_TO => Task::ColorTemperatureMoveTo(self.mireds_to()),
            MIREDS_MOVE => Task::ColorTemperatureMove(self.mireds_move()),
            LOOP => Task::ColorLoop(self.color_loop()),
            _ => Task::Stop,
        }
    }
}

impl RecordNumbers {
    // The same of a record.
    #[tactic(auto, unfolding(crate::specs::Moves::record_known))]
    pub(crate) fn known(self) -> bool
        ensures { result ≡ record_known self }
    {
        let task = self.task;
        self.x <= 65535
            && self.y <= 255
            && (task.kind != SATURATION_MOVE || self.x <= 255)
            && (task.kind == 0 || (task.kind <= 6 && task.known()))
    }

    pub(crate) fn running(self) -> Running
        ensures { result ≡ running_of self }
    {
        match self.task.task() {
            Task::HueSaturationMoveTo(t) => Running::HueSaturationMoveTo(HueSaturationRun {
                start: self.start,
                hue: words::short(self.x),
                saturation: words::byte(self.y),
                task: t,
            }),
            Task::HueMove(t) => Running::HueMove(HueRun {
                start: self.start,
                hue: words::short(self.x),
                task: t,
            }),
            Task::SaturationMove(t) => Running::SaturationMove(SaturationRun {
                start: self.start,
                saturation: words::byte(self.x),
                task: t,
            }),
            Task::ColorTemperatureMoveTo(t) => {
                Running::ColorTemperatureMoveTo(ColorTemperatureToRun {
                    start: self.start,
                    mireds: words::short(self.x),
                    task: t,
                })
            }
            Task::ColorTemperatureMove(t) => Running::ColorTemperatureMove(ColorTemperatureRun {
                start: self.start,
                mireds: words::short(self.x),
                rate: t.rate,
                lo: t.min,
                hi: t.max,
            }),
            Task::ColorLoop(t) => Running::ColorLoop {
                direction: t.direction,
                hue: words::short(self.x),
                seconds: t.seconds,
                start: self.start,
            },
            Task::Stop => Running::Idle,
        }
    }
}

impl From<HueSaturationMoveTo> for TaskNumbers {
    ghost from_gives = { λ x n. n ≡ move_to_numbers x };

    fn from(t: HueSaturationMoveTo) -> TaskNumbers {
        TaskNumbers {
            kind: MOVE_TO,
            a: t.delta.map_or(0, words::sign_of),
            b: t.delta.unwrap_or(0).unsigned_abs(),
            c: u64::from(t.saturation.is_some()),
            d: t.saturation.map_or(0, u64::from),
            e: t.ms as u64,
            f: u64::from(t.enhanced),
        }
    }
}

impl From<HueMove> for TaskNumbers {
    ghost from_gives = { λ x n. n ≡ hue_move_numbers x };

    fn from(t: HueMove) -> TaskNumbers {
        TaskNumbers {
            kind: HUE_MOVE,
            a: u8::from(t.direction) as u64,
            b: t.rate as u64,
            c: u64::from(t.enhanced),
            ..TaskNumbers::default()
        }
    }
}

impl From<SaturationMove> for TaskNumbers {
    ghost from_gives = { λ x n. n ≡ saturation_move_numbers x };

    fn from(t: SaturationMove) -> TaskNumbers {
        TaskNumbers {
            kind: SATURATION_MOVE,
            a: u8::from(t.direction) as u64,
            b: t.rate as u64,
            ..TaskNumbers::default()
        }
    }
}

impl From<ColorTemperatureMoveTo> for TaskNumbers {
    ghost from_gives = { λ x n. n ≡ mireds_to_numbers x };

    fn from(t: ColorTemperatureMoveTo) -> TaskNumbers {
        TaskNumbers {
            kind: MIREDS_TO,
            a: t.target as u64,
            b: t.ms as u64,
            ..TaskNumbers::default()
        }
    }
}

impl From<ColorTemperatureMove> for TaskNumbers {
    ghost from_gives = { λ x n. n ≡ mireds_move_numbers x };

    fn from(t: ColorTemperatureMove) -> TaskNumbers {
        TaskNumbers {
            kind: MIREDS_MOVE,
            a: words::sign_of(t.rate),
            b: t.rate.unsigned_abs(),
            c: t.min as u64,
            d: t.max as u64,
            ..TaskNumbers::default()
        }
    }
}

impl From<ColorLoop> for TaskNumbers {
    ghost from_gives = { λ x n. n ≡ color_loop_numbers x };

    fn from(t: ColorLoop) -> TaskNumbers {
        TaskNumbers {
            kind: LOOP,
            a: u8::from(t.direction) as u64,
            b: t.seconds as u64,
            ..TaskNumbers::default()
        }
    }
}

impl From<Task> for TaskNumbers {
    ghost from_gives = { λ x n. n ≡ task_numbers x };

    #[tactic(auto, unfolding(crate::specs::Moves::task_numbers))]
    fn from(task: Task) -> TaskNumbers {
        match task {
            Task::HueSaturationMoveTo(t) => TaskNumbers::from(t),
            Task::HueMove(t) => TaskNumbers::from(t),
            Task::SaturationMove(t) => TaskNumbers::from(t),
            Task::ColorTemperatureMoveTo(t) => TaskNumbers::from(t),
            Task::ColorTemperatureMove(t) => TaskNumbers::from(t),
            Task::ColorLoop(t) => TaskNumbers::from(t),
            Task::Stop => TaskNumbers {
                kind: STOP,
                ..TaskNumbers::default()
            },
        }
    }
}

impl From<Option<Task>> for TaskNumbers {
    ghost from_gives = { λ x n. n ≡ given_numbers x };

    #[tactic(auto, unfolding(crate::specs::Moves::given_numbers))]
    fn from(task: Option<Task>) -> TaskNumbers {
        task.map(TaskNumbers::from).unwrap_or_default()
    }
}

impl From<Running> for RecordNumbers {
    ghost from_gives = { λ x n. n ≡ record_numbers x };

    #[tactic(auto, unfolding(crate::specs::Moves::record_numbers))]
    fn from(running: Running) -> RecordNumbers {
        match running {
            Running::Idle => RecordNumbers::default(),
            Running::HueSaturationMoveTo(run) => RecordNumbers {
                start: run.start,
                x: run.hue as u64,
                y: run.saturation as u64,
                task: TaskNumbers::from(run.task),
            },
            Running::HueMove(run) => RecordNumbers {
                start: run.start,
                x: run.hue as u64,
                y: 0,
                task: TaskNumbers::from(run.task),
            },
            Running::SaturationMove(run) => RecordNumbers {
                start: run.start,
                x: run.saturation as u64,
                y: 0,
                task: TaskNumbers::from(run.task),
            },
            Running::ColorTemperatureMoveTo(run) => RecordNumbers {
                start: run.start,
                x: run.mireds as u64,
                y: 0,
                task: TaskNumbers::from(run.task),
            },
            Running::ColorTemperatureMove(run) => {
                let task = ColorTemperatureMove {
                    rate: run.rate,
                    min: run.lo,
                    max: run.hi,
                };
                RecordNumbers {
                    start: run.start,
                    x: run.mireds as u64,
                    y: 0,
                    task: TaskNumbers::from(task),
                }
            }
            Running::ColorLoop {
                direction,
                hue,
                seconds,
                start,
            } => {
                let task = ColorLoop { direction, seconds };
                RecordNumbers {
                    start,
                    x: hue as u64,
                    y: 0,
                    task: TaskNumbers::from(task),
                }
            }
        }
    }
}
