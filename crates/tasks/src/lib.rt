// The tasks that commands give, the records of what runs, and the form of both: document 01, "Task out of form" and the
// running record of "Lamp out of form".
// Carried over from project-chip/rs-matter, commit 43f61585a4 (Apache-2.0, see NOTICE), and changed.
#![tactic(auto)]

ghost use Rattle.std.specs.Prelude.{◌≡◌};
ghost use Rattle.tasks.specs.Valid.{time_valid, delta_valid, saturation_valid, moves, within_bounds, rate_valid, move_to_valid, move_valid, hue_move_valid, saturation_move_valid, task_valid, running_valid};
ghost use Rattle.tasks.specs.Runs.{runs, moves_mireds, loop_running};

use matter::{Bounds, ColorLoopDirectionEnum, MoveModeEnum};

// To a hue, a saturation or both: the signed way of the hue where it moves the hue, the time in milliseconds, the target
// where it moves the saturation, and whether the hue is reported as an enhanced one.
#[derive(Clone, Copy, Debug, PartialEq, Eq)]
pub struct HueSaturationMoveTo {
    pub delta: Option<i64>,
    pub ms: u32,
    pub saturation: Option<u8>,
    pub enhanced: bool,
}

// The hue at a rate, in enhanced units a second.
#[derive(Clone, Copy, Debug, PartialEq, Eq)]
pub struct HueMove {
    pub rate: u32,
    pub direction: MoveModeEnum,
    pub enhanced: bool,
}

// The saturation at a rate, in units a second.
#[derive(Clone, Copy, Debug, PartialEq, Eq)]
pub struct SaturationMove {
    pub rate: u32,
    pub direction: MoveModeEnum,
}

// To a target in mireds, in a time in milliseconds.
#[derive(Clone, Copy, Debug, PartialEq, Eq)]
pub struct ColorTemperatureMoveTo {
    pub ms: u32,
    pub target: u16,
}

// The mireds at a signed rate a second, between the caller's limits.
#[derive(Clone, Copy, Debug, PartialEq, Eq)]
pub struct ColorTemperatureMove {
    pub rate: i64,
    pub min: u16,
    pub max: u16,
}

// The colour loop: a turn in so many seconds.
#[derive(Clone, Copy, Debug, PartialEq, Eq)]
pub struct ColorLoop {
    pub direction: ColorLoopDirectionEnum,
    pub seconds: u16,
}

#[derive(Clone, Copy, Debug, PartialEq, Eq)]
pub enum Task {
    HueSaturationMoveTo(HueSaturationMoveTo),
    HueMove(HueMove),
    SaturationMove(SaturationMove),
    ColorTemperatureMoveTo(ColorTemperatureMoveTo),
    ColorTemperatureMove(ColorTemperatureMove),
    ColorLoop(ColorLoop),
    Stop,
}

// What runs: the clock at its start, the numbers found there, and the task. Each kind of task has a record of its own; a record
// generic in its task would be shared by two of the six, the hue's moves at a rate and in the loop.
#[derive(Clone, Copy, Debug, PartialEq, Eq)]
pub struct HueSaturationRun {
    pub start: u64,
    pub hue: u16,
    pub saturation: u8,
    pub task: HueSaturationMoveTo,
}

#[derive(Clone, Copy, Debug, PartialEq, Eq)]
pub struct HueRun {
    pub start: u64,
    pub hue: u16,
    pub task: HueMove,
}

#[derive(Clone, Copy, Debug, PartialEq, Eq)]
pub struct SaturationRun {
    pub start: u64,
    pub saturation: u8,
    pub task: SaturationMove,
}

#[derive(Clone, Copy, Debug, PartialEq, Eq)]
pub struct ColorTemperatureToRun {
    pub start: u64,
    pub mireds: u16,
    pub task: ColorTemperatureMoveTo,
}

// The limits are worked out at the start: `lo` and `hi`.
#[derive(Clone, Copy, Debug, PartialEq, Eq)]
pub struct ColorTemperatureRun {
    pub start: u64,
    pub mireds: u16,
    pub lo: u16,
    pub hi: u16,
    pub rate: i64,
}

#[derive(Clone, Copy, Debug, PartialEq, Eq)]
pub struct ColorLoopRun {
    pub start: u64,
    pub hue: u16,
    pub task: ColorLoop,
}

// The loop's four numbers stand in the variant itself: they fill the bytes between the tag and a record's clock, so that no
// copy of a lamp carries a gap (docs/SPEED.md). Idle is a case as document 01 has it, and no `None` around the others.
#[derive(Clone, Copy, Debug, PartialEq, Eq)]
pub enum Running {
    Idle,
    HueSaturationMoveTo(HueSaturationRun),
    HueMove(HueRun),
    SaturationMove(SaturationRun),
    ColorTemperatureMoveTo(ColorTemperatureToRun),
    ColorTemperatureMove(ColorTemperatureRun),
    ColorLoop {
        direction: ColorLoopDirectionEnum,
        hue: u16,
        seconds: u16,
        start: u64,
    },
}

// The colour loop's record as what runs.
impl From<ColorLoopRun> for Running {
    ghost from_gives = { λ run running. running ≡ loop_running run };

    fn from(run: ColorLoopRun) -> Running {
        Running::ColorLoop {
            direction: run.task.direction,
            hue: run.hue,
            seconds: run.task.seconds,
            start: run.start,
        }
    }
}

// Whole tenths of a second, of which there are at most 65,535.
fn is_valid_time(ms: u32) -> bool
    ensures { result ≡ time_valid ms }
{
    (ms % 100 == 0) & (ms <= 6553500)
}

// A signed rate of mireds that moves, within 65,535.
fn is_valid_rate(rate: i64) -> bool
    ensures { result ≡ rate_valid rate }
{
    (rate != 0) & ((-65535 <= rate) & (rate <= 65535))
}

fn within_bounds(bounds: Bounds, mireds: u16) -> bool
    ensures { result ≡ within_bounds bounds mireds }
{
    (bounds.min <= mireds) & (mireds <= bounds.max)
}

// Up and down move; stop does not.
fn moving(direction: MoveModeEnum) -> bool
    ensures { result ≡ moves direction }
{
    !matches!(direction, MoveModeEnum::Stop)
}

fn is_valid_delta(delta: Option<i64>) -> bool
    ensures { result ≡ delta_valid delta }
{
    delta.is_none_or(|way| (-65535 <= way) & (way <= 65535))
}

fn is_valid_saturation(target: Option<u8>) -> bool
    ensures { result ≡ saturation_valid target }
{
    target.is_none_or(|saturation| saturation <= 254)
}

// A rate in its range, in a direction that moves.
#[tactic(auto, unfolding(matter::specs::All::all_true))]
fn is_valid_move(rate: u32, most: u32, direction: MoveModeEnum) -> bool
    ensures { result ≡ move_valid rate most direction }
{
    (0 < rate) & (rate <= most) & moving(direction)
}

impl HueSaturationMoveTo {
    #[tactic(auto, unfolding(crate::specs::Valid::move_to_valid, matter::specs::All::all_true))]
    fn is_valid(self) -> bool
        ensures { result ≡ move_to_valid self }
    {
        is_valid_time(self.ms)
            & is_valid_delta(self.delta)
            & is_valid_saturation(self.saturation)
            & (self.delta.is_some() | self.saturation.is_some())
    }
}

impl HueMove {
    #[tactic(auto, unfolding(crate::specs::Valid::hue_move_valid))]
    fn is_valid(self) -> bool
        ensures { result ≡ hue_move_valid self }
    {
        is_valid_move(self.rate, 65535, self.direction)
    }
}

impl SaturationMove {
    #[tactic(auto, unfolding(crate::specs::Valid::saturation_move_valid))]
    fn is_valid(self) -> bool
        ensures { result ≡ saturation_move_valid self }
    {
        is_valid_move(self.rate, 255, self.direction)
    }
}

impl Task {
    #[tactic(auto, unfolding(crate::specs::Valid::task_valid))]
    pub fn is_valid(self) -> bool
        ensures { result ≡ task_valid self }
    {
        match self {
            Task::HueSaturationMoveTo(t) => t.is_valid(),
            Task::HueMove(t) => t.is_valid(),
            Task::SaturationMove(t) => t.is_valid(),
            Task::ColorTemperatureMoveTo(t) => is_valid_time(t.ms),
            Task::ColorTemperatureMove(t) => is_valid_rate(t.rate),
            Task::ColorLoop(_) => true,
            Task::Stop => false,
        }
    }
}

impl Running {
    // Whether something runs.
    pub fn is_running(self) -> bool
        ensures { result ≡ runs self }
    {
        !matches!(self, Running::Idle)
    }

    // Whether a mired task runs.
    pub fn moves_mireds(self) -> bool
        ensures { result ≡ moves_mireds self }
    {
        matches!(
            self,
            Running::ColorTemperatureMoveTo(_) | Running::ColorTemperatureMove(_)
        )
    }

    // Whether a lamp with these bounds and this clock can be valid with this record.
    #[tactic(auto, unfolding(crate::specs::Valid::running_valid, matter::specs::All::all_true))]
    pub fn is_valid(self, bounds: Bounds, clock: u64) -> bool
        ensures { result ≡ running_valid self bounds clock }
    {
        match self {
            Running::Idle => true,
            Running::HueSaturationMoveTo(run) => {
                run.task.is_valid()
                    & (0 < run.task.ms)
                    & (run.saturation <= 254)
                    & (run.start <= clock)
            }
            Running::HueMove(run) => { run.task.is_valid() & (run.start <= clock) }
            Running::SaturationMove(run) => {
                run.task.is_valid() & (run.saturation <= 254) & (run.start <= clock)
            }
            Running::ColorTemperatureMoveTo(run) => {
                let task = run.task;
                is_valid_time(task.ms)
                    & (0 < task.ms)
                    & within_bounds(bounds, run.mireds)
                    & within_bounds(bounds, task.target)
                    & (run.start <= clock)
            }
            Running::ColorTemperatureMove(run) => {
                is_valid_rate(run.rate)
                    & within_bounds(bounds, run.mireds)
                    & (run.lo < run.hi)
                    & within_bounds(bounds, run.lo)
                    & within_bounds(bounds, run.hi)
                    & (run.start <= clock)
            }
            Running::ColorLoop { start, .. } => start <= clock,
        }
    }
}
