// Starts, steps and halts: document 01, leaf 6, and halt; new bounds: document 02, A.9. Each takes the lamp and hands it back inside
// its answer.
// Carried over from project-chip/rs-matter, commit 43f61585a4 (Apache-2.0, see NOTICE), and changed.
ghost use Rattle.std.specs.Prelude.{◌≡◌, true};
ghost use Rattle.notices.specs.Numerals.{empty, in_front};
ghost use Rattle.notices.proofs.Numerals.{Bytes};
ghost use Rattle.color.specs.Setters.{change_reported};
ghost use Rattle.tasks.specs.Valid.{move_to_valid, rate_valid, task_valid, running_valid};
ghost use Rattle.matter.specs.Bounds.{lower, upper};
ghost use Rattle.lamp.specs.Calls.{no_hue_delta, no_saturation_delta, start_permille, hue_saturation_start, temperature_to_start, temperature_start, started, stepped, done, start_answer, step_answer, halt_answer, bounds_cause, bounds_answer};
ghost use Rattle.lamp.specs.Answers.{at_clock};
ghost use Rattle.lamp.specs.Passes.{found_with, reported_behind, pass_reported, left_effect};

use crate::passes::{Found, Left, Passed, left_by};
use crate::{Answer, Lamp, ValidLamp};
use color::cons_change;
use matter::{Bounds, Refusal};
use notices::{Notice, Notices, Numeral};
use progress::{clamped_sum, elapsed, permille};
use remaining_time::RemainingTime;
use tasks::{
    ColorLoop, ColorLoopRun, ColorTemperatureMove, ColorTemperatureMoveTo, ColorTemperatureRun,
    ColorTemperatureToRun, HueRun, HueSaturationMoveTo, HueSaturationRun, Running, SaturationRun,
    Task,
};

fn no_hue_delta(delta: Option<i64>) -> bool
    ensures { result ≡ no_hue_delta delta }
{
    delta.is_none_or(|way| way == 0)
}

fn no_saturation_delta(target: Option<u8>, start: u8) -> bool
    ensures { result ≡ no_saturation_delta target start }
{
    target.is_none_or(|saturation| saturation == start)
}

// Permille at a start: the end at once where there is no time or no way.
fn start_permille(ms: u32, no_delta: bool) -> u16
    ensures { result ≡ start_permille ms no_delta }
{
    if (ms == 0) | no_delta { 1000 } else { 0 }
}

impl Lamp {
    // What a pass at this clock is given of the lamp, with this remaining time.
    fn found(self, remaining: RemainingTime, clock: u64) -> Found
        ensures { result ≡ found_with (at_clock self clock) remaining }
    {
        Found {
            clock,
            bounds: self.bounds,
            remaining,
            color: self.color,
        }
    }

    // The two move-to starts write the full time first; then comes the first pass.
    #[tactic(auto, unfolding(crate::specs::Calls::hue_saturation_start))]
    fn start_hue_saturation(self, task: HueSaturationMoveTo, clock: u64) -> Left
        requires { move_to_valid task ≡ true }
        ensures { result ≡ hue_saturation_start (at_clock self clock) task }
    {
        let w = self
            .remaining
            .write_remaining_time_quietly(task.ms as u64, true);
        let no_delta = no_hue_delta(task.delta)
            & no_saturation_delta(task.saturation, self.color.saturation);
        let permille = start_permille(task.ms, no_delta);
        let run = HueSaturationRun {
            start: clock,
            hue: self.color.hue,
            saturation: self.color.saturation,
            task,
        };
        let found = self.found(w.remaining, clock);
        let moved = found.move_to_hue_saturation_transition(run, permille);
        let passed = found.timed(moved, clock, task.ms, permille);
        left_by(w.reported, passed, Running::HueSaturationMoveTo(run))
    }

    #[tactic(auto, unfolding(crate::specs::Calls::temperature_to_start))]
    fn start_color_temperature_to(self, task: ColorTemperatureMoveTo, clock: u64) -> Left
        ensures { result ≡ temperature_to_start (at_clock self clock) task }
    {
        let w = self
            .remaining
            .write_remaining_time_quietly(task.ms as u64, true);
        let target = clamped_sum(self.bounds.min, self.bounds.max, task.target, 0);
        let permille = start_permille(task.ms, target == self.color.mireds);
        let run = ColorTemperatureToRun {
            start: clock,
            mireds: self.color.mireds,
            task: ColorTemperatureMoveTo {
                target,
                ms: task.ms,
            },
        };
        let found = self.found(w.remaining, clock);
        let moved = found.move_to_color_temperature_transition(run, permille);
        let passed = found.timed(moved, clock, task.ms, permille);
        left_by(w.reported, passed, Running::ColorTemperatureMoveTo(run))
    }

    #[tactic(auto, unfolding(crate::specs::Calls::temperature_start))]
    fn start_color_temperature(self, task: ColorTemperatureMove, clock: u64) -> Left
        requires { rate_valid task.rate ≡ true }
        ensures { left_effect (at_clock self clock) result ≡ temperature_start (at_clock self clock) task }
    {
        let bounds = self.bounds;
        let found = self.found(self.remaining, clock);
        let lo = bounds.lower_limit(task.min);
        let hi = bounds.upper_limit(task.max);
        if hi <= lo {
            return left_by(false, found.no_transition(), Running::Idle);
        }
        let run = ColorTemperatureRun {
            start: clock,
            mireds: self.color.mireds,
            lo,
            hi,
            rate: task.rate,
        };
        let passed = found.color_temperature_move_transition(run);
        left_by(false, passed, Running::ColorTemperatureMove(run))
    }

    // A start of a valid task: its record, and the first pass.
    #[tactic(auto, unfolding(tasks::specs::Valid::task_valid, crate::specs::Calls::started))]
    fn begin(self, task: Task, clock: u64) -> Left
        requires { task_valid task ≡ true }
        ensures { left_effect (at_clock self clock) result ≡ started (at_clock self clock) task }
    {
        let found = self.found(self.remaining, clock);
        match task {
            Task::HueSaturationMoveTo(t) => self.start_hue_saturation(t, clock),
            Task::HueMove(t) => {
                let run = HueRun {
                    start: clock,
                    hue: self.color.hue,
                    task: t,
                };
                left_by(false, found.hue_move_transition(run), Running::HueMove(run))
            }
            Task::SaturationMove(t) => {
                let run = SaturationRun {
                    start: clock,
                    saturation: self.color.saturation,
                    task: t,
                };
                let passed = found.saturation_move_transition(run);
                left_by(false, passed, Running::SaturationMove(run))
            }
            Task::ColorTemperatureMoveTo(t) => self.start_color_temperature_to(t, clock),
            Task::ColorTemperatureMove(t) => self.start_color_temperature(t, clock),
            Task::ColorLoop(t) => {
                let run = ColorLoopRun {
                    start: clock,
                    hue: self.color.hue,
                    task: t,
                };
                left_by(false, found.color_loop_transition(run), Running::from(run))
            }
            Task::Stop => left_by(false, found.no_transition(), Running::Idle),
        }
    }

    // A pass of what runs.
    #[tactic(auto, unfolding(tasks::specs::Valid::running_valid, crate::specs::Calls::stepped))]
    fn pass(self, running: Running, clock: u64) -> Left
        requires { running_valid running self.bounds clock ≡ true }
        ensures { left_effect (at_clock self clock) result ≡ stepped (at_clock self clock) running }
    {
        let found = self.found(self.remaining, clock);
        match running {
            Running::Idle => left_by(false, found.no_transition(), Running::Idle),
            Running::HueSaturationMoveTo(run) => {
                let task = run.task;
                let p = permille(elapsed(run.start, clock), task.ms);
                let moved = found.move_to_hue_saturation_transition(run, p);
                let passed = found.timed(moved, run.start, task.ms, p);
                left_by(false, passed, Running::HueSaturationMoveTo(run))
            }
            Running::HueMove(run) => {
                left_by(false, found.hue_move_transition(run), Running::HueMove(run))
            }
            Running::SaturationMove(run) => {
                let passed = found.saturation_move_transition(run);
                left_by(false, passed, Running::SaturationMove(run))
            }
            Running::ColorTemperatureMoveTo(run) => {
                let task = run.task;
                let p = permille(elapsed(run.start, clock), task.ms);
                let moved = found.move_to_color_temperature_transition(run, p);
                let passed = found.timed(moved, run.start, task.ms, p);
                left_by(false, passed, Running::ColorTemperatureMoveTo(run))
            }
            Running::ColorTemperatureMove(run) => {
                let passed = found.color_temperature_move_transition(run);
                left_by(false, passed, Running::ColorTemperatureMove(run))
            }
            Running::ColorLoop {
                direction,
                hue,
                seconds,
                start,
            } => {
                let run = ColorLoopRun {
                    start,
                    hue,
                    task: ColorLoop { direction, seconds },
                };
                left_by(false, found.color_loop_transition(run), Running::from(run))
            }
        }
    }

    // The answer of an accepted start or step: the lamp as it is left, and what is reported.
    fn accepted(self, left: Left, list: Numeral, clock: u64) -> Answer
        requires list_value { list ≡ in_front (change_reported left.passed.first self.looping.active) (in_front (reported_behind left.passed self.looping.active) empty) }
        requires bytes { Bytes (pass_reported left.passed self.looping.active) }
        ensures { result ≡ done (left_effect (at_clock self clock) left) }
    {
        let passed = left.passed;
        Answer {
            verdict: Ok(()),
            lamp: Lamp {
                clock,
                remaining: passed.remaining,
                color: passed.color,
                running: left.running,
                ..self
            },
            notices: list.note_if(left.full, Notice::RemainingTime).notices(),
            task: None,
            wait: passed.wait,
        }
    }
}

impl ValidLamp {
    // Starts a task, in place of what runs.
    #[tactic(auto, unfolding(crate::specs::Calls::start_answer, crate::specs::Answers::first_cause))]
    pub fn start(self, task: Task, clock: u64) -> Answer
        ensures { result ≡ start_answer self task clock }
    {
        let lamp = self.lamp();
        if let Err(refusal) = lamp.clock_cause(clock) {
            return lamp.refused(refusal);
        }
        if !task.is_valid() {
            return lamp.refused(Refusal::InvalidTask);
        }
        let left = lamp.begin(task, clock);
        let active = lamp.looping.active;
        let list = cons_change(left.passed.first, left.passed.behind(active), active);
        lamp.accepted(left, list, clock)
    }

    // One step of what runs.
    #[tactic(auto, unfolding(crate::specs::Calls::step_answer, crate::specs::Valid::lamp_valid))]
    pub fn step(self, clock: u64) -> Answer
        ensures { result ≡ step_answer self clock }
    {
        let lamp = self.lamp();
        let running = lamp.running;
        if !running.is_running() {
            return lamp.refused(Refusal::StepWhileIdle);
        }
        if let Err(cause) = lamp.clock_cause(clock) {
            return lamp.refused(cause);
        }
        let left = lamp.pass(running, clock);
        let active = lamp.looping.active;
        let list = cons_change(left.passed.first, left.passed.behind(active), active);
        lamp.accepted(left, list, clock)
    }

    // Makes the lamp idle, and nothing else.
    #[tactic(auto, unfolding(crate::specs::Calls::halt_answer, crate::specs::Answers::first_cause))]
    pub fn halt(self, clock: u64) -> Answer
        ensures { result ≡ halt_answer self clock }
    {
        let lamp = self.lamp();
        if let Err(bad_clock) = lamp.clock_cause(clock) {
            return lamp.refused(bad_clock);
        }
        Answer {
            verdict: Ok(()),
            lamp: Lamp {
                clock,
                running: Running::Idle,
                ..lamp
            },
            notices: Notices::new(),
            task: None,
            wait: 0,
        }
    }

    // Why new bounds are refused: 4, crossed bounds, a mired task that runs.
    #[tactic(auto, unfolding(crate::specs::Answers::first_cause))]
    fn bounds_cause(self, bounds: Bounds, clock: u64) -> Result<(), Refusal>
        ensures { result ≡ bounds_cause self bounds clock }
    {
        let lamp = self.lamp();
        lamp.clock_cause(clock)?;
        if bounds.are_crossed() {
            return Err(Refusal::CrossedBounds);
        }
        if lamp.running.moves_mireds() {
            return Err(Refusal::MiredTaskRuns);
        }
        Ok(())
    }

    // New physical bounds. Mireds outside go to the nearer one and are reported; nothing is stored, and the device is not written.
    #[tactic(auto, unfolding(crate::specs::Calls::bounds_answer))]
    pub fn set_bounds(self, bounds: Bounds, clock: u64) -> Answer
        ensures { result ≡ bounds_answer self bounds clock }
    {
        let lamp = self.lamp();
        if let Err(cause) = self.bounds_cause(bounds, clock) {
            return lamp.refused(cause);
        }
        let color = lamp.color.bounded(bounds, clock);
        let is_moved = color.mireds != lamp.color.mireds;
        Answer {
            verdict: Ok(()),
            lamp: Lamp {
                clock,
                bounds,
                color,
                ..lamp
            },
            notices: Numeral::new()
                .note_if(is_moved, Notice::ColorTemperatureMireds)
                .notices(),
            task: None,
            wait: 0,
        }
    }
}

// The same of any lamp: an invalid one is refused with 8, before all else.
impl Lamp {
    #[tactic(auto, unfolding(crate::specs::Calls::start_answer, crate::specs::Answers::first_cause))]
    pub fn start(self, task: Task, clock: u64) -> Answer
        ensures { result ≡ start_answer self task clock }
    {
        match self.validated() {
            Some(valid) => valid.start(task, clock),
            None => self.refused(Refusal::InvalidLamp),
        }
    }

    #[tactic(auto, unfolding(crate::specs::Calls::step_answer))]
    pub fn step(self, clock: u64) -> Answer
        ensures { result ≡ step_answer self clock }
    {
        match self.validated() {
            Some(valid) => valid.step(clock),
            None => self.refused(Refusal::InvalidLamp),
        }
    }

    #[tactic(auto, unfolding(crate::specs::Calls::halt_answer, crate::specs::Answers::first_cause))]
    pub fn halt(self, clock: u64) -> Answer
        ensures { result ≡ halt_answer self clock }
    {
        match self.validated() {
            Some(valid) => valid.halt(clock),
            None => self.refused(Refusal::InvalidLamp),
        }
    }

    #[tactic(auto, unfolding(crate::specs::Calls::bounds_answer, crate::specs::Answers::first_cause))]
    pub fn set_bounds(self, bounds: Bounds, clock: u64) -> Answer
        ensures { result ≡ bounds_answer self bounds clock }
    {
        match self.validated() {
            Some(valid) => valid.set_bounds(bounds, clock),
            None => self.refused(Refusal::InvalidLamp),
        }
    }
}
