// One pass of each transition: document 01, leaf 6. A pass is given what it needs of the lamp and says what it changes; its
// notices are put together once, from the last to the first.
// Carried over from project-chip/rs-matter, commit 43f61585a4 (Apache-2.0, see NOTICE), and changed.
ghost use Rattle.std.specs.Prelude.{◌≡◌, None, true, cond, ◌-◌, pos, ◌-ℤ◌};
ghost use Rattle.notices.specs.Numerals.{empty, in_front};
ghost use Rattle.notices.proofs.Numerals.{Bytes};
ghost use Rattle.tasks.specs.Valid.{delta_valid, move_to_valid, hue_move_valid, saturation_move_valid, rate_valid};
ghost use Rattle.lamp.specs.Passes.{hue_moved, at_end, saturation_now, saturation_moved, mireds_now, saturation_done, mireds_done, unless, waiting, hue_saturation_moved, temperature_to_moved, timed, hue_passed, saturation_passed, temperature_passed, loop_passed, passed, left_by, device_reported, reported_behind, pass_reported};

use color::{Change, Color, ColorSet, cons_change};
use hue::moved_hue;
use matter::{Bounds, MoveModeEnum};
use notices::{Notice, Numeral};
use progress::{
    TICK, clamped_sum, delta_at_rate, elapsed, loop_delta, moved_saturation, part, time_left,
    wait_for_end, wait_for_turn,
};
use remaining_time::RemainingTime;
use tasks::{
    ColorLoopRun, ColorTemperatureRun, ColorTemperatureToRun, HueRun, HueSaturationRun, Running,
    SaturationRun,
};

// What a pass is given of the lamp.
#[derive(Clone, Copy, Debug, PartialEq, Eq)]
pub struct Found {
    pub clock: u64,
    pub bounds: Bounds,
    pub remaining: RemainingTime,
    pub color: Color,
}

// What a move-to moves: the colour, its changes in their order, and the notice of the device that is written, where one is.
#[derive(Clone, Copy, Debug, PartialEq, Eq)]
pub struct Moved {
    pub color: Color,
    pub first: Option<Change>,
    pub second: Option<Change>,
    pub device: Option<Notice>,
}

// What a pass leaves: what moves, whether the remaining time is reported, the wait, the remaining time, and whether the
// transition ends.
#[derive(Clone, Copy, Debug, PartialEq, Eq)]
pub struct Passed {
    pub color: Color,
    pub first: Option<Change>,
    pub second: Option<Change>,
    pub device: Option<Notice>,
    pub time: bool,
    pub wait: u64,
    pub remaining: RemainingTime,
    pub ends: bool,
}

// A start or a step: whether the full time is reported first, the pass, and the record that stays.
#[derive(Clone, Copy, Debug, PartialEq, Eq)]
pub struct Left {
    pub full: bool,
    pub passed: Passed,
    pub running: Running,
}

// The way from one number to another, with its sign.
fn delta_between(start: u16, target: u16) -> i64
    ensures { result ≡ pos target -ℤ pos start }
{
    (target as i64) - (start as i64)
}

// What is left running, and the wait for it: nothing at an end.
fn running_unless(is_end: bool, run: Running) -> Running
    ensures { result ≡ unless is_end run }
{
    if is_end { Running::Idle } else { run }
}

fn wait_unless(is_end: bool, wait: u64) -> u64
    ensures { result ≡ waiting is_end wait }
{
    if is_end { 0 } else { wait }
}

// What is left of a move-to's time: 0 at its end.
fn left_unless(is_end: bool, passed: u64, ms: u32) -> u64
    ensures { result ≡ cond is_end 0 (ms - passed) }
{
    if is_end { 0 } else { time_left(passed, ms) }
}

pub(crate) fn left_by(full: bool, passed: Passed, running: Running) -> Left
    ensures { result ≡ left_by full passed running }
{
    let stays = running_unless(passed.ends, running);
    Left {
        full,
        passed,
        running: stays,
    }
}

// The hue's part of a move-to, where it moves the hue.
fn move_hue(
    color: Color,
    delta: Option<i64>,
    start: u16,
    permille: u16,
    is_enhanced: bool,
    clock: u64,
) -> ColorSet
    requires { delta_valid delta ≡ true }
    ensures { result ≡ hue_moved color delta start permille is_enhanced clock }
{
    match delta {
        None => ColorSet::unchanged(color),
        Some(way) => {
            let now = moved_hue(start, part(way, permille));
            color.set_hue(now, at_end(permille), is_enhanced, clock)
        }
    }
}

// At permille 1000 the final number is used.
fn at_end(permille: u16) -> bool
    ensures { result ≡ at_end permille }
{
    1000 <= permille
}

fn saturation_now(start: u8, target: u8, permille: u16) -> u8
    ensures { result ≡ saturation_now start target permille }
{
    if at_end(permille) {
        return target;
    }
    moved_saturation(
        start,
        part(delta_between(start as u16, target as u16), permille),
    )
}

// The saturation's part of a move-to, where it moves the saturation.
fn move_saturation(
    color: Color,
    target: Option<u8>,
    start: u8,
    permille: u16,
    clock: u64,
) -> ColorSet
    ensures { result ≡ saturation_moved color target start permille clock }
{
    match target {
        None => ColorSet::unchanged(color),
        Some(saturation) => {
            let now = saturation_now(start, saturation, permille);
            color.set_saturation(now, at_end(permille), clock)
        }
    }
}

fn mireds_now(bounds: Bounds, start: u16, target: u16, permille: u16) -> u16
    ensures { result ≡ mireds_now bounds start target permille }
{
    if at_end(permille) {
        return target;
    }
    clamped_sum(
        bounds.min,
        bounds.max,
        start,
        part(delta_between(start, target), permille),
    )
}

fn saturation_done(direction: MoveModeEnum, now: u8) -> bool
    ensures { result ≡ saturation_done direction now }
{
    match direction {
        MoveModeEnum::Stop => false,
        MoveModeEnum::Up => now == 254,
        MoveModeEnum::Down => now == 0,
    }
}

fn mireds_done(rate: i64, lo: u16, hi: u16, now: u16) -> bool
    ensures { result ≡ mireds_done rate lo hi now }
{
    ((0 < rate) & (now == hi)) | ((rate < 0) & (now == lo))
}

// The notice of the device that is written, where one is, in front of a list.
#[tactic(auto, unfolding(notices::specs::Numerals::in_front))]
fn cons_device(list: Numeral, device: Option<Notice>) -> Numeral
    ensures { result ≡ in_front (device_reported device) list }
{
    match device {
        Some(device) => list.note(device),
        None => list,
    }
}

impl Passed {
    // What the pass reports behind its first change. Apart from that, so that both are inlined (docs/SPEED.md).
    pub(crate) fn behind(self, loop_active: bool) -> Numeral
        ensures { (result ≡ in_front (reported_behind self loop_active) empty) × Bytes (pass_reported self loop_active) }
    {
        let time = Numeral::new().note_if(self.time, Notice::RemainingTime);
        cons_change(self.second, cons_device(time, self.device), loop_active)
    }
}

impl Found {
    #[tactic(auto, unfolding(tasks::specs::Valid::move_to_valid, crate::specs::Passes::hue_saturation_moved))]
    pub(crate) fn move_to_hue_saturation_transition(
        self,
        run: HueSaturationRun,
        permille: u16,
    ) -> Moved
        requires { move_to_valid run.task ≡ true }
        ensures { result ≡ hue_saturation_moved self run permille }
    {
        let task = run.task;
        let hued = move_hue(
            self.color,
            task.delta,
            run.hue,
            permille,
            task.enhanced,
            self.clock,
        );
        let between = hued.color;
        let set = move_saturation(
            between,
            task.saturation,
            run.saturation,
            permille,
            self.clock,
        );
        Moved {
            color: set.color,
            first: hued.change,
            second: set.change,
            device: Some(Notice::DeviceHueSaturation),
        }
    }

    #[tactic(auto, unfolding(crate::specs::Passes::temperature_to_moved))]
    pub(crate) fn move_to_color_temperature_transition(
        self,
        run: ColorTemperatureToRun,
        permille: u16,
    ) -> Moved
        ensures { result ≡ temperature_to_moved self run permille }
    {
        let now = mireds_now(self.bounds, run.mireds, run.task.target, permille);
        let set = self
            .color
            .set_color_temperature(now, at_end(permille), self.clock);
        Moved {
            color: set.color,
            first: set.change,
            second: None,
            device: Some(Notice::DeviceMireds),
        }
    }

    // A move-to's pass: after what moves, the remaining time.
    #[tactic(auto, unfolding(crate::specs::Passes::timed))]
    pub(crate) fn timed(self, moved: Moved, start: u64, ms: u32, permille: u16) -> Passed
        ensures { result ≡ timed self moved start ms permille }
    {
        let ends = at_end(permille);
        let passed = elapsed(start, self.clock);
        let w = self
            .remaining
            .write_remaining_time_quietly(left_unless(ends, passed, ms), false);
        Passed {
            color: moved.color,
            first: moved.first,
            second: moved.second,
            device: moved.device,
            time: w.reported,
            wait: wait_unless(ends, wait_for_end(passed, ms)),
            remaining: w.remaining,
            ends,
        }
    }

    // A pass that moves one attribute and leaves the remaining time.
    fn passed(self, set: ColorSet, device: Option<Notice>, wait: u64, ends: bool) -> Passed
        ensures { result ≡ passed self set device wait ends }
    {
        Passed {
            color: set.color,
            first: set.change,
            second: None,
            device,
            time: false,
            wait: wait_unless(ends, wait),
            remaining: self.remaining,
            ends,
        }
    }

    #[tactic(auto, unfolding(tasks::specs::Valid::hue_move_valid, crate::specs::Passes::hue_passed))]
    pub(crate) fn hue_move_transition(self, run: HueRun) -> Passed
        requires { hue_move_valid run.task ≡ true }
        ensures { result ≡ hue_passed self run }
    {
        let task = run.task;
        let rate = task.direction.signed(task.rate);
        let now = moved_hue(run.hue, delta_at_rate(rate, elapsed(run.start, self.clock)));
        let set = self.color.set_hue(now, false, task.enhanced, self.clock);
        self.passed(set, Some(Notice::DeviceHueSaturation), TICK, false)
    }

    #[tactic(auto, unfolding(tasks::specs::Valid::saturation_move_valid, crate::specs::Passes::saturation_passed))]
    pub(crate) fn saturation_move_transition(self, run: SaturationRun) -> Passed
        requires { saturation_move_valid run.task ≡ true }
        ensures { result ≡ saturation_passed self run }
    {
        let task = run.task;
        let rate = task.direction.signed(task.rate);
        let now = moved_saturation(
            run.saturation,
            delta_at_rate(rate, elapsed(run.start, self.clock)),
        );
        let ends = saturation_done(task.direction, now);
        let set = self.color.set_saturation(now, ends, self.clock);
        self.passed(set, Some(Notice::DeviceHueSaturation), TICK, ends)
    }

    #[tactic(auto, unfolding(crate::specs::Passes::temperature_passed))]
    pub(crate) fn color_temperature_move_transition(self, run: ColorTemperatureRun) -> Passed
        requires { rate_valid run.rate ≡ true }
        ensures { result ≡ temperature_passed self run }
    {
        let way = delta_at_rate(run.rate, elapsed(run.start, self.clock));
        let now = clamped_sum(run.lo, run.hi, run.mireds, way);
        let ends = mireds_done(run.rate, run.lo, run.hi, now);
        let set = self.color.set_color_temperature(now, ends, self.clock);
        self.passed(set, Some(Notice::DeviceMireds), TICK, ends)
    }

    #[tactic(auto, unfolding(crate::specs::Passes::loop_passed))]
    pub(crate) fn color_loop_transition(self, run: ColorLoopRun) -> Passed
        ensures { result ≡ loop_passed self run }
    {
        let task = run.task;
        let passed = elapsed(run.start, self.clock);
        let now = moved_hue(run.hue, loop_delta(task.direction, passed, task.seconds));
        let set = self.color.set_hue(now, false, true, self.clock);
        let wait = wait_for_turn(passed, task.seconds);
        self.passed(set, Some(Notice::DeviceHueSaturation), wait, false)
    }

    // Where nothing runs, nothing changes, and no device is written.
    pub(crate) fn no_transition(self) -> Passed
        ensures { result ≡ passed self (record { color = self.color; change = None }) None 0 true }
    {
        self.passed(ColorSet::unchanged(self.color), None, 0, true)
    }
}
