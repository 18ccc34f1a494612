// A lamp in 28 words: the protocol's eighteen fields in their order, then the running record in ten: its clock, the two
// numbers found at its start, its task's kind and six numbers.
ghost use Rattle.std.specs.Prelude.{◌≡◌};
ghost use Rattle.exports.specs.Lamps.{color_of, looping_of, record_of, lamp_of, lamp_fits, lamp_known, lamp_words};

use crate::moves::{RecordNumbers, TaskNumbers};
use crate::words::at;
use crate::{bounds, enums, words};
use color::{Color, Stamps};
use lamp::{Lamp, LoopSettings};
use matter::{ColorLoopDirectionEnum, ColorModeEnum, EnhancedColorModeEnum};
use remaining_time::RemainingTime;

pub const LAMP_WORDS: usize = 28;

fn color(w: &[u64]) -> Color
    ensures { result ≡ color_of w.now }
{
    Color {
        hue: words::short(at(w, 8)),
        saturation: words::byte(at(w, 9)),
        mireds: words::short(at(w, 10)),
        mode: enums::read(at(w, 11)),
        emode: enums::read(at(w, 12)),
        stamps: Stamps {
            hue: at(w, 5),
            saturation: at(w, 6),
            mireds: at(w, 7),
        },
    }
}

fn looping(w: &[u64]) -> LoopSettings
    ensures { result ≡ looping_of w.now }
{
    LoopSettings {
        active: words::flag(at(w, 13)),
        direction: enums::read(at(w, 14)),
        time: words::short(at(w, 15)),
        start: words::short(at(w, 16)),
        stored: words::short(at(w, 17)),
    }
}

fn record(w: &[u64]) -> RecordNumbers
    ensures { result ≡ record_of w.now }
{
    RecordNumbers {
        start: at(w, 18),
        x: at(w, 19),
        y: at(w, 20),
        task: TaskNumbers::from_words(w, 21),
    }
}

// The lamp that the words mean; `lamp_known` says whether they are one, and stands apart since `measure` reads without it.
pub fn lamp_of(w: &[u64]) -> Lamp
    ensures { result ≡ lamp_of w.now }
{
    Lamp {
        clock: at(w, 2),
        bounds: bounds::read(w, 0),
        color: color(w),
        looping: looping(w),
        remaining: RemainingTime {
            tenths: words::short(at(w, 4)),
        },
        options: words::byte(at(w, 3)),
        running: record(w).running(),
    }
}

// Whether each number is within its field.
#[tactic(auto, unfolding(crate::specs::Lamps::lamp_fits))]
fn lamp_fits(w: &[u64]) -> bool
    ensures { result ≡ lamp_fits w.now }
{
    bounds::fit(w, 0)
        && at(w, 3) <= 255
        && at(w, 4) <= 65535
        && at(w, 8) <= 65535
        && at(w, 9) <= 255
        && at(w, 10) <= 65535
        && at(w, 13) <= 1
        && at(w, 15) <= 65535
        && at(w, 16) <= 65535
        && at(w, 17) <= 65535
}

// Whether the enums have their numbers, and each number is within its field.
#[tactic(auto, unfolding(crate::specs::Lamps::lamp_known))]
pub(crate) fn lamp_known(w: &[u64]) -> bool
    ensures { result ≡ lamp_known w.now }
{
    lamp_fits(w)
        && enums::is_known::<ColorModeEnum>(at(w, 11))
        && enums::is_known::<EnhancedColorModeEnum>(at(w, 12))
        && enums::is_known::<ColorLoopDirectionEnum>(at(w, 14))
        && record(w).known()
}

// The words that `lamp_of` reads back.
pub fn lamp_words(lamp: Lamp) -> [u64; 28]
    ensures { result ≡ lamp_words lamp }
{
    let color = lamp.color;
    let stamps = color.stamps;
    let looping = lamp.looping;
    let record = RecordNumbers::from(lamp.running);
    let task = record.task;
    [
        lamp.bounds.min as u64,
        lamp.bounds.max as u64,
        lamp.clock,
        lamp.options as u64,
        lamp.remaining.tenths as u64,
        stamps.hue,
        stamps.saturation,
        stamps.mireds,
        color.hue as u64,
        color.saturation as u64,
        color.mireds as u64,
        u8::from(color.mode) as u64,
        u8::from(color.emode) as u64,
        u64::from(looping.active),
        u8::from(looping.direction) as u64,
        looping.time as u64,
        looping.start as u64,
        looping.stored as u64,
        record.start,
        record.x,
        record.y,
        task.kind,
        task.a,
        task.b,
        task.c,
        task.d,
        task.e,
        task.f,
    ]
}
