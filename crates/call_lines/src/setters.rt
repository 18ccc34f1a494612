// A setter on its own: its line, and the lamp at the clock with the colour that was set.
ghost use Rattle.std.specs.Prelude.{◌≡◌};
ghost use Rattle.text.specs.Readers.{Reads, give, ◌then◌, flag, number64};
ghost use Rattle.call_lines.specs.Setters.{setting_of, hue_setting_at, saturation_setting_at, mireds_setting_at, setting_at, setting_set, setting_answer};

use color::{Color, ColorSet, cons_change};
use lamp::{Answer, Lamp};
use notices::Numeral;
use text::words::Words;

#[derive(Clone, Copy)]
pub enum NewValue {
    Hue { hue: u16, is_enhanced: bool },
    Saturation(u8),
    Mireds(u16),
}

#[derive(Clone, Copy)]
pub struct Setting {
    pub value: NewValue,
    pub is_end: bool,
    pub clock: u64,
}

#[tactic(auto, unfolding(crate::specs::Setters::hue_setting_at))]
fn hue(words: &mut Words) -> Option<Setting>
    ensures { Reads (hue_setting_at words.old) result words.new }
{
    let hue = words.read()?;
    let is_end = words.read()?;
    let is_enhanced = words.read()?;
    Some(Setting {
        value: NewValue::Hue { hue, is_enhanced },
        is_end,
        clock: words.read()?,
    })
}

// The end and the clock behind a new value.
fn ended(value: NewValue, words: &mut Words) -> Option<Setting>
    ensures { Reads ((give (setting_of value) then flag then number64) words.old) result words.new }
{
    Some(Setting {
        value,
        is_end: words.read()?,
        clock: words.read()?,
    })
}

#[tactic(auto, unfolding(crate::specs::Setters::saturation_setting_at))]
fn saturation(words: &mut Words) -> Option<Setting>
    ensures { Reads (saturation_setting_at words.old) result words.new }
{
    ended(NewValue::Saturation(words.read()?), words)
}

#[tactic(auto, unfolding(crate::specs::Setters::mireds_setting_at))]
fn mireds(words: &mut Words) -> Option<Setting>
    ensures { Reads (mireds_setting_at words.old) result words.new }
{
    ended(NewValue::Mireds(words.read()?), words)
}

// The setter's name and its numbers.
#[tactic(auto, unfolding(crate::specs::Setters::setting_at))]
pub fn read(words: &mut Words) -> Option<Setting>
    ensures { Reads (setting_at words.old) result words.new }
{
    match words.word()? {
        b"hue" => hue(words),
        b"sat" => saturation(words),
        b"ct" => mireds(words),
        _ => None,
    }
}

fn set_color(color: Color, setting: Setting) -> ColorSet
    ensures { result ≡ setting_set color setting }
{
    match setting.value {
        NewValue::Hue { hue, is_enhanced } => {
            color.set_hue(hue, setting.is_end, is_enhanced, setting.clock)
        }
        NewValue::Saturation(saturation) => {
            color.set_saturation(saturation, setting.is_end, setting.clock)
        }
        NewValue::Mireds(mireds) => {
            color.set_color_temperature(mireds, setting.is_end, setting.clock)
        }
    }
}

// Refused with 8 or 4, as a halt is.
#[tactic(auto, unfolding(crate::specs::Setters::setting_answer))]
pub fn set(lamp: Lamp, setting: Setting) -> Answer
    ensures { result ≡ setting_answer lamp setting }
{
    if let Err(cause) = lamp.first_cause(setting.clock) {
        return lamp.refused(cause);
    }
    let set = set_color(lamp.color, setting);
    let reported = cons_change(set.change, Numeral::new(), lamp.looping.active);
    Answer {
        verdict: Ok(()),
        lamp: Lamp {
            color: set.color,
            ..lamp.at_clock(setting.clock)
        },
        notices: reported.notices(),
        task: None,
        wait: 0,
    }
}
