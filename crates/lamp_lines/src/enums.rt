// Reading the cluster's enums by their numbers, and the on/off words. A number that no case has is none.
ghost use Rattle.text.specs.Readers.{Reads};
ghost use Rattle.lamp_lines.specs.Enums.{case_of, enum, on_off_at};

use matter::{Numbered, OnOff};
use text::words::Words;

// The next word, as the number of a case.
pub fn enumerated<E: Numbered>(words: &mut Words) -> Option<E>
    ensures { Reads (enum (case_of E.number E.cases) words.old) result words.new }
{
    E::try_from(words.read()?).ok()
}

// `on`, `off`, or `none` where there is no on/off handler.
#[tactic(auto, unfolding(crate::specs::Enums::on_off_at))]
pub fn on_off(words: &mut Words) -> Option<OnOff>
    ensures { Reads (on_off_at words.old) result words.new }
{
    match words.word()? {
        b"on" => Some(OnOff::On),
        b"off" => Some(OnOff::Off),
        b"none" => Some(OnOff::NoHandler),
        _ => None,
    }
}
