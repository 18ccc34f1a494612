// Whether a fade passes through a band of hues: asked on numbers, before the fade is sent. Document 01, "Arc".
#![tactic(auto)]

ghost use Rattle.std.specs.Prelude.{◌≡◌, ◌*◌};
ghost use Rattle.arc.specs.Arc.{meet, passes_through, first_stored, last_stored, current_hue_band};

use hue::{LAST_CURRENT_HUE, distance_up, hue_path_delta};
use matter::DirectionEnum;

// The hues from `low` up to `high`, past 65,535 to 0 where `high` is below `low`.
#[derive(Clone, Copy, Debug, PartialEq, Eq)]
pub struct Band {
    pub low: u16,
    pub high: u16,
}

// The first stored hue of a CurrentHue. 255, which no hue has, is taken as 254.
fn first_stored(current: u8) -> u16
    ensures { result ≡ first_stored current }
{
    if current < LAST_CURRENT_HUE {
        (current as u16) * 256
    } else {
        (LAST_CURRENT_HUE as u16) * 256
    }
}

// The last stored hue of a CurrentHue. 255 is taken as 254 again.
fn last_stored(current: u8) -> u16
    ensures { result ≡ last_stored current }
{
    if current < LAST_CURRENT_HUE {
        (current as u16) * 256 + 255
    } else {
        65535
    }
}

impl Band {
    // The stored hues whose CurrentHue is one of `low` up to `high`; an end of 255 is taken as 254.
    pub fn of_current_hue(low: u8, high: u8) -> Band
        ensures { result ≡ current_hue_band low high }
    {
        Band {
            low: first_stored(low),
            high: last_stored(high),
        }
    }
}

// Whether the hues from `from` up to `to` and those from `low` up to `high` have one in common: the first of one run
// is then in the other.
#[tactic(auto, unfolding(crate::specs::Arc::meet))]
fn runs_meet(from: u16, to: u16, low: u16, high: u16) -> bool
    ensures { result ≡ meet from to low high }
{
    distance_up(from, low) <= distance_up(from, to)
        || distance_up(low, from) <= distance_up(low, high)
}

// Whether some hue on the arc from `found` to `target`, in the direction asked for, is in the band. Hues are stored
// ones.
#[tactic(auto, unfolding(crate::specs::Arc::passes_through))]
pub fn passes_through(found: u16, target: u16, direction: DirectionEnum, band: Band) -> bool
    ensures { result ≡ passes_through found target direction band }
{
    if hue_path_delta(found, target, direction).delta >= 0 {
        return runs_meet(found, target, band.low, band.high);
    }
    runs_meet(target, found, band.low, band.high)
}

// The same for the plain command, whose hue is times 256.
pub fn plain_passes_through(found: u16, hue: u8, direction: DirectionEnum, band: Band) -> bool
    ensures { result ≡ passes_through found (hue * 256) direction band }
{
    passes_through(found, (hue as u16) * 256, direction, band)
}
