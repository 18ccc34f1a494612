// The colour: hue, saturation, mireds, the two modes, and when each was last reported. Its making and its validity, and the
// setters with what they tell: document 01, leaves 4 and 5.
// Carried over from project-chip/rs-matter, commit 43f61585a4 (Apache-2.0, see NOTICE), and changed.
#![tactic(auto)]

ghost use Rattle.std.specs.Prelude.{◌≡◌, ◌∷◌, cond, None};
ghost use Rattle.notices.specs.Notices.{only};
ghost use Rattle.notices.specs.Names.{EnhancedCurrentHue};
ghost use Rattle.notices.specs.Numerals.{in_front};
ghost use Rattle.color.specs.Setters.{due, change_notices, change_reported, hue_mode, kept_hue_mode, set_hue, set_saturation, set_mireds};
ghost use Rattle.color.specs.Valid.{modes_agree, color_valid};
ghost use Rattle.color.specs.Making.{new_color};
ghost use Rattle.color.specs.Bounded.{bounded};

use matter::{Bounds, ColorModeEnum, EnhancedColorModeEnum, color_mode_of, default_color_mode};
use notices::{Notice, Numeral};
use progress::clamped_sum;

// The clocks at which each attribute was last reported.
#[derive(Clone, Copy, Debug, PartialEq, Eq)]
pub struct Stamps {
    pub hue: u64,
    pub saturation: u64,
    pub mireds: u64,
}

// EnhancedCurrentHue, CurrentSaturation, ColorTemperatureMireds, ColorMode, EnhancedColorMode, and their stamps.
#[derive(Clone, Copy, Debug, PartialEq, Eq)]
pub struct Color {
    pub hue: u16,
    pub saturation: u8,
    pub mireds: u16,
    pub mode: ColorModeEnum,
    pub emode: EnhancedColorModeEnum,
    pub stamps: Stamps,
}

// What a setter has to report of a change: whether the attribute is due, its notice, and whether it is an enhanced hue. What is
// not due is a change too, which is to be stored and which the scenes are told.
#[derive(Clone, Copy, Debug, PartialEq, Eq)]
pub struct Change {
    pub due: bool,
    pub attribute: Notice,
    pub enhanced: bool,
}

// The colour after a setter, and the change; none where the number stays the same, which reports nothing.
#[derive(Clone, Copy, Debug, PartialEq, Eq)]
pub struct ColorSet {
    pub color: Color,
    pub change: Option<Change>,
}

impl ColorSet {
    // A colour that stays as it is.
    pub fn unchanged(color: Color) -> Self
        ensures { result ≡ record { color = color; change = None } }
    {
        ColorSet {
            color,
            change: None,
        }
    }
}

// Whether an attribute is reported: at an end, or one second or more after it last was. A stamp after the clock is never
// a second old.
fn is_due(is_end: bool, stamp: u64, clock: u64) -> bool
    ensures { result ≡ due is_end stamp clock }
{
    is_end || 1000 <= clock.saturating_sub(stamp)
}

// The stamp of an attribute that is reported at this clock, or not.
fn stamp_at(reported: bool, clock: u64, stamp: u64) -> u64
    ensures { result ≡ cond reported clock stamp }
{
    if reported { clock } else { stamp }
}

fn hue_mode(is_enhanced: bool) -> EnhancedColorModeEnum
    ensures { result ≡ hue_mode is_enhanced }
{
    if is_enhanced {
        EnhancedColorModeEnum::EnhancedCurrentHueAndCurrentSaturation
    } else {
        EnhancedColorModeEnum::CurrentHueAndCurrentSaturation
    }
}

// The enhanced mode after a saturation is set: a hue one stays.
fn kept_hue_mode(emode: EnhancedColorModeEnum) -> EnhancedColorModeEnum
    ensures { result ≡ kept_hue_mode emode }
{
    match emode {
        EnhancedColorModeEnum::EnhancedCurrentHueAndCurrentSaturation => emode,
        _ => EnhancedColorModeEnum::CurrentHueAndCurrentSaturation,
    }
}

// Whether both modes say the same: a rule of the cluster over two types, and no equality of one.
fn modes_agree(mode: ColorModeEnum, emode: EnhancedColorModeEnum) -> bool
    ensures { result ≡ modes_agree mode emode }
{
    mode == color_mode_of(emode)
}

// The notices of a change in front of a list: persistence first, unless the loop is active; where it is due the attribute,
// with an enhanced hue that too, and both modes; scenes last. The attribute is any byte, as in `Numeral::cons`.
#[tactic(auto, unfolding(notices::specs::Numerals::in_front))]
pub fn cons_attribute(
    list: Numeral,
    attribute: u8,
    due: bool,
    enhanced: bool,
    loop_active: bool,
) -> Numeral
    ensures { result ≡ in_front (change_notices loop_active due (attribute ∷ only enhanced EnhancedCurrentHue)) list }
{
    list.note(Notice::ScenesNotified)
        .note_if(due, Notice::EnhancedColorMode)
        .note_if(due, Notice::ColorMode)
        .note_if(due & enhanced, Notice::EnhancedCurrentHue)
        .cons_if(due, attribute)
        .note_if(!loop_active, Notice::MarkedDirty)
}

impl Change {
    // The change's notices in front of a list.
    pub fn cons(self, list: Numeral, loop_active: bool) -> Numeral
        ensures { result ≡ in_front (change_reported (Some self) loop_active) list }
    {
        cons_attribute(
            list,
            u8::from(self.attribute),
            self.due,
            self.enhanced,
            loop_active,
        )
    }
}

// The same of a change, where there is one.
#[tactic(auto, unfolding(notices::specs::Numerals::in_front))]
pub fn cons_change(change: Option<Change>, list: Numeral, loop_active: bool) -> Numeral
    ensures { result ≡ in_front (change_reported change loop_active) list }
{
    match change {
        Some(change) => change.cons(list, loop_active),
        None => list,
    }
}

impl Color {
    // The colour of a fresh lamp with these features and bounds.
    pub fn new(feature_map: u32, bounds: Bounds) -> Self
        ensures { result ≡ new_color feature_map bounds }
    {
        let emode = default_color_mode(feature_map);
        Color {
            hue: 0,
            saturation: 0,
            mireds: clamped_sum(bounds.min, bounds.max, 250, 0),
            mode: color_mode_of(emode),
            emode,
            stamps: Stamps {
                hue: 0,
                saturation: 0,
                mireds: 0,
            },
        }
    }

    // The three setters are the source's: each sets a field of its own, with modes and notices of its own.

    // Sets the hue, and reports it as plain or enhanced.
    #[tactic(auto, unfolding(crate::specs::Setters::hue_set))]
    pub fn set_hue(self, new_eh: u16, is_end: bool, is_enhanced: bool, clock: u64) -> ColorSet
        ensures { result ≡ set_hue self new_eh is_end is_enhanced clock }
    {
        if (self.hue == new_eh) & !is_end {
            return ColorSet::unchanged(self);
        }
        let stamps = self.stamps;
        let due = is_due(is_end, stamps.hue, clock);
        let stamp = stamp_at(due, clock, stamps.hue);
        ColorSet {
            color: Color {
                hue: new_eh,
                mode: ColorModeEnum::CurrentHueAndCurrentSaturation,
                emode: hue_mode(is_enhanced),
                stamps: Stamps {
                    hue: stamp,
                    ..stamps
                },
                ..self
            },
            change: Some(Change {
                due,
                attribute: Notice::CurrentHue,
                enhanced: is_enhanced,
            }),
        }
    }

    // Sets the saturation.
    #[tactic(auto, unfolding(crate::specs::Setters::saturation_set))]
    pub fn set_saturation(self, new_sat: u8, is_end: bool, clock: u64) -> ColorSet
        ensures { result ≡ set_saturation self new_sat is_end clock }
    {
        if (self.saturation == new_sat) & !is_end {
            return ColorSet::unchanged(self);
        }
        let stamps = self.stamps;
        let due = is_due(is_end, stamps.saturation, clock);
        let stamp = stamp_at(due, clock, stamps.saturation);
        ColorSet {
            color: Color {
                saturation: new_sat,
                mode: ColorModeEnum::CurrentHueAndCurrentSaturation,
                emode: kept_hue_mode(self.emode),
                stamps: Stamps {
                    saturation: stamp,
                    ..stamps
                },
                ..self
            },
            change: Some(Change {
                due,
                attribute: Notice::CurrentSaturation,
                enhanced: false,
            }),
        }
    }

    // Sets the mireds.
    #[tactic(auto, unfolding(crate::specs::Setters::mireds_set))]
    pub fn set_color_temperature(self, new_mireds: u16, is_end: bool, clock: u64) -> ColorSet
        ensures { result ≡ set_mireds self new_mireds is_end clock }
    {
        if (self.mireds == new_mireds) & !is_end {
            return ColorSet::unchanged(self);
        }
        let stamps = self.stamps;
        let due = is_due(is_end, stamps.mireds, clock);
        let stamp = stamp_at(due, clock, stamps.mireds);
        ColorSet {
            color: Color {
                mireds: new_mireds,
                mode: ColorModeEnum::ColorTemperatureMireds,
                emode: EnhancedColorModeEnum::ColorTemperatureMireds,
                stamps: Stamps {
                    mireds: stamp,
                    ..stamps
                },
                ..self
            },
            change: Some(Change {
                due,
                attribute: Notice::ColorTemperatureMireds,
                enhanced: false,
            }),
        }
    }

    // The colour under new bounds, which is no setter: mireds outside go to the nearer one, with their stamp.
    #[tactic(auto, unfolding(crate::specs::Bounded::bounded))]
    pub fn bounded(self, bounds: Bounds, clock: u64) -> Color
        ensures { result ≡ bounded self bounds clock }
    {
        let mireds = clamped_sum(bounds.min, bounds.max, self.mireds, 0);
        let stamp = stamp_at(mireds != self.mireds, clock, self.stamps.mireds);
        Color {
            mireds,
            stamps: Stamps {
                mireds: stamp,
                ..self.stamps
            },
            ..self
        }
    }

    // Whether a lamp with this colour, these bounds and this clock can be valid.
    #[tactic(auto, unfolding(crate::specs::Valid::color_valid, matter::specs::All::all_true))]
    pub fn is_valid(self, bounds: Bounds, clock: u64) -> bool
        ensures { result ≡ color_valid self bounds clock }
    {
        (self.saturation <= 254)
            & (bounds.min <= self.mireds)
            & (self.mireds <= bounds.max)
            & (bounds.min <= bounds.max)
            & modes_agree(self.mode, self.emode)
            & (self.stamps.hue <= clock)
            & (self.stamps.saturation <= clock)
            & (self.stamps.mireds <= clock)
    }
}
