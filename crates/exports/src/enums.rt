// The cluster's enums by their numbers, which `matter` states. A number that no case has is read as the enum's case
// `RESERVED`.
ghost use Rattle.std.specs.Prelude.{◌≡◌, true, refl, ltb};
ghost use Rattle.std.specs.List.{list_all};
ghost use Rattle.matter.specs.declared.enums.DirectionEnum.{DirectionEnum};
ghost use Rattle.matter.specs.declared.enums.MoveModeEnum.{MoveModeEnum};
ghost use Rattle.matter.specs.declared.enums.StepModeEnum.{StepModeEnum};
ghost use Rattle.matter.specs.declared.enums.ColorLoopActionEnum.{ColorLoopActionEnum};
ghost use Rattle.matter.specs.declared.enums.ColorLoopDirectionEnum.{ColorLoopDirectionEnum};
ghost use Rattle.matter.specs.declared.enums.ColorModeEnum.{ColorModeEnum};
ghost use Rattle.matter.specs.declared.enums.EnhancedColorModeEnum.{EnhancedColorModeEnum};
ghost use Rattle.matter.specs.declared.enums.OnOff.{OnOff};
ghost use Rattle.exports.specs.Enums.{read_of, known_of};

use crate::words;
use matter::{
    ColorLoopActionEnum, ColorLoopDirectionEnum, ColorModeEnum, DirectionEnum,
    EnhancedColorModeEnum, MoveModeEnum, Numbered, OnOff, StepModeEnum,
};

// An enum that any word can be read as. Its numbers are all below 255, which a number past eight bits is read as.
// `measure` reads words that `is_known` has not seen, so a number of no case is read as one too: each enum names which.
pub(crate) trait Readable: Numbered {
    // The case that a number is read as which none has.
    ghost RESERVED: { Self };

    const RESERVED: Self;

    ghost ends: { list_all (λ x. ltb (Self.number x) 255) Self.cases ≡ true };
}

impl Readable for DirectionEnum {
    ghost RESERVED = { DirectionEnum.Shortest };

    const RESERVED: DirectionEnum = DirectionEnum::Shortest;

    ghost ends = { refl };
}

impl Readable for MoveModeEnum {
    ghost RESERVED = { MoveModeEnum.Stop };

    const RESERVED: MoveModeEnum = MoveModeEnum::Stop;

    ghost ends = { refl };
}

impl Readable for StepModeEnum {
    ghost RESERVED = { StepModeEnum.Down };

    const RESERVED: StepModeEnum = StepModeEnum::Down;

    ghost ends = { refl };
}

impl Readable for ColorLoopActionEnum {
    ghost RESERVED = { ColorLoopActionEnum.Deactivate };

    const RESERVED: ColorLoopActionEnum = ColorLoopActionEnum::Deactivate;

    ghost ends = { refl };
}

impl Readable for ColorLoopDirectionEnum {
    ghost RESERVED = { ColorLoopDirectionEnum.Decrement };

    const RESERVED: ColorLoopDirectionEnum = ColorLoopDirectionEnum::Decrement;

    ghost ends = { refl };
}

impl Readable for ColorModeEnum {
    ghost RESERVED = { ColorModeEnum.CurrentHueAndCurrentSaturation };

    const RESERVED: ColorModeEnum = ColorModeEnum::CurrentHueAndCurrentSaturation;

    ghost ends = { refl };
}

impl Readable for EnhancedColorModeEnum {
    ghost RESERVED = { EnhancedColorModeEnum.CurrentHueAndCurrentSaturation };

    const RESERVED: EnhancedColorModeEnum = EnhancedColorModeEnum::CurrentHueAndCurrentSaturation;

    ghost ends = { refl };
}

impl Readable for OnOff {
    ghost RESERVED = { OnOff.Off };

    const RESERVED: OnOff = OnOff::Off;

    ghost ends = { refl };
}

// The case that the number has.
#[tactic(auto, unfolding(crate::specs::Enums::read_of), using(crate::proofs::Found::same_read))]
pub(crate) fn read<E: Readable>(n: u64) -> E
    ensures { result ≡ read_of E.number E.cases E.RESERVED n }
{
    E::try_from(words::capped(n)).unwrap_or(E::RESERVED)
}

// Whether a case has the number.
#[tactic(auto, unfolding(crate::specs::Enums::known_of), using(crate::proofs::Found::same_known))]
pub(crate) fn is_known<E: Readable>(n: u64) -> bool
    ensures { result ≡ known_of E.number E.cases n }
{
    E::try_from(words::capped(n)).is_ok()
}
