// A lamp that was found valid: what a call goes on with, once that is checked. It has no other source than the check, so that a
// program whose calls all come by one door has the check in its code once (docs/SPEED.md).
ghost use Rattle.std.specs.Prelude.{◌≡◌, true, cond, Some, None};
ghost use Rattle.lamp.specs.declared.Lamp.{Lamp};
ghost use Rattle.lamp.specs.Valid.{lamp_valid};

use crate::Lamp;
use std::marker::Model;

#[derive(Clone, Copy, Debug, PartialEq, Eq)]
pub struct ValidLamp {
    lamp: Lamp,
}

impl Model for ValidLamp {
    ghost Value = { Lamp };

    ghost view = { λ v. v.lamp };

    ghost inverse = { λ l. record { lamp = l } };

    ghost invariant = { λ v. lamp_valid v.lamp ≡ true };
}

impl ValidLamp {
    pub fn lamp(self) -> Lamp
        ensures value { result ≡ self }
        ensures valid { lamp_valid result ≡ true }
    {
        self.lamp
    }
}

impl Lamp {
    // The lamp as a valid one, where it is that.
    pub fn validated(self) -> Option<ValidLamp>
        ensures { result ≡ cond (lamp_valid self) (Some self) None }
    {
        if self.is_valid() {
            Some(ValidLamp { lamp: self })
        } else {
            None
        }
    }
}
