// Physical bounds in two words, the minimum first: where a lamp has them, and where a call sets them.
ghost use Rattle.std.specs.Prelude.{◌≡◌, ◌≤◌};
ghost use Rattle.exports.specs.Bounds.{bounds_of, bounds_fit};

use crate::words::{at, short};
use matter::Bounds;

// The two words from the first one on.
pub(crate) fn read(w: &[u64], first: usize) -> Bounds
    requires { first ≤ 26 }
    ensures { result ≡ bounds_of w.now first }
{
    Bounds {
        min: short(at(w, first)),
        max: short(at(w, first + 1)),
    }
}

// Whether both are within their field.
#[tactic(auto, unfolding(crate::specs::Bounds::bounds_fit))]
pub(crate) fn fit(w: &[u64], first: usize) -> bool
    requires { first ≤ 26 }
    ensures { result ≡ bounds_fit w.now first }
{
    at(w, first) <= 65535 && at(w, first + 1) <= 65535
}
