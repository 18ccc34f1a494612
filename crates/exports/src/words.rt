// Words and numbers. A lamp, a call and an answer are slices of 64-bit words; a number of a narrower field is read by the
// field's width.
ghost use Rattle.std.specs.Prelude.{◌≡◌, cond, leb};
ghost use Rattle.exports.specs.Words as W;

// The word at a place, 0 past the end.
pub(crate) fn at(words: &[u64], i: usize) -> u64
    ensures { result ≡ W.at words.now i }
{
    words.get(i).copied().unwrap_or(0)
}

// The widths of C's fields. `as` takes only what is in range, so each takes a remainder first; generic they would ask for a
// trait that does just that.
pub(crate) fn byte(x: u64) -> u8
    ensures { result ≡ W.byte x }
{
    (x % 256) as u8
}

pub(crate) fn short(x: u64) -> u16
    ensures { result ≡ W.short x }
{
    (x % 65536) as u16
}

pub(crate) fn long(x: u64) -> u32
    ensures { result ≡ W.long x }
{
    (x % 4294967296) as u32
}

// An enum's number: past eight bits it is 255, which no enum has.
pub(crate) fn capped(x: u64) -> u8
    ensures { result ≡ cond (leb x 255) x 255 }
{
    u8::try_from(x).unwrap_or(255)
}

// C's word for a bool, which the library reads from no number. 1 is true.
#[tactic(auto, unfolding(crate::specs::Words::flag))]
pub(crate) fn flag(x: u64) -> bool
    ensures { result ≡ W.flag x }
{
    x == 1
}

// A signed number of its sign, 1 up or 2 down, and its size, as C writes it.
#[tactic(auto, unfolding(crate::specs::Words::signed))]
pub(crate) fn signed(sign: u64, size: u64) -> i64
    ensures { result ≡ W.signed sign size }
{
    let n = (size % 9223372036854775808) as i64;
    if sign == 2 { -n } else { n }
}

// The sign of a number, as C reads it: 2 below 0, else 1. The library has -1, 0 and 1.
#[tactic(auto, unfolding(crate::specs::Words::sign_of))]
pub(crate) fn sign_of(n: i64) -> u64
    ensures { result ≡ W.sign_of n }
{
    if n < 0 { 2 } else { 1 }
}
