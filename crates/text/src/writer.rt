// Writing: a text is put into a sink, byte by byte.
ghost use Rattle.std.specs.Prelude.{◌≡◌, ℕ};
ghost use Rattle.std.specs.List.{fold};
ghost use Rattle.text.specs.Digits.{signed_decimal, spaced, spaced_or_dash, spaced_all, hex_text};
ghost use Rattle.text.specs.Digits.{decimal as decimal_text};

use crate::digits::hex_digit;

// What a text is put into, as a slice or a checksum.
pub trait Sink {
    // The sink with one byte more.
    ghost push: { Self → ℕ → Self };

    fn byte(&mut self, b: u8)
        ensures { self.new ≡ push self.old b };
}

pub fn text<S: Sink>(out: &mut S, s: &[u8])
    ensures { out.new ≡ fold S.push out.old s.now }
{
    for b in s {
        out.byte(*b);
    }
}

// The digits are found from the last and put from the first, in one loop without a call (docs/SPEED.md). A `while`, since the
// number decides how many there are.
pub fn decimal<S: Sink>(out: &mut S, n: u64)
    ensures { out.new ≡ fold S.push out.old (decimal_text n) }
{
    let mut digits = [b'0'; 20];
    let mut at = 19;
    let mut left = n;
    while left >= 10 {
        digits[at] = b'0' + (left % 10) as u8;
        left /= 10;
        at -= 1;
    }
    digits[at] = b'0' + left as u8;
    text(out, &digits[at..]);
}

pub fn signed<S: Sink>(out: &mut S, n: i64)
    ensures { out.new ≡ fold S.push out.old (signed_decimal n) }
{
    if n < 0 {
        out.byte(b'-');
    }
    decimal(out, n.unsigned_abs());
}

// A number behind a blank.
#[tactic(auto, unfolding(crate::specs::Digits::spaced))]
pub fn spaced<S: Sink>(out: &mut S, n: u64)
    ensures { out.new ≡ fold S.push out.old (spaced n) }
{
    out.byte(b' ');
    decimal(out, n);
}

// A number behind a blank; `-` where there is none.
#[tactic(auto, unfolding(crate::specs::Digits::spaced_or_dash))]
pub fn spaced_or_dash<S: Sink>(out: &mut S, number: Option<u8>)
    ensures { out.new ≡ fold S.push out.old (spaced_or_dash number) }
{
    match number {
        None => text(out, b" -"),
        Some(n) => spaced(out, u64::from(n)),
    }
}

// Numbers, each behind a blank.
#[tactic(auto, unfolding(crate::specs::Digits::spaced_all))]
pub fn spaced_all<S: Sink>(out: &mut S, numbers: &[u64])
    ensures { out.new ≡ fold S.push out.old (spaced_all numbers.now) }
{
    for n in numbers {
        spaced(out, *n);
    }
}

// Two hexadecimal digits a byte.
#[tactic(auto, unfolding(crate::specs::Digits::hex_text))]
pub fn hex<S: Sink>(out: &mut S, bytes: &[u8])
    ensures { out.new ≡ fold S.push out.old (hex_text bytes.now) }
{
    for b in bytes {
        out.byte(hex_digit(b / 16));
        out.byte(hex_digit(*b));
    }
}
