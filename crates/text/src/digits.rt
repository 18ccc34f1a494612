// Digits: a decimal number that grows byte by byte, and hexadecimal digits, in small letters alone: the library's
// `is_ascii_hexdigit` and `to_digit` take capitals too.
ghost use Rattle.std.specs.Prelude.{◌≡◌, ◌<◌};
ghost use Rattle.text.specs.Digits.{grown, is_hex_digit, hex_value, hex_digit};

// A number with one digit more. None: a byte that is no digit, or a number that is too large.
#[tactic(auto, unfolding(crate::specs::Digits::grown))]
pub fn with_digit(value: u64, byte: u8, most: u64) -> Option<u64>
    ensures { result ≡ grown value byte most }
{
    if !byte.is_ascii_digit() {
        return None;
    }
    let grown = value.checked_mul(10)?.checked_add((byte - b'0') as u64)?;
    if grown <= most { Some(grown) } else { None }
}

pub fn is_hex_digit(byte: u8) -> bool
    ensures { result ≡ is_hex_digit byte }
{
    matches!(byte, b'0'..=b'9' | b'a'..=b'f')
}

// A hexadecimal digit's number; 0 for any other byte, and no Option: callers have checked with `is_hex_digit`.
#[tactic(auto, unfolding(crate::specs::Digits::hex_value))]
pub fn hex_value(byte: u8) -> u8
    ensures { (result ≡ hex_value byte) × (result < 16) }
{
    match byte {
        b'0'..=b'9' => byte - b'0',
        b'a'..=b'f' => byte - 87,
        _ => 0,
    }
}

// The digit of the last four bits of a number.
#[tactic(auto, unfolding(crate::specs::Digits::hex_digit))]
pub fn hex_digit(number: u8) -> u8
    ensures { result ≡ hex_digit number }
{
    match number % 16 {
        digit @ 0..=9 => digit + b'0',
        digit => digit + 87,
    }
}
