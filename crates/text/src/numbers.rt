// What a word says: a number within its width, or a flag.
ghost use Rattle.std.specs.Prelude.{◌≡◌, ◌≤◌, ℕ, List, Option, IfSome};
ghost use Rattle.text.specs.Numbers.{number_of, flag_of, signed_of};

use crate::digits::with_digit;

// A value that a word says. Where the word says none, it is not as asked.
pub trait FromWord {
    ghost meaning: { List ℕ → Option Self };

    fn from_word(word: &[u8]) -> Option<Self>
        ensures { result ≡ meaning word.now };
}

// A word as a number of at most `most`. By hand: the library's `parse` takes a plus too, and a `str` alone.
#[tactic(auto, unfolding(crate::specs::Numbers::number_of, crate::specs::Digits::is_number), using(crate::proofs::NumberLaws::after_refused, crate::proofs::NumberLaws::after_next, crate::proofs::NumberLaws::next_within))]
pub fn number(word: &[u8], most: u64) -> Option<u64>
    ensures value { result ≡ number_of most word.now }
    ensures within { IfSome result (λ n. n ≤ most) }
{
    if word.is_empty() {
        return None;
    }
    let mut value = 0;
    for byte in word {
        value = with_digit(value, *byte, most)?;
    }
    Some(value)
}

impl FromWord for bool {
    ghost meaning = { flag_of };

    fn from_word(word: &[u8]) -> Option<bool> {
        Some(number(word, 1)? == 1)
    }
}

// One impl a width, since no impl is for a list of types.
impl FromWord for u8 {
    ghost meaning = { number_of 255 };

    fn from_word(word: &[u8]) -> Option<u8> {
        Some(number(word, u8::MAX as u64)? as u8)
    }
}

impl FromWord for u16 {
    ghost meaning = { number_of 65535 };

    fn from_word(word: &[u8]) -> Option<u16> {
        Some(number(word, u16::MAX as u64)? as u16)
    }
}

impl FromWord for u32 {
    ghost meaning = { number_of 4294967295 };

    fn from_word(word: &[u8]) -> Option<u32> {
        Some(number(word, u32::MAX as u64)? as u32)
    }
}

impl FromWord for u64 {
    ghost meaning = { number_of 18446744073709551615 };

    fn from_word(word: &[u8]) -> Option<u64> {
        number(word, u64::MAX)
    }
}

// With a minus or without.
impl FromWord for i64 {
    ghost meaning = { signed_of };

    #[tactic(auto, unfolding(crate::specs::Numbers::signed_of))]
    fn from_word(word: &[u8]) -> Option<i64> {
        let (sign, size) = word.split_first()?;
        if *sign == b'-' {
            0i64.checked_sub_unsigned(number(size, i64::MIN.unsigned_abs())?)
        } else {
            Some(number(word, i64::MAX as u64)? as i64)
        }
    }
}
