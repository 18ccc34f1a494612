// Bytes that are a word of a line: two hexadecimal digits each, small letters.
ghost use Rattle.std.specs.Prelude.{◌≡◌, ◌≤◌, length, option_map};
ghost use Rattle.std.specs.List.{list_all};
ghost use Rattle.text.specs.Digits.{is_hex_digit};
ghost use Rattle.text.specs.Pairs.{is_pairs, are_bytes, bytes_of, bytes_in, or_none, bytes_taken, bytes_read};
ghost use Rattle.text.specs.Readers.{Reads};
ghost use Rattle.text.specs.Written.{pasted};

use crate::digits::{hex_value, is_hex_digit};
use crate::words::Words;

fn are_hex_digits(word: &[u8]) -> bool
    ensures { result ≡ list_all is_hex_digit word.now }
{
    word.iter().all(|digit| is_hex_digit(*digit))
}

#[tactic(auto, using(crate::proofs::PairLaws::pairs_all))]
fn are_pairs(word: &[u8]) -> bool
    ensures { result ≡ is_pairs word.now }
{
    (word.len() % 2 == 0) & are_hex_digits(word)
}

// Whether a word is so many bytes at most, and one at least.
#[tactic(auto, using(crate::proofs::PairLaws::bytes_half))]
fn are_bytes(word: &[u8], room: usize) -> bool
    ensures { result ≡ are_bytes room word.now }
{
    !word.is_empty() & are_pairs(word) & (word.len() / 2 <= room)
}

// By places: a proof loses which byte was changed over `iter_mut`, and which pair it is over `chunks_exact`.
#[tactic(auto, using(crate::proofs::PairLaws::bytes_half, crate::proofs::PairLaws::put_length))]
fn put(word: &[u8], out: &mut [u8])
    requires { length (bytes_of word.now) ≤ length out.old }
    ensures { out.new ≡ pasted out.old 0 (bytes_of word.now) }
{
    for i in 0..word.len() / 2 {
        out[i] = hex_value(word[2 * i]) * 16 + hex_value(word[2 * i + 1]);
    }
}

// The bytes of a word, to the start of `out`, and how many they are. A word of another form, or of more bytes than fit,
// gives none.
#[tactic(auto, unfolding(crate::specs::Pairs::bytes_in), using(crate::proofs::PairLaws::bytes_half, crate::proofs::PairLaws::put_none))]
pub fn from_word(word: &[u8], out: &mut [u8]) -> Option<usize>
    ensures value { result ≡ option_map length (bytes_in (length out.old) word.now) }
    ensures out_after { out.new ≡ pasted out.old 0 (or_none (bytes_in (length out.old) word.now)) }
{
    if !are_bytes(word, out.len()) {
        return None;
    }
    put(word, out);
    Some(word.len() / 2)
}

// Those of the next word.
#[tactic(auto, using(crate::proofs::PairLaws::put_none))]
pub fn bytes(words: &mut Words, out: &mut [u8]) -> Option<usize>
    ensures value { Reads (bytes_read (length out.old) words.old) result words.new }
    ensures out_after { out.new ≡ pasted out.old 0 (bytes_taken (length out.old) words.old) }
{
    from_word(words.word()?, out)
}
