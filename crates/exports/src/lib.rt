// Functions for C and Rust, on numbers and slices of 64-bit words; `exports_c` exports them. The words and numbers are the
// interface in C, which has no enums of ours.
#![tactic(auto)]

mod answers;
mod bounds;
mod calls;
mod enums;
mod failures;
mod lamps;
mod moves;
mod words;

ghost use Rattle.std.specs.Prelude.{◌≡◌, MatchResult};
ghost use Rattle.exports.specs.Exported.{made, answered};
ghost use Rattle.exports.specs.Failures.{error_number};

pub use answers::{ANSWER_WORDS, answer_words, place};
pub use calls::{CALL_WORDS, called, sent};
pub use failures::WordsError;
use failures::number_of;
use lamp::Lamp;
pub use lamps::{LAMP_WORDS, lamp_of, lamp_words};
use matter::Bounds;
pub use moves::{RecordNumbers, TaskNumbers};

// A fresh lamp, written over `words`.
#[tactic(auto, unfolding(crate::specs::Exported::made))]
fn make(
    words: &mut [u64],
    bounds: Bounds,
    features: u32,
    options: u8,
    clock: u64,
) -> Result<(), WordsError>
    ensures value { MatchResult result (λ _. (made words.old bounds features options clock).number ≡ 0) (λ e. (made words.old bounds features options clock).number ≡ error_number e) }
    ensures words_after { words.new ≡ (made words.old bounds features options clock).lamp }
{
    if words.len() != LAMP_WORDS {
        return Err(WordsError::UnreadableLamp);
    }
    let lamp = Lamp::new(bounds, features, options, clock)?;
    words.copy_from_slice(&lamp_words(lamp));
    Ok(())
}

// A call on the lamp in `words`, with its answer.
#[tactic(auto, unfolding(crate::specs::Exported::answered))]
fn call_lamp(words: &mut [u64], call: &[u64], answer: &mut [u64]) -> Result<(), WordsError>
    ensures value { MatchResult result (λ _. (answered words.old call.now answer.old).number ≡ 0) (λ e. (answered words.old call.now answer.old).number ≡ error_number e) }
    ensures words_after { words.new ≡ (answered words.old call.now answer.old).lamp }
    ensures answer_after { answer.new ≡ (answered words.old call.now answer.old).answer }
{
    if words.len() != LAMP_WORDS {
        return Err(WordsError::UnreadableLamp);
    }
    if answer.len() != ANSWER_WORDS {
        return Err(WordsError::NoRoom);
    }
    if !lamps::lamp_known(words) {
        return Err(WordsError::UnreadableLamp);
    }
    if !calls::call_known(call) {
        return Err(WordsError::UnreadableCall);
    }
    let given = commands::call(lamp_of(words), calls::call_of(call));
    words.copy_from_slice(&lamp_words(given.lamp));
    answer.copy_from_slice(&answer_words(given));
    given.verdict?;
    Ok(())
}

// Makes a fresh lamp in `words`, of which there are 28. 0, or the number of the refusal: 4 (clock), 5 (crossed bounds),
// 101 (not 28 words); then nothing changes.
pub fn yemkruos_new(
    words: &mut [u64],
    min: u16,
    max: u16,
    features: u32,
    options: u8,
    clock: u64,
) -> u64
    ensures value { result ≡ (made words.old (record { min = min; max = max }) features options clock).number }
    ensures words_after { words.new ≡ (made words.old (record { min = min; max = max }) features options clock).lamp }
{
    number_of(make(words, Bounds { min, max }, features, options, clock))
}

// Sends the call (10 words) to the lamp (28 words), which is left as the call leaves it, and writes the answer (25
// words). 0, or the number of the refusal: 1, 2, 4 to 8, 18, or 100 (no call), 101 (no lamp), 102 (the answer has not 25
// words); after those three nothing changes.
pub fn yemkruos_call(words: &mut [u64], call: &[u64], answer: &mut [u64]) -> u64
    ensures value { result ≡ (answered words.old call.now answer.old).number }
    ensures words_after { words.new ≡ (answered words.old call.now answer.old).lamp }
    ensures answer_after { answer.new ≡ (answered words.old call.now answer.old).answer }
{
    number_of(call_lamp(words, call, answer))
}
