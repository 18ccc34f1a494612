// Why words from C are not taken, or what they ask is refused, each with the number that C reads.
ghost use Rattle.std.specs.Prelude.{◌≡◌, MatchResult};
ghost use Rattle.exports.specs.declared.failures.WordsError.TheVariants.{Refused};
ghost use Rattle.exports.specs.Failures.{error_number};

use matter::Refusal;

// The number of words that are no call.
pub(crate) const UNREADABLE: u8 = 100;

#[derive(Clone, Copy, Debug, PartialEq, Eq)]
pub enum WordsError {
    // Words that are no call.
    UnreadableCall,
    // Words that are no lamp.
    UnreadableLamp,
    // An answer that has not 25 words.
    NoRoom,
    // The lamp refuses, with a number of its own.
    Refused(Refusal),
}

impl From<Refusal> for WordsError {
    ghost from_gives = { λ refusal e. e ≡ Refused refusal };

    fn from(refusal: Refusal) -> Self {
        Self::Refused(refusal)
    }
}

impl From<WordsError> for u64 {
    ghost from_gives = { λ e n. n ≡ error_number e };

    fn from(error: WordsError) -> u64 {
        match error {
            WordsError::UnreadableCall => u64::from(UNREADABLE),
            WordsError::UnreadableLamp => 101,
            WordsError::NoRoom => 102,
            WordsError::Refused(refusal) => u8::from(refusal) as u64,
        }
    }
}

// The number that C reads: 0, or that of the failure. No `From`: neither `Result` nor `u64` is this crate's.
pub(crate) fn number_of(left: Result<(), WordsError>) -> u64
    ensures { MatchResult left (λ _. result ≡ 0) (λ e. result ≡ error_number e) }
{
    left.map_or_else(u64::from, |_| 0)
}
