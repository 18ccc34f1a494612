// A checksum over the numbers of answers: two sums that wrap at 64 bits, the second one of the first's values, so that the
// order counts.
ghost use Rattle.std.specs.Prelude.{◌≡◌};
ghost use Rattle.measure.specs.Sums.{added, added_all, answer_added, unread_added};

use exports::{ANSWER_WORDS, WordsError, answer_words, lamp_words};
use lamp::{Answer, Lamp};

#[derive(Clone, Copy, Default)]
pub struct Sums {
    pub a: u64,
    pub b: u64,
}

impl Sums {
    #[tactic(auto, unfolding(crate::specs::Sums::added))]
    pub(crate) fn add(self, x: u64) -> Sums
        ensures { result ≡ added self x }
    {
        let a = self.a.wrapping_add(x);
        Sums {
            a,
            b: self.b.wrapping_add(a),
        }
    }

    #[tactic(auto, unfolding(crate::specs::Sums::added_all))]
    fn add_all(self, words: &[u64]) -> Sums
        ensures { result ≡ added_all self words.now }
    {
        words.iter().fold(self, |sums, word| sums.add(*word))
    }

    #[tactic(auto, unfolding(crate::specs::Sums::added_all))]
    pub(crate) fn add_answer(self, answer: Answer) -> Sums
        ensures { result ≡ answer_added self answer }
    {
        self.add_all(&lamp_words(answer.lamp))
            .add_all(&answer_words(answer))
    }

    // Of words that are no call: their number, and nothing given.
    pub(crate) fn add_unread(self, lamp: Lamp) -> Sums
        ensures { result ≡ unread_added self lamp }
    {
        let mut words = [0; ANSWER_WORDS];
        words[0] = u64::from(WordsError::UnreadableCall);
        self.add_all(&lamp_words(lamp)).add_all(&words)
    }
}
