// An answer in 25 words: its number, the sixteen notices, the task it gives and the wait.
ghost use Rattle.std.specs.Prelude.{◌≡◌};
ghost use Rattle.exports.specs.Answers as S;
ghost use Rattle.exports.specs.Answers.{answer_words};

use crate::moves::TaskNumbers;
use lamp::Answer;
use matter::number_of;

pub const ANSWER_WORDS: usize = 25;

// The notice in a place, 0 past the last one. `words::at` does so with words; notices are bytes.
pub fn place(p: [u8; 16], i: usize) -> u64
    ensures { result ≡ S.place p i }
{
    p.get(i).copied().map_or(0, u64::from)
}

// Place by place, so that the layout which C reads is seen.
pub fn answer_words(answer: Answer) -> [u64; 25]
    ensures { result ≡ answer_words answer }
{
    let p = answer.notices.places;
    let task = TaskNumbers::from(answer.task);
    [
        number_of(answer.verdict) as u64,
        place(p, 0),
        place(p, 1),
        place(p, 2),
        place(p, 3),
        place(p, 4),
        place(p, 5),
        place(p, 6),
        place(p, 7),
        place(p, 8),
        place(p, 9),
        place(p, 10),
        place(p, 11),
        place(p, 12),
        place(p, 13),
        place(p, 14),
        place(p, 15),
        task.kind,
        task.a,
        task.b,
        task.c,
        task.d,
        task.e,
        task.f,
        answer.wait,
    ]
}
