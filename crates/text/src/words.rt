// The words of a line, which single blanks part, read one after the other.
ghost use Rattle.std.specs.Prelude.{◌≡◌, ◌==◌, List, ℕ, ◌<◌, eqb, length, IfSome, option_map};
ghost use Rattle.std.specs.List.{position_from};
ghost use Rattle.text.specs.Words.{first_word, behind_word};
ghost use Rattle.text.specs.Readers.{Reader, Reads, word, by_word, line_of};

use crate::numbers::FromWord;
use std::marker::Model;

// What a line says, by its first word. Where the line says nothing, it is not as asked.
pub trait FromLine: Drop {
    ghost named: { List ℕ → Reader Self };

    // What the words behind this name say.
    fn by_name(name: &[u8], words: &mut Words) -> Option<Self>
        ensures { Reads (named name.now words.old) result words.new };
}

// What is left of a line: it begins at the blank behind the word that was read last.
#[derive(Drop)]
pub struct Words<'a> {
    rest: &'a [u8],
}

impl<'a> Model for Words<'a> {
    ghost Value = { List ℕ };

    ghost view = { λ w. w.rest.now };
}

fn first_blank(line: &[u8]) -> Option<usize>
    ensures value { result ≡ position_from (λ b. eqb b 32) 0 line.now }
    ensures inside { IfSome result (λ i. i < length line.now) }
{
    line.iter().position(|byte| *byte == b' ')
}

impl<'a> Words<'a> {
    pub fn new(line: &'a [u8]) -> Words<'a>
        ensures { result ≡ line.now }
    {
        Words { rest: line }
    }

    // The same words, to look ahead.
    pub fn ahead(&self) -> Words<'a>
        ensures { result ≡ self.now }
    {
        Words { rest: self.rest }
    }

    // The word that a line begins with.
    #[tactic(auto, using(crate::proofs::WordLaws::place_of_blank, crate::proofs::WordLaws::take_word))]
    pub fn first(&mut self) -> &'a [u8]
        ensures word { result.now ≡ first_word self.old }
        ensures left { self.new ≡ behind_word self.old }
    {
        let line = self.rest;
        let (word, rest) = line.split_at(first_blank(line).unwrap_or(line.len()));
        self.rest = rest;
        word
    }

    // The next word, which begins behind a blank.
    #[tactic(auto, unfolding(crate::specs::Readers::word))]
    pub fn word(&mut self) -> Option<&'a [u8]>
        ensures { Reads (word self.old) (option_map (λ w. w.now) result) self.new }
    {
        let (blank, line) = self.rest.split_first()?;
        if *blank != b' ' {
            return None;
        }
        self.rest = line;
        Some(self.first())
    }

    // The next word, as a value.
    pub fn read<T: FromWord>(&mut self) -> Option<T>
        ensures { Reads (by_word T.meaning self.old) result self.new }
    {
        T::from_word(self.word()?)
    }

    // Whether nothing is left.
    pub fn is_over(&self) -> bool
        ensures { result ≡ (length self.now == 0) }
    {
        self.rest.is_empty()
    }
}

// What a line says, where its last word ends it.
#[tactic(auto, unfolding(crate::specs::Readers::line_of))]
pub fn line<L: FromLine>(line: &[u8]) -> Option<L>
    ensures { result ≡ line_of L.named line.now }
{
    let mut words = Words::new(line);
    let name = words.first();
    let read = L::by_name(name, &mut words)?;
    words.is_over().then_some(read)
}
