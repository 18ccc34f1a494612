// Reading the line of `fade`: four numbers, parted by single blanks. The line may be of any length and may come in parts,
// so it is read a byte at a time, and what has been read is kept in a few numbers.
ghost use Rattle.std.specs.Prelude.{◌≡◌, unwrap_or};
ghost use Rattle.text.specs.Digits.{grown};
ghost use Rattle.fade_line.specs.Line.{largest, wanted, asked_by};
ghost use Rattle.fade_line.specs.Reading.{fresh, unless_spoilt, next_word, settled, open_byte, read_byte, read_all, asked_of, line_read};

use matter::DirectionEnum;
use text::digits::with_digit;

// The fade that a line asks for.
#[derive(Clone, Copy)]
pub struct Wanted {
    pub hue: u8,
    pub direction: DirectionEnum,
    pub tenths: u16,
    pub clock: u64,
}

// The numbers of the words read: how many blanks, the three words before the last, and the last, where it has a digit.
#[derive(Clone, Copy)]
pub struct Numbers {
    pub blanks: u8,
    pub first: u64,
    pub second: u64,
    pub third: u64,
    pub last: Option<u64>,
}

// What has been read: a line that may go on, or whose newline has come, or that has not the form.
#[derive(Clone, Copy)]
pub enum Reader {
    Open(Numbers),
    Over(Numbers),
    Bad,
}

// The fade of four numbers, where each is within its field.
#[tactic(auto, unfolding(crate::specs::Line::wanted))]
fn wanted_of(hue: u64, direction: u64, tenths: u64, clock: u64) -> Option<Wanted>
    ensures { result ≡ wanted hue direction tenths clock }
{
    let direction = u8::try_from(direction).ok()?;
    Some(Wanted {
        hue: u8::try_from(hue).ok()?,
        direction: DirectionEnum::try_from(direction).ok()?,
        tenths: u16::try_from(tenths).ok()?,
        clock,
    })
}

impl Numbers {
    const NONE: Numbers = Numbers {
        blanks: 0,
        first: 0,
        second: 0,
        third: 0,
        last: None,
    };

    // A blank ends a word that has a digit, and there are four words at most.
    #[tactic(auto, unfolding(crate::specs::Reading::next_word))]
    fn next_word(self) -> Option<Numbers>
        ensures { result ≡ next_word self }
    {
        let last = self.last?;
        if 3 <= self.blanks {
            return None;
        }
        Some(Numbers {
            blanks: self.blanks + 1,
            first: self.second,
            second: self.third,
            third: last,
            last: None,
        })
    }

    // The last number with one digit more. Any other byte, and a number past 64 bits, has no place. A first digit is told
    // apart, so that the next waits for no choice (docs/SPEED.md).
    fn next_digit(&self, byte: u8) -> Option<u64>
        ensures { result ≡ grown (unwrap_or self.now.last 0) byte largest }
    {
        match self.last {
            Some(last) => with_digit(last, byte, u64::MAX),
            None => with_digit(0, byte, u64::MAX),
        }
    }

    // The fade of four whole words.
    #[tactic(auto, unfolding(crate::specs::Reading::asked_of))]
    fn asked(self) -> Option<Wanted>
        ensures { result ≡ asked_of self }
    {
        if self.blanks != 3 {
            return None;
        }
        wanted_of(self.first, self.second, self.third, self.last?)
    }
}

impl Reader {
    // Nothing has been read.
    pub fn new() -> Reader
        ensures { result ≡ fresh }
    {
        Reader::Open(Numbers::NONE)
    }

    // A byte that has no place spoils the line.
    fn unless_spoilt(numbers: Option<Numbers>) -> Reader
        ensures { result ≡ unless_spoilt numbers }
    {
        match numbers {
            Some(numbers) => Reader::Open(numbers),
            None => Reader::Bad,
        }
    }

    // One byte more. Nothing after the newline counts. A digit more; any other byte, and a number past 64 bits, has no place.
    // In place, so that a digit moves nothing but the last number (docs/SPEED.md).
    #[tactic(auto, unfolding(crate::specs::Reading::read_byte, crate::specs::Reading::next_digit, crate::specs::Reading::next_word))]
    fn read_byte(&mut self, byte: u8)
        ensures { self.new ≡ read_byte self.old byte }
    {
        if let Reader::Open(numbers) = self {
            match byte {
                b'\n' => *self = Reader::Over(*numbers),
                b' ' => *self = Reader::unless_spoilt(numbers.next_word()),
                _ => match numbers.next_digit(byte) {
                    Some(last) => numbers.last = Some(last),
                    None => *self = Reader::Bad,
                },
            }
        }
    }

    // The next part of the input.
    #[tactic(auto, unfolding(crate::specs::Reading::read_all))]
    pub fn read(self, part: &[u8]) -> Reader
        ensures { result ≡ read_all self part.now }
    {
        let mut reader = self;
        for byte in part {
            reader.read_byte(*byte);
        }
        reader
    }

    // Whether the line is settled: its newline has come, or something spoils it. No further byte changes what it asks for.
    pub fn is_settled(self) -> bool
        ensures { result ≡ settled self }
    {
        !matches!(self, Reader::Open(_))
    }

    // What the line asks for, once the input has come to its end. None: it has not the form.
    pub fn asked(self) -> Option<Wanted>
        ensures { result ≡ line_read self }
    {
        match self {
            Reader::Open(numbers) | Reader::Over(numbers) => numbers.asked(),
            Reader::Bad => None,
        }
    }
}

// What a whole input asks for.
#[tactic(auto, using(crate::proofs::LineLaws::reads))]
pub fn asked_by(input: &[u8]) -> Option<Wanted>
    ensures { result ≡ asked_by input.now }
{
    Reader::new().read(input).asked()
}
