// What a call reports, in the order in which it comes: a list of notice numbers in sixteen places, unused places 0. An array
// with a length beside it: document 01's list is fixed memory.
#![tactic(auto)]

ghost use Rattle.std.specs.Prelude.{◌≡◌, [], take};
ghost use Rattle.notices.specs.Names.{notice_number};
ghost use Rattle.notices.specs.Notices.{only, noted};
ghost use Rattle.notices.specs.Numerals.{empty, consed, in_front, placed};

// What a call reports: document 01's notices, and after them document 02's.
#[derive(Clone, Copy, Debug, PartialEq, Eq)]
pub enum Notice {
    RemainingTime = 1,
    CurrentHue = 2,
    EnhancedCurrentHue = 3,
    CurrentSaturation = 4,
    ColorTemperatureMireds = 5,
    ColorMode = 6,
    EnhancedColorMode = 7,
    ColorLoopActive = 8,
    ColorLoopDirection = 9,
    ColorLoopTime = 10,
    ColorLoopStartEnhancedHue = 11,
    ColorLoopStoredEnhancedHue = 12,
    MarkedDirty = 13,
    ScenesNotified = 14,
    DeviceHueSaturation = 15,
    DeviceMireds = 16,
    TaskGiven = 17,
    // Document 02's: the hue of the task given goes half the circle, and the other way round is as long.
    HueTie = 18,
}

impl From<Notice> for u8 {
    ghost from_gives = { λ notice n. n ≡ notice_number notice };

    fn from(notice: Notice) -> u8 {
        notice as u8
    }
}

#[derive(Clone, Copy, Debug, PartialEq, Eq)]
pub struct Notices {
    pub places: [u8; 16],
    pub len: usize,
}

impl Notices {
    #[tactic(auto, unfolding(crate::specs::Notices::filled))]
    pub fn new() -> Self
        ensures { result ≡ noted [] }
    {
        Notices {
            places: [0; 16],
            len: 0,
        }
    }

    // The numbers of the notices, in their order.
    pub fn used(&self) -> &[u8]
        ensures { result.now ≡ take self.now.len self.now.places }
    {
        &self.places[..self.len.min(16)]
    }
}

// A digit's weight in a word, and that of a word's last digit.
const DIGIT: u64 = 256;

const LAST: u64 = 72057594037927936;

// A list while it is built, from its last notice to its first: a numeral of sixteen digits of a byte, the first notice the
// lowest, in two words, which are copied faster than an array (docs/SPEED.md).
#[derive(Clone, Copy, Debug, PartialEq, Eq)]
pub struct Numeral {
    pub low: u64,
    pub high: u64,
    pub len: usize,
}

impl Numeral {
    pub fn new() -> Self
        ensures { result ≡ empty }
    {
        Numeral {
            low: 0,
            high: 0,
            len: 0,
        }
    }

    // A digit in front: the number of a notice. It takes any byte, as it did before notices had a type.
    #[tactic(auto, unfolding(crate::specs::Numerals::consed))]
    pub fn cons(self, number: u8) -> Self
        ensures { result ≡ consed self number }
    {
        Numeral {
            low: self.low % LAST * DIGIT + u64::from(number),
            high: self.high % LAST * DIGIT + self.low / LAST,
            len: self.len.wrapping_add(1),
        }
    }

    // A digit in front where the test holds; it takes any byte too.
    #[tactic(auto, unfolding(crate::specs::Numerals::in_front))]
    pub fn cons_if(self, test: bool, number: u8) -> Self
        ensures { result ≡ in_front (only test number) self }
    {
        if test { self.cons(number) } else { self }
    }

    // A notice in front of the list.
    pub fn note(self, notice: Notice) -> Self
        ensures { result ≡ consed self (notice_number notice) }
    {
        self.cons(u8::from(notice))
    }

    // A notice in front where the test holds.
    pub fn note_if(self, test: bool, notice: Notice) -> Self
        ensures { result ≡ in_front (only test (notice_number notice)) self }
    {
        self.cons_if(test, u8::from(notice))
    }

    // The list in its places.
    pub fn notices(self) -> Notices
        ensures { result ≡ placed self }
    {
        let mut places = [0; 16];
        places[..8].copy_from_slice(&self.low.to_le_bytes());
        places[8..].copy_from_slice(&self.high.to_le_bytes());
        Notices {
            places,
            len: self.len,
        }
    }
}
