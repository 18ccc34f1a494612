// Rows of lamps: up to 32 of them, each at its place. One call steps every lamp that runs; a single call goes to one place.
// A word beside them tells which run. Document 02, A.1 and A.3.
#![tactic(auto)]

ghost use Rattle.std.specs.Prelude.{◌≡◌, ◌++◌, ◌*◌, ◌+◌, ◌≤◌, ◌<◌, Err, min, ltb, length, take, drop, set, get_or};
ghost use Rattle.rows.specs.Rows.{placed, visited, lesser, map_to, least_wait, bytes_of, mask_of, mask_true, row_of, with_lamps, row_stepped, row_bytes, row_refusal, place_cause, answered_at, place_refusal, with_bit, stored, put_at, count_of, lowest_of};
ghost use Rattle.rows.specs.Inner.{visits_cause, graver, limit_cause, slice_cause};
ghost use Rattle.lamp.specs.Answers.{first_cause};

use commands::call;
use lamp::{Answer, Call, Lamp};
use matter::{CLOCK_LIMIT, Refusal, number_of};
use notices::Notices;
use tasks::Task;

// The most lamps of a row.
pub const MOST: u8 = 32;

// The first `count` lamps are the row; those behind them are no part of it. An array with a count beside it, since a row's
// memory is fixed and no heap is used. Bit k of the running mask is set exactly where
// lamp k of the row runs; a row whose mask says otherwise is invalid.
#[derive(Clone, Copy, Debug, PartialEq, Eq)]
pub struct Row {
    pub count: u8,
    pub running_mask: u32,
    pub lamps: [Lamp; 32],
}

// What a row call gives: that it is accepted or why it is refused, the row after it, and the least wait of the lamps that
// run on.
#[derive(Clone, Copy, Debug, PartialEq, Eq)]
pub struct RowStepped {
    pub verdict: Result<(), Refusal>,
    pub row: Row,
    pub wait: u64,
}

// What a call at a place gives: its lamp's answer, with the row in place of the lamp. No `Answer` for either, whose row would be
// called a lamp.
#[derive(Clone, Copy, Debug, PartialEq, Eq)]
pub struct RowAnswer {
    pub verdict: Result<(), Refusal>,
    pub row: Row,
    pub notices: Notices,
    pub task: Option<Task>,
    pub wait: u64,
}

// How many lamps run, from a row's running mask alone.
pub fn running_count(mask: u32) -> u32
    ensures { result ≡ count_of mask }
{
    mask.count_ones()
}

// The lowest place at which a lamp runs, from a row's running mask alone.
pub fn lowest_running(mask: u32) -> Option<u8>
    ensures { result ≡ lowest_of mask }
{
    if mask == 0 {
        return None;
    }
    Some(mask.trailing_zeros() as u8)
}

// The mask of these lamps.
fn mask_of(lamps: &[Lamp]) -> u32
    requires { length lamps.now ≤ 32 }
    ensures { result ≡ mask_of lamps.now }
{
    let mut mask: u32 = 0;
    for lamp in lamps.iter().rev() {
        mask = 2 * mask + u32::from(lamp.running.is_running());
    }
    mask
}

// A mask with one bit set or cleared.
fn with_bit(mask: u32, place: u8, is_set: bool) -> u32
    requires { place < 32 }
    ensures { result ≡ with_bit mask place is_set }
{
    let bit = 1u32 << place;
    if is_set { mask | bit } else { mask & !bit }
}

// How many places of the array are a row's.
pub fn placed_count(count: u8) -> usize
    ensures { result ≡ min count 32 }
{
    count.min(MOST) as usize
}

// What a row call does at one place: a lamp that runs is stepped, an idle one stays. The verdict is the lamp's own cause.
#[tactic(auto, unfolding(crate::specs::Rows::visited))]
fn visit(lamp: Lamp, clock: u64) -> Answer
    ensures lamp { result.lamp ≡ (visited lamp clock).lamp }
    ensures notices { result.notices ≡ (visited lamp clock).notices }
    ensures wait { result.wait ≡ (visited lamp clock).wait }
    ensures cause { result.verdict ≡ first_cause lamp clock }
{
    if lamp.running.is_running() {
        return lamp.step(clock);
    }
    lamp.unchanged(lamp.first_cause(clock))
}

// The lesser of two waits, where 0 is none (document 01, "wait 0"), so that the numbers' own order is not this one.
#[tactic(auto, unfolding(crate::specs::Rows::lesser))]
fn least(a: u64, b: u64) -> u64
    ensures { result ≡ lesser a b }
{
    if a == 0 {
        return b;
    }
    if b == 0 {
        return a;
    }
    a.min(b)
}

// Of two causes the one that is checked first: 8 before 4, and either before none. By their numbers, since the order of the cases
// says nothing of it.
#[tactic(auto, unfolding(crate::specs::Inner::graver))]
fn first_of(a: Result<(), Refusal>, b: Result<(), Refusal>) -> Result<(), Refusal>
    ensures { result ≡ graver a b }
{
    if number_of(a) < number_of(b) { b } else { a }
}

// A clock above the limit, which a row of no lamps refuses too.
fn limit_cause(clock: u64) -> Result<(), Refusal>
    ensures { result ≡ limit_cause clock }
{
    if CLOCK_LIMIT < clock {
        return Err(Refusal::Clock);
    }
    Ok(())
}

// The bytes of one slice at a place of another. By `copy_from_slice`, whose clause is said here once in terms of places.
fn copy(from: &[u8], out: &mut [u8], at: usize)
    requires { at + length from.now ≤ length out.old }
    ensures front { take (at + length from.now) out.new ≡ take at out.old ++ from.now }
    ensures back { drop (at + length from.now) out.new ≡ drop (at + length from.now) out.old }
{
    out[at..at + from.len()].copy_from_slice(from);
}

// Sixteen bytes at a place of a slice.
fn put(bytes: [u8; 16], out: &mut [u8], at: usize)
    requires { at + 16 ≤ length out.old }
    ensures front { take (at + 16) out.new ≡ take at out.old ++ bytes }
    ensures back { drop (at + 16) out.new ≡ drop (at + 16) out.old }
{
    copy(&bytes, out, at)
}

impl Row {
    // A row of so many of these lamps.
    pub fn new(count: u8, lamps: [Lamp; 32]) -> Row
        ensures { result ≡ row_of count lamps }
    {
        let running_mask = mask_of(&lamps[..placed_count(count)]);
        Row {
            count,
            running_mask,
            lamps,
        }
    }

    // The row with another lamp at a place; as it was where it has no such place.
    #[tactic(auto, unfolding(crate::specs::Rows::put_at))]
    pub fn with_lamp(self, place: u8, lamp: Lamp) -> Row
        ensures { result ≡ put_at self place lamp }
    {
        if (self.count <= place) | (MOST <= place) {
            return self;
        }
        self.with_lamp_at(place, lamp)
    }

    fn with_lamp_at(self, place: u8, lamp: Lamp) -> Row
        requires { place < 32 }
        ensures { result ≡ stored self place lamp }
    {
        let at = place as usize;
        let mut row = self;
        row.lamps[at] = lamp;
        row.running_mask = with_bit(self.running_mask, place, lamp.running.is_running());
        row
    }

    // Whether the mask is that of the lamps.
    fn is_mask_true(self) -> bool
        ensures { result ≡ mask_true self }
    {
        self.running_mask == mask_of(&self.lamps[..placed_count(self.count)])
    }

    fn refused(self, cause: Refusal) -> RowStepped
        ensures { result ≡ row_refusal self (Err cause) }
    {
        RowStepped {
            verdict: Err(cause),
            row: self,
            wait: 0,
        }
    }

    fn refused_at(self, cause: Refusal) -> RowAnswer
        ensures { result ≡ place_refusal self (Err cause) }
    {
        RowAnswer {
            verdict: Err(cause),
            row: self,
            notices: Notices::new(),
            task: None,
            wait: 0,
        }
    }

    // What every call checks first: whether the count is above the most.
    fn too_many(self) -> bool
        ensures { result ≡ ltb 32 self.count }
    {
        MOST < self.count
    }

    // What is checked before the lamps' own causes: the count, the slice, and the mask.
    #[tactic(auto, unfolding(crate::specs::Inner::slice_cause))]
    fn slice_cause(self, size: usize) -> Result<(), Refusal>
        ensures { result ≡ slice_cause self size }
    {
        if self.too_many() {
            return Err(Refusal::InvalidLamp);
        }
        if size < 16 * (self.count as usize) {
            return Err(Refusal::ShortSlice);
        }
        if !self.is_mask_true() {
            return Err(Refusal::InvalidLamp);
        }
        Ok(())
    }

    // Every lamp of the row is visited, in rising place: the row then, the least wait, and the first of their causes. What
    // they report goes into `bytes`. By place: over an iterator of the lamps the row is copied once more, 22 to 27 ns of a row call
    // (docs/SPEED.md).
    #[tactic(auto, unfolding(crate::specs::Rows::lesser), using(crate::proofs::Causes::none_graver))]
    fn visit_all(self, bytes: &mut [u8], clock: u64) -> RowStepped
        requires few { self.count ≤ 32 }
        requires room { 16 * self.count ≤ length bytes.old }
        ensures row { result.row ≡ with_lamps self (map_to self.count (λ l. (visited l clock).lamp) self.lamps) }
        ensures wait { result.wait ≡ least_wait clock (placed self) }
        ensures cause { result.verdict ≡ visits_cause clock (placed self) }
        ensures reported { take (16 * self.count) bytes.new ≡ bytes_of clock (placed self) }
    {
        let mut lamps = self.lamps;
        let mut wait: u64 = 0;
        let mut verdict: Result<(), Refusal> = Ok(());
        let n = self.count as usize;
        for place in 0..n {
            let a = visit(self.lamps[place], clock);
            lamps[place] = a.lamp;
            put(a.notices.places, bytes, 16 * place);
            wait = least(wait, a.wait);
            verdict = first_of(verdict, a.verdict);
        }
        RowStepped {
            verdict,
            row: Row::new(self.count, lamps),
            wait,
        }
    }

    // One call at one clock: every lamp that runs is stepped, in rising place, and reports into its sixteen bytes.
    #[tactic(auto, unfolding(crate::specs::Rows::row_stepped, crate::specs::Rows::row_bytes), using(crate::proofs::Causes::slice_fits))]
    pub fn step(self, out: &mut [u8], clock: u64) -> RowStepped
        ensures answer { result ≡ row_stepped self (length out.old) clock }
        ensures slice { out.new ≡ row_bytes self out.old clock }
    {
        if let Err(cause) = self.slice_cause(out.len()) {
            return self.refused(cause);
        }
        let mut bytes: [u8; 512] = [0; 512];
        let next = self.visit_all(&mut bytes, clock);
        if let Err(cause) = first_of(limit_cause(clock), next.verdict) {
            return self.refused(cause);
        }
        copy(&bytes[..16 * (self.count as usize)], out, 0);
        next
    }

    // What is checked before the lamp: the count, the place, and the mask.
    #[tactic(auto, unfolding(crate::specs::Rows::place_cause))]
    fn place_cause(self, place: u8) -> Result<(), Refusal>
        ensures { result ≡ place_cause self place }
    {
        if self.too_many() {
            return Err(Refusal::InvalidLamp);
        }
        if self.count <= place {
            return Err(Refusal::NoPlace);
        }
        if !self.is_mask_true() {
            return Err(Refusal::InvalidLamp);
        }
        Ok(())
    }

    // Any call of the lamp at a place.
    #[tactic(auto, unfolding(crate::specs::Rows::answered_at))]
    pub fn call_at(self, place: u8, asked: Call) -> RowAnswer
        ensures { result ≡ answered_at self place asked }
    {
        if let Err(cause) = self.place_cause(place) {
            return self.refused_at(cause);
        }
        let lamp = self.lamps[place as usize];
        let a = call(lamp, asked);
        RowAnswer {
            verdict: a.verdict,
            row: self.with_lamp_at(place, a.lamp),
            notices: a.notices,
            task: a.task,
            wait: a.wait,
        }
    }
}
