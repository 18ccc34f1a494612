// How many of 32 lamps run and the lowest place, asked again and again: by a look at each of the 32 records, and by the
// running mask alone.
ghost use Rattle.std.specs.Prelude.{◌≡◌, ◌≤◌, length};
ghost use Rattle.measure.specs.Readings.{numbered, of_mask, of_lamps, turned, masks_read, records_read};

use crate::sums::Sums;
use lamp::Lamp;
use rows::{lowest_running, running_count};
use tasks::Running;

// Count and lowest place in one number; 32 stands for no place.
#[tactic(auto, unfolding(crate::specs::Readings::numbered))]
fn numbered(count: u32, lowest: Option<u8>) -> u64
    ensures { result ≡ numbered count lowest }
{
    count as u64 + 64 * lowest.map_or(32, u64::from)
}

// By the mask.
fn of_mask(mask: u32) -> u64
    ensures { result ≡ of_mask mask }
{
    numbered(running_count(mask), lowest_running(mask))
}

// By the lamps. In one walk, since `bench/` measures it beside the two walks, and from the last, so that no lamp's place
// waits for another's.
fn of_lamps(lamps: &[Lamp]) -> u64
    requires { length lamps.now ≤ 32 }
    ensures { result ≡ of_lamps lamps.now }
{
    let mut count: u32 = 0;
    let mut lowest = None;
    for place in (0..lamps.len()).rev() {
        if lamps[place].running.is_running() {
            count += 1;
            lowest = Some(place as u8);
        }
    }
    numbered(count, lowest)
}

// The same lamp, as it runs or idle.
fn turned(lamp: Lamp, turn: u64) -> Lamp
    ensures { result ≡ turned lamp turn }
{
    let running = if turn < 32 {
        lamp.running
    } else {
        Running::Idle
    };
    Lamp { running, ..lamp }
}

// The masks, one after another.
#[tactic(auto, unfolding(crate::specs::Readings::masks_read))]
pub(crate) fn masks(masks: &[u64]) -> Sums
    ensures { result ≡ masks_read (record { a = 0; b = 0 }) masks.now }
{
    masks.iter().fold(Sums::default(), |sums, mask| {
        sums.add(of_mask((mask % 4294967296) as u32))
    })
}

// 32 idle lamps, of which one starts or halts at each turn; then all of their records are read.
pub(crate) fn records(lamp: Lamp, turns: &[u64]) -> Sums
    ensures { result ≡ records_read lamp turns.now }
{
    let mut lamps = [turned(lamp, 32); 32];
    let mut sums = Sums::default();
    for turn in turns {
        lamps[(turn % 32) as usize] = turned(lamp, *turn);
        sums = sums.add(of_lamps(&lamps));
    }
    sums
}
