// Calls that are run one after another, with a checksum over every number of every answer: what `bench/` measures.
#![tactic(auto)]

mod readings;
mod sums;

ghost use Rattle.std.specs.Prelude.{◌≡◌};
ghost use Rattle.measure.specs.Readings.{masks_checksum, records_checksum};
ghost use Rattle.exports.specs.Calls as C;
ghost use Rattle.measure.specs.Runs.{after, ran_all, checksum};

use exports::{CALL_WORDS, called, lamp_of};
use lamp::Lamp;
use sums::Sums;

// A lamp and the sums so far.
#[derive(Clone, Copy)]
pub struct Ran {
    pub lamp: Lamp,
    pub sums: Sums,
}

impl Ran {
    // One call more.
    fn after(self, call: &[u64]) -> Ran
        ensures { result ≡ after self (C.called self.lamp call.now) }
    {
        match called(self.lamp, call) {
            Some(answer) => Ran {
                lamp: answer.lamp,
                sums: self.sums.add_answer(answer),
            },
            None => Ran {
                sums: self.sums.add_unread(self.lamp),
                ..self
            },
        }
    }
}

#[tactic(auto, unfolding(crate::specs::Runs::ran))]
fn run(lamp: Lamp, calls: &[u64]) -> Ran
    ensures { result ≡ ran_all lamp calls.now }
{
    let mut ran = Ran {
        lamp,
        sums: Sums::default(),
    };
    for call in calls.chunks_exact(CALL_WORDS) {
        ran = ran.after(call);
    }
    ran
}

// Runs the calls, ten words each, one after another on the lamp (28 words), and gives the checksum. The words are read
// without a check which numbers the enums have; words that a lamp lacks are 0.
#[unsafe(no_mangle)]
pub extern "C" fn yemkruos_run(words: &[u64], calls: &[u64]) -> u64
    ensures { result ≡ checksum words.now calls.now }
{
    run(lamp_of(words), calls).sums.b
}

// Reads count and lowest place of 32 lamps from each of the masks, and gives the checksum.
#[unsafe(no_mangle)]
pub extern "C" fn yemkruos_read_masks(masks: &[u64]) -> u64
    ensures { result ≡ masks_checksum masks.now }
{
    readings::masks(masks).b
}

// Reads them from the records of 32 lamps, after each of the turns (a place starts the lamp there, a place and 32 halts it), and
// gives the checksum. Each lamp is that of the words (28 words), or idle.
#[unsafe(no_mangle)]
pub extern "C" fn yemkruos_read_records(words: &[u64], turns: &[u64]) -> u64
    ensures { result ≡ records_checksum words.now turns.now }
{
    readings::records(lamp_of(words), turns).b
}
