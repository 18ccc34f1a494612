// The functions of `exports` under their names in C: a static library has functions that are its own alone. C passes a slice
// as a pointer and then a count.
#![tactic(auto)]

ghost use Rattle.std.specs.Prelude.{◌≡◌};
ghost use Rattle.exports.specs.Exported.{made, answered};

#[unsafe(no_mangle)]
pub extern "C" fn yemkruos_new(
    words: &mut [u64],
    min: u16,
    max: u16,
    features: u32,
    options: u8,
    clock: u64,
) -> u64
    ensures value { result ≡ (made words.old (record { min = min; max = max }) features options clock).number }
    ensures words_after { words.new ≡ (made words.old (record { min = min; max = max }) features options clock).lamp }
{
    exports::yemkruos_new(words, min, max, features, options, clock)
}

#[unsafe(no_mangle)]
pub extern "C" fn yemkruos_call(words: &mut [u64], call: &[u64], answer: &mut [u64]) -> u64
    ensures value { result ≡ (answered words.old call.now answer.old).number }
    ensures words_after { words.new ≡ (answered words.old call.now answer.old).lamp }
    ensures answer_after { answer.new ≡ (answered words.old call.now answer.old).answer }
{
    exports::yemkruos_call(words, call, answer)
}
