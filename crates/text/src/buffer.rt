// A caller's slice as a sink, since there is no heap. What does not fit is left out, so that no place need be in the slice.
// No `fmt::Write`: the bytes need not be UTF-8, and the place behind them is wanted.
ghost use Rattle.std.specs.Prelude.{◌≡◌};
ghost use Rattle.text.specs.Buffers.{with_byte};
ghost use Rattle.text.specs.Written.{Written};

use crate::writer;
use crate::writer::Sink;

// A slice, and the place in it at which the next byte goes.
#[derive(Drop)]
pub struct Buffer<'a> {
    pub out: &'a mut [u8],
    pub at: usize,
}

impl<'a> Sink for Buffer<'a> {
    ghost push = { with_byte };

    #[tactic(auto, unfolding(crate::specs::Buffers::with_byte))]
    fn byte(&mut self, b: u8) {
        if self.at < self.out.len() {
            self.out[self.at] = b;
            self.at += 1;
        }
    }
}

// Writes a text from a place on, and gives the place after what it wrote.
#[tactic(auto, using(crate::proofs::BufferLaws::same_slice, crate::proofs::BufferLaws::written))]
pub fn write(out: &mut [u8], at: usize, text: &[u8]) -> usize
    ensures { Written out.old at text.now out.new result }
{
    let mut buffer = Buffer { out, at };
    writer::text(&mut buffer, text);
    buffer.at
}
