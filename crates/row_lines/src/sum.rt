// The sum of a text, as a sink.
ghost use Rattle.std.specs.Prelude.{◌≡◌};
ghost use Rattle.row_lines.specs.Sums.{with_byte};

use text::writer::Sink;

#[derive(Clone, Copy)]
pub struct Sum {
    pub value: u32,
}

impl Sink for Sum {
    ghost push = { with_byte };

    fn byte(&mut self, b: u8) {
        self.value = self.value.wrapping_mul(31).wrapping_add(b as u32);
    }
}
