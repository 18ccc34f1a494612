// Replays calls on a lamp, and on a row of lamps: each line of standard input is a call, and its answer a line of standard output.
#![tactic(auto)]

mod kept;
mod state;

use kept::Kept;
use std::io::{Read, Write};
use text::buffer;
use text::buffer::Buffer;

// A block of the input, and the room for answers.
const BLOCK: usize = 65536;

// The room for a line: one byte more than the longest line that can be read.
const LINE: usize = 4096;

// Past this place the answers are written out before the next, so that the longest answer has room.
const NEARLY_FULL: usize = 61440;

// What is kept from one block of input to the next: the lamp, the row and the task; the line that is coming, and how much
// of it has come; the answers that are not yet written, and the place after them. Arrays with their lengths, since there
// is no heap.
#[derive(Drop)]
struct Replay<W> {
    kept: Kept,
    line: [u8; LINE],
    len: usize,
    out: [u8; BLOCK],
    at: usize,
    to: W,
}

impl<W: Write> Replay<W> {
    fn new(to: W) -> Replay<W> {
        Replay {
            kept: Kept::new(),
            line: [0; LINE],
            len: 0,
            out: [0; BLOCK],
            at: 0,
            to,
        }
    }

    // The answers are written out. Those that cannot be written are lost, and the calls behind them are answered all the
    // same.
    fn flush(&mut self) {
        let n = self.at.min(BLOCK);
        let _ = self.to.write_all(&self.out[..n]);
        self.at = 0;
    }

    // Answers the line that has come.
    fn end_line(&mut self) {
        if NEARLY_FULL < self.at {
            self.flush();
        }
        let n = self.len.min(LINE);
        let mut out = Buffer {
            out: &mut self.out,
            at: self.at,
        };
        self.kept.answer(&self.line[..n], &mut out);
        self.at = out.at;
        self.len = 0;
    }

    // A part of the line that is coming. What does not fit the line's room is left out.
    fn take_part(&mut self, part: &[u8]) {
        self.len = buffer::write(&mut self.line, self.len, part);
    }

    // Answers the lines that end in a block.
    fn take_block(&mut self, block: &[u8]) {
        let mut parts = block.split(|b| *b == b'\n');
        if let Some(part) = parts.next() {
            self.take_part(part);
        }
        for part in parts {
            self.end_line();
            self.take_part(part);
        }
        self.flush();
    }
}

// Each block's answers are written out before more is waited for. At the end of the input, or where it cannot be read, the
// line that has come, where there is one, is answered. Nothing says that the input ends, so the blocks are counted, to a
// number that no run reaches.
fn answer_all(from: &mut impl Read, to: &mut impl Write) {
    let mut block = [0u8; BLOCK];
    let mut replay = Replay::new(to);
    for _ in 0..u64::MAX {
        let n = from.read(&mut block).unwrap_or(0);
        if n == 0 {
            break;
        }
        replay.take_block(&block[..n]);
    }
    replay.end_line();
    replay.flush();
}

fn main(rt: HostRuntime) {
    answer_all(&mut rt.stdin(), &mut rt.stdout());
}
