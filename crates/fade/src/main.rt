// Runs a fade: the line on standard input says which, and each line on standard output reports of its start or of a step.
#![tactic(auto)]

ghost use Rattle.std.specs.Prelude.{◌≤◌, length};

use fade_line::reader::Reader;
use fade_run::Fade;
use std::io::{Read, Write};

// A block of the input, or of the output.
const BLOCK: usize = 65536;

// The line, as far as it is needed: what comes after it is settled is not read, and an input that cannot be read is at its
// end. Nothing says that the input ends, so its blocks are counted, to a number that no run reaches.
fn read_line(from: &mut impl Read, block: &mut [u8]) -> Reader {
    let mut reader = Reader::new();
    for _ in 0..u64::MAX {
        if reader.is_settled() {
            break;
        }
        let n = from.read(block).unwrap_or(0);
        if n == 0 {
            break;
        }
        reader = reader.read(&block[..n]);
    }
    reader
}

// Writes the run's text, a block at a time, until it is over or nobody reads it: a `while`, since the run alone knows how
// many blocks it takes.
fn write_run(mut fade: Fade, block: &mut [u8], to: &mut impl Write)
    requires { 512 ≤ length block.old }
{
    while !fade.is_over() {
        let n = fade.write(block);
        if to.write_all(&block[..n]).is_err() {
            break;
        }
    }
}

fn main(rt: HostRuntime) {
    let mut block = [0u8; BLOCK];
    let reader = read_line(&mut rt.stdin(), &mut block);
    write_run(Fade::new(reader.asked()), &mut block, &mut rt.stdout());
}
