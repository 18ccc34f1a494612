// What `fade` writes for a table of inputs, good, refused and bad: the name of each, and then the first lines.
#![tactic(auto)]

use fade_line::reader::{Reader, Wanted, asked_by};
use fade_run::Fade;
use std::io::Write;

// Room for a line or a few: the rest of a long fade is left out.
const ROOM: usize = 600;

// What cannot be written is left out.
fn put(to: &mut impl Write, bytes: &[u8]) {
    let _ = to.write_all(bytes);
}

// The run that an input asks for, as far as the room goes.
fn show_in(to: &mut impl Write, space: &mut [u8], name: &[u8], asked: Option<Wanted>) {
    let n = Fade::new(asked).write(space);
    put(to, b"== ");
    put(to, name);
    put(to, b"\n");
    put(to, &space[..n]);
}

fn show_asked(to: &mut impl Write, name: &[u8], asked: Option<Wanted>) {
    let mut space = [0u8; ROOM];
    show_in(to, &mut space, name, asked);
}

fn show(to: &mut impl Write, name: &[u8], input: &[u8]) {
    show_asked(to, name, asked_by(input));
}

// An input that comes in two parts.
fn show_parts(to: &mut impl Write, name: &[u8], first: &[u8], second: &[u8]) {
    show_asked(to, name, Reader::new().read(first).read(second).asked());
}

// An input with 6,400 zeros before it.
fn show_zeros(to: &mut impl Write, name: &[u8], input: &[u8]) {
    let zeros = (0..100).fold(Reader::new(), |reader, _| reader.read(&[b'0'; 64]));
    show_asked(to, name, zeros.read(input).asked());
}

// The table, as statements: each call is an example with its name, and some come in parts.
fn good(to: &mut impl Write) {
    show(to, b"the lines of document 01", b"128 0 2 5000\n");
    show(to, b"hue 254", b"254 0 1 0\n");
    show(to, b"longest", b"1 1 1 0\n");
    show(to, b"up", b"128 2 1 0\n");
    show(to, b"direction 3", b"128 3 1 7\n");
    show(to, b"tenths 0", b"128 0 0 5\n");
    show(to, b"tenths 1", b"128 0 1 5\n");
    show(to, b"tenths 65535", b"200 0 65535 5000\n");
    show(to, b"no newline", b"128 0 1 5");
    show(to, b"a second line", b"128 0 1 5\n1 2 3 4\n");
    show(
        to,
        b"zeros in front",
        b"00128 000 0001 0000000000000000000000005\n",
    );
    show_zeros(to, b"thousands of zeros", b"128 0 1 5\n");
    show_parts(to, b"in two parts", b"12", b"8 0 1 5\n");
    show_parts(to, b"in two parts, after the newline", b"128 0 1 5\n", b"x");
}

fn refused(to: &mut impl Write) {
    show(to, b"hue 255", b"255 0 1 5\n");
    show(to, b"clock at the limit", b"128 0 1 1099511627776\n");
    show(to, b"one past the limit", b"128 0 1 1099511627777\n");
    show(to, b"clock 2^64 - 1", b"128 0 1 18446744073709551615\n");
}

fn bad_numbers(to: &mut impl Write) {
    show(to, b"hue 256", b"256 0 1 5\n");
    show(to, b"direction 4", b"128 4 1 5\n");
    show(to, b"tenths 65536", b"128 0 65536 5\n");
    show(to, b"clock 2^64", b"128 0 1 18446744073709551616\n");
    show(to, b"hue 2^64", b"18446744073709551616 0 1 5\n");
    show(to, b"three numbers", b"128 0 1\n");
    show(to, b"five numbers", b"128 0 1 5 6\n");
    show(to, b"minus", b"128 0 1 -5\n");
    show(to, b"plus", b"+128 0 1 5\n");
}

fn bad_bytes(to: &mut impl Write) {
    show(to, b"nothing", b"");
    show(to, b"an empty line", b"\n");
    show(to, b"an empty line first", b"\n128 0 1 5\n");
    show(to, b"carriage return", b"128 0 1 5\r\n");
    show(to, b"tab", b"128\t0 1 5\n");
    show(to, b"double blank", b"128  0 1 5\n");
    show(to, b"blank first", b" 128 0 1 5\n");
    show(to, b"blank last", b"128 0 1 5 \n");
    show(to, b"NUL", b"128 0 1 5\0\n");
    show(to, b"0xFF", b"\xff128 0 1 5\n");
    show(to, b"letters", b"128 0 1 five\n");
    show_zeros(to, b"thousands of zeros alone", b"\n");
}

fn main(rt: HostRuntime) {
    let mut to = rt.stdout();
    good(&mut to);
    refused(&mut to);
    bad_numbers(&mut to);
    bad_bytes(&mut to);
}
