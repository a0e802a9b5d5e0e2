// What the programs of cases share: words of their lines, marks of their input, and sources of many order lines.
#![tactic(auto)]

ghost use Rattle.std.specs.Prelude.{◌≡◌, ◌≤◌, ◌<◌, ◌+◌, ◌*◌, length};
ghost use Rattle.std.proofs.lemmas.List.Edits.{sets};
ghost use Rattle.cases_words.specs.Lines.{digit_byte, line_of, order_lines};

use base_units::Refusal;
use std::io;

// A blank and a number.
pub fn number(rt: &impl Print, n: usize) -> io::Result<()> {
    print!(rt; " {n}")
}

pub fn refusal(rt: &impl Print, r: Refusal) -> io::Result<()> {
    print!(rt; " refused {}", base_units::number_of(r))
}

pub fn bytes(rt: &impl Print, b: &[u8]) -> io::Result<()> {
    for x in b {
        print!(rt; " {x:02x}")?;
    }
    Ok(())
}

// How many numbers are not x.
pub fn others(s: &[u32], x: u32) -> usize {
    s.iter().filter(|y| **y != x).count()
}

// Whether each number is x.
pub fn all_are(s: &[u32], x: u32) -> bool {
    s.iter().all(|y| *y == x)
}

// Whether numbers that must stay are as they were, EEEE.
pub fn kept(rt: &impl Print, s: &[u32]) -> io::Result<()> {
    let word = if all_are(s, 0xEEEE) {
        "unchanged"
    } else {
        "touched"
    };
    print!(rt; " {word}")
}

// Whether each byte of a room is as it was, EE.
pub fn untouched(room: &[u8]) -> bool {
    room.iter().all(|b| *b == 0xEE)
}

// The place of the next byte of this value, or the end.
pub fn mark(b: &[u8], from: usize, value: u8) -> usize
    requires { from ≤ length b.now }
    ensures { (from ≤ result) × (result ≤ length b.now) }
{
    for i in from..b.len() {
        if b[i] == value {
            return i;
        }
    }
    b.len()
}

// A text put over the bytes from a place on.
pub fn put(src: &mut [u8], at: usize, text: &[u8])
    requires { at + length text.now ≤ length src.old }
    ensures { src.new ≡ sets src.old at text.now }
{
    src[at..at + text.len()].copy_from_slice(text);
}

// A hex digit.
fn digit(n: u32) -> u8
    requires { n < 16 }
    ensures { result ≡ digit_byte n }
{
    let n = n as u8;
    if n < 10 { b'0' + n } else { b'A' - 10 + n }
}

// The order line of the character 10000 hex and n more, 12 bytes with its LF; of n the last four hex digits count.
fn put_line(src: &mut [u8], at: usize, n: u32)
    requires { at + 12 ≤ length src.old }
    ensures { src.new ≡ sets src.old at (line_of n) }
{
    let mut line = *b"<U00010000>\n";
    line[6] = digit(n / 4096 % 16);
    line[7] = digit(n / 256 % 16);
    line[8] = digit(n / 16 % 16);
    line[9] = digit(n % 16);
    put(src, at, &line);
}

// The order lines of 0 to n - 1, from a place on.
pub fn put_lines(src: &mut [u8], from: usize, n: u32)
    requires { from + 12 * n ≤ length src.old }
    ensures { src.new ≡ sets src.old from (order_lines n) }
{
    for i in 0..n {
        put_line(src, from + 12 * i as usize, i);
    }
}
