// The cases of standard input: a name, `~`, a source, `~` and LF, and so on.
ghost use Rattle.std.specs.Prelude.{◌≤◌, ◌<◌, length, IfOk};

use crate::show::compiled;
use base_reading::read_full;
use cases_words::mark;
use std::io;

// One case; the place of the next one, or the end.
fn case(rt: &impl Print, b: &[u8], at: usize) -> io::Result<usize>
    requires { at < length b.now }
    ensures { IfOk result (λ next. (at < next) × (next ≤ length b.now)) }
{
    let name = mark(b, at, b'~');
    if name < b.len() {
        let end = mark(b, name + 1, b'~');
        compiled(rt, &b[at..name], &b[name + 1..end])?;
        if end + 2 < b.len() {
            return Ok(end + 2);
        }
    }
    Ok(b.len())
}

// All cases of a text.
fn each(rt: &impl Print, b: &[u8]) -> io::Result<()> {
    let mut at = 0;
    while at < b.len() {
        at = case(rt, b, at)?;
    }
    Ok(())
}

// All cases of standard input, read into a buffer.
fn cases_in(rt: &(impl Print + Input), b: &mut [u8]) -> io::Result<()> {
    let n = read_full(&mut rt.reader(), b);
    if n <= b.len() {
        each(rt, &b[..n])?;
    }
    Ok(())
}

// The same, in a buffer of a length that is known.
fn cases_within(rt: &(impl Print + Input), b: &mut [u8; 65536]) -> io::Result<()> {
    cases_in(rt, b)
}

pub fn cases(rt: &(impl Print + Input)) -> io::Result<()> {
    let mut b = [0u8; 65536];
    cases_within(rt, &mut b)
}
