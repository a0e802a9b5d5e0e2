// Runs of the pairs program, with what must be written in the file stdout. Each line of standard input names a locale, a charmap and an input,
// files of data/; what a run writes stands behind its line.
#![tactic(auto)]

ghost use Rattle.std.specs.Prelude.{◌≤◌, ◌<◌, length, IfOk};

use base_reading::read_full;
use cases_words::mark;
use pairs_run::path_of;
use std::rt::Files;
use std::{fs, io};

// One run.
fn run(rt: &(impl Print + Files), locale: &[u8], charmap: &[u8], input: &[u8]) -> io::Result<()> {
    let mut file = fs::open(rt, path_of(input)?)?;
    pairs_run::run(rt, locale, charmap, &mut file)
}

// One line of standard input; the place of the next one, or the end.
fn case(rt: &(impl Print + Files), b: &[u8], at: usize) -> io::Result<usize>
    requires { at < length b.now }
    ensures { IfOk result (λ next. (at < next) × (next ≤ length b.now)) }
{
    let locale = mark(b, at, b' ');
    if locale < b.len() {
        let charmap = mark(b, locale + 1, b' ');
        if charmap < b.len() {
            let end = mark(b, charmap + 1, b'\n');
            if end < b.len() {
                rt.write_all(&b[at..end + 1])?;
                run(
                    rt,
                    &b[at..locale],
                    &b[locale + 1..charmap],
                    &b[charmap + 1..end],
                )?;
                return Ok(end + 1);
            }
        }
    }
    Ok(b.len())
}

// All lines of standard input.
fn each(rt: &(impl Print + Files), b: &[u8]) -> io::Result<()> {
    let mut at = 0;
    while at < b.len() {
        at = case(rt, b, at)?;
    }
    Ok(())
}

fn main(rt: HostRuntime) -> io::Result<()> {
    let mut b = [0u8; 4096];
    let n = read_full(&mut rt.reader(), &mut b);
    if n <= 4096 {
        each(&rt, &b[..n])?;
    }
    Ok(())
}
