// The pages of standard input, in groups: a source, `~` and LF; its pages, each a name, `~`, headings, `~`, topics, `~` and LF; then `~` and LF. Each byte is
// the character of that code. The first source is that of examples/danish.
ghost use Rattle.std.specs.Prelude.{◌≤◌, ◌<◌, ◌+◌, length, IfOk};

use crate::texts::page;
use base_reading::read_full;
use cases_words::mark;
use std::io;

// One page; the place of the next one, or the end.
fn one(rt: &impl Print, b: &[u8], at: usize, t: &[u32]) -> io::Result<usize>
    requires { at < length b.now }
    ensures { IfOk result (λ next. (at < next) × (next ≤ length b.now)) }
{
    let name = mark(b, at, b'~');
    if name < b.len() {
        let middle = mark(b, name + 1, b'~');
        if middle < b.len() {
            let end = mark(b, middle + 1, b'~');
            page(
                rt,
                &b[at..name],
                t,
                &b[name + 1..middle],
                &b[middle + 1..end],
            )?;
            if end + 2 < b.len() {
                return Ok(end + 2);
            }
        }
    }
    Ok(b.len())
}

// The pages of a group, from a place on; the place behind them.
fn pages(rt: &impl Print, b: &[u8], from: usize, t: &[u32]) -> io::Result<usize>
    requires { from ≤ length b.now }
    ensures { IfOk result (λ next. (from ≤ next) × (next ≤ length b.now)) }
{
    let mut at = from;
    while at < b.len() {
        if b[at] == b'~' {
            return Ok(b.len().min(at + 2));
        }
        at = one(rt, b, at, t)?;
    }
    Ok(at)
}

// A group whose source ends at a place; the place behind it.
fn group_to(rt: &impl Print, b: &[u8], at: usize, end: usize) -> io::Result<usize>
    requires { (at ≤ end) × (end + 2 < length b.now) }
    ensures { IfOk result (λ next. (at < next) × (next ≤ length b.now)) }
{
    let mut area = [0u32; 2048];
    let mut work = [0u32; 8256];
    // a table that was refused shows in the line of every page
    let _ = locale_compile::compile(&b[at..end], &mut area, &mut work);
    pages(rt, b, end + 2, &area)
}

// One group; the place of the next one, or the end.
fn group(rt: &impl Print, b: &[u8], at: usize) -> io::Result<usize>
    requires { at < length b.now }
    ensures { IfOk result (λ next. (at < next) × (next ≤ length b.now)) }
{
    let end = mark(b, at, b'~');
    if end + 2 < b.len() {
        return group_to(rt, b, at, end);
    }
    Ok(b.len())
}

// All groups of a text.
fn each(rt: &impl Print, b: &[u8]) -> io::Result<()> {
    let mut at = 0;
    while at < b.len() {
        at = group(rt, b, at)?;
    }
    Ok(())
}

// All groups of standard input, read into a buffer.
fn cases_in(rt: &(impl Print + Input), b: &mut [u8]) -> io::Result<()> {
    let n = read_full(&mut rt.reader(), b);
    if n <= b.len() {
        each(rt, &b[..n])?;
    }
    Ok(())
}

// The same, in a buffer of a length that is known.
fn cases_within(rt: &(impl Print + Input), b: &mut [u8; 16384]) -> io::Result<()> {
    cases_in(rt, b)
}

pub fn cases(rt: &(impl Print + Input)) -> io::Result<()> {
    let mut b = [0u8; 16384];
    cases_within(rt, &mut b)
}
