// What the run cases of the directory write: a line for each, its name and the answer. Lists are filled with EEEE before each call.
#![tactic(auto)]

use base_units::Refusal;
use cases_words::{kept, refusal};
use std::io;

fn numbers(rt: &impl Print, s: &[u32]) -> io::Result<()> {
    for h in s {
        print!(rt; " {h}")?;
    }
    Ok(())
}

// The headings of the topics; of many the first three and the last three.
fn told(rt: &impl Print, s: &[u32]) -> io::Result<()> {
    if s.len() <= 40 {
        numbers(rt, s)
    } else {
        numbers(rt, &s[..3])?;
        print!(rt; " ..")?;
        numbers(rt, &s[s.len() - 3..])
    }
}

// A page of n topics, and whether the rest of the list is as it was.
fn done(rt: &impl Print, n: usize, list: &[u32]) -> io::Result<()> {
    if n <= list.len() {
        told(rt, &list[..n])?;
        print!(rt; ", rest")?;
        kept(rt, &list[n..])?;
        println!(rt;)?;
    }
    Ok(())
}

// A refusal, and whether the list is as it was.
fn stopped(rt: &impl Print, r: Refusal, list: &[u32]) -> io::Result<()> {
    refusal(rt, r)?;
    print!(rt; ", list")?;
    kept(rt, list)?;
    println!(rt;)
}

// A page, its headings written into a list.
pub fn directed(
    rt: &impl Print,
    name: &[u8],
    t: &[u32],
    run: &[u32],
    headings: &[u64],
    topics: &[u64],
    list: &mut [u32],
) -> io::Result<()> {
    rt.write_all(name)?;
    match order_directory::directory(t, run, headings, topics, list) {
        Ok(()) => done(rt, topics.len() / 2, list),
        Err(r) => stopped(rt, r, list),
    }
}

// The same, with a list of n numbers, at most 1,024.
pub fn directed_in(
    rt: &impl Print,
    name: &[u8],
    t: &[u32],
    run: &[u32],
    headings: &[u64],
    topics: &[u64],
    n: usize,
) -> io::Result<()> {
    let mut list = [0xEEEEu32; 1024];
    if n <= 1024 {
        directed(rt, name, t, run, headings, topics, &mut list[..n])?;
    }
    Ok(())
}
