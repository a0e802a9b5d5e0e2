// Pages as texts, in which each heading and each topic ends with a bar. The run is both texts as they stand, so that the bars lie in no string.
ghost use Rattle.std.specs.Prelude.{◌≤◌, ◌+◌, ◌*◌, length};

use cases_telling::directed_in;
use std::io;

// The bytes of a text, put over the run from a place on.
fn put(run: &mut [u32], at: usize, text: &[u8])
    requires { at + length text.now ≤ length run.old }
{
    for (i, b) in text.iter().enumerate() {
        run[at + i] = u32::from(*b);
    }
}

// The starts and lengths of the strings in a text that stands in the run from a place on, and how many numbers these are.
fn cut(text: &[u8], at: usize, places: &mut [u64]) -> usize
    requires { (at + length text.now ≤ 512) × (2 * length text.now ≤ length places.old) }
{
    let mut n = 0;
    let mut start = 0;
    for (i, b) in text.iter().enumerate() {
        if *b == b'|' {
            places[n] = (at + start) as u64;
            places[n + 1] = (i - start) as u64;
            n += 2;
            start = i + 1;
        }
    }
    n
}

// A page whose headings and topics are the first n and m numbers, with a list that has one number more than there are topics.
fn laid(
    rt: &impl Print,
    name: &[u8],
    t: &[u32],
    run: &[u32],
    headings: &[u64],
    n: usize,
    topics: &[u64],
    m: usize,
) -> io::Result<()> {
    if n <= headings.len() && m <= topics.len() {
        directed_in(rt, name, t, run, &headings[..n], &topics[..m], m / 2 + 1)?;
    }
    Ok(())
}

// A page of two texts of at most 256 bytes each, in arrays of lengths that are known.
fn page_within(
    rt: &impl Print,
    name: &[u8],
    t: &[u32],
    headings: &[u8],
    topics: &[u8],
    run: &mut [u32; 512],
    first: &mut [u64; 512],
    second: &mut [u64; 512],
) -> io::Result<()>
    requires { (length headings.now ≤ 256) × (length topics.now ≤ 256) }
{
    put(run, 0, headings);
    put(run, headings.len(), topics);
    let n = cut(headings, 0, first);
    let m = cut(topics, headings.len(), second);
    laid(rt, name, t, run, first, n, second, m)
}

pub fn page(
    rt: &impl Print,
    name: &[u8],
    t: &[u32],
    headings: &[u8],
    topics: &[u8],
) -> io::Result<()> {
    let mut run = [0u32; 512];
    let mut first = [0u64; 512];
    let mut second = [0u64; 512];
    if headings.len() <= 256 && topics.len() <= 256 {
        page_within(
            rt,
            name,
            t,
            headings,
            topics,
            &mut run,
            &mut first,
            &mut second,
        )?;
    }
    Ok(())
}
