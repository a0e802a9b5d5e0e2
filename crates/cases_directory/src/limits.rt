// The most headings and topics, and the longest strings. The table is that of 1,001 order lines, the characters from 10000 hex on, which the run holds too.
use cases_telling::directed_in;
use cases_words::{put, put_lines};
use std::io;

// The source of 1,001 order lines.
fn put_source(src: &mut [u8; 12060]) {
    put(src, 0, b"LC_COLLATE\norder_start\n");
    put_lines(src, 23, 1001);
    put(src, 12035, b"order_end\nEND LC_COLLATE\n");
}

// The characters from 10000 hex on.
fn put_characters(run: &mut [u32; 1001]) {
    for i in 0..1001 {
        run[i] = 0x10000 + i as u32;
    }
}

// Each of them, as a start and a length.
fn put_places(places: &mut [u64; 2002]) {
    for i in 0..1001 {
        places[2 * i] = i as u64;
        places[2 * i + 1] = 1;
    }
}

// 1,000 headings, and 1,000 topics from the second character on.
fn most(
    rt: &impl Print,
    t: &[u32],
    run: &[u32],
    headings: &[u64],
    topics: &[u64],
) -> io::Result<()> {
    directed_in(rt, b"1,000 and 1,000:", t, run, headings, topics, 1001)?;
    directed_in(rt, b"a list of 1,000:", t, run, headings, topics, 1000)?;
    directed_in(rt, b"a list of 999:", t, run, headings, topics, 999)
}

// 1,001 of either: 17.
fn more(rt: &impl Print, t: &[u32], run: &[u32], headings: &[u64], all: &[u64]) -> io::Result<()> {
    directed_in(rt, b"1,001 headings:", t, run, all, headings, 1001)?;
    directed_in(rt, b"1,001 topics:", t, run, headings, all, 1001)?;
    directed_in(rt, b"1,001 of both:", t, run, all, all, 1001)?;
    directed_in(rt, b"1,001 topics and no list:", t, run, &[], all, 0)
}

// 1,000 and a start with no length, which is not one more.
fn odd(rt: &impl Print, t: &[u32], run: &[u32], places: &[u64]) -> io::Result<()> {
    directed_in(rt, b"1,000 and a start each:", t, run, places, places, 1001)
}

// By the starts and lengths of 1,001 strings.
fn many(rt: &impl Print, t: &[u32], run: &[u32], all: &[u64]) -> io::Result<()> {
    if 2002 <= all.len() {
        most(rt, t, run, &all[0..2000], &all[2..2002])?;
        odd(rt, t, run, &all[0..2001])?;
        more(rt, t, run, &all[0..2000], all)?;
    }
    Ok(())
}

// The same, of lengths that are known.
fn many_within(
    rt: &impl Print,
    t: &[u32],
    run: &mut [u32; 1001],
    all: &mut [u64; 2002],
) -> io::Result<()> {
    put_characters(run);
    put_places(all);
    many(rt, t, run, all)
}

fn many_by(rt: &impl Print, t: &[u32]) -> io::Result<()> {
    let mut run = [0u32; 1001];
    let mut all = [0u64; 2002];
    many_within(rt, t, &mut run, &mut all)
}

// Strings of the most characters, and of one more (12).
fn long_topics(rt: &impl Print, t: &[u32], run: &[u32]) -> io::Result<()> {
    directed_in(
        rt,
        b"a topic of 4,096:",
        t,
        run,
        &[0, 1],
        &[0, 4096, 1, 4096],
        3,
    )?;
    directed_in(rt, b"a topic of 4,097:", t, run, &[0, 1], &[0, 4097], 3)
}

// The same of headings; 12 before 15, 17 before 12.
fn long_headings(rt: &impl Print, t: &[u32], run: &[u32]) -> io::Result<()> {
    directed_in(rt, b"a heading of 4,096:", t, run, &[1, 4096], &[0, 1], 3)?;
    directed_in(rt, b"a heading of 4,097:", t, run, &[0, 4097], &[0, 1], 3)?;
    directed_in(
        rt,
        b"4,097, and headings alike:",
        t,
        run,
        &[0, 1, 1, 1],
        &[0, 4097],
        0,
    )?;
    directed_in(rt, b"4,098:", t, run, &[0, 4097], &[0, 4098], 0)
}

fn long(rt: &impl Print, t: &[u32]) -> io::Result<()> {
    let run = [0x10000u32; 4097];
    long_topics(rt, t, &run)?;
    long_headings(rt, t, &run)
}

fn cases_by(
    rt: &impl Print,
    src: &mut [u8; 12060],
    t: &mut [u32; 8033],
    work: &mut [u32; 12124],
) -> io::Result<()> {
    put_source(src);
    // a table that was refused shows in every line
    let _ = locale_compile::compile(src, t, work);
    many_by(rt, t)?;
    long(rt, t)
}

pub fn cases(rt: &impl Print) -> io::Result<()> {
    let mut src = [0u8; 12060];
    let mut t = [0u32; 8033];
    let mut work = [0u32; 12124];
    cases_by(rt, &mut src, &mut t, &mut work)
}
