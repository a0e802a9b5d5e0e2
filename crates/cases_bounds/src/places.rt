// Pages by starts and lengths. The run is mostly abchd; at level 1 stand a, b, c, ch, d, then what is not listed.
use cases_telling::directed_in;
use std::io;

// Strings that overlap, are the same, or end in the middle of an element.
fn parts(rt: &impl Print, t: &[u32], run: &[u32]) -> io::Result<()> {
    directed_in(
        rt,
        b"overlapping:",
        t,
        run,
        &[0, 5, 1, 4, 4, 1],
        &[0, 1, 0, 5, 1, 2, 2, 3, 4, 1],
        6,
    )?;
    directed_in(
        rt,
        b"a topic that is a heading:",
        t,
        run,
        &[0, 1, 1, 1],
        &[1, 1, 0, 1, 1, 1],
        4,
    )?;
    directed_in(
        rt,
        b"c and ch:",
        t,
        run,
        &[2, 1, 2, 2, 4, 1],
        &[2, 1, 2, 2, 2, 3, 3, 1, 3, 2],
        6,
    )
}

// Empty strings in the run and at its end.
fn empty(rt: &impl Print, t: &[u32], run: &[u32]) -> io::Result<()> {
    directed_in(
        rt,
        b"empty topics:",
        t,
        run,
        &[0, 1],
        &[0, 0, 3, 0, 5, 0, 0, 1],
        5,
    )?;
    directed_in(rt, b"an empty run:", t, &[], &[], &[0, 0], 2)?;
    directed_in(rt, b"an empty heading:", t, run, &[5, 0], &[], 1)
}

// A start with no length is no heading and no topic.
fn odd(rt: &impl Print, t: &[u32], run: &[u32]) -> io::Result<()> {
    directed_in(
        rt,
        b"odd arrays:",
        t,
        run,
        &[0, 1, 9],
        &[4, 1, 18446744073709551615],
        2,
    )?;
    directed_in(rt, b"starts alone:", t, run, &[9], &[9], 1)
}

// 17: one past the end of the run.
fn past(rt: &impl Print, t: &[u32], run: &[u32]) -> io::Result<()> {
    directed_in(
        rt,
        b"a topic one past the end:",
        t,
        run,
        &[0, 1],
        &[4, 2],
        2,
    )?;
    directed_in(rt, b"a heading one past the end:", t, run, &[4, 2], &[], 2)
}

// 17: past the end, an empty string too.
fn past_empty(rt: &impl Print, t: &[u32], run: &[u32]) -> io::Result<()> {
    directed_in(rt, b"an empty topic past the end:", t, run, &[], &[6, 0], 2)?;
    directed_in(
        rt,
        b"an empty heading past the end:",
        t,
        run,
        &[6, 0],
        &[],
        2,
    )
}

// 17: in an empty run, and of several topics one.
fn past_others(rt: &impl Print, t: &[u32], run: &[u32]) -> io::Result<()> {
    directed_in(rt, b"a topic of an empty run:", t, &[], &[], &[0, 1], 2)?;
    directed_in(
        rt,
        b"the second topic:",
        t,
        run,
        &[0, 1],
        &[0, 1, 0, 6, 0, 1],
        4,
    )
}

// 17: sums that a number cannot hold.
fn sums(rt: &impl Print, t: &[u32], run: &[u32]) -> io::Result<()> {
    directed_in(
        rt,
        b"2^64 - 1 and 0:",
        t,
        run,
        &[],
        &[18446744073709551615, 0],
        2,
    )?;
    directed_in(
        rt,
        b"2^64 - 1 and 1:",
        t,
        run,
        &[],
        &[18446744073709551615, 1],
        2,
    )?;
    directed_in(
        rt,
        b"1 and 2^64 - 1:",
        t,
        run,
        &[1, 18446744073709551615],
        &[],
        2,
    )
}

// 17: the same, of two large numbers, and of numbers over 32 bits.
fn halves(rt: &impl Print, t: &[u32], run: &[u32]) -> io::Result<()> {
    directed_in(
        rt,
        b"2^63 and 2^63:",
        t,
        run,
        &[9223372036854775808, 9223372036854775808],
        &[],
        2,
    )?;
    directed_in(rt, b"2^32 and 0:", t, run, &[], &[4294967296, 0], 2)?;
    directed_in(
        rt,
        b"2^32 and 2^64 - 2^32:",
        t,
        run,
        &[],
        &[4294967296, 18446744069414584320],
        2,
    )
}

// A number that is no character, between two strings and in none.
fn no_character(rt: &impl Print, t: &[u32], run: &[u32]) -> io::Result<()> {
    directed_in(
        rt,
        b"no character between strings:",
        t,
        run,
        &[0, 1, 2, 1],
        &[2, 1, 0, 1, 1, 0],
        4,
    )?;
    directed_in(rt, b"in no string:", t, run, &[], &[], 1)
}

// 12: a number that is no character, in a string.
fn no_character_in(rt: &impl Print, t: &[u32], run: &[u32]) -> io::Result<()> {
    directed_in(rt, b"in a topic:", t, run, &[0, 1], &[0, 2], 2)?;
    directed_in(rt, b"in a heading:", t, run, &[0, 3], &[0, 1], 2)?;
    directed_in(rt, b"at the end of a topic:", t, run, &[0, 1], &[2, 2], 2)
}

// 13: a list that is one short, exact, longer.
fn lists(rt: &impl Print, t: &[u32], run: &[u32]) -> io::Result<()> {
    directed_in(
        rt,
        b"a list one short:",
        t,
        run,
        &[0, 1],
        &[4, 1, 0, 1, 5, 0],
        2,
    )?;
    directed_in(rt, b"exact:", t, run, &[0, 1], &[4, 1, 0, 1, 5, 0], 3)?;
    directed_in(rt, b"longer:", t, run, &[0, 1], &[4, 1, 0, 1, 5, 0], 8)
}

// No list at all: 13 where there is a topic.
fn no_list(rt: &impl Print, t: &[u32], run: &[u32]) -> io::Result<()> {
    directed_in(rt, b"no list, one topic:", t, run, &[0, 1], &[4, 1], 0)?;
    directed_in(rt, b"no list, no topic:", t, run, &[0, 1], &[], 0)
}

// Several faults at once, by a table that is accepted: the run has a number that is no character at 1.
fn faults(rt: &impl Print, t: &[u32], run: &[u32]) -> io::Result<()> {
    directed_in(rt, b"13:", t, run, &[0, 1, 2, 1], &[0, 1], 0)?;
    directed_in(rt, b"15 before 13:", t, run, &[2, 1, 0, 1], &[0, 1], 0)?;
    directed_in(rt, b"12 before 15:", t, run, &[2, 1, 0, 1], &[0, 2], 0)
}

// The same, of one heading and of a part outside the run: 17 before 12.
fn faults_in_parts(rt: &impl Print, t: &[u32], run: &[u32]) -> io::Result<()> {
    directed_in(
        rt,
        b"12 of the heading that falls:",
        t,
        run,
        &[2, 1, 0, 2],
        &[0, 1],
        0,
    )?;
    directed_in(
        rt,
        b"17 before 12:",
        t,
        run,
        &[1, 1, 1, 1],
        &[0, 2, 0, 5],
        0,
    )?;
    directed_in(rt, b"17 of a heading:", t, run, &[1, 1, 0, 5], &[1, 1], 0)
}

// The same by other tables: 16 before 17, 11 before 16.
fn faults_before(rt: &impl Print, run: &[u32]) -> io::Result<()> {
    let mut t = [0u32; 512];
    let mut work = [0u32; 1024];
    // a table that was refused shows in every line
    let _ = locale_compile::compile(
        b"LC_COLLATE\norder_start backward\n<U0061>\norder_end\nEND LC_COLLATE\n",
        &mut t,
        &mut work,
    );
    directed_in(
        rt,
        b"16 before 17:",
        &t,
        run,
        &[1, 1, 1, 1],
        &[0, 2, 0, 5],
        0,
    )?;
    t[15] = 1;
    directed_in(
        rt,
        b"11 before 16:",
        &t,
        run,
        &[1, 1, 1, 1],
        &[0, 2, 0, 5],
        0,
    )?;
    directed_in(rt, b"no table:", &[], run, &[0, 1], &[0, 1], 2)
}

// By the run abchd.
fn cases_in(rt: &impl Print, t: &[u32], run: &[u32]) -> io::Result<()> {
    parts(rt, t, run)?;
    empty(rt, t, run)?;
    odd(rt, t, run)?;
    past(rt, t, run)?;
    past_empty(rt, t, run)?;
    past_others(rt, t, run)?;
    sums(rt, t, run)?;
    halves(rt, t, run)
}

// By runs with numbers that are no characters.
fn cases_beside(
    rt: &impl Print,
    t: &[u32],
    run: &[u32],
    other: &[u32],
    spoiled: &[u32],
) -> io::Result<()> {
    no_character(rt, t, other)?;
    no_character_in(rt, t, other)?;
    lists(rt, t, run)?;
    no_list(rt, t, run)?;
    faults(rt, t, spoiled)?;
    faults_in_parts(rt, t, spoiled)?;
    faults_before(rt, spoiled)
}

fn cases_by(rt: &impl Print, t: &[u32]) -> io::Result<()> {
    let run = [0x61, 0x62, 0x63, 0x68, 0x64];
    cases_in(rt, t, &run)?;
    cases_beside(
        rt,
        t,
        &run,
        &[0x61, 0xD800, 0x62, 0xFFFFFFFF],
        &[0x61, 0xD800, 0x62, 0x110000],
    )
}

pub fn cases(rt: &impl Print) -> io::Result<()> {
    let mut t = [0u32; 512];
    let mut work = [0u32; 1024];
    // a table that was refused shows in every line
    let _ = locale_compile::compile(
        b"LC_COLLATE\ncollating-element <ch> from \"<U0063><U0068>\"\norder_start\n<U0061>\n<U0062>\n<U0063>\n<ch>\n<U0064>\norder_end\nEND LC_COLLATE\n",
        &mut t,
        &mut work,
    );
    cases_by(rt, &t)
}
