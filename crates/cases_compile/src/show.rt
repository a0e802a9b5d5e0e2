// What the run cases write: a line for each, its name and the answer. Areas are filled with EEEE before each call.
use base_units::Refusal;
use cases_words::{all_are, kept, refusal};
use std::io;

// The numbers of a table; a dash for 110000 hex, which is no character.
fn entries(rt: &impl Print, t: &[u32]) -> io::Result<()> {
    for x in t {
        if *x == 0x110000 {
            print!(rt; " -")?;
        } else {
            print!(rt; " {x}")?;
        }
    }
    Ok(())
}

// Whether the work area is all zeros.
fn worked(rt: &impl Print, work: &[u32]) -> io::Result<()> {
    let word = if all_are(work, 0) { "zero" } else { "touched" };
    print!(rt; ", work {word}")
}

// Whether these numbers are a table, and no more.
fn judged(rt: &impl Print, t: &[u32]) -> io::Result<()> {
    match table_check::check(t) {
        Ok(s) => {
            if s.size == t.len() {
                print!(rt; ", accepted")?;
            }
            Ok(())
        }
        Err(r) => refusal(rt, r),
    }
}

// A table's numbers; of a large one the first three, which tell how many levels, items and weights it has.
fn numbers(rt: &impl Print, t: &[u32]) -> io::Result<()> {
    print!(rt; ":")?;
    if t.len() <= 512 {
        entries(rt, t)
    } else {
        entries(rt, &t[..3])
    }
}

// A table of n numbers, and whether the rest of the area and the work area are as they must be.
fn done(rt: &impl Print, n: usize, area: &[u32], work: &[u32]) -> io::Result<()> {
    print!(rt; " {n} numbers")?;
    if n <= area.len() {
        judged(rt, &area[..n])?;
        print!(rt; ", rest")?;
        kept(rt, &area[n..])?;
        worked(rt, work)?;
        numbers(rt, &area[..n])?;
    }
    println!(rt;)
}

// A refusal and its line, and whether the area and the work area are as they must be.
fn stopped(rt: &impl Print, r: Refusal, line: usize, area: &[u32], work: &[u32]) -> io::Result<()> {
    refusal(rt, r)?;
    print!(rt; " line {line}, area")?;
    kept(rt, area)?;
    worked(rt, work)?;
    println!(rt;)
}

// A source compiled into an area, with a work area.
pub fn compiled_in(
    rt: &impl Print,
    name: &[u8],
    src: &[u8],
    area: &mut [u32],
    work: &mut [u32],
) -> io::Result<()> {
    rt.write_all(name)?;
    match locale_compile::compile(src, area, work) {
        Ok(n) => done(rt, n, area, work),
        Err((r, line)) => stopped(rt, r, line, area, work),
    }
}

// The same, with the first numbers of a work area.
pub fn compiled_with(
    rt: &impl Print,
    name: &[u8],
    src: &[u8],
    area: &mut [u32],
    work: &mut [u32],
    n: usize,
) -> io::Result<()> {
    if n <= work.len() {
        compiled_in(rt, name, src, area, &mut work[..n])?;
    }
    Ok(())
}

// A source of at most 960 bytes, with the shortest work area that it may have.
pub fn compiled(rt: &impl Print, name: &[u8], src: &[u8]) -> io::Result<()> {
    let mut area = [0xEEEEu32; 512];
    let mut work = [0xEEEEu32; 1024];
    if src.len() <= 960 {
        compiled_with(rt, name, src, &mut area, &mut work, src.len() + 64)?;
    }
    Ok(())
}
