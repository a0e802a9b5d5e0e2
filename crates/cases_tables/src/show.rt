// What the run cases write: a line for each, its name and the answer.
use base_units::Refusal;
use cases_words::{bytes, refusal, untouched};
use std::cmp::Ordering;
use std::io;

fn refused(rt: &impl Print, r: Refusal) -> io::Result<()> {
    refusal(rt, r)?;
    println!(rt;)
}

fn sign(s: Ordering) -> char {
    match s {
        Ordering::Less => '<',
        Ordering::Equal => '=',
        Ordering::Greater => '>',
    }
}

// The check of a table area.
pub fn checked(rt: &impl Print, name: &[u8], t: &[u32]) -> io::Result<()> {
    rt.write_all(name)?;
    match table_check::check(t) {
        Ok(s) => println!(rt; " accepted {} {} {}", s.levels, s.items, s.size),
        Err(r) => refused(rt, r),
    }
}

// The check of a table's first numbers.
pub fn checked_part(rt: &impl Print, name: &[u8], t: &[u32], n: usize) -> io::Result<()> {
    if n <= t.len() {
        checked(rt, name, &t[..n])?;
    }
    Ok(())
}

// The element at a place of a string.
pub fn stepped(rt: &impl Print, name: &[u8], t: &[u32], s: &[u32], at: usize) -> io::Result<()> {
    rt.write_all(name)?;
    match order_compare::step(t, s, at) {
        Ok((place, size)) => println!(rt; " {place} {size}"),
        Err(r) => refused(rt, r),
    }
}

// How two strings compare.
pub fn compared(rt: &impl Print, name: &[u8], t: &[u32], a: &[u32], b: &[u32]) -> io::Result<()> {
    rt.write_all(name)?;
    match order_compare::compare(t, a, b) {
        Ok(x) => println!(rt; " {} {} {}", sign(x.sign), x.level, x.agreed),
        Err(r) => refused(rt, r),
    }
}

// A string's key, into the room lent; of a refused one, whether the room is as it was.
pub fn keyed(
    rt: &impl Print,
    name: &[u8],
    t: &[u32],
    s: &[u32],
    room: &mut [u8],
) -> io::Result<()> {
    rt.write_all(name)?;
    match order_keys::key(t, s, room) {
        Ok(n) => {
            if n <= room.len() {
                bytes(rt, &room[..n])?;
            }
            println!(rt;)
        }
        Err(r) => {
            if untouched(room) {
                print!(rt; " room unchanged,")?;
            }
            refused(rt, r)
        }
    }
}

// How long a string's key is.
pub fn key_length(
    rt: &impl Print,
    name: &[u8],
    t: &[u32],
    s: &[u32],
    room: &mut [u8],
) -> io::Result<()> {
    rt.write_all(name)?;
    match order_keys::key(t, s, room) {
        Ok(n) => println!(rt; " {n}"),
        Err(r) => refused(rt, r),
    }
}

// How long a string's key is, in the first bytes of the room lent.
pub fn key_length_within(
    rt: &impl Print,
    name: &[u8],
    t: &[u32],
    s: &[u32],
    room: &mut [u8],
    n: usize,
) -> io::Result<()> {
    if n <= room.len() {
        key_length(rt, name, t, s, &mut room[..n])?;
    }
    Ok(())
}
