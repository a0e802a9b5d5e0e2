// The longest source, and the shortest area.
use crate::show::{mapped, mapped_in};
use std::io;

// An area of one number too few: 9, where no line is refused.
fn short_area(rt: &impl Print) -> io::Result<()> {
    let mut area = [0xEEEEu32; 511];
    mapped_in(
        rt,
        b"511 numbers:",
        b"CHARMAP\n<U0041> \\x41\nEND CHARMAP\n",
        &mut area,
    )?;
    mapped_in(
        rt,
        b"511 numbers, a byte twice:",
        b"CHARMAP\n<U0041> \\x41\n<U0042> \\x41\nEND CHARMAP\n",
        &mut area,
    )
}

fn whole_area(rt: &impl Print) -> io::Result<()> {
    let mut area = [0xEEEEu32; 512];
    mapped_in(
        rt,
        b"512 numbers:",
        b"CHARMAP\n<U0041> \\x41\nEND CHARMAP\n",
        &mut area,
    )
}

// Sources that are LFs, and no more.
fn longest_of(rt: &impl Print, src: &[u8]) -> io::Result<()> {
    if 1 <= src.len() {
        mapped(rt, b"1,048,576 bytes:", &src[1..])?;
    }
    mapped(rt, b"1,048,577 bytes:", src)
}

// The same, of a length that is known.
fn longest_within(rt: &impl Print, src: &[u8; 1048577]) -> io::Result<()> {
    longest_of(rt, src)
}

fn longest(rt: &impl Print) -> io::Result<()> {
    let src = [10u8; 1048577];
    longest_within(rt, &src)
}

pub fn cases(rt: &impl Print) -> io::Result<()> {
    short_area(rt)?;
    whole_area(rt)?;
    longest(rt)
}
