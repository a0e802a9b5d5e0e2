// What is not decoded or encoded, with a charmap that gives A 41 and a 61. Were it refused, each case would be too.
use crate::show::{decoded, decoded_in, encoded, encoded_in};
use std::io;

// 14 and 12, by what is asked.
fn asked(rt: &impl Print, area: &[u32]) -> io::Result<()> {
    decoded(rt, b"a byte with no character:", area, b"AB")?;
    encoded(rt, b"a character with no byte:", area, &[0x41, 0x42])?;
    encoded(
        rt,
        b"no character, after one with no byte:",
        area,
        &[0x42, 0xD800],
    )
}

// 13, and 14 before it.
fn rooms(rt: &impl Print, area: &[u32]) -> io::Result<()> {
    let mut room = [0xEEEEu32; 1];
    decoded_in(rt, b"two bytes in a room of one:", area, b"Aa", &mut room)?;
    decoded_in(
        rt,
        b"a byte with no character in a room of one:",
        area,
        b"AB",
        &mut room,
    )?;
    let mut small = [0xEEu8; 1];
    encoded_in(
        rt,
        b"two characters in a room of one:",
        area,
        &[0x41, 0x61],
        &mut small,
    )
}

// 12, by the length; 11 before it.
fn longest(rt: &impl Print, area: &[u32], b: &[u8]) -> io::Result<()> {
    if 1 <= b.len() {
        decoded(rt, b"4,096 bytes in a room of eight:", area, &b[1..])?;
    }
    decoded(rt, b"4,097 bytes:", area, b)?;
    decoded(rt, b"4,097 bytes, no area:", &[], b)
}

// 11, areas that no charmap gives.
fn damaged(rt: &impl Print, area: &mut [u32; 512]) -> io::Result<()> {
    area[0x141] = 0;
    decoded(rt, b"a code with no 1:", area, b"A")?;
    area[0x141] = 1;
    area[0x142] = 1;
    encoded(rt, b"a 1 with no code:", area, &[0x41])
}

// 11, an area that is too short.
fn short(rt: &impl Print, area: &[u32]) -> io::Result<()> {
    if 1 <= area.len() {
        decoded(
            rt,
            b"an area of 511 numbers:",
            &area[..area.len() - 1],
            b"A",
        )?;
    }
    Ok(())
}

pub fn cases(rt: &impl Print) -> io::Result<()> {
    let mut area = [0u32; 512];
    let _ = charmap_read::read(
        b"CHARMAP\n<U0041> \\x41\n<U0061> \\x61\nEND CHARMAP\n",
        &mut area,
    );
    asked(rt, &area)?;
    rooms(rt, &area)?;
    let b = [0x41u8; 4097];
    longest(rt, &area, &b)?;
    short(rt, &area)?;
    damaged(rt, &mut area)
}
