// What the run cases write: a line for each, its name and the answer. Rooms are filled with EEEE or EE before each call.
use base_units::Refusal;
use cases_words::{all_are, bytes, refusal, untouched};
use std::io;

fn codes(rt: &impl Print, s: &[u32]) -> io::Result<()> {
    for c in s {
        print!(rt; " {c:04x}")?;
    }
    Ok(())
}

// A refusal, and whether the room is as it was.
fn uncoded(rt: &impl Print, r: Refusal, same: bool) -> io::Result<()> {
    refusal(rt, r)?;
    if same {
        print!(rt; ", room unchanged")?;
    }
    println!(rt;)
}

// Bytes to characters, in a room.
pub fn decoded_in(
    rt: &impl Print,
    name: &[u8],
    area: &[u32],
    b: &[u8],
    room: &mut [u32],
) -> io::Result<()> {
    rt.write_all(name)?;
    match charmap_coding::decode(area, b, room) {
        Ok(n) => {
            if n <= room.len() {
                codes(rt, &room[..n])?;
            }
            println!(rt;)
        }
        Err(r) => uncoded(rt, r, all_are(room, 0xEEEE)),
    }
}

// Bytes to characters.
pub fn decoded(rt: &impl Print, name: &[u8], area: &[u32], b: &[u8]) -> io::Result<()> {
    let mut room = [0xEEEEu32; 8];
    decoded_in(rt, name, area, b, &mut room)
}

// Characters to bytes, in a room.
pub fn encoded_in(
    rt: &impl Print,
    name: &[u8],
    area: &[u32],
    s: &[u32],
    room: &mut [u8],
) -> io::Result<()> {
    rt.write_all(name)?;
    match charmap_coding::encode(area, s, room) {
        Ok(n) => {
            if n <= room.len() {
                bytes(rt, &room[..n])?;
            }
            println!(rt;)
        }
        Err(r) => uncoded(rt, r, untouched(room)),
    }
}

// Characters to bytes.
pub fn encoded(rt: &impl Print, name: &[u8], area: &[u32], s: &[u32]) -> io::Result<()> {
    let mut room = [0xEEu8; 8];
    encoded_in(rt, name, area, s, &mut room)
}

// How many numbers are their own places.
fn own(room: &[u32]) -> usize {
    room.iter()
        .zip(0..)
        .filter(|(c, place)| **c == *place)
        .count()
}

// Each byte at its own place.
fn all_bytes(b: &mut [u8; 256]) {
    for i in 0..256 {
        b[i] = i as u8;
    }
}

// How many of these bytes are decoded to their places. A refusal leaves the room, in which no number is its own place.
fn decoded_to_places(area: &[u32], b: &[u8; 256]) -> usize {
    let mut room = [0xEEEEu32; 256];
    let _ = charmap_coding::decode(area, b, &mut room);
    own(&room)
}

// How many of all bytes are decoded to themselves.
pub fn decoded_own(rt: &impl Print, name: &[u8], area: &[u32]) -> io::Result<()> {
    let mut b = [0u8; 256];
    all_bytes(&mut b);
    rt.write_all(name)?;
    println!(rt; " {}", decoded_to_places(area, &b))
}
