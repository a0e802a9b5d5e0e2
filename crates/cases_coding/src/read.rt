// Charmaps that are read, and what they decode and encode, which is nothing where one is refused.
use crate::show::{decoded, decoded_own, encoded};
use std::io;

// ISO 8859-1, in ranges of four and of eight digits.
fn latin(rt: &impl Print) -> io::Result<()> {
    let mut area = [0u32; 512];
    let _ = charmap_read::read(
        b"<comment_char> %\n<escape_char> /\nCHARMAP\n<U0000>..<U001F> /x00 controls\n<U0020>..<U007E> /x20\n<U007F> /x7f DELETE\n<U00000080>..<U0000009F> /x80\n<U00A0>..<U00FF> /xA0\nEND CHARMAP\n",
        &mut area,
    );
    decoded_own(rt, b"ISO 8859-1, bytes that decode to themselves:", &area)?;
    decoded(
        rt,
        b"00 41 7F 80 E9 FF:",
        &area,
        b"\x00\x41\x7F\x80\xE9\xFF",
    )?;
    encoded(
        rt,
        b"0000 0041 007F 0080 00E9 00FF:",
        &area,
        &[0, 0x41, 0x7F, 0x80, 0xE9, 0xFF],
    )
}

// Digits of either case.
fn digits(rt: &impl Print) -> io::Result<()> {
    let mut area = [0u32; 512];
    let _ = charmap_read::read(
        b"CHARMAP\n<U0061> \\x4a\n<U0062> \\x4B\n<U0063> \\xfF\nEND CHARMAP\n",
        &mut area,
    );
    decoded(rt, b"4A 4B FF:", &area, b"\x4A\x4B\xFF")
}

// Two bytes for one character: the first encodes.
fn hyphen(rt: &impl Print) -> io::Result<()> {
    let mut area = [0u32; 512];
    let _ = charmap_read::read(
        b"CHARMAP\n<U002D> \\x2D\n<U002D> \\x5F\nEND CHARMAP\n",
        &mut area,
    );
    decoded(rt, b"hyphen 2D, then 5F: 2D 5F:", &area, b"\x2D\x5F")?;
    encoded(rt, b"002D:", &area, &[0x2D])?;
    let _ = charmap_read::read(
        b"CHARMAP\n<U002D> \\x5F\n<U002D> \\x2D\nEND CHARMAP\n",
        &mut area,
    );
    decoded(rt, b"hyphen 5F, then 2D: 2D 5F:", &area, b"\x2D\x5F")?;
    encoded(rt, b"002D:", &area, &[0x2D])
}

pub fn cases(rt: &impl Print) -> io::Result<()> {
    latin(rt)?;
    digits(rt)?;
    hyphen(rt)
}
