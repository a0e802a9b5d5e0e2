// The run cases of the operations on tables: what document 01 says is run, with what must be written in the file stdout.
#![tactic(auto)]

mod show;
mod tables;

use std::io;

// P1 to P4, of source S.
fn first_examples(rt: &impl Print, s: &[u32]) -> io::Result<()> {
    show::compared(rt, b"P1", s, &[0x61], &[0x41])?;
    show::compared(rt, b"P2", s, &[0x61, 0x62], &[0x41, 0x61])?;
    show::compared(rt, b"P3", s, &[0x61, 0x2D], &[0x61])?;
    show::compared(rt, b"P4", s, &[], &[0x2D])
}

// P5 to P8, of source S.
fn more_examples(rt: &impl Print, s: &[u32]) -> io::Result<()> {
    show::compared(rt, b"P5", s, &[0x61, 0x61], &[0x61, 0x61])?;
    show::compared(rt, b"P6", s, &[0x7A], &[0x62])?;
    show::compared(rt, b"P7", s, &[0x7A], &[0x79])?;
    show::compared(rt, b"P8", s, &[0x61, 0x41], &[0x41, 0x61])
}

// P9, of source S with a backward level.
fn backward_example(rt: &impl Print) -> io::Result<()> {
    let t = tables::source_s(1);
    show::compared(rt, b"P9", &t, &[0x61, 0x41], &[0x41, 0x61])
}

// P10 and P11, the keys of source S.
fn key_examples(rt: &impl Print, s: &[u32], room: &mut [u8]) -> io::Result<()> {
    show::keyed(rt, b"P10", s, &[0x61, 0x41], room)?;
    show::keyed(rt, b"P11", s, &[0x2D], room)
}

// P12, of source S with a level with position.
fn position_example(rt: &impl Print, t: &[u32], room: &mut [u8]) -> io::Result<()> {
    show::compared(rt, b"P12", t, &[0x2D, 0x61], &[0x61])?;
    show::keyed(rt, b"P12", t, &[0x2D, 0x61], room)
}

// P1 to P12.
fn examples(rt: &impl Print) -> io::Result<()> {
    let s = tables::source_s(0);
    first_examples(rt, &s)?;
    more_examples(rt, &s)?;
    backward_example(rt)?;
    let mut room = [0xEEu8; 32];
    key_examples(rt, &s, &mut room)?;
    let t = tables::source_s(2);
    position_example(rt, &t, &mut room)
}

// The check of source S with one number put in place of another.
fn damaged(rt: &impl Print, name: &[u8], at: usize, number: u32) -> io::Result<()> {
    let t = tables::damaged(at, number);
    show::checked(rt, name, &t)
}

// Source S, whole and cut short.
fn lengths(rt: &impl Print) -> io::Result<()> {
    let s = tables::source_s(0);
    show::checked(rt, b"source S:", &s)?;
    show::checked_part(rt, b"one number short:", &s, 65)?;
    show::checked(rt, b"nothing:", &[])
}

// Weights and counts in and out of their bounds.
fn bounds(rt: &impl Print) -> io::Result<()> {
    damaged(rt, b"a weight of zero:", 58, 0)?;
    damaged(rt, b"a weight of 32,768:", 58, 32768)?;
    damaged(rt, b"a weight of 32,769:", 58, 32769)?;
    damaged(rt, b"no level:", 0, 0)?;
    damaged(rt, b"nine levels:", 0, 9)?;
    damaged(rt, b"no item:", 1, 0)
}

// Items that no table has.
fn items(rt: &impl Print) -> io::Result<()> {
    damaged(rt, b"two items alike:", 30, 0x61)?;
    damaged(rt, b"two UNDEFINED:", 38, 0x110000)?;
    damaged(rt, b"no UNDEFINED:", 42, 0x7A)
}

// Numbers that do not follow from the others.
fn parts(rt: &impl Print) -> io::Result<()> {
    damaged(rt, b"another mask:", 3, 15)?;
    damaged(rt, b"an end that falls:", 17, 0)?;
    damaged(rt, b"a place listed twice:", 46, 1)?;
    damaged(rt, b"a start one more:", 52, 0x30003)
}

// Numbers that mean nothing where they stand.
fn numbers(rt: &impl Print) -> io::Result<()> {
    damaged(rt, b"a spare number not zero:", 15, 1)?;
    damaged(rt, b"an unknown rule:", 56, 4)?;
    damaged(rt, b"no character:", 26, 0xD800)
}

// Tables that are accepted, and those that are not.
fn checks(rt: &impl Print) -> io::Result<()> {
    lengths(rt)?;
    bounds(rt)?;
    items(rt)?;
    parts(rt)?;
    numbers(rt)
}

// The elements of aaa.
fn steps_alike(rt: &impl Print, t: &[u32], s: &[u32]) -> io::Result<()> {
    show::stepped(rt, b"aaa at 0:", t, s, 0)?;
    show::stepped(rt, b"aaa at 2:", t, s, 2)?;
    show::stepped(rt, b"aaa at 3:", t, s, 3)
}

// The elements of ac.
fn steps_apart(rt: &impl Print, t: &[u32], s: &[u32]) -> io::Result<()> {
    show::stepped(rt, b"ac at 0:", t, s, 0)?;
    show::stepped(rt, b"ac at 1:", t, s, 1)
}

// Steps that are refused: the table is asked first, then the string.
fn steps_refused(rt: &impl Print, t: &[u32], s: &[u32]) -> io::Result<()> {
    show::stepped(rt, b"no character past the end:", t, s, 9)?;
    let d = tables::damaged(58, 0);
    show::stepped(rt, b"damaged table:", &d, s, 0)
}

// The longest match, from the left.
fn steps(rt: &impl Print) -> io::Result<()> {
    let t = tables::doubled();
    show::checked(rt, b"aa, a, ab:", &t)?;
    steps_alike(rt, &t, &[0x61, 0x61, 0x61])?;
    steps_apart(rt, &t, &[0x61, 0x63])?;
    steps_refused(rt, &t, &[0xD800])?;
    show::compared(
        rt,
        b"aaa, aab:",
        &t,
        &[0x61, 0x61, 0x61],
        &[0x61, 0x61, 0x62],
    )
}

// A string of the most characters, and one of one more.
fn string_limits(rt: &impl Print, s: &[u32], most: &[u32], more: &[u32]) -> io::Result<()> {
    show::compared(rt, b"4,096 characters:", s, most, most)?;
    show::compared(rt, b"4,097 characters:", s, most, more)?;
    show::compared(rt, b"a number that is no character:", s, &[0x110000], &[])?;
    let d = tables::damaged(0, 9);
    show::compared(rt, b"damaged table:", &d, more, &[])
}

// A key of 18 bytes in a room of 17, and in one of 18.
fn room_limits(rt: &impl Print, s: &[u32]) -> io::Result<()> {
    let mut short = [0xEEu8; 17];
    show::keyed(rt, b"room one byte short:", s, &[0x61, 0x41], &mut short)?;
    let mut enough = [0xEEu8; 18];
    show::keyed(rt, b"room for the key:", s, &[0x61, 0x41], &mut enough)
}

// The limits of strings and rooms.
fn limits(rt: &impl Print) -> io::Result<()> {
    let s = tables::source_s(0);
    let most = [0x61u32; 4096];
    let more = [0x61u32; 4097];
    string_limits(rt, &s, &most, &more)?;
    room_limits(rt, &s)?;
    show::keyed(rt, b"4,097 characters:", &s, &more, &mut [])
}

// Keys with levels that are walked backward: of elements with none, one and eight weights, with an ignored one at both ends, and of
// one that begins as another does.
fn turned_keys(rt: &impl Print, t: &[u32], s: &[u32]) -> io::Result<()> {
    let mut short = [0xEEu8; 86];
    show::keyed(rt, b"-ah.a-- one byte short:", t, s, &mut short)?;
    let mut enough = [0xEEu8; 87];
    show::keyed(rt, b"-ah.a--:", t, s, &mut enough)?;
    show::keyed(rt, b"aaa:", t, &[0x61, 0x61, 0x61], &mut enough)?;
    show::keyed(rt, b"---:", t, &[0x2D, 0x2D, 0x2D], &mut enough)?;
    show::keyed(rt, b"nothing:", t, &[], &mut enough)
}

fn turned(rt: &impl Print) -> io::Result<()> {
    let t = tables::turned();
    show::checked(rt, b"two levels backward:", &t)?;
    turned_keys(rt, &t, &[0x2D, 0x61, 0x68, 0x2E, 0x61, 0x2D, 0x2D])
}

// The longest key that there is, and a room one byte too short for it.
fn longest_in(rt: &impl Print, room: &mut [u8]) -> io::Result<()> {
    let t = tables::widest();
    let s = [0x61u32; 4096];
    show::key_length(rt, b"longest key:", &t, &s, room)?;
    show::key_length_within(rt, b"one byte less:", &t, &s, room, 1060879)
}

// The same, in a room of a length that is known, whatever is in it.
fn longest_within(rt: &impl Print, room: &mut [u8; 1060880]) -> io::Result<()> {
    longest_in(rt, room)
}

fn longest(rt: &impl Print) -> io::Result<()> {
    let mut room = [0u8; 1060880];
    longest_within(rt, &mut room)
}

fn main(rt: HostRuntime) -> io::Result<()> {
    examples(&rt)?;
    checks(&rt)?;
    steps(&rt)?;
    limits(&rt)?;
    turned(&rt)?;
    longest(&rt)
}
