// The report of the pairs program, from its input as it arrives in pieces: of each text the first 4,097 bytes are kept, which decide it, and
// a pair is printed when its second text ends.
#![tactic(auto)]

ghost use Rattle.std.specs.Prelude.{◌≡◌, true, [], ◌+◌, ◌≤◌, ◌<◌, length, take};
ghost use Rattle.rules.specs.Text.{granted};
ghost use Rattle.rules.specs.Table.{accepted, meaning_in};
ghost use Rattle.rules.specs.Order.{good_string, compare_of};
ghost use Rattle.rules.specs.Pairs.{compared_line, pair_line, text_of};
ghost use Rattle.pairs_printing.specs.Printed.{Prints};
ghost use Rattle.pairs_report.specs.Texts.{TextIs};
ghost use Rattle.pairs_report.specs.Feeding.{ended_line, left, KeepsByte, TakesRun, Ready, FeedsRun, FeedsAll};

use base_units::Refusal;
use pairs_printing::{put_compared, put_refused, put_text};

// How far a piece is taken, and how many bytes are kept of the text that is open.
#[derive(Clone, Copy)]
pub struct Run {
    pub at: usize,
    pub len: usize,
}

// Where a report stands: the place in the piece, how much of the output's room is used, how many texts have ended, and how many bytes are
// kept of the last of them and of the one that is open.
#[derive(Clone, Copy)]
pub struct Fed {
    pub at: usize,
    pub used: usize,
    pub texts: u64,
    pub last: usize,
    pub len: usize,
}

// The line of the n-th pair, whose texts are these strings.
fn pair_strings(t: &[u32], a: &[u32], b: &[u32], n: u64, out: &mut [u8], at: usize) -> usize
    requires t_value { (accepted t.now ≡ true) × (at + 80 ≤ length out.old) }
    requires a_value { (good_string a.now ≡ true) × (good_string b.now ≡ true) }
    ensures { Prints 80 out.old at (compared_line n (compare_of (meaning_in t.now) a.now b.now)) out.new result }
{
    match order_compare::compare(t, a, b) {
        Ok(answer) => put_compared(out, at, n, answer),
        // never: the table is accepted, and both strings are good
        Err(_) => at,
    }
}

// A text, decoded into the front of a room for the longest.
fn decode_text(area: &[u32], bytes: &[u8], room: &mut [u32]) -> Result<usize, Refusal>
    requires { length room.old ≡ 4096 }
    ensures { TextIs area.now bytes.now room.new result }
{
    charmap_coding::decode(area, bytes, room)
}

// The line of the n-th pair, whose first text is this string.
fn pair_second(
    t: &[u32],
    area: &[u32],
    x: &[u32],
    b: &[u8],
    room: &mut [u32],
    n: u64,
    out: &mut [u8],
    at: usize,
) -> usize
    requires t_value { (accepted t.now ≡ true) × (at + 80 ≤ length out.old) }
    requires x_value { (good_string x.now ≡ true) × (length room.old ≡ 4096) }
    ensures { Prints 80 out.old at (pair_line (meaning_in t.now) n (granted x.now) (text_of area.now b.now)) out.new result }
{
    match decode_text(area, b, room) {
        Err(r) => put_refused(out, at, n, base_units::number_of(r)),
        Ok(k) => pair_strings(t, x, &room[..k], n, out, at),
    }
}

// The line of the n-th pair, with room for its two strings.
fn pair_first(
    t: &[u32],
    area: &[u32],
    a: &[u8],
    b: &[u8],
    first: &mut [u32],
    second: &mut [u32],
    n: u64,
    out: &mut [u8],
    at: usize,
) -> usize
    requires t_value { (accepted t.now ≡ true) × (at + 80 ≤ length out.old) }
    requires first_len { (length first.old ≡ 4096) × (length second.old ≡ 4096) }
    ensures { Prints 80 out.old at (pair_line (meaning_in t.now) n (text_of area.now a.now) (text_of area.now b.now)) out.new result }
{
    match decode_text(area, a, first) {
        Err(r) => put_refused(out, at, n, base_units::number_of(r)),
        Ok(k) => pair_second(t, area, &first[..k], b, second, n, out, at),
    }
}

// The line of the n-th pair.
fn put_pair(t: &[u32], area: &[u32], a: &[u8], b: &[u8], n: u64, out: &mut [u8], at: usize) -> usize
    requires { (accepted t.now ≡ true) × (at + 80 ≤ length out.old) }
    ensures { Prints 80 out.old at (pair_line (meaning_in t.now) n (text_of area.now a.now) (text_of area.now b.now)) out.new result }
{
    let mut first = [0u32; 4096];
    let mut second = [0u32; 4096];
    pair_first(t, area, a, b, &mut first, &mut second, n, out, at)
}

// A byte behind those that are kept, where there is room for it; how many are kept then.
fn keep_byte(kept: &mut [u8], n: usize, b: u8) -> usize
    requires { n ≤ length kept.old }
    ensures { KeepsByte kept.old n b kept.new result }
{
    if n < kept.len() {
        kept[n] = b;
        return n + 1;
    }
    n
}

// The bytes of a piece from a place on, up to LF or the end, behind those that are kept of the open text.
fn take_run(piece: &[u8], from: usize, current: &mut [u8], len: usize) -> Run
    requires { (from ≤ length piece.now) × (len ≤ length current.old) }
    ensures { TakesRun piece.now from current.old len current.new result }
{
    let mut n = len;
    for i in from..piece.len() {
        let b = piece[i];
        if b == b'\n' {
            return Run { at: i, len: n };
        }
        n = keep_byte(current, n, b);
    }
    Run {
        at: piece.len(),
        len: n,
    }
}

// What is printed when a text ends, of which so many bytes are kept: with the one before it, if any, it is a pair.
fn end_text(
    t: &[u32],
    area: &[u32],
    before: &[u8],
    last: usize,
    current: &[u8],
    len: usize,
    texts: u64,
    out: &mut [u8],
    at: usize,
) -> usize
    requires t_value { (accepted t.now ≡ true) × (at + 80 ≤ length out.old) }
    requires last_in_bounds { (last ≤ length before.now) × (len ≤ length current.now) }
    ensures { Prints 80 out.old at (ended_line (meaning_in t.now) area.now texts (take last before.now) (take len current.now)) out.new result }
{
    if texts == 0 {
        return at;
    }
    put_pair(t, area, &before[..last], &current[..len], texts, out, at)
}

// One run of a piece, and the end of its text, where LF stands behind it.
fn feed_run(
    t: &[u32],
    area: &[u32],
    piece: &[u8],
    f: Fed,
    before: &mut [u8],
    current: &mut [u8],
    out: &mut [u8],
) -> Fed
    requires t_value { (accepted t.now ≡ true) × Ready piece.now f before.old current.old out.old }
    requires at_in_bounds { (f.at < length piece.now) × (f.used + 80 ≤ length out.old) }
    ensures { FeedsRun (meaning_in t.now) area.now piece.now f before.old current.old out.old result before.new current.new out.new }
{
    let r = take_run(piece, f.at, current, f.len);
    let at = r.at;
    let len = r.len;
    if at < piece.len() {
        let used = end_text(t, area, before, f.last, current, len, f.texts, out, f.used);
        let last = put_text(before, 0, &current[..len]);
        return Fed {
            at: at + 1,
            used,
            texts: f.texts + 1,
            last,
            len: 0,
        };
    }
    Fed {
        at,
        used: f.used,
        texts: f.texts,
        last: f.last,
        len,
    }
}

// A piece, as far as the output's room has place for the pairs that end in it.
pub fn feed(
    t: &[u32],
    area: &[u32],
    piece: &[u8],
    f: Fed,
    before: &mut [u8],
    current: &mut [u8],
    out: &mut [u8],
) -> Fed
    requires { (accepted t.now ≡ true) × Ready piece.now f before.old current.old out.old }
    ensures { FeedsAll (meaning_in t.now) area.now piece.now f before.old current.old out.old result before.new current.new out.new }
{
    let mut g = f;
    while g.at < piece.len() {
        if out.len() - g.used < 80 {
            return g;
        }
        g = feed_run(t, area, piece, g, before, current, out);
    }
    g
}

// What is left to print when the input has ended: a last text without LF.
pub fn finish(
    t: &[u32],
    area: &[u32],
    f: Fed,
    before: &[u8],
    current: &[u8],
    out: &mut [u8],
) -> usize
    requires t_value { (accepted t.now ≡ true) × (80 ≤ length out.old) }
    requires last_in_bounds { (f.last ≤ length before.now) × (f.len ≤ length current.now) }
    ensures { Prints 80 out.old 0 (left (meaning_in t.now) area.now f before.now current.now []) out.new result }
{
    if f.len == 0 {
        return 0;
    }
    end_text(t, area, before, f.last, current, f.len, f.texts, out, 0)
}
