// The toggles of conditionals, kept in a lent area of numbers: 16 places from `base` on, of which the first `n` are in use. A number there
// is twice the place where the word was written last in the source, and one more where the toggle is defined. Behind them stand 16 decisions,
// which tell by single bytes the one toggle that a word can be: a lookup compares the word with that one's spelling and passes over all others,
// however long they are spelled.
#![tactic(auto)]

ghost use Rattle.std.specs.Prelude.{◌≡◌, [], ◌+◌, ◌/◌, ◌≤◌, ◌<◌, length};
ghost use Rattle.text_lines.specs.Stream.{line_start};
ghost use Rattle.rules.specs.Text.{same, one_of};
ghost use Rattle.rules.specs.Conditionals.{is_toggle_byte, is_toggle, is_on};
ghost use Rattle.base_units.specs.Numbers.{number_or_none};
ghost use Rattle.work_toggles.specs.Candidates.{decision_for, takes, candidate, Parts, Differ};
ghost use Rattle.work_toggles.specs.Kept.{word_left, toggle_at, toggles_in, Kept, is_defined, stored_as, PlaceIs, Slot, ShapeIs, refusal_for, IsNew, Decides, MayTurn, Turned};

use base_units::Refusal;
use text_lines::{IN_PLAIN, Source, Spot};
use text_tokens::{copy_word, word_byte};

// Of a toggle's word: whether each byte may stand in one, and whether it is short enough.
#[derive(Clone, Copy)]
pub struct Shape {
    pub clean: bool,
    pub short: bool,
}

// A place where a word differs from another, and its byte there: 0 behind its end.
#[derive(Clone, Copy)]
pub struct Parting {
    pub at: usize,
    pub byte: u8,
}

// Whether a word has no byte more.
fn word_ends(src: Source, p: Spot) -> bool
    requires { p.at ≤ length src.bytes.now }
    ensures { result ≡ same [] (word_left src.entry.signs src.entry.bytes.now p) }
{
    word_byte(src, p).is_none()
}

// Whether the words at two spots have the same bytes.
fn same_word(src: Source, p: Spot, q: Spot) -> bool
    requires { (p.at ≤ length src.bytes.now) × (q.at ≤ length src.bytes.now) }
    ensures { result ≡ same (word_left src.entry.signs src.entry.bytes.now p) (word_left src.entry.signs src.entry.bytes.now q) }
{
    let mut i = p;
    let mut j = q;
    while let Some((a, k)) = word_byte(src, i) {
        let Some((b, l)) = word_byte(src, j) else {
            return false;
        };
        if a != b {
            return false;
        }
        i = k;
        j = l;
    }
    word_ends(src, j)
}

// Whether a toggle is defined.
fn is_defined(v: u32) -> bool
    ensures { result ≡ is_defined v }
{
    v % 2 == 1
}

// The number of a toggle.
fn stored(at: usize, on: bool) -> u32
    requires { at ≤ 1048576 }
    ensures { result ≡ stored_as at on }
{
    let v = (at * 2) as u32;
    if on { v + 1 } else { v }
}

// The spot where the word of a toggle begins.
fn spot_of(v: u32) -> Spot
    ensures { result ≡ line_start (v / 2) }
{
    Spot {
        at: (v / 2) as usize,
        mode: IN_PLAIN,
        fresh: true,
    }
}

// Whether the word at a spot is the toggle's.
fn has_label(src: Source, v: u32, q: Spot) -> bool
    requires { (v / 2 ≤ length src.bytes.now) × (q.at ≤ length src.bytes.now) }
    ensures { result ≡ is_toggle (word_left src.entry.signs src.entry.bytes.now q) (toggle_at src.entry.signs src.entry.bytes.now v) }
{
    same_word(src, q, spot_of(v))
}

// Whether a decision takes the word away from toggle c.
fn is_taken(word: &[u8], c: usize, d: u32) -> bool
    requires { length word.now ≡ 32 }
    ensures { result ≡ takes word.now c d }
{
    let k = (d / 256 % 32) as usize;
    (d / 8192) as usize == c && word[k] == (d % 256) as u8
}

// The candidate of a word among n toggles, whose decisions stand from a place on.
fn candidate_among(word: &[u8], work: &[u32], from: usize, n: usize) -> usize
    requires { (length word.now ≡ 32) × (from + n ≤ length work.now) }
    ensures { result ≡ candidate word.now work.now from n }
{
    let mut c: usize = 0;
    for i in 0..n {
        if is_taken(word, c, work[from + i]) {
            c = i;
        }
    }
    c
}

// The candidate of the word at a spot.
fn candidate_of(src: Source, work: &[u32], from: usize, n: usize, q: Spot) -> usize
    requires { (q.at ≤ length src.bytes.now) × (from + n ≤ length work.now) }
    ensures { result ≡ candidate (word_left src.entry.signs src.entry.bytes.now q) work.now from n }
{
    let mut word = [0u8; 32];
    copy_word(src, q, &mut word);
    candidate_among(&word, work, from, n)
}

// The toggle whose word stands at a spot: its candidate, or none.
fn find_toggle(src: Source, work: &[u32], base: usize, n: usize, q: Spot) -> Option<usize>
    requires { Kept src.signs src.bytes.now work.now base n × (q.at ≤ length src.bytes.now) }
    ensures { PlaceIs (word_left src.entry.signs src.entry.bytes.now q) (toggles_in src.entry.signs src.entry.bytes.now work.now base n) result }
{
    let c = candidate_of(src, work, base + 16, n, q);
    if c < n && has_label(src, work[base + c], q) {
        Some(c)
    } else {
        None
    }
}

// Whether a toggle of that word is known.
fn knows(src: Source, work: &[u32], base: usize, n: usize, q: Spot) -> bool
    requires { Kept src.signs src.bytes.now work.now base n × (q.at ≤ length src.bytes.now) }
    ensures { result ≡ one_of (is_toggle (word_left src.entry.signs src.entry.bytes.now q)) (toggles_in src.entry.signs src.entry.bytes.now work.now base n) }
{
    find_toggle(src, work, base, n, q).is_some()
}

// Whether the toggle of that word is defined.
pub fn is_on(src: Source, work: &[u32], base: usize, n: usize, q: Spot) -> bool
    requires { Kept src.signs src.bytes.now work.now base n × (q.at ≤ length src.bytes.now) }
    ensures { result ≡ is_on (word_left src.entry.signs src.entry.bytes.now q) (toggles_in src.entry.signs src.entry.bytes.now work.now base n) }
{
    match find_toggle(src, work, base, n, q) {
        Some(i) => is_defined(work[base + i]),
        None => false,
    }
}

// The place of the toggle of that word: its own, or the one after the last.
fn slot_of(src: Source, work: &[u32], base: usize, n: usize, q: Spot) -> usize
    requires { Kept src.signs src.bytes.now work.now base n × (q.at ≤ length src.bytes.now) }
    ensures { Slot (word_left src.entry.signs src.entry.bytes.now q) (toggles_in src.entry.signs src.entry.bytes.now work.now base n) result }
{
    find_toggle(src, work, base, n, q).unwrap_or(n)
}

// The first place where two rooms of 32 bytes differ, if there is one.
fn first_difference(a: &[u8], b: &[u8]) -> usize
    requires { (length a.now ≡ 32) × (length b.now ≡ 32) }
    ensures { Differ a.now b.now result }
{
    for i in 0..31 {
        if a[i] != b[i] {
            return i;
        }
    }
    31
}

// Where the word at a spot differs from another, and its byte there.
fn part_words(src: Source, p: Spot, q: Spot) -> Parting
    requires { (p.at ≤ length src.bytes.now) × (q.at ≤ length src.bytes.now) }
    ensures { Parts (word_left src.entry.signs src.entry.bytes.now p) (word_left src.entry.signs src.entry.bytes.now q) result }
{
    let mut own = [0u8; 32];
    let mut other = [0u8; 32];
    copy_word(src, p, &mut own);
    copy_word(src, q, &mut other);
    let k = first_difference(&own, &other);
    Parting {
        at: k,
        byte: own[k],
    }
}

// The number of a decision.
fn decision(c: usize, m: Parting) -> u32
    requires { (c < 16) × (m.at < 32) }
    ensures { result ≡ decision_for c m }
{
    ((c * 32 + m.at) * 256) as u32 + u32::from(m.byte)
}

// The decision for one more toggle, whose word stands at a spot: between it and its candidate among those before. The first needs none.
fn decide(src: Source, work: &[u32], base: usize, n: usize, q: Spot) -> u32
    requires { IsNew src.signs src.bytes.now work.now base n q }
    ensures { Decides src.entry.signs src.entry.bytes.now work.now base n (word_left src.entry.signs src.entry.bytes.now q) result }
{
    let c = candidate_of(src, work, base + 16, n, q);
    if c < n {
        decision(c, part_words(src, q, spot_of(work[base + c])))
    } else {
        0
    }
}

// The toggle whose word begins at a place is defined, or not, from now on. How many toggles there are then.
pub fn turn(src: Source, work: &mut [u32], base: usize, n: usize, at: usize, on: bool) -> usize
    requires { MayTurn src.signs src.bytes.now work.old base n at }
    ensures { Turned src.entry.signs src.entry.bytes.now work.old work.new base n result at on }
{
    let q = Spot {
        at,
        mode: IN_PLAIN,
        fresh: true,
    };
    let i = slot_of(src, work, base, n, q);
    if i < n {
        work[base + i] = stored(at, on);
        return n;
    }
    work[base + 16 + n] = decide(src, work, base, n, q);
    work[base + n] = stored(at, on);
    n + 1
}

// Whether a byte may stand in a toggle's word.
fn is_toggle_byte(b: u8) -> bool
    ensures { result ≡ is_toggle_byte b }
{
    matches!(b, b'0'..=b'9' | b'A'..=b'Z' | b'a'..=b'z' | b'_')
}

// What the word at a spot is like, as a toggle's.
fn word_of_toggle(src: Source, p: Spot) -> Shape
    requires { p.at ≤ length src.bytes.now }
    ensures { ShapeIs (word_left src.entry.signs src.entry.bytes.now p) result }
{
    let mut q = p;
    let mut n: usize = 0;
    let mut clean = true;
    while let Some((b, r)) = word_byte(src, q) {
        n += 1;
        clean = clean && is_toggle_byte(b);
        q = r;
    }
    Shape {
        clean,
        short: n <= 32,
    }
}

// The refusal of a line whose one operand is the word at a spot, as a toggle.
pub fn toggle_refusal(src: Source, work: &[u32], base: usize, n: usize, q: Spot) -> Option<Refusal>
    requires { Kept src.signs src.bytes.now work.now base n × (q.at ≤ length src.bytes.now) }
    ensures { number_or_none result ≡ refusal_for (word_left src.entry.signs src.entry.bytes.now q) (toggles_in src.entry.signs src.entry.bytes.now work.now base n) }
{
    let s = word_of_toggle(src, q);
    if !s.clean {
        return Some(Refusal::Malformed);
    }
    if !s.short {
        return Some(Refusal::TooMany);
    }
    let room = n < 16;
    if room || knows(src, work, base, n, q) {
        None
    } else {
        Some(Refusal::TooMany)
    }
}
