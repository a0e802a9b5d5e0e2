// A line between CHARMAP and END CHARMAP, from its first place on: whether it is an entry, and its parts.
#![tactic(auto)]

ghost use Rattle.std.specs.Prelude.{◌≡◌, ◌&&◌, ◌≤◌, length};
ghost use Rattle.rules.specs.Text.{every};
ghost use Rattle.rules.specs.Tokens.{is_text};
ghost use Rattle.base_lists.proofs.Runs.{run};
ghost use Rattle.rules.specs.Lines.{in_plain};
ghost use Rattle.text_names.specs.Named.{name_left};
ghost use Rattle.charmap_entry.specs.Entered.{HexIs, TailIs, DigitsAre, EscapedIs, GapIs, NamedIs, DottedIs, HeadsAre, feeds_in, Whole, PartsAre, EntryIs};

use base_units::{Refusal, lower_of};
use text_lines::{IN_COMMENT, IN_PLAIN, Source, Spot, is_blank, is_text, line_end, next_mark};
use text_tokens::{NameStep, end_of_name, name_byte, skip_gaps};

// The parts of an entry: the spots right after the `<` of its first and of its last name, which is the first where it is no range; the
// lower refusal of the two; its byte; whether all its bytes outside comments are text; the place after the line, and its LFs.
#[derive(Clone, Copy)]
pub struct Parts {
    pub first: Spot,
    pub last: Spot,
    pub refusal: Option<Refusal>,
    pub byte: u8,
    pub text: bool,
    pub next: usize,
    pub feeds: usize,
}

// The names of an entry: the spots right after the `<` of the first and of the last, which is the first where it is no range; the lower of
// their refusals; and the spot after them.
#[derive(Clone, Copy)]
pub struct Head {
    pub first: Spot,
    pub last: Spot,
    pub refusal: Option<Refusal>,
    pub next: Spot,
}

// A hex digit's value.
fn hex_of(m: u16) -> Option<u16>
    ensures { HexIs m result }
{
    match m {
        48..=57 => Some(m - 48),
        65..=70 => Some(m - 55),
        97..=102 => Some(m - 87),
        _ => None,
    }
}

// What follows an entry's digits, from the place after them on: past joins, a blank, the LF or the source's end, or another mark.
fn tail_at(src: Source, at: usize) -> Option<usize>
    requires { at ≤ length src.bytes.now }
    ensures { TailIs src.entry.signs src.entry.bytes.now at result }
{
    let mut i = at;
    while i < src.bytes.len() && src.bytes[i] != 10 {
        if src.bytes[i] != src.signs.escape {
            return if is_blank(src.bytes[i]) {
                Some(i)
            } else {
                None
            };
        }
        if i + 1 >= src.bytes.len() || src.bytes[i + 1] != 10 {
            return None;
        }
        i += 2;
    }
    Some(i)
}

// The two hex digits at a spot.
fn two_digits(src: Source, p: Spot) -> Option<(u8, Spot)>
    requires { (p.at ≤ length src.bytes.now) × (p.mode ≡ in_plain) }
    ensures { DigitsAre src.entry.signs src.entry.bytes.now p result }
{
    let (m, q) = next_mark(src, p)?;
    let x = hex_of(m)?;
    let (n, r) = next_mark(src, q)?;
    let y = hex_of(n)?;
    Some(((x * 16 + y) as u8, r))
}

// Escape `x` and two hex digits at a spot, with nothing behind them but a blank.
fn escaped_byte(src: Source, p: Spot) -> Option<(u8, usize)>
    requires { (p.at ≤ length src.bytes.now) × (p.mode ≡ in_plain) }
    ensures { EscapedIs src.entry.signs src.entry.bytes.now p result }
{
    let (m, q) = next_mark(src, p)?;
    if m != 632 {
        return None;
    }
    let (v, r) = two_digits(src, q)?;
    let i = tail_at(src, r.at)?;
    Some((v, i))
}

// The byte behind the names of an entry: blanks stand before it.
fn byte_at(src: Source, p: Spot) -> Option<(u8, usize)>
    requires { (p.at ≤ length src.bytes.now) × (p.mode ≡ in_plain) }
    ensures { GapIs src.entry.signs src.entry.bytes.now p result }
{
    let (m, q) = next_mark(src, p)?;
    if m == 32 || m == 9 {
        escaped_byte(src, skip_gaps(src, q))
    } else {
        None
    }
}

// The name at a spot. Inlined: every line of a charmap is asked for one, and at a call the source, the spot and what is found go through memory.
#[inline(always)]
fn name_at(src: Source, p: Spot) -> Option<(Option<Refusal>, Spot, Spot)>
    requires { (p.at ≤ length src.bytes.now) × (p.mode ≡ in_plain) }
    ensures { NamedIs src.entry.signs src.entry.bytes.now p result }
{
    let (m, q) = next_mark(src, p)?;
    if m != 60 {
        return None;
    }
    let (f, r) = end_of_name(src, q)?;
    Some((f, q, r))
}

// The last name of a range, from the spot behind its first dot on.
fn second_name(src: Source, p: Spot) -> Option<(Option<Refusal>, Spot, Spot)>
    requires { (p.at ≤ length src.bytes.now) × (p.mode ≡ in_plain) }
    ensures { DottedIs src.entry.signs src.entry.bytes.now p result }
{
    let (m, q) = next_mark(src, p)?;
    if m == 46 { name_at(src, q) } else { None }
}

// The name or the range at a spot.
fn names_at(src: Source, p: Spot) -> Option<Head>
    requires { (p.at ≤ length src.bytes.now) × (p.mode ≡ in_plain) }
    ensures { HeadsAre src.entry.signs src.entry.bytes.now p result }
{
    let (refusal, first, next) = name_at(src, p)?;
    let name = Head {
        first,
        last: first,
        refusal,
        next,
    };
    let Some((m, x)) = next_mark(src, next) else {
        return Some(name);
    };
    if m != 46 {
        return Some(name);
    }
    let (f, last, end) = second_name(src, x)?;
    Some(Head {
        first,
        last,
        refusal: lower_of(refusal, f),
        next: end,
    })
}

// Whether the bytes of a name are all text.
fn name_text(src: Source, p: Spot) -> bool
    requires { p.at ≤ length src.bytes.now }
    ensures { result ≡ every is_text (name_left src.entry.signs src.entry.bytes.now p) }
{
    let mut q = p;
    while let NameStep::Byte(b, r) = name_byte(src, q) {
        if !is_text(u16::from(b)) {
            return false;
        }
        q = r;
    }
    true
}

// Whether the bytes of two names are all text.
fn both_text(src: Source, p: Spot, q: Spot) -> bool
    requires { (p.at ≤ length src.bytes.now) × (q.at ≤ length src.bytes.now) }
    ensures { result ≡ (every is_text (name_left src.entry.signs src.entry.bytes.now p) && every is_text (name_left src.entry.signs src.entry.bytes.now q)) }
{
    name_text(src, p) && name_text(src, q)
}

// How many LFs stand from one place up to another.
fn feeds_between(src: &[u8], from: usize, end: usize) -> usize
    requires { (from ≤ end) × (end ≤ length src.now) }
    ensures { result ≡ feeds_in (run src.now from end) }
{
    src[from..end].iter().filter(|b| **b == 10).count()
}

// The parts of an entry that is read as far as its digits: from the place i on all is a comment. Its LFs are counted among its own bytes, and
// nothing behind its end is read: as a plain line it could go on there, from join to join to the end of the source, and so could every entry.
fn parts_of(src: Source, at: usize, h: Head, v: u8, i: usize) -> Parts
    requires { Whole src.signs src.bytes.now at h v i }
    ensures { PartsAre src.entry.signs src.entry.bytes.now at result }
{
    let y = Spot {
        at: i,
        mode: IN_COMMENT,
        fresh: false,
    };
    let next = line_end(src, y).next;
    Parts {
        first: h.first,
        last: h.last,
        refusal: h.refusal,
        byte: v,
        text: both_text(src, h.first, h.last),
        next,
        feeds: feeds_between(src.bytes, at, next),
    }
}

// What a line between CHARMAP and END CHARMAP is, from its first place on.
pub fn entry_at(src: Source, at: usize) -> Option<Parts>
    requires { at ≤ length src.bytes.now }
    ensures { EntryIs src.entry.signs src.entry.bytes.now at result }
{
    let p = Spot {
        at,
        mode: IN_PLAIN,
        fresh: true,
    };
    let q = skip_gaps(src, p);
    let h = names_at(src, q)?;
    let (v, i) = byte_at(src, h.next)?;
    Some(parts_of(src, at, h, v, i))
}
