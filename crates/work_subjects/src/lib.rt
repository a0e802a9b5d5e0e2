// What stands at a mark of the source: a name's subject, or the characters of quotes; and the numbers that tell it from all others of its kind.
#![tactic(auto)]

ghost use Rattle.std.specs.Prelude.{◌≡◌, true, ◌/◌, ◌≤◌, ◌<◌, length, replicate};
ghost use Rattle.rules.specs.Lines.{quoted};
ghost use Rattle.rules.specs.State.{character};
ghost use Rattle.text_tokens.specs.Left.{is_inside};
ghost use Rattle.text_names.specs.Named.{name_left};
ghost use Rattle.work_subjects.specs.Keys.{name_spot, quote_spot, char_of, chars_left, subject_left, item, chars, AfterName, NextIs, key_at};
ghost use Rattle.work_subjects.specs.Numbers.{kind_number, narrow, squeezed, NumbersAre, CodePut};

use base_units::CodePoint;
use text_lines::{IN_NAME, QUOTED, Source, Spot};
use text_names::{name_char, next_name, pack_name};
use text_tokens::end_of_name;

// What a key is.
#[derive(Clone, Copy)]
pub enum Kind {
    Character = 0,
    Name,
    // the characters of quotes
    Chars,
}

impl Kind {
    // The number that stands for it in the work area.
    pub fn number(self) -> u32
        ensures { result ≡ kind_number self }
    {
        self as u32
    }
}

// What is told of a key: its hash, its kind, and whether it can be declared.
#[derive(Clone, Copy)]
pub struct Told {
    pub hash: usize,
    pub kind: Kind,
    pub plain: bool,
}

// The spot of a name's mark, right after its `<`.
fn name_spot(v: usize) -> Spot
    ensures { result ≡ name_spot (v / 2) }
{
    Spot {
        at: v / 2,
        mode: IN_NAME,
        fresh: false,
    }
}

// The spot of the mark of quotes, right after the opening `"`.
fn quote_spot(v: usize) -> Spot
    ensures { result ≡ quote_spot (v / 2) }
{
    Spot {
        at: v / 2,
        mode: QUOTED,
        fresh: false,
    }
}

// The code of a name in quotes, 0 for one that is not shaped as a character.
pub fn char_at(src: Source, p: Spot) -> CodePoint
    requires { p.at ≤ length src.bytes.now }
    ensures { result.0 ≡ char_of (name_left src.entry.signs src.entry.bytes.now p) }
{
    name_char(src, p).unwrap_or(CodePoint(0))
}

// The spot after a name in quotes; after one that is left open, the source's end.
pub fn after_name(src: Source, p: Spot) -> Spot
    requires { (p.at ≤ length src.bytes.now) × (is_inside p.mode ≡ true) }
    ensures { AfterName src.entry.signs src.entry.bytes.now p result }
{
    match end_of_name(src, p) {
        Some((_, q)) => q,
        None => Spot {
            at: src.bytes.len(),
            mode: QUOTED,
            fresh: false,
        },
    }
}

// The next character in quotes, from a spot in them outside names.
pub fn next_char(src: Source, p: Spot) -> Option<(CodePoint, Spot)>
    requires { (p.at ≤ length src.bytes.now) × (p.mode ≡ quoted) }
    ensures { NextIs src.entry.signs src.entry.bytes.now p result }
{
    let q = next_name(src, p)?;
    Some((char_at(src, q), after_name(src, q)))
}

// The numbers of characters in quotes, of which n are passed, with one more; how many are passed then. None: they are too many, or one of them is none.
fn put_code(key: &mut [u32], n: Option<usize>, c: CodePoint) -> Option<usize>
    requires { length key.old ≡ 8 }
    ensures { CodePut key.old n c.0 key.new result }
{
    match n {
        Some(n) if n < 4 && c.0 < 0x110000 => {
            key[n] = c.0 + 1;
            Some(n + 1)
        }
        _ => None,
    }
}

// The numbers of the characters in quotes.
fn chars_numbers(src: Source, p: Spot, key: &mut [u32]) -> Told
    requires { (p.at ≤ length src.bytes.now) × (p.mode ≡ quoted) × (key.old ≡ replicate 8 0) }
    ensures { NumbersAre (chars (chars_left src.entry.signs src.entry.bytes.now p)) key.new result }
{
    let mut q = p;
    let mut n = Some(0);
    let mut h: usize = 0;
    while let Some((c, r)) = next_char(src, q) {
        n = put_code(key, n, c);
        h = (h * 10368889 + c.0 as usize) % 16777216;
        q = r;
    }
    Told {
        hash: h,
        kind: Kind::Chars,
        plain: n.is_some(),
    }
}

// Four bytes in 28 bits.
fn narrowed(q: u32) -> u32
    ensures { (result ≡ narrow q) × (result < 268435456) }
{
    q % 128 + 128 * (q / 256 % 128) + 16384 * (q / 65536 % 128) + 2097152 * (q / 16777216 % 128)
}

// The eight numbers of a name as seven.
fn squeeze(key: &mut [u32])
    requires { length key.old ≡ 8 }
    ensures { key.new ≡ squeezed key.old }
{
    let mut rest = narrowed(key[7]);
    for i in 0..7 {
        key[i] = narrowed(key[i]) + 268435456 * (rest % 16);
        rest /= 16;
    }
    key[7] = 0;
}

// The number of a character, where it is one.
fn code_numbers(x: CodePoint, key: &mut [u32]) -> Told
    requires { key.old ≡ replicate 8 0 }
    ensures { NumbersAre (item (character x.0)) key.new result }
{
    let plain = x.0 < 0x110000;
    if plain {
        key[0] = 2 * x.0 + 2;
    }
    Told {
        hash: x.0 as usize % 16777216,
        kind: Kind::Character,
        plain,
    }
}

// The numbers of what the name at a spot means.
fn subject_numbers(src: Source, p: Spot, key: &mut [u32]) -> Told
    requires { (p.at ≤ length src.bytes.now) × (key.old ≡ replicate 8 0) }
    ensures { NumbersAre (item (subject_left src.entry.signs src.entry.bytes.now p)) key.new result }
{
    match name_char(src, p) {
        Some(x) => code_numbers(x, key),
        None => {
            let k = pack_name(src, p, key);
            squeeze(key);
            Told {
                hash: k.hash,
                kind: Kind::Name,
                plain: k.plain,
            }
        }
    }
}

// The numbers of what stands at a mark, its hash and kind, and whether it can be declared.
pub fn key_numbers(src: Source, v: usize, key: &mut [u32]) -> Told
    requires { (v / 2 ≤ length src.bytes.now) × (key.old ≡ replicate 8 0) }
    ensures { NumbersAre (key_at src.entry.signs src.entry.bytes.now v) key.new result }
{
    if v % 2 == 0 {
        subject_numbers(src, name_spot(v), key)
    } else {
        chars_numbers(src, quote_spot(v), key)
    }
}
