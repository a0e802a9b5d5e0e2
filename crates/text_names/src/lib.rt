// Names in a source, each from the spot right after its `<`: beside other bytes, as a character by its code, as a hash, packed into eight numbers.
#![tactic(auto)]

ghost use Rattle.std.specs.Prelude.{◌≡◌, true, ◌+◌, ◌*◌, ◌%◌, ◌^◌, ◌≤◌, ◌<◌, length, drop, replicate};
ghost use Rattle.rules.specs.Text.{same};
ghost use Rattle.text_tokens.specs.Left.{is_inside};
ghost use Rattle.text_names.specs.Named.{name_left, ByteIs, hex_of, MadeIs, DigitsAre, CodeIs, NamedIs};
ghost use Rattle.text_names.specs.Shape.{number_of_shape, stands_in, stands_at, is_apart, short_of, shape_of};
ghost use Rattle.text_names.specs.Packed.{PackedIs, Begun, PutIs, PackedOn};

use base_units::CodePoint;
use text_lines::{IN_NAME, QUOTED_NAME, Source, Spot, next_mark};
use text_tokens::{NameStep, is_visible, name_byte};

// What a name's bytes make: its hash, and whether it can be declared.
#[derive(Clone, Copy)]
pub struct Pack {
    pub hash: usize,
    pub plain: bool,
}

// The next byte of a name, with the spot after it; none where the name ends, or its line does.
fn next_byte(src: Source, p: Spot) -> Option<(u8, Spot)>
    requires { p.at ≤ length src.bytes.now }
    ensures { ByteIs src.entry.signs src.entry.bytes.now p result }
{
    match name_byte(src, p) {
        NameStep::Byte(b, q) => Some((b, q)),
        NameStep::Close(_) => None,
        NameStep::Open => None,
    }
}

// Whether a name has these bytes.
pub fn name_is(src: Source, p: Spot, w: &[u8]) -> bool
    requires { p.at ≤ length src.bytes.now }
    ensures { result ≡ same (name_left src.entry.signs src.entry.bytes.now p) w.now }
{
    let mut q = p;
    for &b in w {
        match next_byte(src, q) {
            Some((a, r)) if a == b => q = r,
            _ => return false,
        }
    }
    next_byte(src, q).is_none()
}

fn is_inside(mode: u8) -> bool
    ensures { result ≡ is_inside mode }
{
    matches!(mode, IN_NAME | QUOTED_NAME)
}

// Whether a byte of a name is meant as it stands: it is visible, and no escape.
fn stands(b: u8, escape: u8) -> bool
    ensures { result ≡ stands_in escape b }
{
    is_visible(b) && b != escape
}

// Whether a byte of a name that is meant as it stands is at a place.
#[tactic(auto, unfolding(crate::specs::Shape::stands_at))]
fn stands_at(src: &[u8], escape: u8, at: usize) -> bool
    ensures { result ≡ stands_at escape src.now at }
{
    at < src.len() && stands(src[at], escape)
}

// An uppercase hex digit's value, 16 for what is none: x - 48 and x - 65 as numbers modulo 256, so that each asks one test.
fn hex(b: u8) -> u32
    ensures { result ≡ hex_of b }
{
    let x = u32::from(b);
    let figure = (x + 208) % 256;
    let letter = (x + 191) % 256;
    let mut r: u32 = 16;
    if letter < 6 {
        r = letter + 10;
    }
    if figure < 10 {
        r = figure;
    }
    r
}

// What n digits that make x are.
fn made(n: usize, x: u32) -> Option<CodePoint>
    ensures { MadeIs n x result }
{
    if n == 4 || n == 8 {
        Some(CodePoint(x))
    } else {
        None
    }
}

// The code that the bytes of a name make from a spot on, behind its U.
fn digits(src: Source, p: Spot) -> Option<CodePoint>
    requires { p.at ≤ length src.bytes.now }
    ensures { DigitsAre (name_left src.entry.signs src.entry.bytes.now p) result }
{
    let mut q = p;
    let mut n: usize = 0;
    let mut x: u32 = 0;
    while let Some((b, r)) = next_byte(src, q) {
        let d = hex(b);
        if n >= 8 {
            return None;
        }
        if d >= 16 {
            return None;
        }
        x = x * 16 + d;
        n += 1;
        q = r;
    }
    made(n, x)
}

// The code of a name that is shaped as a character, byte by byte.
fn slow_char(src: Source, p: Spot) -> Option<CodePoint>
    requires { p.at ≤ length src.bytes.now }
    ensures { CodeIs (name_left src.entry.signs src.entry.bytes.now p) result }
{
    let (b, q) = next_byte(src, p)?;
    if b == b'U' { digits(src, q) } else { None }
}

// What six bytes say of a name that begins with them: that it asks for a closer look; that it is no character; that it is one, with its code.
#[derive(Clone, Copy)]
enum Shape {
    Unclear,
    Other,
    Code(u32),
}

// Four digits and `>`: the code that they make.
fn short_code(a: u8, b: u8, c: u8, d: u8, close: u8) -> Shape
    ensures { number_of_shape result ≡ short_of a b c d close }
{
    let w = hex(a);
    let x = hex(b);
    let y = hex(c);
    let z = hex(d);
    if w / 16 + x / 16 + y / 16 + z / 16 == 0 && close == b'>' {
        Shape::Code(((w * 16 + x) * 16 + y) * 16 + z)
    } else {
        Shape::Unclear
    }
}

// Whether an escape is no byte of a character's name.
fn is_apart(escape: u8) -> bool
    ensures { result ≡ is_apart escape }
{
    !matches!(escape, b'0'..=b'9' | b'A'..=b'Z' | b'>')
}

// What six bytes from a place on say of a name that begins there.
fn shape_at(src: &[u8], escape: u8, at: usize) -> Shape
    requires { at ≤ length src.now }
    ensures { number_of_shape result ≡ shape_of escape (drop at src.now) }
{
    if !is_apart(escape) || src.len() - at < 6 {
        return Shape::Unclear;
    }
    let u = src[at];
    if u == b'U' {
        short_code(
            src[at + 1],
            src[at + 2],
            src[at + 3],
            src[at + 4],
            src[at + 5],
        )
    } else if stands(u, escape) {
        Shape::Other
    } else {
        Shape::Unclear
    }
}

// The code of a name that is shaped as a character, from a spot inside it.
fn char_inside(src: Source, p: Spot) -> Option<CodePoint>
    requires at_in_bounds { p.at ≤ length src.bytes.now }
    requires mode_value { is_inside p.mode ≡ true }
    ensures { CodeIs (name_left src.entry.signs src.entry.bytes.now p) result }
{
    match shape_at(src.bytes, src.signs.escape, p.at) {
        Shape::Unclear => slow_char(src, p),
        Shape::Other => None,
        Shape::Code(c) => Some(CodePoint(c)),
    }
}

// The code of a name that is shaped as a character.
pub fn name_char(src: Source, p: Spot) -> Option<CodePoint>
    requires { p.at ≤ length src.bytes.now }
    ensures { CodeIs (name_left src.entry.signs src.entry.bytes.now p) result }
{
    if is_inside(p.mode) {
        char_inside(src, p)
    } else {
        slow_char(src, p)
    }
}

// The hash h with a byte more.
fn mixed(h: usize, b: u8) -> usize
    requires { h < 16777216 }
    ensures { (result ≡ (h * 10368889 + b) % 16777216) × (result < 16777216) }
{
    (h * 10368889 + usize::from(b)) % 16777216
}

// What a byte adds to its number, from place k of four.
fn placed(b: u8, k: usize) -> u32
    requires { k < 4 }
    ensures { (result ≡ b * 256 ^ k) × (b < 256) }
{
    let x = u32::from(b);
    match k {
        0 => x,
        1 => x * 256,
        2 => x * 65536,
        _ => x * 16777216,
    }
}

// A byte more of a name that has n so far: how many it has then, or 33 where it cannot be declared.
fn put(key: &mut [u32], n: usize, b: u8) -> usize
    requires { Begun key.old n }
    ensures { PutIs key.old n b key.new result }
{
    if n >= 32 || !is_visible(b) {
        return 33;
    }
    let i = n / 4;
    let x = placed(b, n % 4);
    key[i] += x;
    n + 1
}

// The rest of a name from a spot on, behind n bytes (33: it cannot be declared) that make h.
fn pack_from(src: Source, p: Spot, key: &mut [u32], before: usize, passed: usize) -> Pack
    requires at_in_bounds { p.at ≤ length src.bytes.now }
    requires begun { Begun key.old passed }
    requires before_bound { before < 16777216 }
    ensures { PackedOn (name_left src.entry.signs src.entry.bytes.now p) key.old before passed key.new result }
{
    let mut q = p;
    let mut h = before;
    let mut n = passed;
    while let Some((b, r)) = next_byte(src, q) {
        n = put(key, n, b);
        h = mixed(h, b);
        q = r;
    }
    Pack {
        hash: h,
        plain: n <= 32,
    }
}

// A name in its numbers, from a spot inside it: bytes that stand are taken one after the other, and any other goes the long way.
fn pack_inside(src: Source, p: Spot, key: &mut [u32]) -> Pack
    requires at_in_bounds { p.at ≤ length src.bytes.now }
    requires mode_value { is_inside p.mode ≡ true }
    requires key_value { key.old ≡ replicate 8 0 }
    ensures { PackedIs (name_left src.entry.signs src.entry.bytes.now p) key.new result }
{
    let mut at = p.at;
    let mut fresh = p.fresh;
    let mut h: usize = 0;
    let mut n: usize = 0;
    while stands_at(src.bytes, src.signs.escape, at) {
        let b = src.bytes[at];
        if b == b'>' {
            return Pack {
                hash: h,
                plain: n <= 32,
            };
        }
        n = put(key, n, b);
        h = mixed(h, b);
        fresh = false;
        at += 1;
    }
    pack_from(
        src,
        Spot {
            at,
            mode: p.mode,
            fresh,
        },
        key,
        h,
        n,
    )
}

// A name in its numbers, and its hash.
pub fn pack_name(src: Source, p: Spot, key: &mut [u32]) -> Pack
    requires at_in_bounds { p.at ≤ length src.bytes.now }
    requires key_value { key.old ≡ replicate 8 0 }
    ensures { PackedIs (name_left src.entry.signs src.entry.bytes.now p) key.new result }
{
    if is_inside(p.mode) {
        pack_inside(src, p, key)
    } else {
        pack_from(src, p, key, 0, 0)
    }
}

// The next name in quotes, from a spot in them outside names.
pub fn next_name(src: Source, p: Spot) -> Option<Spot>
    requires { p.at ≤ length src.bytes.now }
    ensures { NamedIs src.entry.signs src.entry.bytes.now p result }
{
    let mut q = p;
    loop {
        let (m, r) = next_mark(src, q)?;
        match m {
            34 => return None,
            60 => return Some(r),
            _ => q = r,
        }
    }
}
