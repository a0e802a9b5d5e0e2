// The tokens of a line, read from a spot on with nothing kept.
#![tactic(auto)]

ghost use Rattle.std.specs.Prelude.{◌<◌, get_or, ◌≡◌, true, ◌&&◌, ◌≤◌, length, leb};
ghost use Rattle.rules.specs.Text.{◌unless◌, lower, same};
ghost use Rattle.rules.specs.Names.{is_visible};
ghost use Rattle.rules.specs.Tokens.{in_word};
ghost use Rattle.rules.specs.Lines.{in_plain, quoted};
ghost use Rattle.text_lines.specs.Stream.{marks_left};
ghost use Rattle.base_units.specs.Numbers.{number_or_none};
ghost use Rattle.text_tokens.specs.Left.{word_in, is_inside, is_plain, PlainTo, PlainAt, WordStepIs, WordEnds, CopiesWord, NameStepIs, ClosingAfter, ClosingIs, QuotesIs, bare_at, named_at, NextIs, Skips, RestIs};

use base_units::{Refusal, lower_of};
use text_lines::{IN_NAME, IN_PLAIN, Source, Spot, next_mark};

// A token of blanks.
const GAP: u8 = 0;

// `;`.
pub const SEMI: u8 = 1;

// `,`.
pub const COMMA: u8 = 2;

// What is malformed.
pub const BROKEN: u8 = 3;

// A word.
pub const WORD: u8 = 4;

// A name.
pub const NAME: u8 = 5;

// Quotes.
pub const QUOTE: u8 = 6;

// The next byte of a name after escapes and joins, or its `>`, with the spot after it; or a name that the line leaves open.
#[derive(Clone, Copy)]
pub enum NameStep {
    Byte(u8, Spot),
    Close(Spot),
    Open,
}

// A token: its kind, the spot after it, the spot after its first mark, how many names it has, its refusal, and of an escape pair the byte.
#[derive(Clone, Copy)]
pub struct Tok {
    pub kind: u8,
    pub next: Spot,
    pub inside: Spot,
    pub names: usize,
    pub refusal: Option<Refusal>,
    pub byte: u8,
}

// The next token of a line. Broken: the tokens still to come hold one that is malformed.
#[derive(Clone, Copy)]
pub enum Next {
    Token(Tok),
    Broken,
    End,
}

// Whether a word goes on with a mark.
fn in_word(m: u16) -> bool
    ensures { result ≡ in_word m }
{
    m < 256 && !matches!(m, 32 | 9 | 59 | 44 | 60 | 34)
}

// The next byte of a word.
pub fn word_byte(src: Source, p: Spot) -> Option<(u8, Spot)>
    requires { p.at ≤ length src.bytes.now }
    ensures { WordStepIs src.entry.signs src.entry.bytes.now p result }
{
    let (m, q) = next_mark(src, p)?;
    if in_word(m) { Some((m as u8, q)) } else { None }
}

// The word at a spot, copied to the front of an area, or as much of it as the area takes: how many bytes that is.
pub fn copy_word(src: Source, p: Spot, area: &mut [u8]) -> usize
    requires { p.at ≤ length src.bytes.now }
    ensures { CopiesWord (word_in (marks_left src.entry.signs src.entry.bytes.now p)) area.old area.new result }
{
    let mut q = p;
    for i in 0..area.len() {
        let Some((b, r)) = word_byte(src, q) else {
            return i;
        };
        area[i] = b;
        q = r;
    }
    area.len()
}

// The spot after a word that goes on.
pub fn end_of_word(src: Source, p: Spot) -> Spot
    requires { (p.at ≤ length src.bytes.now) × (p.mode ≡ in_plain) }
    ensures { WordEnds src.entry.signs src.entry.bytes.now p result }
{
    let mut q = p;
    while let Some((_, r)) = word_byte(src, q) {
        q = r;
    }
    q
}

// Whether a word is this one.
pub fn word_is(src: Source, p: Spot, w: &[u8]) -> bool
    requires { p.at ≤ length src.bytes.now }
    ensures { result ≡ same (word_in (marks_left src.entry.signs src.entry.bytes.now p)) w.now }
{
    let mut q = p;
    for &b in w {
        match word_byte(src, q) {
            Some((a, r)) if a == b => q = r,
            _ => return false,
        }
    }
    word_byte(src, q).is_none()
}

// The next byte of a name.
pub fn name_byte(src: Source, p: Spot) -> NameStep
    requires { p.at ≤ length src.bytes.now }
    ensures { NameStepIs src.entry.signs src.entry.bytes.now p result }
{
    match next_mark(src, p) {
        None => NameStep::Open,
        Some((62, q)) => NameStep::Close(q),
        Some((m, q)) => NameStep::Byte((m % 256) as u8, q),
    }
}

// Whether a byte may stand in a name.
pub fn is_visible(b: u8) -> bool
    ensures { result ≡ is_visible b }
{
    (33..=126).contains(&b)
}

// The refusal of a name of n bytes.
fn name_refusal(n: usize, visible: bool) -> Option<Refusal>
    ensures { number_or_none result ≡ lower (3 unless (leb 1 n && visible)) (7 unless leb n 32) }
{
    if n == 0 || !visible {
        return Some(Refusal::Malformed);
    }
    if n <= 32 {
        None
    } else {
        Some(Refusal::TooMany)
    }
}

// Whether a byte stands for itself in a name and leaves it open, with this escape.
fn is_plain(b: u8, escape: u8) -> bool
    ensures { result ≡ is_plain escape b }
{
    is_visible(b) && b != b'>' && b != escape
}

// How far such bytes go on from a place.
fn plain_to(src: &[u8], escape: u8, at: usize) -> usize
    requires { at ≤ length src.now }
    ensures { PlainTo src.now escape at result }
{
    for i in at..src.len() {
        if !is_plain(src[i], escape) {
            return i;
        }
    }
    src.len()
}

// The end of a name, from a spot inside it that so many visible bytes of the name stand before.
fn end_from(src: Source, p: Spot, before: usize) -> Option<(Option<Refusal>, Spot)>
    requires { (p.at ≤ length src.bytes.now) × (is_inside p.mode ≡ true) × (before ≤ p.at) }
    ensures { ClosingAfter before src.entry.signs src.entry.bytes.now p result }
{
    let mut q = p;
    let mut n: usize = 0;
    let mut visible = true;
    loop {
        match name_byte(src, q) {
            NameStep::Byte(b, r) => {
                n += 1;
                visible = visible && is_visible(b);
                q = r;
            }
            NameStep::Close(r) => return Some((name_refusal(before + n, visible), r)),
            NameStep::Open => return None,
        }
    }
}

// The end of a name, in quotes or not, from a spot inside it. Most names are plain bytes up to their `>`: they are passed as bytes, and what
// stands elsewhere is read mark by mark.
pub fn end_of_name(src: Source, p: Spot) -> Option<(Option<Refusal>, Spot)>
    requires { (p.at ≤ length src.bytes.now) × (is_inside p.mode ≡ true) }
    ensures { ClosingIs src.entry.signs src.entry.bytes.now p result }
{
    let at = plain_to(src.bytes, src.signs.escape, p.at);
    if at == p.at {
        return end_from(src, p, 0);
    }
    let n = at - p.at;
    if at < src.bytes.len() && src.bytes[at] == b'>' && src.signs.escape != b'>' {
        let next = Spot {
            at: at + 1,
            mode: p.mode - 1,
            fresh: false,
        };
        return Some((name_refusal(n, true), next));
    }
    let q = Spot {
        at,
        mode: p.mode,
        fresh: false,
    };
    end_from(src, q, n)
}

// The end of quotes, from the spot after the opening `"`.
fn end_of_quotes(src: Source, p: Spot) -> Option<(usize, Option<Refusal>, Spot)>
    requires { (p.at ≤ length src.bytes.now) × (p.mode ≡ quoted) }
    ensures { QuotesIs src.entry.signs src.entry.bytes.now p result }
{
    let mut q = p;
    let mut n: usize = 0;
    let mut refusal = None;
    loop {
        let (m, r) = next_mark(src, q)?;
        match m {
            34 => return Some((n, refusal, r)),
            60 => {
                let (f, e) = end_of_name(src, r)?;
                refusal = lower_of(refusal, f);
                n += 1;
                q = e;
            }
            _ => return None,
        }
    }
}

// A token that is no more than its kind, and ends at a spot.
fn bare(kind: u8, next: Spot) -> Tok
    ensures { result ≡ bare_at kind next }
{
    Tok {
        kind,
        next,
        inside: next,
        names: 0,
        refusal: None,
        byte: 0,
    }
}

// A name's token: its refusal, the spot after its `<`, and the spot after its `>`.
pub fn named(refusal: Option<Refusal>, inside: Spot, next: Spot) -> Tok
    ensures { result ≡ named_at refusal inside next }
{
    Tok {
        kind: NAME,
        next,
        inside,
        names: 1,
        refusal,
        byte: 0,
    }
}

// The byte at a place, below 256, where a byte is known by its place alone.
fn byte_at(bytes: &[u8], at: usize) -> u8
    requires { at < length bytes.now }
    ensures { (result ≡ get_or bytes.now at 0) × (result < 256) }
{
    bytes[at]
}

// The byte at a place; 0 where it might be no mark of its own in plain mode: the end, an LF, an escape, the comment character.
pub fn plain_at(src: Source, at: usize) -> u8
    ensures { PlainAt src.entry.signs src.entry.bytes.now at result }
{
    if at >= src.bytes.len() {
        return 0;
    }
    let b = byte_at(src.bytes, at);
    if b == src.signs.escape || b == src.signs.comment || b == b'\n' {
        0
    } else {
        b
    }
}

// The next token of a line, at a spot where none is open. A name and a `;` are told by one byte, anything else by the next mark.
pub fn next_token(src: Source, p: Spot) -> Next
    requires { (p.at ≤ length src.bytes.now) × (p.mode ≡ in_plain) }
    ensures { NextIs src.entry.signs src.entry.bytes.now p result }
{
    let at = p.at;
    match plain_at(src, at) {
        b'<' => {
            let q = Spot {
                at: at + 1,
                mode: IN_NAME,
                fresh: false,
            };
            match end_of_name(src, q) {
                Some((f, r)) => return Next::Token(named(f, q, r)),
                None => return Next::Broken,
            }
        }
        b';' => {
            let q = Spot {
                at: at + 1,
                mode: IN_PLAIN,
                fresh: false,
            };
            return Next::Token(bare(SEMI, q));
        }
        _ => return any_token(src, p),
    }
}

// The same by the next mark.
fn any_token(src: Source, p: Spot) -> Next
    requires { (p.at ≤ length src.bytes.now) × (p.mode ≡ in_plain) }
    ensures { NextIs src.entry.signs src.entry.bytes.now p result }
{
    let Some((m, q)) = next_mark(src, p) else {
        return Next::End;
    };
    match m {
        60 => match end_of_name(src, q) {
            Some((f, r)) => return Next::Token(named(f, q, r)),
            None => return Next::Broken,
        },
        34 => match end_of_quotes(src, q) {
            Some((names, refusal, next)) if names > 0 => {
                return Next::Token(Tok {
                    kind: QUOTE,
                    next,
                    inside: q,
                    names,
                    refusal,
                    byte: 0,
                });
            }
            _ => return Next::Broken,
        },
        59 => return Next::Token(bare(SEMI, q)),
        44 => return Next::Token(bare(COMMA, q)),
        32 | 9 => return Next::Token(bare(GAP, q)),
        256.. => {
            return Next::Token(Tok {
                kind: BROKEN,
                next: q,
                inside: q,
                names: 0,
                refusal: Some(Refusal::Malformed),
                byte: (m - 512) as u8,
            });
        }
        _ => return Next::Token(bare(WORD, end_of_word(src, q))),
    }
}

// The spot after the blanks that come next. Most often there is none, or one, and a visible byte behind it.
pub fn skip_gaps(src: Source, p: Spot) -> Spot
    requires { (p.at ≤ length src.bytes.now) × (p.mode ≡ in_plain) }
    ensures { Skips src.entry.signs src.entry.bytes.now p result }
{
    let at = p.at;
    let b = plain_at(src, at);
    if b > 32 {
        return p;
    }
    if b == b' ' && plain_at(src, at + 1) > 32 {
        return Spot {
            at: at + 1,
            mode: IN_PLAIN,
            fresh: true,
        };
    }
    skip_all(src, p)
}

// Whether nothing but blanks is left from a spot on.
pub fn only_blanks(src: Source, p: Spot) -> bool
    requires { (p.at ≤ length src.bytes.now) × (p.mode ≡ in_plain) }
    ensures { RestIs src.entry.signs src.entry.bytes.now p result }
{
    let q = skip_gaps(src, p);
    next_mark(src, q).is_none()
}

// The same by the next marks.
fn skip_all(src: Source, p: Spot) -> Spot
    requires { (p.at ≤ length src.bytes.now) × (p.mode ≡ in_plain) }
    ensures { Skips src.entry.signs src.entry.bytes.now p result }
{
    let mut q = p;
    while let Some((32 | 9, r)) = next_mark(src, q) {
        q = r;
    }
    q
}
