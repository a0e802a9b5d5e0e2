// The lines of a locale source outside every category: one of them, and all up to LC_COLLATE or to the end.
#![tactic(auto)]

ghost use Rattle.std.specs.Prelude.{◌≡◌, ◌≤◌, ◌<◌, ◌+◌, length};
ghost use Rattle.rules.specs.Text.{begins};
ghost use Rattle.rules.specs.Lines.{in_plain};
ghost use Rattle.rules.specs.Source.{is_capital};
ghost use Rattle.text_lines.specs.Stream.{marks_left};
ghost use Rattle.text_tokens.specs.Left.{word_in};
ghost use Rattle.text_specials.specs.Signed.{Visible};
ghost use Rattle.locale_outside.specs.Outside.{is_category, capitals_in, AloneIs, signs_of, OuterIs, PlainOuter, TakenOuter, PlainAt, TakenAt, CategoryAt};
ghost use Rattle.text_reader.specs.Turns.{AtLine, Turns};
ghost use Rattle.locale_skips.specs.Passing.{Begins};
ghost use Rattle.locale_outside.specs.Stretches.{TurnIs, OutersIs, StretchStands, stretch_reading};

use base_units::Refusal;
use locale_skips::skip_category;
use text_lines::{IN_PLAIN, LineEnd, Signs, Source, Spot, is_text, line_end, next_mark};
use text_reader::{reader_at, used_up};
use text_specials::{Chars, may_set, sign_line, with_set};
use text_tokens::{end_of_word, only_blanks, skip_gaps, word_byte, word_is};

// What a line is.
#[derive(Clone, Copy)]
pub enum Outer {
    // a blank line, or one that holds only a comment: the place after it, and its LFs
    Blank(usize, usize),
    // comment_char or escape_char: the two characters after it, the place after it, and its LFs
    Signed(Chars, usize, usize),
    // a category is opened: whether it is LC_COLLATE, the place where its word begins, the place after the line, and its LFs
    Opened(bool, usize, usize, usize),
}

// Whether a byte is a capital or an underscore.
fn is_capital(b: u8) -> bool
    ensures { result ≡ is_capital b }
{
    matches!(b, b'A'..=b'Z' | b'_')
}

// How many bytes a word of capitals and underscores has; None for any other.
fn capitals(src: Source, p: Spot) -> Option<usize>
    requires { p.at ≤ length src.bytes.now }
    ensures { result ≡ capitals_in (word_in (marks_left src.entry.signs src.entry.bytes.now p)) }
{
    let mut q = p;
    let mut n: usize = 0;
    while let Some((b, r)) = word_byte(src, q) {
        if !is_capital(b) {
            return None;
        }
        n += 1;
        q = r;
    }
    Some(n)
}

// Whether a word begins with this.
fn word_begins(src: Source, p: Spot, w: &[u8]) -> bool
    requires { p.at ≤ length src.bytes.now }
    ensures { result ≡ begins w.now (word_in (marks_left src.entry.signs src.entry.bytes.now p)) }
{
    let mut q = p;
    for c in w {
        match word_byte(src, q) {
            Some((b, r)) if b == *c => q = r,
            _ => return false,
        }
    }
    true
}

// Whether a word opens a category.
fn is_category(src: Source, p: Spot) -> bool
    requires { p.at ≤ length src.bytes.now }
    ensures { result ≡ is_category (word_in (marks_left src.entry.signs src.entry.bytes.now p)) }
{
    word_begins(src, p, b"LC_") && matches!(capitals(src, p), Some(4..=32))
}

// Whether a category's word stands at a spot, and nothing but blanks after it.
fn category_alone(src: Source, p: Spot) -> bool
    requires { (p.at ≤ length src.bytes.now) × (p.mode ≡ in_plain) }
    ensures { AloneIs src.entry.signs src.entry.bytes.now p result }
{
    only_blanks(src, end_of_word(src, p)) && is_category(src, p)
}

// A line in which a category's word stands alone.
fn category_line(
    src: &[u8],
    h: Chars,
    collated: bool,
    at: usize,
    q: Spot,
    e: LineEnd,
) -> Result<Outer, Refusal>
    requires { CategoryAt h src.now at q e }
    ensures { PlainOuter h collated src.now at result }
{
    let text = Source {
        bytes: src,
        signs: Signs {
            comment: h.comment,
            escape: h.escape,
        },
    };
    let collate = word_is(text, q, b"LC_COLLATE");
    if collate && collated {
        Err(Refusal::Malformed)
    } else {
        Ok(Outer::Opened(collate, q.at, e.next, e.feeds))
    }
}

// A line in which no byte is taken as it stands: blank, or a category's.
fn plain_line(src: &[u8], h: Chars, collated: bool, at: usize) -> Result<Outer, Refusal>
    requires { PlainAt h src.now at }
    ensures { PlainOuter h collated src.now at result }
{
    let text = Source {
        bytes: src,
        signs: Signs {
            comment: h.comment,
            escape: h.escape,
        },
    };
    let p = Spot {
        at,
        mode: IN_PLAIN,
        fresh: true,
    };
    let e = line_end(text, p);
    let q = skip_gaps(text, p);
    match next_mark(text, q) {
        None => Ok(Outer::Blank(e.next, e.feeds)),
        Some(_) if !e.text => Err(Refusal::BadByte),
        Some(_) if category_alone(text, q) => category_line(src, h, collated, at, q, e),
        Some(_) => Err(Refusal::Malformed),
    }
}

// A line with the byte c, which is taken as it stands, and k LFs before the rest.
fn taken_line(
    src: &[u8],
    h: Chars,
    before: bool,
    at: usize,
    comment: bool,
    c: u8,
    k: usize,
    rest: Spot,
) -> Result<Outer, Refusal>
    requires { TakenAt h src.now at comment c k rest }
    ensures { TakenOuter h before src.now at result }
{
    let text = Source {
        bytes: src,
        signs: Signs {
            comment: h.comment,
            escape: h.escape,
        },
    };
    let e = line_end(text, rest);
    if !e.text || !is_text(c as u16) {
        Err(Refusal::BadByte)
    } else if only_blanks(text, rest) && before && may_set(h, comment, c) {
        Ok(Outer::Signed(with_set(h, comment, c), e.next, k + e.feeds))
    } else {
        Err(Refusal::Malformed)
    }
}

// The line at a place, with two characters in force that are no blanks; whether no category stands before it, and whether LC_COLLATE does.
fn outer_line(
    src: &[u8],
    h: Chars,
    before: bool,
    collated: bool,
    at: usize,
) -> Result<Outer, Refusal>
    requires { (at < length src.now) × Visible (signs_of h) }
    ensures { OuterIs h before collated src.now at result }
{
    let text = Source {
        bytes: src,
        signs: Signs {
            comment: h.comment,
            escape: h.escape,
        },
    };
    match sign_line(text, at) {
        None => plain_line(src, h, collated, at),
        Some((comment, c, k, rest)) => taken_line(src, h, before, at, comment, c, k, rest),
    }
}

// What a line is, with the category that it opens.
#[derive(Clone, Copy)]
pub enum Turn {
    // lines outside LC_COLLATE: the two characters after them, whether no category has stood, the place after them and the number of the
    // line there
    On(Chars, bool, usize, usize),
    // LC_COLLATE is opened: the two characters, the place after the line and the number of the line there
    Collate(Chars, usize, usize),
}

// What all lines are.
#[derive(Clone, Copy)]
pub enum Outers {
    // LC_COLLATE is opened: the two characters, the place after its line and the number of the line there
    Collate(Chars, usize, usize),
    // the source ends: the two characters, whether no category has stood, the number of the line there
    End(Chars, bool, usize),
}

// The line at a place, and all lines of the category that it opens, if that is not LC_COLLATE.
fn outer_turn(
    src: &[u8],
    h: Chars,
    before: bool,
    collated: bool,
    at: usize,
    number: usize,
) -> Result<Turn, (Refusal, usize)>
    requires { (at < length src.now) × (number ≤ at + 1) × Visible (signs_of h) }
    ensures { TurnIs h before collated src.now at number result }
{
    match outer_line(src, h, before, collated, at) {
        Ok(Outer::Blank(next, feeds)) => Ok(Turn::On(h, before, next, number + feeds)),
        Ok(Outer::Signed(c, next, feeds)) => Ok(Turn::On(c, before, next, number + feeds)),
        Ok(Outer::Opened(collate, word, next, feeds)) => {
            let n = number + feeds;
            if collate {
                return Ok(Turn::Collate(h, next, n));
            }
            let text = Source {
                bytes: src,
                signs: Signs {
                    comment: h.comment,
                    escape: h.escape,
                },
            };
            let (i, m) = skip_category(text, next, n, word)?;
            Ok(Turn::On(h, false, i, m))
        }
        Err(r) => Err((r, number)),
    }
}

// How far the lines are read. As in every state of a loop that holds a reader (crates/text_reader), the first three fields are whether the loop is over,
// and the place and the number of the line that comes next.
#[derive(Clone, Copy)]
struct Stretch {
    over: bool,
    next: usize,
    number: usize,
    // what is answered if it is over, or no line comes next
    answer: Result<Outers, (Refusal, usize)>,
    // the two characters, whether no category has stood, and whether LC_COLLATE has
    chars: Chars,
    before: bool,
    collated: bool,
}

// The line at a place, which comes next, and all lines of the category that it opens, if that is not LC_COLLATE.
fn outer_stretch(src: &[u8], s: Stretch, at: usize, number: usize) -> Stretch
    requires { AtLine stretch_reading src.now s at number }
    ensures { Turns stretch_reading src.now s at number result }
{
    match outer_turn(src, s.chars, s.before, s.collated, at, number) {
        Ok(Turn::On(d, still, next, n)) => Stretch {
            over: false,
            next,
            number: n,
            answer: Ok(Outers::End(d, still, n)),
            chars: d,
            before: still,
            ..s
        },
        Ok(Turn::Collate(d, next, n)) => Stretch {
            over: true,
            next,
            number: n,
            answer: Ok(Outers::Collate(d, next, n)),
            chars: d,
            ..s
        },
        Err((r, l)) => Stretch {
            over: true,
            next: at,
            number,
            answer: Err((r, l)),
            ..s
        },
    }
}

// The lines that come next, up to the one that opens LC_COLLATE or is refused, or to the end of the source.
fn outer_stretches(src: &[u8], s: Stretch) -> Stretch
    requires { StretchStands src.now s s s.next s.number }
    ensures { OutersIs s.chars s.before s.collated src.now s.next s.number result.answer }
{
    let mut t = s;
    let mut q = reader_at(src, t.next, t.number);
    while !used_up(q) {
        t = outer_stretch(q.src, t, q.at, q.number);
        if t.over {
            return t;
        }
        q = reader_at(q.src, t.next, t.number);
    }
    t
}

// The lines from a place on, with two characters in force that are no blanks; whether no category stands before them, and whether LC_COLLATE
// does.
pub fn outer_lines(
    src: &[u8],
    h: Chars,
    before: bool,
    collated: bool,
    at: usize,
    number: usize,
) -> Result<Outers, (Refusal, usize)>
    requires { Begins src.now at number × Visible (signs_of h) }
    ensures { OutersIs h before collated src.now at number result }
{
    let s = Stretch {
        over: false,
        next: at,
        number,
        answer: Ok(Outers::End(h, before, number)),
        chars: h,
        before,
        collated,
    };
    outer_stretches(src, s).answer
}
