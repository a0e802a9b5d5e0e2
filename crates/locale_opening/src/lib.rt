// How a line in LC_COLLATE that is read whole begins: blank, with a word, which keyword that is, with a name.
#![tactic(auto)]

ghost use Rattle.std.specs.Prelude.{◌≤◌, length, ◌≡◌};
ghost use Rattle.text_lines.specs.Stream.{marks_left};
ghost use Rattle.text_tokens.specs.Left.{word_in};
ghost use Rattle.locale_opening.specs.Keyed.{KeywordIs, LaterIs};
ghost use Rattle.rules.specs.Text.{◌unless◌, lower};
ghost use Rattle.base_units.specs.Numbers.{number_of, number_or_none};
ghost use Rattle.locale_opening.specs.Begun.{OpeningIs};

use base_units::{Refusal, lower_of};
use text_lines::{IN_PLAIN, LineEnd, Source, Spot, line_end};
use text_tokens::{NAME, Next, Tok, WORD, next_token, skip_gaps, word_is};

// The first words that the paper's collate_line tells apart, in its order; Other: none of them.
#[derive(Clone, Copy)]
pub enum Keyword {
    Define,
    Undef,
    Ifdef,
    Ifndef,
    Elif,
    Else,
    Endif,
    Symbol,
    Element,
    OrderStart,
    OrderEnd,
    Undefined,
    ReorderAfter,
    ReorderEnd,
    End,
    Other,
}

// Which of the words that are no conditional's stands at a spot.
fn later_at(src: Source, p: Spot) -> Keyword
    requires { p.at ≤ length src.bytes.now }
    ensures { LaterIs (word_in (marks_left src.entry.signs src.entry.bytes.now p)) result }
{
    if word_is(src, p, b"collating-symbol") {
        Keyword::Symbol
    } else if word_is(src, p, b"collating-element") {
        Keyword::Element
    } else if word_is(src, p, b"order_start") {
        Keyword::OrderStart
    } else if word_is(src, p, b"order_end") {
        Keyword::OrderEnd
    } else if word_is(src, p, b"UNDEFINED") {
        Keyword::Undefined
    } else if word_is(src, p, b"reorder-after") {
        Keyword::ReorderAfter
    } else if word_is(src, p, b"reorder-end") {
        Keyword::ReorderEnd
    } else if word_is(src, p, b"END") {
        Keyword::End
    } else {
        Keyword::Other
    }
}

// Which keyword stands at a spot.
pub fn keyword_at(src: Source, p: Spot) -> Keyword
    requires { p.at ≤ length src.bytes.now }
    ensures { KeywordIs (word_in (marks_left src.entry.signs src.entry.bytes.now p)) result }
{
    if word_is(src, p, b"define") {
        Keyword::Define
    } else if word_is(src, p, b"undef") {
        Keyword::Undef
    } else if word_is(src, p, b"ifdef") {
        Keyword::Ifdef
    } else if word_is(src, p, b"ifndef") {
        Keyword::Ifndef
    } else if word_is(src, p, b"elif") {
        Keyword::Elif
    } else if word_is(src, p, b"else") {
        Keyword::Else
    } else if word_is(src, p, b"endif") {
        Keyword::Endif
    } else {
        later_at(src, p)
    }
}

// What a line begins with, and its end.
#[derive(Clone, Copy)]
pub enum Opening {
    // nothing but blanks
    Blank(LineEnd),
    // what may begin no line: a separator, quotes, an escape pair, or what is malformed
    Foul(LineEnd),
    // a word: the spot where it begins, and it
    Word(Spot, Tok, LineEnd),
    // a name: the spot where it begins, and it
    Name(Spot, Tok, LineEnd),
}

// A line's refusal: that of a byte of it that is no text, else r.
pub fn line_refusal(text: bool, r: Option<Refusal>) -> Option<Refusal>
    ensures { number_or_none result ≡ lower (2 unless text) (number_or_none r) }
{
    if text {
        r
    } else {
        lower_of(Some(Refusal::BadByte), r)
    }
}

// The same where r is a refusal of a line.
pub fn refusal_with(text: bool, r: Refusal) -> Refusal
    requires { 2 ≤ number_of r }
    ensures { number_of result ≡ lower (2 unless text) (number_of r) }
{
    if text { r } else { Refusal::BadByte }
}

// The same of a line that is malformed or misplaced.
pub fn malformed(text: bool) -> Refusal
    ensures { number_of result ≡ lower (2 unless text) 3 }
{
    refusal_with(text, Refusal::Malformed)
}

// How the line at a place begins.
pub fn open_line(src: Source, at: usize) -> Opening
    requires { at ≤ length src.bytes.now }
    ensures { OpeningIs src.entry.signs src.entry.bytes.now at result }
{
    let p = Spot {
        at,
        mode: IN_PLAIN,
        fresh: true,
    };
    let e = line_end(src, p);
    let q = skip_gaps(src, p);
    match next_token(src, q) {
        Next::End => Opening::Blank(e),
        Next::Broken => Opening::Foul(e),
        Next::Token(t) if t.kind == WORD => Opening::Word(q, t, e),
        Next::Token(t) if t.kind == NAME => Opening::Name(q, t, e),
        Next::Token(_) => Opening::Foul(e),
    }
}
