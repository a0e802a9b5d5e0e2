// The comment and the escape character: which bytes may be one, the two in force, and a line that sets one, whose c is taken as it stands.
#![tactic(auto)]

ghost use Rattle.std.specs.Prelude.{◌≡◌, ◌||◌, ◌≤◌, length};
ghost use Rattle.rules.specs.Text.{within, ◌unless◌};
ghost use Rattle.rules.specs.Lines.{is_sign, defaults, sign_refusal, sign_set};
ghost use Rattle.text_specials.specs.Force.{is_free, chars_as, operand};
ghost use Rattle.text_lines.specs.Stream.{marks_left};
ghost use Rattle.text_tokens.specs.Left.{word_in};
ghost use Rattle.text_specials.specs.Signed.{Visible, SignIs, WordIs, FoundIs, KeywordAt, Opened};

use text_lines::{IN_PLAIN, Source, Spot, is_blank, line_end, next_mark};
use text_tokens::{end_of_word, skip_gaps, word_is};

// The two characters in force, and which of the two lines has stood.
#[derive(Clone, Copy)]
pub struct Chars {
    pub comment: u8,
    pub escape: u8,
    pub commented: bool,
    pub escaped: bool,
}

// Whether a byte is a letter or a digit.
fn is_alphanumeric(c: u8) -> bool
    ensures { result ≡ (within 48 57 c || within 65 90 c || within 97 122 c) }
{
    matches!(c, b'0'..=b'9' | b'A'..=b'Z' | b'a'..=b'z')
}

// Whether a byte is none of `< > " ; , . _ -`.
#[tactic(auto, unfolding(crate::specs::Force::is_free, rules::specs::Text::every, rules::specs::Text::bytes))]
fn is_free(c: u8) -> bool
    ensures { result ≡ is_free c }
{
    !matches!(c, b'<' | b'>' | b'"' | b';' | b',' | b'.' | b'_' | b'-')
}

// Whether a byte may be one of the two characters.
#[tactic(auto, unfolding(rules::specs::Lines::is_sign, crate::specs::Force::is_free))]
fn is_sign(c: u8) -> bool
    ensures { result ≡ is_sign c }
{
    (33..=126).contains(&c) && !is_alphanumeric(c) && is_free(c)
}

// Before the first line.
pub fn start() -> Chars
    ensures { chars_as result ≡ defaults }
{
    Chars {
        comment: b'#',
        escape: b'\\',
        commented: false,
        escaped: false,
    }
}

// Whether a line may set one of the two to c.
#[tactic(auto, unfolding(rules::specs::Lines::sign_refusal))]
pub fn may_set(h: Chars, comment: bool, c: u8) -> bool
    ensures { (3 unless result) ≡ sign_refusal (chars_as h) comment (operand c) }
{
    if !is_sign(c) {
        return false;
    }
    if comment {
        !h.commented && c != h.escape
    } else {
        !h.escaped && c != h.comment
    }
}

// The two characters after such a line.
#[tactic(auto, unfolding(rules::specs::Lines::sign_set))]
pub fn with_set(h: Chars, comment: bool, c: u8) -> Chars
    ensures { chars_as result ≡ sign_set (chars_as h) comment (operand c) }
{
    if comment {
        Chars {
            comment: c,
            commented: true,
            ..h
        }
    } else {
        Chars {
            escape: c,
            escaped: true,
            ..h
        }
    }
}

// Which keyword a word is.
#[derive(Clone, Copy)]
pub enum Keyword {
    Comment,
    Escape,
    Neither,
}

// Which keyword stands at a spot.
fn keyword_at(src: Source, p: Spot) -> Keyword
    requires { p.at ≤ length src.bytes.now }
    ensures { WordIs (word_in (marks_left src.entry.signs src.entry.bytes.now p)) result }
{
    if word_is(src, p, b"comment_char") {
        Keyword::Comment
    } else if word_is(src, p, b"escape_char") {
        Keyword::Escape
    } else {
        Keyword::Neither
    }
}

// The first byte after the blanks from a place on, as it stands.
pub fn after_blanks(src: &[u8], at: usize) -> Option<(u8, usize)>
    requires { at ≤ length src.now }
    ensures { FoundIs src.now at result }
{
    for i in at..src.len() {
        let b = src[i];
        if !is_blank(b) {
            return if b == b'\n' { None } else { Some((b, i)) };
        }
    }
    None
}

// The byte that is taken as it stands, from the spot after the keyword and one blank on.
fn byte_from(src: Source, at: usize, x: Spot, comment: bool) -> Option<(bool, u8, usize, Spot)>
    requires { Opened src.signs src.bytes.now at x comment }
    ensures { SignIs src.entry.signs src.entry.bytes.now at result }
{
    let (b, i) = after_blanks(src.bytes, x.at)?;
    let a = line_end(
        src,
        Spot {
            at,
            mode: IN_PLAIN,
            fresh: true,
        },
    );
    let d = line_end(src, x);
    let rest = Spot {
        at: i + 1,
        mode: IN_PLAIN,
        fresh: false,
    };
    Some((comment, b, a.feeds - d.feeds, rest))
}

// A line that the keyword opens.
fn keyword_line(src: Source, at: usize, q: Spot, comment: bool) -> Option<(bool, u8, usize, Spot)>
    requires { KeywordAt src.signs src.bytes.now at q comment }
    ensures { SignIs src.entry.signs src.entry.bytes.now at result }
{
    let r = end_of_word(src, q);
    match next_mark(src, r) {
        Some((32 | 9, x)) => byte_from(src, at, x, comment),
        _ => None,
    }
}

// What a line outside every category is, from its first place on.
pub fn sign_line(src: Source, at: usize) -> Option<(bool, u8, usize, Spot)>
    requires { (at ≤ length src.bytes.now) × Visible src.signs }
    ensures { SignIs src.entry.signs src.entry.bytes.now at result }
{
    let q = skip_gaps(
        src,
        Spot {
            at,
            mode: IN_PLAIN,
            fresh: true,
        },
    );
    match keyword_at(src, q) {
        Keyword::Comment => keyword_line(src, at, q, true),
        Keyword::Escape => keyword_line(src, at, q, false),
        Keyword::Neither => None,
    }
}
