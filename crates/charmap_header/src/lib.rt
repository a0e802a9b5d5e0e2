// A line of a charmap's header, from its first place on: what it changes, or its refusal.
#![tactic(auto)]

ghost use Rattle.std.specs.Prelude.{◌≡◌, ◌&&◌, ◌+◌, ◌≤◌, ◌<◌, length, eqb};
ghost use Rattle.rules.specs.Tokens.{is_text, without_opening_gaps};
ghost use Rattle.rules.specs.Lines.{in_plain};
ghost use Rattle.text_lines.specs.Stream.{line_start};
ghost use Rattle.text_tokens.specs.Left.{tokens_left};
ghost use Rattle.text_names.specs.Named.{name_left};
ghost use Rattle.text_specials.specs.Signed.{Visible, WordIs};
ghost use Rattle.charmap_header.specs.Head.{signs_of, HeadingIs, is_opening, PassedOver, Malformed, Opening, NameOpens, SignNamed, SignOpened, SetBy};

use base_units::Refusal;
use text_lines::{IN_PLAIN, Signs, Source, Spot, is_text, line_end, next_mark};
use text_names::name_is;
use text_reader::line_at;
use text_specials::{Chars, Keyword, after_blanks, may_set, with_set};
use text_tokens::{end_of_name, end_of_word, only_blanks, skip_gaps, word_is};

// The two characters, for the reader of lines.
fn signs_of(h: Chars) -> Signs
    ensures { result ≡ signs_of h }
{
    Signs {
        comment: h.comment,
        escape: h.escape,
    }
}

// A line's first spot.
fn start_of(at: usize) -> Spot
    ensures { result ≡ line_start at }
{
    Spot {
        at,
        mode: IN_PLAIN,
        fresh: true,
    }
}

// Whether no token but blanks is still to come.
fn ends(src: Source, p: Spot) -> bool
    requires { (p.at ≤ length src.bytes.now) × (p.mode ≡ in_plain) }
    ensures { result ≡ eqb (length (without_opening_gaps (tokens_left src.entry.signs src.entry.bytes.now p))) 0 }
{
    only_blanks(src, p)
}

// Whether CHARMAP stands alone from a spot on.
fn is_opening(src: Source, p: Spot) -> bool
    requires { (p.at ≤ length src.bytes.now) × (p.mode ≡ in_plain) }
    ensures { result ≡ is_opening (tokens_left src.entry.signs src.entry.bytes.now p) }
{
    word_is(src, p, b"CHARMAP") && ends(src, end_of_word(src, p))
}

// A line that changes nothing.
fn passed_over(src: &[u8], h: Chars, at: usize) -> Result<(Chars, bool, usize, usize), Refusal>
    requires { PassedOver src.now h at }
    ensures { HeadingIs src.now h at result }
{
    let signs = signs_of(h);
    let text = Source { bytes: src, signs };
    let e = line_at(text, at);
    Ok((h, false, e.next, e.feeds))
}

// A line whose form alone refuses it.
fn malformed(src: &[u8], h: Chars, at: usize) -> Result<(Chars, bool, usize, usize), Refusal>
    requires { Malformed src.now h at }
    ensures { HeadingIs src.now h at result }
{
    let signs = signs_of(h);
    let text = Source { bytes: src, signs };
    let e = line_at(text, at);
    Err(if e.text {
        Refusal::Malformed
    } else {
        Refusal::BadByte
    })
}

// A line that does not begin with `<`.
fn opening_line(
    src: &[u8],
    h: Chars,
    at: usize,
    q: Spot,
) -> Result<(Chars, bool, usize, usize), Refusal>
    requires { Opening src.now h at q }
    ensures { HeadingIs src.now h at result }
{
    let signs = signs_of(h);
    let text = Source { bytes: src, signs };
    let e = line_at(text, at);
    if !e.text {
        return Err(Refusal::BadByte);
    }
    if !is_opening(text, q) {
        return Err(Refusal::Malformed);
    }
    Ok((h, true, e.next, e.feeds))
}

// Whether the byte that is taken as it stands, and the rest of its line, are text.
fn all_text(c: u8, rest: bool) -> bool
    ensures { (result ≡ (is_text (256 + c) && rest)) × (c < 256) }
{
    is_text(u16::from(c)) && rest
}

// A line with the byte c that is taken as it stands: k LFs stand before it, and the rest of the line from the spot after it.
fn set_line(
    src: &[u8],
    h: Chars,
    at: usize,
    comment: bool,
    c: u8,
    k: usize,
    rest: Spot,
) -> Result<(Chars, bool, usize, usize), Refusal>
    requires { SetBy src.now h at comment c k rest }
    ensures { HeadingIs src.now h at result }
{
    let signs = signs_of(h);
    let text = Source { bytes: src, signs };
    let e = line_end(text, rest);
    if !all_text(c, e.text) {
        return Err(Refusal::BadByte);
    }
    if !ends(text, rest) {
        return Err(Refusal::Malformed);
    }
    if !may_set(h, comment, c) {
        return Err(Refusal::Malformed);
    }
    Ok((with_set(h, comment, c), false, e.next, k + e.feeds))
}

// From the spot after the name and one blank on.
fn byte_line(
    src: &[u8],
    h: Chars,
    at: usize,
    x: Spot,
    comment: bool,
) -> Result<(Chars, bool, usize, usize), Refusal>
    requires { SignOpened src.now h at x comment }
    ensures { HeadingIs src.now h at result }
{
    let Some((b, i)) = after_blanks(src, x.at) else {
        return malformed(src, h, at);
    };
    let signs = signs_of(h);
    let text = Source { bytes: src, signs };
    let a = line_at(text, at);
    let d = line_end(text, x);
    let rest = Spot {
        at: i + 1,
        mode: IN_PLAIN,
        fresh: false,
    };
    set_line(src, h, at, comment, b, a.feeds - d.feeds, rest)
}

// From the spot after the name on.
fn sign_line(
    src: &[u8],
    h: Chars,
    at: usize,
    p: Spot,
    comment: bool,
) -> Result<(Chars, bool, usize, usize), Refusal>
    requires { SignNamed src.now h at p comment }
    ensures { HeadingIs src.now h at result }
{
    let signs = signs_of(h);
    let text = Source { bytes: src, signs };
    let Some((m, x)) = next_mark(text, p) else {
        return malformed(src, h, at);
    };
    if m == 32 || m == 9 {
        byte_line(src, h, at, x, comment)
    } else {
        malformed(src, h, at)
    }
}

// Which of the two names stands at a spot.
fn name_at(src: Source, p: Spot) -> Keyword
    requires { p.at ≤ length src.bytes.now }
    ensures { WordIs (name_left src.entry.signs src.entry.bytes.now p) result }
{
    if name_is(src, p, b"comment_char") {
        Keyword::Comment
    } else if name_is(src, p, b"escape_char") {
        Keyword::Escape
    } else {
        Keyword::Neither
    }
}

// From the spot after the line's `<` on.
fn name_line(
    src: &[u8],
    h: Chars,
    at: usize,
    p: Spot,
) -> Result<(Chars, bool, usize, usize), Refusal>
    requires { NameOpens src.now h at p }
    ensures { HeadingIs src.now h at result }
{
    let signs = signs_of(h);
    let text = Source { bytes: src, signs };
    let Some((_, q)) = end_of_name(text, p) else {
        return passed_over(src, h, at);
    };
    match name_at(text, p) {
        Keyword::Comment => sign_line(src, h, at, q, true),
        Keyword::Escape => sign_line(src, h, at, q, false),
        Keyword::Neither => passed_over(src, h, at),
    }
}

// What a header line is, from its first place on.
pub fn header_line(src: &[u8], h: Chars, at: usize) -> Result<(Chars, bool, usize, usize), Refusal>
    requires { (at < length src.now) × Visible (signs_of h) }
    ensures { HeadingIs src.now h at result }
{
    let signs = signs_of(h);
    let text = Source { bytes: src, signs };
    let q = skip_gaps(text, start_of(at));
    let Some((m, p)) = next_mark(text, q) else {
        return passed_over(src, h, at);
    };
    if m == 60 {
        name_line(src, h, at, p)
    } else {
        opening_line(src, h, at, q)
    }
}
