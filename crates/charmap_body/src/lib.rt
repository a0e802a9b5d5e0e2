// What a line between CHARMAP and END CHARMAP does.
#![tactic(auto)]

ghost use Rattle.std.specs.Prelude.{◌≡◌, false, ◌&&◌, ◌≤◌, ◌<◌, length, eqb, ltb};
ghost use Rattle.rules.specs.Lines.{in_plain};
ghost use Rattle.rules.specs.Tokens.{without_gaps, tokens_of, is_entry};
ghost use Rattle.base_units.specs.Numbers.{number_or_none};
ghost use Rattle.text_lines.specs.Stream.{marks_left, line_start};
ghost use Rattle.text_tokens.specs.Left.{tokens_left};
ghost use Rattle.text_names.specs.Named.{name_left};
ghost use Rattle.charmap_entry.specs.Entered.{PartsAre};
ghost use Rattle.charmap_body.specs.Outcomes.{Area, CharIs, CodesAre, RangeIs, CodesGive, EntryIs, EnterIs, before_codes};
ghost use Rattle.charmap_body.specs.Body.{BodyIs};
ghost use Rattle.charmap_body.specs.Plain.{sole_word, is_end_line, KindIs, PlainIs};

use base_units::{CodePoint, Refusal, is_character, lower_of};
use charmap_entry::{Parts, entry_at};
use charmap_numbers::{any_given, give_range};
use text_lines::{IN_PLAIN, Source, Spot, next_mark};
use text_names::name_char;
use text_reader::line_at;
use text_tokens::{Next, end_of_word, next_token, skip_gaps, word_is};

// What a line is that is no entry.
#[derive(Clone, Copy)]
pub enum Kind {
    Blank,
    End,
    Other,
}

// The code of a name that is a character's.
fn char_code(src: Source, p: Spot) -> Option<CodePoint>
    requires { p.at ≤ length src.bytes.now }
    ensures { CharIs (name_left src.entry.signs src.entry.bytes.now p) result }
{
    let c = name_char(src, p)?;
    if is_character(c) { Some(c) } else { None }
}

// Whether D800 to DFFF lie between two codes.
fn spans(low: CodePoint, high: CodePoint) -> bool
    ensures { result ≡ (ltb low.0 0xD800 && ltb 0xDFFF high.0) }
{
    low.0 < 0xD800 && 0xDFFF < high.0
}

// The codes of an entry's first and last name.
fn codes_of(src: Source, first: Spot, last: Spot) -> Option<(CodePoint, CodePoint)>
    requires { (first.at ≤ length src.bytes.now) × (last.at ≤ length src.bytes.now) }
    ensures { CodesAre (name_left src.entry.signs src.entry.bytes.now first) (name_left src.entry.signs src.entry.bytes.now last) result }
{
    let low = char_code(src, first)?;
    let high = char_code(src, last)?;
    if spans(low, high) {
        None
    } else {
        Some((low, high))
    }
}

// What the codes from low to high give, from a byte on.
fn range_outcome(
    low: CodePoint,
    high: CodePoint,
    byte: u8,
    area: &[u32],
) -> Result<(usize, CodePoint, usize), Refusal>
    requires { Area area.now × (high.0 ≤ 0x10FFFF) }
    ensures { RangeIs area.now low.0 high.0 byte result }
{
    if high.0 < low.0 {
        return Err(Refusal::TooMany); // backwards
    }
    let from = byte as usize;
    let more = (high.0 - low.0) as usize;
    if 255 < from + more {
        return Err(Refusal::TooMany); // past FF
    }
    let n = more + 1;
    if any_given(area, from, n) {
        return Err(Refusal::ByteTwice);
    }
    Ok((from, low, n))
}

// What the names and the byte of an entry give, whatever else is wrong with it.
fn codes_outcome(src: Source, p: Parts, area: &[u32]) -> Result<(usize, CodePoint, usize), Refusal>
    requires { Area area.now × (p.first.at ≤ length src.bytes.now) × (p.last.at ≤ length src.bytes.now) }
    ensures { CodesGive (name_left src.entry.signs src.entry.bytes.now p.first) (name_left src.entry.signs src.entry.bytes.now p.last) p.byte area.now result }
{
    let Some((low, high)) = codes_of(src, p.first, p.last) else {
        return Err(Refusal::Unknown);
    };
    range_outcome(low, high, p.byte, area)
}

// The refusal that an entry has before its codes are read.
fn before_codes(text: bool, names: Option<Refusal>) -> Option<Refusal>
    ensures { number_or_none result ≡ before_codes text (number_or_none names) }
{
    if text {
        names
    } else {
        lower_of(Some(Refusal::BadByte), names)
    }
}

// What an entry gives.
fn entry_outcome(src: Source, p: Parts, area: &[u32]) -> Result<(usize, CodePoint, usize), Refusal>
    requires { Area area.now × (p.first.at ≤ length src.bytes.now) × (p.last.at ≤ length src.bytes.now) }
    ensures { EntryIs p.text (number_or_none p.refusal) (name_left src.entry.signs src.entry.bytes.now p.first) (name_left src.entry.signs src.entry.bytes.now p.last) p.byte area.now result }
{
    let codes = codes_outcome(src, p, area);
    match lower_of(before_codes(p.text, p.refusal), codes.err()) {
        None => codes,
        Some(r) => Err(r),
    }
}

// What an entry gives is given.
fn enter(src: Source, p: Parts, area: &mut [u32]) -> Result<(), Refusal>
    requires { Area area.old × (p.first.at ≤ length src.bytes.now) × (p.last.at ≤ length src.bytes.now) }
    ensures { EnterIs p.text (number_or_none p.refusal) (name_left src.entry.signs src.entry.bytes.now p.first) (name_left src.entry.signs src.entry.bytes.now p.last) p.byte area.old area.new result }
{
    let (b, c, n) = entry_outcome(src, p, area)?;
    give_range(area, b, c, n);
    Ok(())
}

// Whether no token is left.
fn no_tokens(src: Source, p: Spot) -> bool
    requires { (p.at ≤ length src.bytes.now) × (p.mode ≡ in_plain) }
    ensures { result ≡ eqb (length (tokens_left src.entry.signs src.entry.bytes.now p)) 0 }
{
    matches!(next_token(src, p), Next::End)
}

// Whether a word w, of a byte or more, is all that is left but for blanks.
fn only_word(src: Source, p: Spot, w: &[u8]) -> bool
    requires { (p.at ≤ length src.bytes.now) × (p.mode ≡ in_plain) × (0 < length w.now) }
    ensures { result ≡ sole_word (without_gaps false (tokens_left src.entry.signs src.entry.bytes.now p)) w.now }
{
    let q = skip_gaps(src, p);
    word_is(src, q, w) && no_tokens(src, skip_gaps(src, end_of_word(src, q)))
}

// Whether the tokens from a spot on are END CHARMAP.
fn is_end(src: Source, p: Spot) -> bool
    requires { (p.at ≤ length src.bytes.now) × (p.mode ≡ in_plain) }
    ensures { result ≡ is_end_line (tokens_left src.entry.signs src.entry.bytes.now p) }
{
    if !word_is(src, p, b"END") {
        return false;
    }
    let Some((m, r)) = next_mark(src, end_of_word(src, p)) else {
        return false;
    };
    if m == 32 || m == 9 {
        only_word(src, r, b"CHARMAP")
    } else {
        false // as `a && b` the value of the whole has no name that an answer could cite
    }
}

// What a line is that is no entry, from its first spot on.
fn line_kind(src: Source, p: Spot) -> Kind
    requires { (p.at ≤ length src.bytes.now) × (p.mode ≡ in_plain) }
    ensures { KindIs (tokens_of (marks_left src.entry.signs src.entry.bytes.now p)) result }
{
    let q = skip_gaps(src, p);
    if no_tokens(src, q) {
        Kind::Blank
    } else if is_end(src, q) {
        Kind::End
    } else {
        Kind::Other
    }
}

// What a line does that is no entry, from its first place on.
fn plain_line(src: Source, at: usize) -> Result<(bool, usize, usize), Refusal>
    requires { (at ≤ length src.bytes.now) × (is_entry (tokens_of (marks_left src.signs src.bytes.now (line_start at))) ≡ false) }
    ensures { PlainIs src.entry.signs src.entry.bytes.now at result }
{
    let p = Spot {
        at,
        mode: IN_PLAIN,
        fresh: true,
    };
    let e = line_at(src, at);
    match line_kind(src, p) {
        Kind::Blank => Ok((false, e.next, e.feeds)),
        Kind::End => {
            if e.text {
                Ok((true, e.next, e.feeds))
            } else {
                Err(Refusal::BadByte)
            }
        }
        Kind::Other => Err(if e.text {
            Refusal::Malformed
        } else {
            Refusal::BadByte
        }),
    }
}

// What an entry does, from its line's first place on.
fn entry_line(
    src: Source,
    at: usize,
    p: Parts,
    area: &mut [u32],
) -> Result<(bool, usize, usize), Refusal>
    requires { Area area.old × PartsAre src.signs src.bytes.now at p }
    ensures { BodyIs src.entry.signs src.entry.bytes.now at area.old area.new result }
{
    enter(src, p, area)?;
    Ok((false, p.next, p.feeds))
}

// What a line between CHARMAP and END CHARMAP does, from its first place on.
pub fn body_line(src: Source, at: usize, area: &mut [u32]) -> Result<(bool, usize, usize), Refusal>
    requires { Area area.old × (at ≤ length src.bytes.now) }
    ensures { BodyIs src.entry.signs src.entry.bytes.now at area.old area.new result }
{
    match entry_at(src, at) {
        None => plain_line(src, at),
        Some(p) => entry_line(src, at, p, area),
    }
}
