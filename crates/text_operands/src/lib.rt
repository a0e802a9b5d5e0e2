// What follows a line's first token: its operands, read from a spot on with nothing kept.
#![tactic(auto)]

ghost use Rattle.std.specs.Prelude.{◌≡◌, true, false, ◌≤◌, length, eqb};
ghost use Rattle.rules.specs.Lines.{in_plain};
ghost use Rattle.rules.specs.Tokens.{operands, tokens_refusal};
ghost use Rattle.text_lines.specs.Stream.{marks_left, blank_first};
ghost use Rattle.base_units.specs.Numbers.{number_or_none};
ghost use Rattle.text_tokens.specs.Left.{tokens_left};
ghost use Rattle.text_operands.specs.Operand.{operands_left, OperandIs, AfterIs, OneIs};

use base_units::{Refusal, lower_of};
use text_lines::{Source, Spot, next_mark};
use text_tokens::{BROKEN, Next, Tok, WORD, next_token, plain_at, skip_gaps};

// The next operand: the spot where it begins, and its token. Broken: the operands still to come hold one that is malformed.
#[derive(Clone, Copy)]
pub enum Operand {
    Token(Spot, Tok),
    Broken,
    End,
}

// What follows the first token: operands, from a spot after blanks; one that is malformed, where no blank stands before the first; or nothing.
#[derive(Clone, Copy)]
pub enum After {
    Operands(Spot),
    Broken,
    None,
}

// Whether a blank comes next: most often one byte tells it.
fn blank_next(src: Source, p: Spot) -> bool
    requires { (p.at ≤ length src.bytes.now) × (p.mode ≡ in_plain) }
    ensures { result ≡ blank_first (marks_left src.entry.signs src.entry.bytes.now p) }
{
    let b = plain_at(src, p.at);
    if b > 32 {
        return false;
    }
    b == b' ' || blank_mark(src, p)
}

// The same by the next mark.
fn blank_mark(src: Source, p: Spot) -> bool
    requires { p.at ≤ length src.bytes.now }
    ensures { result ≡ blank_first (marks_left src.entry.signs src.entry.bytes.now p) }
{
    match next_mark(src, p) {
        Some((m, _)) => m == 32 || m == 9,
        None => false,
    }
}

// The next operand; glued: a token that is no separator stands right before.
pub fn next_operand(src: Source, p: Spot, glued: bool) -> Operand
    requires { (p.at ≤ length src.bytes.now) × (p.mode ≡ in_plain) }
    ensures { OperandIs src.entry.signs src.entry.bytes.now glued p result }
{
    let apart = blank_next(src, p);
    let q = skip_gaps(src, p);
    match next_token(src, q) {
        Next::End => return Operand::End,
        Next::Broken => return Operand::Broken,
        Next::Token(t) => {
            if t.kind == BROKEN {
                return Operand::Broken;
            }
            if t.kind < BROKEN || apart || !glued {
                return Operand::Token(q, t);
            }
            return Operand::Broken; // no blank stands between the two
        }
    }
}

// What follows the first token of a line, from the spot after that on.
pub fn after_first(src: Source, p: Spot) -> After
    requires { (p.at ≤ length src.bytes.now) × (p.mode ≡ in_plain) }
    ensures { AfterIs src.entry.signs src.entry.bytes.now p result }
{
    if blank_next(src, p) {
        return After::Operands(skip_gaps(src, p));
    }
    match next_token(src, p) {
        Next::End => After::None,
        Next::Broken => After::Broken,
        Next::Token(_) => After::Broken, // no blank stands before it
    }
}

// The lowest refusal of the operands still to come.
pub fn refusal_left(src: Source, p: Spot, glued: bool) -> Option<Refusal>
    requires { (p.at ≤ length src.bytes.now) × (p.mode ≡ in_plain) }
    ensures { number_or_none result ≡ tokens_refusal (operands_left src.entry.signs src.entry.bytes.now glued p) }
{
    let mut q = p;
    let mut held = glued;
    let mut refusal = None;
    loop {
        match next_operand(src, q, held) {
            Operand::Token(_, t) => {
                refusal = lower_of(refusal, t.refusal);
                held = t.kind >= BROKEN;
                q = t.next;
            }
            Operand::Broken => return Some(Refusal::Malformed),
            Operand::End => return refusal,
        }
    }
}

// The lowest refusal of a line's operands, from the spot after its first token on.
pub fn operands_refusal(src: Source, p: Spot) -> Option<Refusal>
    requires { (p.at ≤ length src.bytes.now) × (p.mode ≡ in_plain) }
    ensures { number_or_none result ≡ tokens_refusal (operands (tokens_left src.entry.signs src.entry.bytes.now p)) }
{
    match after_first(src, p) {
        After::None => None,
        After::Broken => Some(Refusal::Malformed),
        After::Operands(x) => refusal_left(src, x, false),
    }
}

// Whether no operand is still to come: a visible byte tells that one is.
pub fn none_left(src: Source, p: Spot, glued: bool) -> bool
    requires { (p.at ≤ length src.bytes.now) × (p.mode ≡ in_plain) }
    ensures { result ≡ eqb (length (operands_left src.entry.signs src.entry.bytes.now glued p)) 0 }
{
    plain_at(src, p.at) <= 32 && none_after(src, p, glued)
}

// The same by the next operand.
fn none_after(src: Source, p: Spot, glued: bool) -> bool
    requires { (p.at ≤ length src.bytes.now) × (p.mode ≡ in_plain) }
    ensures { result ≡ eqb (length (operands_left src.entry.signs src.entry.bytes.now glued p)) 0 }
{
    matches!(next_operand(src, p, glued), Operand::End)
}

// Whether a line has no operand, from the spot after its first token on.
pub fn no_operand(src: Source, p: Spot) -> bool
    requires { (p.at ≤ length src.bytes.now) × (p.mode ≡ in_plain) }
    ensures { result ≡ eqb (length (operands (tokens_left src.entry.signs src.entry.bytes.now p))) 0 }
{
    match after_first(src, p) {
        After::None => true,
        After::Broken => false,
        After::Operands(x) => none_left(src, x, false),
    }
}

// Whether one word is still to come, from a spot after blanks on.
fn word_left(src: Source, p: Spot) -> Option<Spot>
    requires { (p.at ≤ length src.bytes.now) × (p.mode ≡ in_plain) × (p.fresh ≡ true) }
    ensures { OneIs src.entry.signs src.entry.bytes.now (operands_left src.entry.signs src.entry.bytes.now false p) result }
{
    let Operand::Token(q, t) = next_operand(src, p, false) else {
        return None;
    };
    if t.kind == WORD && none_left(src, t.next, true) {
        Some(q)
    } else {
        None
    }
}

// Whether a line's operands are one word, from the spot after its first token on.
pub fn single_word(src: Source, p: Spot) -> Option<Spot>
    requires { (p.at ≤ length src.bytes.now) × (p.mode ≡ in_plain) }
    ensures { OneIs src.entry.signs src.entry.bytes.now (operands (tokens_left src.entry.signs src.entry.bytes.now p)) result }
{
    match after_first(src, p) {
        After::Operands(x) => word_left(src, x),
        After::None | After::Broken => None,
    }
}
