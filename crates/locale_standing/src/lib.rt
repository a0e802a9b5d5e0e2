// The operands of an order line: whether what they name stands (a character, or a declared name), their refusal, and how many there are.
#![tactic(auto)]

ghost use Rattle.std.specs.Prelude.{◌≡◌, true, false, [], ◌≤◌, length};
ghost use Rattle.rules.specs.Lines.{in_plain, quoted};
ghost use Rattle.rules.specs.Tokens.{operands};
ghost use Rattle.rules.specs.OrderLines.{split_at, operand_list};
ghost use Rattle.base_units.specs.Numbers.{number_or_none};
ghost use Rattle.text_lines.specs.Stream.{marks_left};
ghost use Rattle.text_tokens.specs.Left.{tokens_left, token_there, is_inside, names_in, TokenIs};
ghost use Rattle.text_operands.specs.Operand.{operands_left};
ghost use Rattle.work_subjects.specs.Keys.{key_at};
ghost use Rattle.work_store.specs.Store.{Sound};
ghost use Rattle.locale_standing.specs.Standing.{names_of, Inside, Stands, AllStand};
ghost use Rattle.locale_standing.specs.Refusing.{WeightRefused, OneRefused, TurnIs, Counts};

use base_units::{Refusal, is_character, lower_of};
use locale_weights::{Weight, next_weight};
use text_lines::{Source, Spot};
use text_names::{name_char, next_name};
use text_operands::{After, after_first, none_left};
use text_tokens::{NAME, QUOTE, Tok, WORD, end_of_name, word_is};
use work_store::find;

// The refusal of the next operand, and the spot after its `;`; or the refusal of the last one. Bad: the operands are malformed.
#[derive(Clone, Copy)]
pub enum Turn {
    More(Option<Refusal>, Spot),
    Last(Option<Refusal>),
    Bad,
}

// The lowest refusal of an order line's operands, and how many there are; of those that are malformed the number says nothing.
#[derive(Clone, Copy)]
pub struct Counted {
    pub refusal: Option<Refusal>,
    pub operands: usize,
}

// What is counted where there is no operand.
const NO_OPERANDS: Counted = Counted {
    refusal: None,
    operands: 0,
};

// Whether the name at a spot stands: it is that of a character, or declared.
fn stands_at(src: Source, work: &[u32], p: Spot) -> bool
    requires at_in_bounds { (p.at ≤ length src.bytes.now) × (is_inside p.mode ≡ true) }
    requires sound { Sound (key_at src.signs src.bytes.now) (length src.bytes.now) work.now }
    ensures { Stands src.entry.signs src.entry.bytes.now work.now p result }
{
    match name_char(src, p) {
        Some(x) => is_character(x),
        None => find(src, work, 2 * p.at).is_some(),
    }
}

// Whether all names in quotes stand, from a spot in them outside names.
fn quoted_stand(src: Source, work: &[u32], p: Spot) -> bool
    requires at_in_bounds { (p.at ≤ length src.bytes.now) × (p.mode ≡ quoted) }
    requires sound { Sound (key_at src.signs src.bytes.now) (length src.bytes.now) work.now }
    ensures { AllStand src.entry.signs src.entry.bytes.now work.now (names_in (marks_left src.entry.signs src.entry.bytes.now p)) result }
{
    let mut q = p;
    while let Some(r) = next_name(src, q) {
        if !stands_at(src, work, r) {
            return false;
        }
        let Some((_, e)) = end_of_name(src, r) else {
            return true;
        };
        q = e;
    }
    true
}

// Whether all names of a token stand.
fn names_stand(src: Source, work: &[u32], t: Tok) -> bool
    requires inside { Inside (length src.bytes.now) t }
    requires sound { Sound (key_at src.signs src.bytes.now) (length src.bytes.now) work.now }
    ensures { AllStand src.entry.signs src.entry.bytes.now work.now (names_of src.entry.signs src.entry.bytes.now t) result }
{
    let p = t.inside;
    if t.kind == NAME {
        return stands_at(src, work, p);
    }
    if t.kind == QUOTE {
        return quoted_stand(src, work, p);
    }
    true
}

// The refusal of an operand that is one token: it is a name, quotes of at most 8 names, or the word IGNORE, and its names stand.
fn weight_refusal(src: Source, work: &[u32], q: Spot, t: Tok) -> Option<Refusal>
    requires at_in_bounds { (q.at ≤ length src.bytes.now) × TokenIs src.signs src.bytes.now q t }
    requires sound { Sound (key_at src.signs src.bytes.now) (length src.bytes.now) work.now }
    ensures { WeightRefused src.entry.signs src.entry.bytes.now work.now (token_there src.entry.signs src.entry.bytes.now q) (number_or_none result) }
{
    if t.kind == WORD {
        return if word_is(src, q, b"IGNORE") {
            None
        } else {
            Some(Refusal::Malformed)
        };
    }
    if t.kind < NAME || QUOTE < t.kind {
        return Some(Refusal::Malformed);
    }
    if !names_stand(src, work, t) {
        return Some(Refusal::Unknown);
    }
    if t.names <= 8 {
        None
    } else {
        Some(Refusal::TooMany)
    }
}

// The refusal of an operand that is one token, and of that token wherever it stands.
fn one_refusal(src: Source, work: &[u32], q: Spot, t: Tok) -> Option<Refusal>
    requires at_in_bounds { (q.at ≤ length src.bytes.now) × TokenIs src.signs src.bytes.now q t }
    requires sound { Sound (key_at src.signs src.bytes.now) (length src.bytes.now) work.now }
    ensures { OneRefused src.entry.signs src.entry.bytes.now work.now (token_there src.entry.signs src.entry.bytes.now q) (number_or_none result) }
{
    lower_of(t.refusal, weight_refusal(src, work, q, t))
}

// The refusal of the next operand.
fn next_refusal(src: Source, work: &[u32], p: Spot) -> Turn
    requires at_in_bounds { (p.at ≤ length src.bytes.now) × (p.mode ≡ in_plain) }
    requires sound { Sound (key_at src.signs src.bytes.now) (length src.bytes.now) work.now }
    ensures { TurnIs src.entry.signs src.entry.bytes.now work.now p result }
{
    match next_weight(src, p) {
        Weight::Bad => Turn::Bad,
        Weight::Empty(more, d) => if more {
            Turn::More(None, d)
        } else {
            Turn::Last(None)
        },
        Weight::One(q, t, more, d) => {
            let f = one_refusal(src, work, q, t);
            if more {
                Turn::More(f, d)
            } else {
                Turn::Last(f)
            }
        }
    }
}

// The lowest refusal of the operands still to come, at least one, and how many there are.
fn weights_left(src: Source, work: &[u32], p: Spot) -> Counted
    requires at_in_bounds { (p.at ≤ length src.bytes.now) × (p.mode ≡ in_plain) }
    requires sound { Sound (key_at src.signs src.bytes.now) (length src.bytes.now) work.now }
    ensures { Counts src.entry.signs src.entry.bytes.now work.now (operands_left src.entry.signs src.entry.bytes.now false p) (split_at [] (operands_left src.entry.signs src.entry.bytes.now false p)) result }
{
    let mut q = p;
    let mut refusal = None;
    let mut n: usize = 0;
    loop {
        match next_refusal(src, work, q) {
            Turn::More(f, d) => {
                refusal = lower_of(refusal, f);
                n += 1;
                q = d;
            }
            Turn::Last(f) => {
                return Counted {
                    refusal: lower_of(refusal, f),
                    operands: n + 1,
                };
            }
            Turn::Bad => {
                return Counted {
                    refusal: Some(Refusal::Malformed),
                    operands: n,
                };
            }
        }
    }
}

// The lowest refusal of an order line's operands and how many there are, from the spot after the line's subject on.
pub fn weights_refusal(src: Source, work: &[u32], p: Spot) -> Counted
    requires at_in_bounds { (p.at ≤ length src.bytes.now) × (p.mode ≡ in_plain) }
    requires sound { Sound (key_at src.signs src.bytes.now) (length src.bytes.now) work.now }
    ensures { Counts src.entry.signs src.entry.bytes.now work.now (operands (tokens_left src.entry.signs src.entry.bytes.now p)) (operand_list (operands (tokens_left src.entry.signs src.entry.bytes.now p))) result }
{
    match after_first(src, p) {
        After::None => NO_OPERANDS,
        After::Broken => Counted {
            refusal: Some(Refusal::Malformed),
            operands: 0,
        },
        After::Operands(x) => if none_left(src, x, false) {
            NO_OPERANDS
        } else {
            weights_left(src, work, x)
        },
    }
}
