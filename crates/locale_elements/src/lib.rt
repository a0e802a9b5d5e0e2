// The line `collating-element <name> from "<U..><U..>"`, from the spot after its first word on: its name and its characters, and both declared.
#![tactic(auto)]

ghost use Rattle.std.specs.Prelude.{◌≡◌, true, ◌+◌, ◌/◌, ◌≤◌, length};
ghost use Rattle.rules.specs.Text.{every};
ghost use Rattle.rules.specs.Names.{is_char_name};
ghost use Rattle.rules.specs.Lines.{in_plain, quoted};
ghost use Rattle.base_units.specs.Numbers.{number_or_none};
ghost use Rattle.text_lines.specs.Stream.{marks_left};
ghost use Rattle.text_tokens.specs.Left.{names_in, is_inside};
ghost use Rattle.text_names.specs.Named.{name_left};
ghost use Rattle.work_subjects.specs.Keys.{key_at};
ghost use Rattle.work_store.specs.Store.{Roomy, Sound};
ghost use Rattle.locale_elements.specs.Element.{AloneIs, FromIs, FaultIs, ElementChecked, DeclaresBoth, ElementIs};

use base_units::{Refusal, is_character, lower_of};
use locale_symbols::{is_new, name_first};
use text_lines::{Source, Spot};
use text_names::{name_char, next_name};
use text_operands::{Operand, next_operand, none_left, operands_refusal};
use text_tokens::{QUOTE, end_of_name, end_of_word, word_is};
use work_order::CHARS_NUMBER;
use work_rows::tell;
use work_store::{declare, find};

// Whether quotes are the one operand still to come after another.
fn quotes_alone(src: Source, x: Spot) -> Option<(Spot, usize)>
    requires { (x.at ≤ length src.bytes.now) × (x.mode ≡ in_plain) }
    ensures { AloneIs src.entry.signs src.entry.bytes.now x result }
{
    match next_operand(src, x, true) {
        Operand::End | Operand::Broken => None,
        Operand::Token(_, t) => {
            if t.kind == QUOTE && none_left(src, t.next, true) {
                Some((t.inside, t.names))
            } else {
                None
            }
        }
    }
}

// Whether `from` and quotes are the operands still to come after a name.
fn quotes_after_from(src: Source, x: Spot) -> Option<(Spot, usize)>
    requires { (x.at ≤ length src.bytes.now) × (x.mode ≡ in_plain) }
    ensures { FromIs src.entry.signs src.entry.bytes.now x result }
{
    match next_operand(src, x, true) {
        Operand::End | Operand::Broken => None,
        Operand::Token(q, _) => {
            if word_is(src, q, b"from") {
                quotes_alone(src, end_of_word(src, q))
            } else {
                None
            }
        }
    }
}

// Whether a name is that of a character.
fn is_char_name(src: Source, p: Spot) -> bool
    requires { p.at ≤ length src.bytes.now }
    ensures { result ≡ is_char_name (name_left src.entry.signs src.entry.bytes.now p) }
{
    match name_char(src, p) {
        Some(x) => is_character(x),
        None => false,
    }
}

// Whether each name in quotes is that of a character.
fn all_characters(src: Source, p: Spot) -> bool
    requires { (p.at ≤ length src.bytes.now) × (p.mode ≡ quoted) }
    ensures { result ≡ every is_char_name (names_in (marks_left src.entry.signs src.entry.bytes.now p)) }
{
    let mut q = p;
    while let Some(i) = next_name(src, q) {
        if !is_char_name(src, i) {
            return false;
        }
        let Some((_, e)) = end_of_name(src, i) else {
            return true;
        };
        q = e;
    }
    true
}

// What the name and the n names in quotes are refused for.
fn element_fault(src: Source, work: &[u32], i: Spot, s: Spot, n: usize) -> Option<Refusal>
    requires at_in_bounds { (i.at ≤ length src.bytes.now) × (is_inside i.mode ≡ true) }
    requires at_in_bounds_2 { (s.at ≤ length src.bytes.now) × (s.mode ≡ quoted) }
    requires s_len { length (names_in (marks_left src.signs src.bytes.now s)) ≡ n }
    requires sound { Sound (key_at src.signs src.bytes.now) (length src.bytes.now) work.now }
    ensures { FaultIs src.entry.signs src.entry.bytes.now work.now i s (number_or_none result) }
{
    if !is_new(src, work, i) {
        return Some(Refusal::Twice);
    }
    if !all_characters(src, s) {
        return Some(Refusal::Unknown);
    }
    if find(src, work, 2 * s.at + 1).is_some() {
        return Some(Refusal::Twice); // the same characters
    }
    if 2 <= n && n <= 4 {
        None
    } else {
        Some(Refusal::TooMany)
    }
}

// The marks that the line is to declare, or its refusal.
fn check_element(src: Source, work: &[u32], p: Spot) -> Result<(usize, usize), Refusal>
    requires at_in_bounds { (p.at ≤ length src.bytes.now) × (p.mode ≡ in_plain) }
    requires sound { Sound (key_at src.signs src.bytes.now) (length src.bytes.now) work.now }
    ensures { ElementChecked src.entry.signs src.entry.bytes.now p work.now result }
{
    let Some((i, e)) = name_first(src, p) else {
        return Err(Refusal::Malformed);
    };
    let Some((s, n)) = quotes_after_from(src, e) else {
        return Err(Refusal::Malformed);
    };
    let f = element_fault(src, work, i, s, n);
    match lower_of(operands_refusal(src, p), f) {
        None => Ok((2 * i.at, 2 * s.at + 1)),
        Some(r) => Err(r),
    }
}

// Declares a name and, in a later row, the quotes of an element, and tells the mark of the quotes in the row of the name.
fn declare_both(src: Source, work: &mut [u32], v: usize, q: usize)
    requires v_in_bounds { (v / 2 ≤ length src.bytes.now) × (q / 2 ≤ length src.bytes.now) × (v / 16 + 1 ≤ q / 16) }
    requires roomy { Roomy (length src.bytes.now) work.old }
    ensures { DeclaresBoth (key_at src.entry.signs src.entry.bytes.now) (length src.entry.bytes.now) work.old v q work.new }
{
    declare(src, work, v);
    declare(src, work, q);
    tell(work, v, CHARS_NUMBER, q as u32);
}

// A line `collating-element <name> from "<U..><U..>"`, from the spot after its first word on.
pub fn element_line(src: Source, work: &mut [u32], p: Spot) -> Result<(usize, usize), Refusal>
    requires at_in_bounds { (p.at ≤ length src.bytes.now) × (p.mode ≡ in_plain) }
    requires sound { Sound (key_at src.signs src.bytes.now) (length src.bytes.now) work.old }
    ensures { ElementIs src.entry.signs src.entry.bytes.now p work.old work.new result }
{
    let (v, q) = check_element(src, work, p)?;
    declare_both(src, work, v, q);
    Ok((v, q))
}
