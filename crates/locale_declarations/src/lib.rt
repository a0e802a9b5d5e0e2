// Lines in LC_COLLATE that open with order_start, order_end, END, collating-symbol or collating-element, as steps of the reader. p is the
// spot right after that word. Only the two that declare write to the work area.
#![tactic(auto)]

ghost use Rattle.std.specs.Prelude.{◌≡◌, ◌||◌, ◌≤◌, length, eqb};
ghost use Rattle.rules.specs.Lines.{in_plain};
ghost use Rattle.rules.specs.Tokens.{operands};
ghost use Rattle.rules.specs.State.{before_order, after_order};
ghost use Rattle.text_tokens.specs.Left.{tokens_left};
ghost use Rattle.work_subjects.specs.Keys.{key_at};
ghost use Rattle.work_store.specs.Store.{Sound};
ghost use Rattle.locale_declarations.specs.Worded.{Opened, StillAt, Still, Writes, CollateIs};

use base_units::Refusal;
use locale_elements::element_line;
use locale_levels::levels_of;
use locale_opening::{malformed, refusal_with};
use locale_sheet::{AFTER_ORDER, BEFORE_ORDER, IN_ORDER, Line, Sheet, Step};
use locale_symbols::symbol_line;
use text_lines::{Source, Spot};
use text_operands::{no_operand, single_word};
use text_tokens::word_is;

// order_start, before the order: its operands are the rules of the levels, read again from the spot after the word.
pub fn order_start_line(src: Source, sh: Sheet, l: Line, p: Spot) -> Result<Step, Refusal>
    requires { Opened src.signs src.bytes.now l.at p l.end "order_start" }
    ensures { Still src.entry.signs src.entry.bytes.now sh l.at result }
{
    if sh.phase == BEFORE_ORDER { // once
        match levels_of(src, p) {
            Err(r) => Err(refusal_with(l.end.text, r)),
            Ok(levels) => {
                if l.end.text {
                    let next = Sheet {
                        phase: IN_ORDER,
                        rules: p.at,
                        levels,
                        ..sh
                    };
                    Ok(Step::Next(next, l.end.next, l.end.feeds))
                } else {
                    Err(Refusal::BadByte)
                }
            }
        }
    } else {
        Err(malformed(l.end.text))
    }
}

// order_end, in the order and with no operand.
pub fn order_end_line(src: Source, sh: Sheet, l: Line, p: Spot) -> Result<Step, Refusal>
    requires { Opened src.signs src.bytes.now l.at p l.end "order_end" }
    ensures { Still src.entry.signs src.entry.bytes.now sh l.at result }
{
    if sh.phase == IN_ORDER && no_operand(src, p) {
        if l.end.text {
            let next = Sheet {
                phase: AFTER_ORDER,
                ..sh
            };
            Ok(Step::Next(next, l.end.next, l.end.feeds))
        } else {
            Err(Refusal::BadByte)
        }
    } else {
        Err(malformed(l.end.text))
    }
}

// Whether a line's operands are the word LC_COLLATE, from the spot after its first token on.
fn collate_alone(src: Source, p: Spot) -> bool
    requires { (p.at ≤ length src.bytes.now) × (p.mode ≡ in_plain) }
    ensures { CollateIs (operands (tokens_left src.entry.signs src.entry.bytes.now p)) result }
{
    match single_word(src, p) {
        None => false,
        Some(q) => word_is(src, q, b"LC_COLLATE"),
    }
}

// END LC_COLLATE, after the order, outside every block and every chain.
pub fn end_line(src: Source, sh: Sheet, l: Line, p: Spot) -> Result<Step, Refusal>
    requires { Opened src.signs src.bytes.now l.at p l.end "END" }
    ensures { StillAt src.entry.signs src.entry.bytes.now sh l.at l.depth result }
{
    // in a chain it is malformed
    if sh.phase == AFTER_ORDER && l.depth == 0 && collate_alone(src, p) {
        if l.end.text {
            Ok(Step::Closes(l.end.next, l.end.feeds))
        } else {
            Err(Refusal::BadByte)
        }
    } else {
        Err(malformed(l.end.text))
    }
}

// Whether a declaration may stand in this phase: before order_start, or after the order and outside every block.
fn may_declare(phase: u8) -> bool
    ensures { result ≡ (eqb phase before_order || eqb phase after_order) }
{
    phase == BEFORE_ORDER || phase == AFTER_ORDER
}

// collating-symbol, where a declaration may stand: a collating symbol is declared.
pub fn symbol_step(
    src: Source,
    work: &mut [u32],
    sh: Sheet,
    l: Line,
    p: Spot,
) -> Result<Step, Refusal>
    requires opened { Opened src.signs src.bytes.now l.at p l.end "collating-symbol" }
    requires sound { Sound (key_at src.signs src.bytes.now) (length src.bytes.now) work.old }
    ensures { Writes src.entry.signs src.entry.bytes.now work.old sh l.at work.new result }
{
    if may_declare(sh.phase) { // outside the order and every block
        if l.end.text {
            symbol_line(src, work, p)?;
            Ok(Step::Next(sh, l.end.next, l.end.feeds))
        } else {
            Err(Refusal::BadByte)
        }
    } else {
        Err(malformed(l.end.text))
    }
}

// collating-element, where a declaration may stand: a collating element is declared.
pub fn element_step(
    src: Source,
    work: &mut [u32],
    sh: Sheet,
    l: Line,
    p: Spot,
) -> Result<Step, Refusal>
    requires opened { Opened src.signs src.bytes.now l.at p l.end "collating-element" }
    requires sound { Sound (key_at src.signs src.bytes.now) (length src.bytes.now) work.old }
    ensures { Writes src.entry.signs src.entry.bytes.now work.old sh l.at work.new result }
{
    if may_declare(sh.phase) { // outside the order and every block
        if l.end.text {
            element_line(src, work, p)?;
            Ok(Step::Next(sh, l.end.next, l.end.feeds))
        } else {
            Err(Refusal::BadByte)
        }
    } else {
        Err(malformed(l.end.text))
    }
}
