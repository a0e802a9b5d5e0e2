// The lines reorder-after and reorder-end in LC_COLLATE, as steps of the reader: they begin and end a block of order lines that move. p is the spot
// right after that word. The work area stays as it is.
#![tactic(auto)]

ghost use Rattle.std.specs.Prelude.{◌≡◌, true, ◌||◌, ◌≤◌, length, eqb};
ghost use Rattle.base_units.specs.Numbers.{number_or_none};
ghost use Rattle.rules.specs.Lines.{in_plain};
ghost use Rattle.rules.specs.Tokens.{operands};
ghost use Rattle.rules.specs.State.{after_order, in_block};
ghost use Rattle.text_tokens.specs.Left.{tokens_left, is_inside};
ghost use Rattle.work_subjects.specs.Keys.{subject_left};
ghost use Rattle.locale_declarations.specs.Worded.{Opened, Still, Writes};
ghost use Rattle.locale_moves.specs.Named.{Holding, LineOf, NamedIs, NamedWith};

use base_units::{Refusal, lower_of};
use locale_opening::{malformed, refusal_with};
use locale_sheet::{AFTER_ORDER, Block, IN_BLOCK, Line, Sheet, Step};
use locale_symbols::name_first;
use text_lines::{Source, Spot};
use text_operands::{no_operand, none_left, operands_refusal};
use work_order::PLACE_NUMBER;
use work_rows::told;
use work_store::find;

// The mark of the order line of the name at a spot, if there is one.
fn line_of(src: Source, work: &[u32], i: Spot) -> Option<usize>
    requires at_in_bounds { (i.at ≤ length src.bytes.now) × (is_inside i.mode ≡ true) }
    requires holding { Holding src.signs src.bytes.now work.now }
    ensures { LineOf src.entry.signs src.entry.bytes.now work.now (subject_left src.entry.signs src.entry.bytes.now i) result }
{
    match find(src, work, 2 * i.at) {
        Some(v) if told(work, v, PLACE_NUMBER) != 0 => Some(v),
        _ => None, // not declared, or with no order line
    }
}

// The answer for a name alone: f is the mark of its order line, r the refusal of its token.
fn named_with(f: Option<usize>, r: Option<Refusal>) -> Result<usize, Refusal>
    ensures { NamedWith f (number_or_none r) result }
{
    match f {
        None => Err(lower_of(r, Some(Refusal::Unknown)).unwrap_or(Refusal::Unknown)),
        Some(m) => match r {
            None => Ok(m),
            Some(s) => Err(s),
        },
    }
}

// The order line that reorder-after names, from the spot after that word on.
fn named_line(src: Source, work: &[u32], p: Spot) -> Result<usize, Refusal>
    requires at_in_bounds { (p.at ≤ length src.bytes.now) × (p.mode ≡ in_plain) }
    requires holding { Holding src.signs src.bytes.now work.now }
    ensures { NamedIs src.entry.signs src.entry.bytes.now work.now (operands (tokens_left src.entry.signs src.entry.bytes.now p)) result }
{
    match name_first(src, p) {
        Some((i, e)) if none_left(src, e, true) => {
            let r = operands_refusal(src, p);
            named_with(line_of(src, work, i), r)
        }
        _ => Err(Refusal::Malformed), // no name, or more than it
    }
}

// Whether a block may begin in this phase: after the order, or in a block, which ends there.
fn may_open(phase: u8) -> bool
    ensures { result ≡ (eqb phase after_order || eqb phase in_block) }
{
    phase == AFTER_ORDER || phase == IN_BLOCK
}

// reorder-after, after the order: the lines of the block come to stand after the one that it names.
pub fn reorder_after_line(
    src: Source,
    work: &[u32],
    sh: Sheet,
    l: Line,
    p: Spot,
) -> Result<Step, Refusal>
    requires opened { Opened src.signs src.bytes.now l.at p l.end "reorder-after" }
    requires holding { Holding src.signs src.bytes.now work.now }
    ensures { Writes src.entry.signs src.entry.bytes.now work.now sh l.at work.now result }
{
    if may_open(sh.phase) {
        match named_line(src, work, p) {
            Err(r) => Err(refusal_with(l.end.text, r)),
            Ok(m) => {
                if l.end.text {
                    let block = Block {
                        named: m,
                        last: m,
                        from: l.end.next,
                    };
                    let next = Sheet {
                        phase: IN_BLOCK,
                        block,
                        ..sh
                    };
                    Ok(Step::Next(next, l.end.next, l.end.feeds))
                } else {
                    Err(Refusal::BadByte)
                }
            }
        }
    } else {
        Err(malformed(l.end.text))
    }
}

// reorder-end, in a block and with no operand.
pub fn reorder_end_line(src: Source, sh: Sheet, l: Line, p: Spot) -> Result<Step, Refusal>
    requires { Opened src.signs src.bytes.now l.at p l.end "reorder-end" }
    ensures { Still src.entry.signs src.entry.bytes.now sh l.at result }
{
    if sh.phase == IN_BLOCK && no_operand(src, p) {
        if l.end.text {
            let next = Sheet {
                phase: AFTER_ORDER,
                ..sh
            };
            Ok(Step::Next(next, l.end.next, l.end.feeds))
        } else {
            Err(Refusal::BadByte)
        }
    } else {
        Err(malformed(l.end.text))
    }
}
