// The line `collating-symbol <name>`, from the spot after its first word on: its name, whether that is new, and its declaration.
#![tactic(auto)]

ghost use Rattle.std.specs.Prelude.{◌≡◌, true, false, ◌≤◌, length};
ghost use Rattle.rules.specs.Lines.{in_plain};
ghost use Rattle.rules.specs.Tokens.{operands};
ghost use Rattle.text_tokens.specs.Left.{tokens_left, is_inside};
ghost use Rattle.text_operands.specs.Operand.{operands_left};
ghost use Rattle.text_names.specs.Named.{name_left};
ghost use Rattle.work_subjects.specs.Keys.{key_at};
ghost use Rattle.work_store.specs.Store.{Sound};
ghost use Rattle.locale_symbols.specs.Symbols.{HeadIs, NewIs, SymbolChecked, SymbolIs};

use base_units::{Refusal, lower_of};
use text_lines::{Source, Spot};
use text_names::name_char;
use text_operands::{After, Operand, after_first, next_operand, none_left, operands_refusal};
use text_tokens::NAME;
use work_store::{declare, find};

// Whether the next operand is a name.
fn name_next(src: Source, x: Spot) -> Option<(Spot, Spot)>
    requires { (x.at ≤ length src.bytes.now) × (x.mode ≡ in_plain) }
    ensures { HeadIs src.entry.signs src.entry.bytes.now x (operands_left src.entry.signs src.entry.bytes.now false x) result }
{
    match next_operand(src, x, false) {
        Operand::Token(_, t) if t.kind == NAME => Some((t.inside, t.next)),
        _ => None,
    }
}

// Whether a line's first operand is a name, from the spot after its first token on.
pub fn name_first(src: Source, p: Spot) -> Option<(Spot, Spot)>
    requires { (p.at ≤ length src.bytes.now) × (p.mode ≡ in_plain) }
    ensures { HeadIs src.entry.signs src.entry.bytes.now p (operands (tokens_left src.entry.signs src.entry.bytes.now p)) result }
{
    match after_first(src, p) {
        After::None | After::Broken => None,
        After::Operands(x) => name_next(src, x),
    }
}

// Whether a name may be declared: it is not shaped as a character, and not declared so far.
pub fn is_new(src: Source, work: &[u32], i: Spot) -> bool
    requires at_in_bounds { (i.at ≤ length src.bytes.now) × (is_inside i.mode ≡ true) }
    requires sound { Sound (key_at src.signs src.bytes.now) (length src.bytes.now) work.now }
    ensures { NewIs (key_at src.entry.signs src.entry.bytes.now) (length src.entry.bytes.now) work.now (name_left src.entry.signs src.entry.bytes.now i) result }
{
    name_char(src, i).is_none() && find(src, work, 2 * i.at).is_none()
}

// The mark that the line is to declare, or its refusal.
fn check_symbol(src: Source, work: &[u32], p: Spot) -> Result<usize, Refusal>
    requires at_in_bounds { (p.at ≤ length src.bytes.now) × (p.mode ≡ in_plain) }
    requires sound { Sound (key_at src.signs src.bytes.now) (length src.bytes.now) work.now }
    ensures { SymbolChecked src.entry.signs src.entry.bytes.now p work.now result }
{
    let Some((i, e)) = name_first(src, p) else {
        return Err(Refusal::Malformed);
    };
    if !none_left(src, e, true) {
        return Err(Refusal::Malformed); // more than the name
    }
    let fault = if is_new(src, work, i) {
        None
    } else {
        Some(Refusal::Twice)
    };
    match lower_of(operands_refusal(src, p), fault) {
        None => Ok(2 * i.at),
        Some(r) => Err(r),
    }
}

// A line `collating-symbol <name>`, from the spot after its first word on.
pub fn symbol_line(src: Source, work: &mut [u32], p: Spot) -> Result<usize, Refusal>
    requires at_in_bounds { (p.at ≤ length src.bytes.now) × (p.mode ≡ in_plain) }
    requires sound { Sound (key_at src.signs src.bytes.now) (length src.bytes.now) work.old }
    ensures { SymbolIs src.entry.signs src.entry.bytes.now p work.old work.new result }
{
    let v = check_symbol(src, work, p)?;
    declare(src, work, v);
    Ok(v)
}
