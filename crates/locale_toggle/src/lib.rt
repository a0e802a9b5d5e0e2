// The operand of `define T`, `undef T`, `ifdef T`, `ifndef T` and `elif T`: the toggle T is looked up, and kept from then on.
#![tactic(auto)]

ghost use Rattle.std.specs.Prelude.{◌≡◌};
ghost use Rattle.rules.specs.Tokens.{operands};
ghost use Rattle.text_tokens.specs.Left.{tokens_left};
ghost use Rattle.locale_toggle.specs.Named.{set_to, MayName, ToggledIs};

use base_units::Refusal;
use text_lines::{Source, Spot};
use text_operands::single_word;
use work_toggles::{is_on, toggle_refusal, turn};

// What a line does to the toggle that it names: define turns it on, undef off, and a test keeps it.
#[derive(Clone, Copy)]
pub enum Set {
    On,
    Off,
    Keep,
}

// Whether a toggle is defined after the line.
fn set_to(set: Set, was: bool) -> bool
    ensures { result ≡ set_to set was }
{
    match set {
        Set::On => true,
        Set::Off => false, // undef
        Set::Keep => was,
    }
}

// The toggle that a line names, from the spot after the line's first word on.
pub fn name_toggle(
    src: Source,
    work: &mut [u32],
    base: usize,
    n: usize,
    p: Spot,
    set: Set,
) -> Result<(bool, usize), Refusal>
    requires { MayName src.signs src.bytes.now work.old base n p }
    ensures { ToggledIs src.entry.signs src.entry.bytes.now work.old work.new base n (operands (tokens_left src.entry.signs src.entry.bytes.now p)) set result }
{
    let Some(q) = single_word(src, p) else {
        return Err(Refusal::Malformed);
    };
    if let Some(refusal) = toggle_refusal(src, work, base, n, q) {
        return Err(refusal);
    }
    let was = is_on(src, work, base, n, q);
    let on = set_to(set, was);
    let m = turn(src, work, base, n, q.at, on);
    Ok((was, m))
}
