// The operands of `order_start`: the rules of the levels, read from the spot after that word on with nothing kept.
#![tactic(auto)]

ghost use Rattle.std.specs.Prelude.{◌≡◌, false, not, ◌&&◌, ◌≤◌, length, leb, eqb};
ghost use Rattle.std.proofs.lemmas.List.Edits.{sets};
ghost use Rattle.rules.specs.Lines.{in_plain};
ghost use Rattle.rules.specs.Tokens.{operands};
ghost use Rattle.rules.specs.OrderLines.{rule_of, rule_codes};
ghost use Rattle.rules.specs.Table.{rule_number};
ghost use Rattle.base_units.specs.Numbers.{number_or_none};
ghost use Rattle.text_tokens.specs.Left.{tokens_left, token_there, TokenIs};
ghost use Rattle.text_operands.specs.Operand.{operands_left};
ghost use Rattle.locale_levels.specs.Numbers.{code_or_none, symbol_number, reading_number};
ghost use Rattle.locale_levels.specs.Rules.{symbol_of, joined_to, code_of, codes_left, RuleIs};
ghost use Rattle.locale_levels.specs.Levels.{count_refusal, TallyIs, JudgedIs, LevelsIs};
ghost use Rattle.locale_levels.specs.Writing.{rule_numbers, LeftFits, RulesFit};

use base_units::{Refusal, lower_of};
use text_lines::{Source, Spot};
use text_operands::{After, Operand, after_first, next_operand, none_left, refusal_left};
use text_tokens::{COMMA, QUOTE, SEMI, Tok, WORD, word_is};

// The rule of a level.
#[derive(Clone, Copy)]
pub enum Rule {
    Forward,
    Backward,
    Position,
    ForwardPosition,
    BackwardPosition,
}

// One rule, None where it is none, with the spot after the `;` that follows it, or as the last. Broken: the operands still to come are malformed.
#[derive(Clone, Copy)]
pub enum RuleStep {
    More(Option<Rule>, Spot),
    Last(Option<Rule>),
    Broken,
}

// What a token is in a rule.
#[derive(Clone, Copy)]
enum Symbol {
    Forward,
    Backward,
    Position,
    Comma,
    Other,
}

// What is read of a rule so far: nothing yet, a rule, a word and a comma, or what is no rule.
#[derive(Clone, Copy)]
enum Reading {
    Nothing,
    Forward,
    Backward,
    Position,
    ForwardComma,
    BackwardComma,
    PositionComma,
    ForwardPosition,
    BackwardPosition,
    NoRule,
}

// What a token is in a rule.
fn symbol_at(src: Source, q: Spot, t: Tok) -> Symbol
    requires { (q.at ≤ length src.bytes.now) × TokenIs src.signs src.bytes.now q t }
    ensures { symbol_number result ≡ symbol_of (token_there src.entry.signs src.entry.bytes.now q) }
{
    if t.kind == COMMA {
        return Symbol::Comma;
    }
    if t.kind != WORD {
        return Symbol::Other;
    }
    if word_is(src, q, b"forward") {
        return Symbol::Forward;
    }
    if word_is(src, q, b"backward") {
        return Symbol::Backward;
    }
    if word_is(src, q, b"position") {
        return Symbol::Position;
    }
    Symbol::Other
}

// What a rule is with one more token.
fn joined(s: Reading, x: Symbol) -> Reading
    ensures { reading_number result ≡ joined_to (reading_number s) (symbol_number x) }
{
    match (s, x) {
        (Reading::Nothing, Symbol::Forward) => Reading::Forward,
        (Reading::Nothing, Symbol::Backward) => Reading::Backward,
        (Reading::Nothing, Symbol::Position) => Reading::Position,
        (Reading::Forward, Symbol::Comma) => Reading::ForwardComma,
        (Reading::Backward, Symbol::Comma) => Reading::BackwardComma,
        (Reading::Position, Symbol::Comma) => Reading::PositionComma,
        (Reading::ForwardComma, Symbol::Position) | (Reading::PositionComma, Symbol::Forward) =>
            Reading::ForwardPosition,
        (Reading::BackwardComma, Symbol::Position) | (Reading::PositionComma, Symbol::Backward) =>
            Reading::BackwardPosition,
        _ => Reading::NoRule,
    }
}

// The rule that was read, where it is one.
fn code_of(s: Reading) -> Option<Rule>
    ensures { code_or_none result ≡ code_of (reading_number s) }
{
    match s {
        Reading::Forward => Some(Rule::Forward),
        Reading::Backward => Some(Rule::Backward),
        Reading::Position => Some(Rule::Position),
        Reading::ForwardPosition => Some(Rule::ForwardPosition),
        Reading::BackwardPosition => Some(Rule::BackwardPosition),
        _ => None,
    }
}

// Whether a token of this kind may stand among rules; held: a word or a name stands right before.
fn well_placed(held: bool, kind: u8) -> bool
    ensures { result ≡ (not (held && leb 3 kind) && not (eqb kind 6)) }
{
    if kind == QUOTE {
        return false;
    }
    if held { kind < 3 } else { true }
}

// The next rule.
fn rule_at(src: Source, p: Spot) -> RuleStep
    requires { (p.at ≤ length src.bytes.now) × (p.mode ≡ in_plain) }
    ensures { RuleIs src.entry.signs src.entry.bytes.now p result }
{
    let mut q = p;
    let mut held = false;
    let mut s = Reading::Nothing;
    loop {
        match next_operand(src, q, held) {
            Operand::Token(r, t) => {
                if t.kind == SEMI {
                    return RuleStep::More(code_of(s), t.next);
                }
                if !well_placed(held, t.kind) {
                    return RuleStep::Broken;
                }
                s = joined(s, symbol_at(src, r, t));
                held = t.kind >= 3;
                q = t.next;
            }
            Operand::Broken => return RuleStep::Broken,
            Operand::End => return RuleStep::Last(code_of(s)),
        }
    }
}

// Whether each rule is known, with one more.
fn known_with(known: bool, rule: Option<Rule>) -> bool
    ensures { result ≡ (known && leb 1 (code_or_none rule)) }
{
    known && rule.is_some()
}

// The rules from a spot on, counted.
fn rules_left(src: Source, p: Spot) -> Option<(usize, bool)>
    requires { (p.at ≤ length src.bytes.now) × (p.mode ≡ in_plain) }
    ensures { TallyIs src.entry.signs src.entry.bytes.now p result }
{
    let mut q = p;
    let mut n: usize = 0;
    let mut known = true;
    loop {
        match rule_at(src, q) {
            RuleStep::More(rule, next) => {
                known = known_with(known, rule);
                n += 1;
                q = next;
            }
            RuleStep::Last(rule) => return Some((n + 1, known_with(known, rule))),
            RuleStep::Broken => return None,
        }
    }
}

// The refusal of n rules: where one is not known, or where they are too many.
fn count_refusal(n: usize, known: bool) -> Option<Refusal>
    ensures { number_or_none result ≡ count_refusal n known }
{
    if known {
        if n <= 8 { None } else { Some(Refusal::TooMany) }
    } else {
        Some(Refusal::BadRule)
    }
}

// The levels of n rules, or the lowest refusal of them and of their tokens.
fn judged(refusal: Option<Refusal>, n: usize, known: bool) -> Result<usize, Refusal>
    ensures { JudgedIs (number_or_none refusal) n known result }
{
    match lower_of(refusal, count_refusal(n, known)) {
        None => Ok(n),
        Some(lowest) => Err(lowest),
    }
}

// The levels of the operands still to come.
fn levels_left(src: Source, p: Spot) -> Result<usize, Refusal>
    requires { (p.at ≤ length src.bytes.now) × (p.mode ≡ in_plain) }
    ensures { LevelsIs (operands_left src.entry.signs src.entry.bytes.now false p) result }
{
    if none_left(src, p, false) {
        return Ok(1);
    }
    let Some((n, known)) = rules_left(src, p) else {
        return Err(Refusal::Malformed);
    };
    judged(refusal_left(src, p, false), n, known)
}

// The levels that the operands of `order_start` give, from the spot after that word on.
pub fn levels_of(src: Source, p: Spot) -> Result<usize, Refusal>
    requires { (p.at ≤ length src.bytes.now) × (p.mode ≡ in_plain) }
    ensures { LevelsIs (operands (tokens_left src.entry.signs src.entry.bytes.now p)) result }
{
    match after_first(src, p) {
        After::None => Ok(1),
        After::Broken => Err(Refusal::Malformed),
        After::Operands(x) => levels_left(src, x),
    }
}

// The number that stores a rule: that of a forward one where it is none.
fn rule_number(rule: Option<Rule>) -> u32
    ensures { result ≡ rule_number (rule_of (code_or_none rule)) }
{
    match rule {
        Some(Rule::Backward) => 1,
        Some(Rule::Position | Rule::ForwardPosition) => 2,
        Some(Rule::BackwardPosition) => 3,
        Some(Rule::Forward) | None => 0,
    }
}

// The rules from a spot on, written into the area from a place on.
fn write_left(src: Source, p: Spot, area: &mut [u32], at: usize)
    requires at_in_bounds { (p.at ≤ length src.bytes.now) × (p.mode ≡ in_plain) }
    requires left_fits { LeftFits src.signs src.bytes.now p area.old at }
    ensures { area.new ≡ sets area.old at (rule_numbers (codes_left src.entry.signs src.entry.bytes.now p)) }
{
    let mut q = p;
    let mut i = at;
    loop {
        match rule_at(src, q) {
            RuleStep::More(rule, next) => {
                area[i] = rule_number(rule);
                i += 1;
                q = next;
            }
            RuleStep::Last(rule) => {
                area[i] = rule_number(rule);
                return;
            }
            RuleStep::Broken => return, // never: rules that are accepted are whole
        }
    }
}

// The rules that the operands of `order_start` give, written into the area from a place on: they are accepted, and have room there.
pub fn write_rules(src: Source, p: Spot, area: &mut [u32], at: usize)
    requires at_in_bounds { (p.at ≤ length src.bytes.now) × (p.mode ≡ in_plain) }
    requires rules_fit { RulesFit (operands (tokens_left src.signs src.bytes.now p)) area.old at }
    ensures { area.new ≡ sets area.old at (rule_numbers (rule_codes (operands (tokens_left src.entry.signs src.entry.bytes.now p)))) }
{
    match after_first(src, p) {
        After::None => area[at] = 0, // one forward level
        After::Broken => {} // never: rules that are accepted are whole
        After::Operands(x) => {
            if none_left(src, x, false) {
                area[at] = 0;
            } else {
                write_left(src, x, area, at);
            }
        }
    }
}
