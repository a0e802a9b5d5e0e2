// The conditional lines in LC_COLLATE, as steps of the reader: define, undef, ifdef and ifndef in a used branch; elif, else and endif as the
// open chain reads them.
#![tactic(auto)]

ghost use Rattle.std.specs.Prelude.{◌≡◌, not, ◌&&◌, ◌||◌, length};
ghost use Rattle.rules.specs.Text.{bytes};
ghost use Rattle.rules.specs.Tokens.{operands};
ghost use Rattle.text_tokens.specs.Left.{tokens_left};
ghost use Rattle.locale_toggle.specs.Named.{MayName, ToggledIs};
ghost use Rattle.locale_sheet.specs.Sheets.{toggles_at, StepIs};
ghost use Rattle.locale_conditionals.specs.Turned.{defining, set_for, testing, holds_for, with_toggles, MayRead};
ghost use Rattle.locale_sheet.specs.Words.{WordLine};
ghost use Rattle.locale_conditionals.specs.Turns.{TurnIs, StillIs, MayTurn, WordTurn, KeyTurn};

use base_units::Refusal;
use locale_opening::{Opening, malformed, open_line, refusal_with};
use locale_sheet::{Line, Sheet, Step};
use locale_toggle::{Set, name_toggle};
use text_lines::{LineEnd, Source, Spot};
use text_operands::no_operand;
use text_tokens::{Tok, word_is};

// A line of an open chain that is read whole: where it begins, its number and its end; of the chain before it, whether a branch was used, and
// whether `else` has stood.
#[derive(Clone, Copy)]
struct ChainLine {
    at: usize,
    number: usize,
    end: LineEnd,
    taken: bool,
    closed: bool,
}

// What a line of an open chain does.
#[derive(Clone, Copy)]
pub enum Turn {
    // elif or else: of the chain after it, whether a branch was used, whether the new one is, and whether `else` has stood; the sheet after
    // it, the place after it, and its LFs
    Goes(bool, bool, bool, Sheet, usize, usize),
    // endif
    Ends(Sheet, usize, usize),
}

// The sheet with so many toggles named.
fn with_toggles(sh: Sheet, m: usize) -> Sheet
    ensures { result ≡ with_toggles sh m }
{
    Sheet { toggles: m, ..sh }
}

// What define (on) or undef does to a toggle.
fn set_for(on: bool) -> Set
    ensures { result ≡ set_for on }
{
    if on { Set::On } else { Set::Off }
}

// Whether the test of ifdef (wanted) or ifndef holds for a toggle.
fn holds_for(wanted: bool, on: bool) -> bool
    ensures { result ≡ holds_for wanted on }
{
    if wanted { on } else { !on }
}

// The toggle that a line names, from the spot after its first word on.
fn named_at(
    src: Source,
    work: &mut [u32],
    n: usize,
    p: Spot,
    set: Set,
) -> Result<(bool, usize), Refusal>
    requires { MayName src.signs src.bytes.now work.old (toggles_at (length src.bytes.now)) n p }
    ensures { ToggledIs src.entry.signs src.entry.bytes.now work.old work.new (toggles_at (length src.entry.bytes.now)) n (operands (tokens_left src.entry.signs src.entry.bytes.now p)) set result }
{
    name_toggle(src, work, 8 * (src.bytes.len() / 8 + 2), n, p, set)
}

// The line of define (on) or undef: p is the spot after that word.
pub fn define_line(
    src: Source,
    work: &mut [u32],
    sh: Sheet,
    l: Line,
    p: Spot,
    on: bool,
) -> Result<Step, Refusal>
    requires { MayRead src.signs src.bytes.now work.old sh l.at l.depth p l.end (defining on) }
    ensures { StepIs src.entry.signs src.entry.bytes.now work.old sh l.at l.number l.depth work.new result }
{
    match named_at(src, work, sh.toggles, p, set_for(on)) {
        Err(r) => Err(refusal_with(l.end.text, r)),
        Ok((_, m)) => {
            if l.end.text {
                Ok(Step::Next(with_toggles(sh, m), l.end.next, l.end.feeds))
            } else {
                Err(Refusal::BadByte)
            }
        }
    }
}

// The line of ifdef (wanted) or ifndef: p is the spot after that word.
pub fn if_line(
    src: Source,
    work: &mut [u32],
    sh: Sheet,
    l: Line,
    p: Spot,
    wanted: bool,
) -> Result<Step, Refusal>
    requires { MayRead src.signs src.bytes.now work.old sh l.at l.depth p l.end (testing wanted) }
    ensures { StepIs src.entry.signs src.entry.bytes.now work.old sh l.at l.number l.depth work.new result }
{
    match named_at(src, work, sh.toggles, p, Set::Keep) {
        Err(r) => Err(refusal_with(l.end.text, r)),
        Ok((was, m)) => {
            if !l.end.text {
                Err(Refusal::BadByte)
            } else if l.depth < 8 {
                Ok(Step::Opens(
                    holds_for(wanted, was),
                    with_toggles(sh, m),
                    l.end.next,
                    l.end.feeds,
                ))
            } else {
                Err(Refusal::TooMany)
            }
        }
    }
}

// Whether a branch of the chain was used, after an elif whose toggle is defined or not.
fn some_used(taken: bool, on: bool) -> bool
    ensures { result ≡ (taken || on) }
{
    taken || on
}

// Whether its branch is used: the first whose test holds.
fn first_used(taken: bool, on: bool) -> bool
    ensures { result ≡ (not taken && on) }
{
    !taken && on
}

// The line of elif: p is the spot after that word.
fn elif_line(
    src: Source,
    work: &mut [u32],
    sh: Sheet,
    l: ChainLine,
    p: Spot,
) -> Result<Turn, Refusal>
    requires { KeyTurn src.signs src.bytes.now work.old sh l.at p l.end (bytes "elif") }
    ensures { TurnIs src.entry.signs src.entry.bytes.now work.old sh l.at l.number l.taken l.closed work.new result }
{
    if l.closed {
        return Err(malformed(l.end.text));
    }
    match named_at(src, work, sh.toggles, p, Set::Keep) {
        Err(r) => Err(refusal_with(l.end.text, r)),
        Ok((was, m)) => {
            if l.end.text {
                Ok(Turn::Goes(
                    some_used(l.taken, was),
                    first_used(l.taken, was),
                    false,
                    with_toggles(sh, m),
                    l.end.next,
                    l.end.feeds,
                ))
            } else {
                Err(Refusal::BadByte)
            }
        }
    }
}

// The line of else.
fn else_line(src: Source, sh: Sheet, l: ChainLine, p: Spot) -> Result<Turn, Refusal>
    requires { WordLine src.signs src.bytes.now l.at p l.end (bytes "else") }
    ensures { StillIs src.entry.signs src.entry.bytes.now sh l.at l.number l.taken l.closed result }
{
    if l.closed {
        return Err(malformed(l.end.text));
    }
    if !no_operand(src, p) {
        Err(malformed(l.end.text))
    } else if l.end.text {
        Ok(Turn::Goes(true, !l.taken, true, sh, l.end.next, l.end.feeds))
    } else {
        Err(Refusal::BadByte)
    }
}

// The line of endif.
fn endif_line(src: Source, sh: Sheet, l: ChainLine, p: Spot) -> Result<Turn, Refusal>
    requires { WordLine src.signs src.bytes.now l.at p l.end (bytes "endif") }
    ensures { StillIs src.entry.signs src.entry.bytes.now sh l.at l.number l.taken l.closed result }
{
    if !no_operand(src, p) {
        Err(malformed(l.end.text))
    } else if l.end.text {
        Ok(Turn::Ends(sh, l.end.next, l.end.feeds))
    } else {
        Err(Refusal::BadByte)
    }
}

// The line of a chain that opens with the word t, at the spot q.
fn word_turn(
    src: Source,
    work: &mut [u32],
    sh: Sheet,
    l: ChainLine,
    q: Spot,
    t: Tok,
) -> Result<Turn, Refusal>
    requires { WordTurn src.signs src.bytes.now work.old sh l.at q t l.end }
    ensures { TurnIs src.entry.signs src.entry.bytes.now work.old sh l.at l.number l.taken l.closed work.new result }
{
    let p = t.next;
    if word_is(src, q, b"elif") {
        elif_line(src, work, sh, l, p)
    } else if word_is(src, q, b"else") {
        else_line(src, sh, l, p)
    } else if word_is(src, q, b"endif") {
        endif_line(src, sh, l, p)
    } else {
        Err(malformed(l.end.text))
    }
}

// The line at a place, which the open chain reads itself. Taken: a branch of the chain was used; closed: `else` has stood.
pub fn branch_line(
    src: Source,
    work: &mut [u32],
    sh: Sheet,
    at: usize,
    number: usize,
    taken: bool,
    closed: bool,
) -> Result<Turn, Refusal>
    requires { MayTurn src.signs src.bytes.now work.old sh at }
    ensures { TurnIs src.entry.signs src.entry.bytes.now work.old sh at number taken closed work.new result }
{
    match open_line(src, at) {
        // never blank or a name: elif, else or endif stands there, malformed where an escape pair is in it
        Opening::Blank(e) => Err(malformed(e.text)),
        Opening::Foul(e) => Err(malformed(e.text)),
        Opening::Name(_, _, e) => Err(malformed(e.text)),
        Opening::Word(q, t, e) => {
            let l = ChainLine {
                at,
                number,
                end: e,
                taken,
                closed,
            };
            word_turn(src, work, sh, l, q, t)
        }
    }
}
