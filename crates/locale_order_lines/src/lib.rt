// An order line: what is told of its subject, its refusal, and where it comes to stand, in the order or in a block.
#![tactic(auto)]

ghost use Rattle.std.specs.Prelude.{◌≡◌, true, false, not, ◌&&◌, ◌||◌, [], ◌∷◌, ◌+◌, ◌-◌, ◌*◌, ◌/◌, ◌≤◌, ◌<◌, length, eqb, leb, ltb, if◌then◌else◌};
ghost use Rattle.rules.specs.Text.{◌unless◌, bytes, lowest};
ghost use Rattle.base_units.specs.Numbers.{number_or_none};
ghost use Rattle.rules.specs.Lines.{in_plain};
ghost use Rattle.rules.specs.Tokens.{operands};
ghost use Rattle.rules.specs.State.{in_order, in_block, undefined};
ghost use Rattle.text_tokens.specs.Left.{tokens_left};
ghost use Rattle.text_names.specs.Named.{name_left, CodeIs};
ghost use Rattle.work_subjects.specs.Keys.{key_at};
ghost use Rattle.work_store.specs.Store.{is_found, undefined_mark, Finds, Roomy};
ghost use Rattle.locale_sheet.proofs.RankLaws.{is_ordered};
ghost use Rattle.locale_sheet.specs.Names.{subject_in, NameLine};
ghost use Rattle.locale_sheet.specs.Sheets.{SomeOpen, StepIs};
ghost use Rattle.locale_order_lines.specs.Facts.{Rowed, is_bare, is_own, is_again, name_facts, undefined_facts, SomeKnown, OwnRefused, RowIs, with_last, Ready, LastIs, NewIs, MovedIs, Lists};
ghost use Rattle.locale_sheet.specs.Words.{WordLine};
ghost use Rattle.locale_order_lines.specs.Lines.{Reads};

use base_units::{CodePoint, Refusal, is_character, lower_of};
use locale_opening::line_refusal;
use locale_sheet::{Block, IN_BLOCK, IN_ORDER, Line, Sheet, Step};
use locale_standing::weights_refusal;
use text_lines::{LineEnd, Source, Spot};
use text_names::name_char;
use text_operands::no_operand;
use text_tokens::Tok;
use work_order::{CHARS_NUMBER, Order, PLACE_NUMBER, add_line, put_after, take_out};
use work_rows::told;
use work_store::{declare, find, undefined_mark};

// What is told of a subject: it is a symbol, it has an order line, it stands (it is a character, or declared).
#[derive(Clone, Copy)]
pub struct Facts {
    pub symbol: bool,
    pub ordered: bool,
    pub stands: bool,
}

// Whether something is found whose row tells neither characters nor a code.
fn is_bare(work: &[u32], f: Option<usize>) -> bool
    requires { Rowed work.now f }
    ensures { result ≡ is_bare work.now f }
{
    match f {
        Some(v) => told(work, v, CHARS_NUMBER) == 0,
        None => false,
    }
}

// Whether something is found that has an order line.
fn is_listed(work: &[u32], f: Option<usize>) -> bool
    requires { Rowed work.now f }
    ensures { result ≡ is_ordered work.now f }
{
    match f {
        Some(v) => told(work, v, PLACE_NUMBER) != 0,
        None => false,
    }
}

// Whether what is found is a block's named line, or one of its own lines: those are written from the block's place on.
fn is_own(work: &[u32], b: Block, f: Option<usize>) -> bool
    requires { Rowed work.now f }
    ensures { result ≡ is_own work.now b f }
{
    match f {
        Some(v) => v == b.named || b.from <= told(work, v, PLACE_NUMBER) as usize,
        None => false,
    }
}

// Whether an order line of what is found would be a second one: in a block beside the block's own lines and its named line, else beside all lines.
fn is_again(work: &[u32], sh: Sheet, f: Option<usize>) -> bool
    requires { Rowed work.now f }
    ensures { result ≡ is_again work.now sh f }
{
    if sh.phase == IN_BLOCK {
        is_own(work, sh.block, f)
    } else {
        is_listed(work, f)
    }
}

// What is told of a name for which f is found and whose code is c.
fn name_facts(work: &[u32], f: Option<usize>, c: Option<CodePoint>) -> Facts
    requires { Rowed work.now f }
    ensures { result ≡ name_facts work.now f c }
{
    let ordered = is_listed(work, f);
    match c {
        Some(x) => Facts {
            symbol: false,
            ordered,
            stands: is_character(x),
        },
        None => Facts {
            symbol: is_bare(work, f),
            ordered,
            stands: f.is_some(),
        },
    }
}

// Whether order lines stand in this phase: in the order or in a block.
fn takes_lines(phase: u8) -> bool
    ensures { result ≡ (eqb phase in_order || eqb phase in_block) }
{
    phase == IN_ORDER || phase == IN_BLOCK
}

// Whether a line stands in the order or in a block, and has no operands if it is that of a symbol.
fn is_formed(src: Source, phase: u8, p: Spot, symbol: bool) -> bool
    requires { (p.at ≤ length src.bytes.now) × (p.mode ≡ in_plain) }
    ensures { result ≡ ((eqb phase in_order || eqb phase in_block) && (eqb (length (operands (tokens_left src.entry.signs src.entry.bytes.now p))) 0 || not symbol)) }
{
    takes_lines(phase) && (!symbol || no_operand(src, p))
}

// Whether a line more finds room beside count lines, where that of its subject, if it has one, leaves its place.
fn has_room(ordered: bool, count: usize) -> bool
    ensures { result ≡ ltb (if ordered then count - 1 else count) 32767 }
{
    if ordered {
        count < 32768
    } else {
        count < 32767
    }
}

// The refusal of a second order line, of a subject that does not stand, and of a line that finds no room.
fn late_refusal(
    again: bool,
    stands: bool,
    operands: usize,
    levels: usize,
    room: bool,
) -> Option<Refusal>
    ensures { number_or_none result ≡ lowest (5 unless not again ∷ 6 unless stands ∷ 7 unless (leb operands levels && room) ∷ []) }
{
    if again {
        Some(Refusal::Twice)
    } else if !stands {
        Some(Refusal::Unknown)
    } else if operands <= levels && room {
        None
    } else {
        Some(Refusal::TooMany)
    }
}

// The refusal of an order line whose subject has these facts, again if it is a second one, and of its operands, which follow the spot p.
fn own_refusal(
    src: Source,
    work: &[u32],
    sh: Sheet,
    p: Spot,
    k: Facts,
    again: bool,
) -> Option<Refusal>
    requires at_in_bounds { (p.at ≤ length src.bytes.now) × (p.mode ≡ in_plain) }
    requires some_known { SomeKnown src.signs src.bytes.now work.now }
    ensures { OwnRefused src.entry.signs src.entry.bytes.now work.now sh p k again (number_or_none result) }
{
    if is_formed(src, sh.phase, p, k.symbol) {
        let c = weights_refusal(src, work, p);
        let room = has_room(k.ordered, sh.order.count);
        lower_of(
            c.refusal,
            late_refusal(again, k.stands, c.operands, sh.levels, room),
        )
    } else {
        Some(Refusal::Malformed)
    }
}

// A row for what stands at a mark, where f is found for it: that of f, or a new one.
fn row_for(src: Source, work: &mut [u32], v: usize, f: Option<usize>) -> usize
    requires { (v / 2 ≤ length src.bytes.now) × Roomy (length src.bytes.now) work.old }
    ensures { RowIs src.entry.signs src.entry.bytes.now work.old v work.new result f }
{
    match f {
        Some(u) => u,
        None => {
            declare(src, work, v);
            v
        }
    }
}

// An order line more at the end of the order, for the row of a mark: its number, and the place after its subject.
fn list_last(
    work: &mut [u32],
    sh: Sheet,
    m: usize,
    number: usize,
    place: usize,
    e: LineEnd,
) -> Result<Step, Refusal>
    requires { Ready work.old sh m number place }
    ensures { LastIs work.old sh m number place e work.new result }
{
    let order = add_line(work, sh.order, m, number, place);
    Ok(Step::Next(Sheet { order, ..sh }, e.next, e.feeds))
}

// The sheet with other order lines, of which that of the mark m is the last one of the open block: the next one comes to stand after it.
fn with_last(sh: Sheet, o: Order, m: usize) -> Sheet
    ensures { result ≡ with_last sh o m }
{
    Sheet {
        order: o,
        block: Block {
            last: m,
            ..sh.block
        },
        ..sh
    }
}

// An order line in a block, for the row of a mark that has none yet.
fn list_new(
    work: &mut [u32],
    sh: Sheet,
    m: usize,
    number: usize,
    place: usize,
    e: LineEnd,
) -> Result<Step, Refusal>
    requires { Ready work.old sh m number place × (sh.phase ≡ in_block) }
    ensures { NewIs work.old sh m number place e work.new result }
{
    let o = put_after(work, sh.order, sh.block.last, m, number, place);
    Ok(Step::Next(with_last(sh, o, m), e.next, e.feeds))
}

// An order line in a block, for the row of a mark whose line leaves its old place.
fn list_moved(
    work: &mut [u32],
    sh: Sheet,
    m: usize,
    number: usize,
    place: usize,
    e: LineEnd,
) -> Result<Step, Refusal>
    requires { Ready work.old sh m number place × (sh.phase ≡ in_block) × (is_ordered work.old (Some m) ≡ true) }
    ensures { MovedIs work.old sh m number place e work.new result }
{
    let left = take_out(work, sh.order, m);
    let o = put_after(work, left, sh.block.last, m, number, place);
    Ok(Step::Next(with_last(sh, o, m), e.next, e.feeds))
}

// An order line, for the row of a mark: at the end of the order, or as the last one of the open block.
fn list_line(
    work: &mut [u32],
    sh: Sheet,
    m: usize,
    number: usize,
    place: usize,
    e: LineEnd,
) -> Result<Step, Refusal>
    requires { Ready work.old sh m number place }
    ensures { Lists work.old sh m number place e work.new result }
{
    if sh.phase != IN_BLOCK {
        list_last(work, sh, m, number, place, e)
    } else if is_listed(work, Some(m)) {
        list_moved(work, sh, m, number, place, e)
    } else {
        list_new(work, sh, m, number, place, e)
    }
}

// The refusal of a line that opens with the name t, for which f is found and whose code is c.
fn name_refusal(
    src: Source,
    work: &[u32],
    sh: Sheet,
    l: Line,
    t: Tok,
    f: Option<usize>,
    c: Option<CodePoint>,
) -> Option<Refusal>
    requires some_open { SomeOpen src.signs src.bytes.now work.now sh l.at l.depth × NameLine src.signs src.bytes.now l.at t l.end }
    requires finds { Finds (key_at src.signs src.bytes.now) (length src.bytes.now) work.now (key_at src.signs src.bytes.now (2 * t.inside.at)) f × CodeIs (name_left src.signs src.bytes.now t.inside) c }
    ensures { Reads src.entry.signs src.entry.bytes.now work.now sh l.at l.number (subject_in src.entry.signs src.entry.bytes.now t) t.next (number_or_none result) }
{
    let k = name_facts(work, f, c);
    let again = is_again(work, sh, f);
    let o = own_refusal(src, work, sh, t.next, k, again);
    let r = lower_of(t.refusal, o);
    line_refusal(l.end.text, r)
}

// A line that opens with the name t: an order line of a character, an element or a symbol.
pub fn name_line(src: Source, work: &mut [u32], sh: Sheet, l: Line, t: Tok) -> Result<Step, Refusal>
    requires { SomeOpen src.signs src.bytes.now work.old sh l.at l.depth × NameLine src.signs src.bytes.now l.at t l.end × (l.number ≤ l.at + 1) }
    ensures { StepIs src.entry.signs src.entry.bytes.now work.old sh l.at l.number l.depth work.new result }
{
    let v = 2 * t.inside.at;
    let f = find(src, work, v);
    let c = name_char(src, t.inside);
    match name_refusal(src, work, sh, l, t, f, c) {
        Some(r) => Err(r),
        None => {
            let m = row_for(src, work, v, f);
            list_line(work, sh, m, l.number, t.next.at, l.end)
        }
    }
}

// What is told of UNDEFINED, whose mark is m: it stands, and it is no symbol.
fn undefined_facts(work: &[u32], m: usize) -> Facts
    requires { Rowed work.now (Some m) }
    ensures { result ≡ undefined_facts work.now m }
{
    let ordered = is_listed(work, Some(m));
    Facts {
        symbol: false,
        ordered,
        stands: true,
    }
}

// The refusal of a line that opens with the word UNDEFINED, whose mark is m.
fn undefined_refusal(
    src: Source,
    work: &[u32],
    sh: Sheet,
    l: Line,
    p: Spot,
    m: usize,
) -> Option<Refusal>
    requires { SomeOpen src.signs src.bytes.now work.now sh l.at l.depth × WordLine src.signs src.bytes.now l.at p l.end (bytes "UNDEFINED") × (m ≡ undefined_mark (length src.bytes.now)) }
    ensures { Reads src.entry.signs src.entry.bytes.now work.now sh l.at l.number undefined p (number_or_none result) }
{
    let k = undefined_facts(work, m);
    let again = is_again(work, sh, Some(m));
    let o = own_refusal(src, work, sh, p, k, again);
    line_refusal(l.end.text, o)
}

// A line that opens with the word UNDEFINED, right after which stands the spot p: its order line.
pub fn undefined_line(
    src: Source,
    work: &mut [u32],
    sh: Sheet,
    l: Line,
    p: Spot,
) -> Result<Step, Refusal>
    requires { SomeOpen src.signs src.bytes.now work.old sh l.at l.depth × WordLine src.signs src.bytes.now l.at p l.end (bytes "UNDEFINED") × (l.number ≤ l.at + 1) }
    ensures { StepIs src.entry.signs src.entry.bytes.now work.old sh l.at l.number l.depth work.new result }
{
    let m = undefined_mark(src.bytes.len());
    match undefined_refusal(src, work, sh, l, p, m) {
        Some(r) => Err(r),
        None => list_line(work, sh, m, l.number, p.at, l.end),
    }
}
