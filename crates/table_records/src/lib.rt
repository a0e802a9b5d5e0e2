// One item of a table, written from its order line: its characters, where its weights end at each level, and the weights, read again from the source.
#![tactic(auto)]

ghost use Rattle.std.specs.Prelude.{◌≡◌, [], ◌∷◌, ◌+◌, ◌-◌, ◌*◌, ◌/◌, ◌%◌, ◌≤◌, ◌<◌, length};
ghost use Rattle.std.proofs.lemmas.List.Edits.{sets};
ghost use Rattle.rules.specs.Lines.{quoted};
ghost use Rattle.rules.specs.Table.{padded};
ghost use Rattle.work_subjects.specs.Keys.{chars_left, key_at};
ghost use Rattle.work_store.specs.Store.{Sound};
ghost use Rattle.table_weights.specs.Reading.{quote_ranks, InQuotes, part_ranks, PartFits, Readable, RowReady};
ghost use Rattle.table_records.specs.Writing.{Puts, RanksPut, quote_size, part_size, LevelPut, LineRoom, LinePut, CodeIs, item_chars, CharsReady, HasChars, ItemRoom, ItemPut};

use base_units::{CodePoint, Rank};
use table_weights::{Part, first_part, next_part, next_rank, rank_at};
use text_lines::{QUOTED, Source, Spot};
use work_order::{CHARS_NUMBER, PLACE_NUMBER, RANK_NUMBER};
use work_rows::told;
use work_store::undefined_mark;
use work_subjects::next_char;

// The next of an item's characters, 110000 hex where none is left, since that number stands in the table then, and the spot after it.
#[derive(Clone, Copy)]
struct Coded {
    code: CodePoint,
    next: Spot,
}

// A weight; the place behind it.
pub fn put_rank(area: &mut [u32], at: usize, r: Rank) -> usize
    requires { at < length area.old }
    ensures { Puts area.old at (r.0 ∷ []) area.new result }
{
    area[at] = r.0;
    at + 1
}

// The ranks of the names in quotes; the place behind them.
fn write_quotes(src: Source, work: &[u32], p: Spot, area: &mut [u32], at: usize) -> usize
    requires in_quotes { InQuotes src.signs src.bytes.now p }
    requires sound { Sound (key_at src.signs src.bytes.now) (length src.bytes.now) work.now }
    requires p_in_bounds { at + quote_size src.signs src.bytes.now p ≤ length area.old }
    ensures { RanksPut src.entry.signs src.entry.bytes.now work.now (quote_ranks src.entry.signs src.entry.bytes.now p) area.old at area.new result }
{
    let mut q = p;
    let mut next = at;
    while let Some((r, e)) = next_rank(src, work, q) {
        next = put_rank(area, next, r);
        q = e;
    }
    next
}

// The weights of one operand; the place behind them.
fn write_part(
    src: Source,
    work: &[u32],
    part: Part,
    own: Rank,
    area: &mut [u32],
    at: usize,
) -> usize
    requires part_fits { PartFits src.signs src.bytes.now part }
    requires sound { Sound (key_at src.signs src.bytes.now) (length src.bytes.now) work.now }
    requires part_in_bounds { at + part_size src.signs src.bytes.now part ≤ length area.old }
    ensures { RanksPut src.entry.signs src.entry.bytes.now work.now (part_ranks src.entry.signs src.entry.bytes.now own.0 part) area.old at area.new result }
{
    match part {
        Part::Own => put_rank(area, at, own),
        Part::None => at,
        Part::One(p) => {
            let r = rank_at(src, work, p);
            put_rank(area, at, r)
        }
        Part::Quotes(p) => write_quotes(src, work, p, area, at),
    }
}

// The weights of one operand, and where they end, counted from base, at a place of its own; the place behind the weights.
fn write_level(
    src: Source,
    work: &[u32],
    part: Part,
    own: Rank,
    area: &mut [u32],
    slot: usize,
    base: usize,
    at: usize,
) -> usize
    requires part_fits { PartFits src.signs src.bytes.now part }
    requires sound { Sound (key_at src.signs src.bytes.now) (length src.bytes.now) work.now }
    requires slot_in_bounds { (slot < length area.old) × (at + part_size src.signs src.bytes.now part ≤ length area.old) }
    requires base_le_at { (base ≤ at) × (at + part_size src.signs src.bytes.now part < base + 4294967296) }
    ensures { LevelPut src.entry.signs src.entry.bytes.now work.now own.0 part area.old slot base at area.new result }
{
    let end = write_part(src, work, part, own, area, at);
    area[slot] = (end - base) as u32;
    end
}

// The weights of an order line, from the place after its subject on, with their ends, counted from base, at places of their own, level by level;
// own is the line's own rank. The place behind the weights.
fn write_line(
    src: Source,
    work: &[u32],
    place: usize,
    levels: usize,
    own: Rank,
    area: &mut [u32],
    slots: usize,
    base: usize,
    at: usize,
) -> usize
    requires readable { Readable src.signs src.bytes.now place levels }
    requires sound { Sound (key_at src.signs src.bytes.now) (length src.bytes.now) work.now }
    requires line_room { LineRoom src.signs src.bytes.now place levels own.0 area.old slots base at }
    ensures { LinePut src.entry.signs src.entry.bytes.now work.now place levels own.0 area.old slots base at area.new result }
{
    let mut c = first_part(src, place);
    let mut next = at;
    for slot in slots..slots + levels {
        let t = next_part(src, c);
        next = write_level(src, work, t.part, own, area, slot, base, next);
        c = t.next;
    }
    next
}

// The next of an item's characters, from a spot in the quotes outside names.
fn next_code(src: Source, p: Spot) -> Coded
    requires { (p.at ≤ length src.bytes.now) × (p.mode ≡ quoted) }
    ensures { CodeIs src.entry.signs src.entry.bytes.now p result }
{
    match next_char(src, p) {
        Some((code, next)) => Coded { code, next },
        None => Coded {
            code: CodePoint(0x110000),
            next: p,
        },
    }
}

// Four writes, and no copy_from_slice: the codes are of a type of their own, and would be unwrapped into an array first.
fn put_four(area: &mut [u32], at: usize, a: CodePoint, b: CodePoint, c: CodePoint, d: CodePoint)
    requires { at + 4 ≤ length area.old }
    ensures { area.new ≡ sets area.old at (a.0 ∷ b.0 ∷ c.0 ∷ d.0 ∷ []) }
{
    area[at] = a.0;
    area[at + 1] = b.0;
    area[at + 2] = c.0;
    area[at + 3] = d.0;
}

// The first four characters in quotes, filled up with 110000 hex.
fn write_quoted(src: Source, p: Spot, area: &mut [u32], at: usize)
    requires at_in_bounds { (p.at ≤ length src.bytes.now) × (p.mode ≡ quoted) }
    requires at_in_bounds_2 { at + 4 ≤ length area.old }
    ensures { area.new ≡ sets area.old at (padded (chars_left src.entry.signs src.entry.bytes.now p) []) }
{
    let a = next_code(src, p);
    let p1 = a.next;
    let b = next_code(src, p1);
    let p2 = b.next;
    let c = next_code(src, p2);
    let p3 = c.next;
    let d = next_code(src, p3);
    put_four(area, at, a.code, b.code, c.code, d.code);
}

// The code that an even number of a row tells: it is twice the code and 2.
fn code_told(x: u32) -> CodePoint
    requires { (1 ≤ x) × (x % 2 ≡ 0) }
    ensures { result.0 ≡ (x - 2) / 2 }
{
    CodePoint((x - 2) / 2)
}

// The four numbers of an item's characters, of the order line of a mark: its row tells a character's code, or where an element's quotes stand.
fn write_chars(src: Source, work: &[u32], mark: usize, area: &mut [u32], at: usize)
    requires chars_ready { CharsReady (length src.bytes.now) work.now mark × HasChars (length src.bytes.now) work.now mark }
    requires at_in_bounds { at + 4 ≤ length area.old }
    ensures { area.new ≡ sets area.old at (padded (item_chars src.entry.signs src.entry.bytes.now work.now mark) []) }
{
    let none = CodePoint(0x110000);
    if mark >= undefined_mark(src.bytes.len()) {
        put_four(area, at, none, none, none, none);
        return;
    }
    let x = told(work, mark, CHARS_NUMBER);
    if x % 2 == 0 {
        let c = code_told(x);
        put_four(area, at, c, none, none, none);
        return;
    }
    let p = Spot {
        at: x as usize / 2,
        mode: QUOTED,
        fresh: false,
    };
    write_quoted(src, p, area, at);
}

// An item, of the order line of a mark: its characters from a place on, its ends, counted from base, from another, its weights from a third. The
// place behind those.
pub fn write_item(
    src: Source,
    work: &[u32],
    mark: usize,
    levels: usize,
    area: &mut [u32],
    slots: usize,
    from: usize,
    base: usize,
    at: usize,
) -> usize
    requires chars_ready { CharsReady (length src.bytes.now) work.now mark × HasChars (length src.bytes.now) work.now mark × RowReady src.signs src.bytes.now work.now mark levels }
    requires sound { Sound (key_at src.signs src.bytes.now) (length src.bytes.now) work.now }
    requires item_room { ItemRoom src.signs src.bytes.now work.now mark levels area.old slots from base at }
    ensures { ItemPut src.entry.signs src.entry.bytes.now work.now mark levels area.old slots from base at area.new result }
{
    let place = told(work, mark, PLACE_NUMBER) as usize;
    let own = Rank(told(work, mark, RANK_NUMBER));
    write_chars(src, work, mark, area, from);
    write_line(src, work, place, levels, own, area, slots, base, at)
}
