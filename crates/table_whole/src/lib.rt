// The whole table: its size, its front, the rules of its levels, its items, UNDEFINED where it is supplied, the listing and the starts.
#![tactic(auto)]

ghost use Rattle.std.specs.Prelude.{◌≡◌, map, ◌+◌, ◌*◌, ◌≤◌, ◌<◌, length, replicate};
ghost use Rattle.std.proofs.lemmas.List.Edits.{sets};
ghost use Rattle.rules.specs.Table.{rule_number};
ghost use Rattle.table_layout.specs.Parts.{ends_at, rules_part};
ghost use Rattle.locale_sheet.specs.Sheets.{rules_at};
ghost use Rattle.table_whole.specs.Building.{all_items, all_weights, table_size, front_numbers, supplied_ends, with_supplied, HeadFits, Suppliable, Buildable, Tabled, Built};

use base_units::{Rank, narrow};
use locale_levels::write_rules;
use locale_sheet::Sheet;
use table_items::write_items;
use table_layout::{ends_at, mask_for, rules_part, weights_part};
use table_listing::list_items;
use table_records::put_rank;
use text_lines::{IN_PLAIN, Source, Spot};

// How many items there are, with UNDEFINED where it is supplied.
fn all_items(items: usize, supplied: bool) -> usize
    requires { items ≤ 32767 }
    ensures { result ≡ all_items supplied items }
{
    if supplied { items + 1 } else { items }
}

// How many weights: the supplied UNDEFINED has one at each level.
fn all_weights(levels: usize, weights: usize, supplied: bool) -> usize
    requires { (levels ≤ 8) × (weights ≤ 2097088) }
    ensures { result ≡ all_weights supplied levels weights }
{
    if supplied { weights + levels } else { weights }
}

// How many numbers a table takes, of so many levels, items and weights, and with UNDEFINED supplied or not.
pub fn table_size(levels: usize, items: usize, weights: usize, supplied: bool) -> usize
    requires { (levels ≤ 8) × (items ≤ 32767) × (weights ≤ 2097088) }
    ensures { result ≡ table_size levels items weights supplied }
{
    let base = weights_part(levels, all_items(items, supplied));
    let sum = all_weights(levels, weights, supplied);
    base + sum
}

// One number, n times, from a place on.
fn fill(area: &mut [u32], at: usize, n: usize, x: u32)
    requires { at + n ≤ length area.old }
    ensures { area.new ≡ sets area.old at (replicate n x) }
{
    area[at..at + n].fill(x);
}

// A rank, n times, from a place on: it is a weight, so it is stored as every weight is.
fn fill_rank(area: &mut [u32], at: usize, n: usize, r: Rank)
    requires { at + n ≤ length area.old }
    ensures { area.new ≡ sets area.old at (replicate n r.0) }
{
    for k in 0..n {
        put_rank(area, at + k, r);
    }
}

// n numbers from a place on, each one above the one before it, the first one above x.
fn count_up(area: &mut [u32], at: usize, n: usize, x: u32)
    requires { (at + n ≤ length area.old) × (x + n < 4294967296) }
    ensures { area.new ≡ sets area.old at (supplied_ends n x) }
{
    for k in 0..n {
        area[at + k] = x + k as u32 + 1;
    }
}

// The 16 numbers in front of a table: how many levels, items and weights it has, the mask of its buckets, and zeros.
fn write_front(area: &mut [u32], levels: u32, items: u32, weights: u32)
    requires { (16 ≤ length area.old) × (items ≤ 32768) }
    ensures { area.new ≡ sets area.old 0 (front_numbers levels items weights) }
{
    let buckets = mask_for(items);
    area[0] = levels;
    area[1] = items;
    area[2] = weights;
    area[3] = buckets;
    fill(area, 4, 12, 0);
}

// UNDEFINED where it is supplied: no characters, one weight for each level, which end behind so many others, and its rank at each level.
fn write_supplied(
    area: &mut [u32],
    levels: usize,
    rank: Rank,
    weights: u32,
    slots: usize,
    from: usize,
    at: usize,
)
    requires { (slots + levels ≤ from) × (from + 4 ≤ at) × (at + levels ≤ length area.old) × (weights + levels < 4294967296) }
    ensures { area.new ≡ with_supplied area.old levels weights rank.0 slots from at }
{
    fill(area, from, 4, 0x110000);
    count_up(area, slots, levels, weights);
    fill_rank(area, at, levels, rank);
}

// UNDEFINED supplied behind the items, in a table whose characters and weights start at these places: its rank is one above that of the last order
// line.
fn supply(
    area: &mut [u32],
    levels: usize,
    items: usize,
    weights: usize,
    count: usize,
    chars: usize,
    base: usize,
)
    requires { Suppliable levels items weights count chars base area.old }
    ensures { area.new ≡ with_supplied area.old levels weights (count + 1) (ends_at levels items) (chars + 4 * items) (base + weights) }
{
    let slots = ends_at(levels, items);
    let rank = narrow(count + 1);
    write_supplied(
        area,
        levels,
        Rank(rank),
        narrow(weights),
        slots,
        chars + 4 * items,
        base + weights,
    );
}

// The front of a table, and the rules that stand at a place.
fn write_head(
    src: Source,
    place: usize,
    levels: usize,
    items: usize,
    weights: usize,
    area: &mut [u32],
)
    requires { HeadFits src.signs src.bytes.now place levels items weights area.old }
    ensures { area.new ≡ sets (sets area.old 0 (front_numbers levels items weights)) (rules_part levels items) (map rule_number (rules_at src.entry.signs src.entry.bytes.now place)) }
{
    write_front(area, narrow(levels), narrow(items), narrow(weights));
    let p = Spot {
        at: place,
        mode: IN_PLAIN,
        fresh: false,
    };
    let at = rules_part(levels, items);
    write_rules(src, p, area, at);
}

// All numbers of the table but its listing and its starts.
fn write_table(
    src: Source,
    work: &[u32],
    sh: Sheet,
    items: usize,
    weights: usize,
    supplied: bool,
    area: &mut [u32],
)
    requires { Buildable src.signs src.bytes.now work.now sh items weights supplied area.old }
    ensures { Tabled src.entry.signs src.entry.bytes.now work.now sh items weights supplied area.old area.new }
{
    let levels = sh.levels;
    let all = all_items(items, supplied);
    let sum = all_weights(levels, weights, supplied);
    write_head(src, sh.rules, levels, all, sum, area);
    let chars = ends_at(levels, all);
    let base = weights_part(levels, all);
    write_items(src, work, sh.order, levels, area, 16, chars, base);
    if supplied {
        supply(area, levels, items, weights, sh.order.count, chars, base);
        return;
    }
}

// The table of a source, once each order line has its rank; the work area is used up. Never inlined, so that the array stands on the stack while the
// table is written, and not below the readers of the lines too: docs/ANSWERS.md has what a call takes.
#[inline(never)]
pub fn build_table(
    src: Source,
    work: &mut [u32],
    sh: Sheet,
    items: usize,
    weights: usize,
    supplied: bool,
    area: &mut [u32],
)
    requires { Buildable src.signs src.bytes.now work.old sh items weights supplied area.old }
    ensures { Built src.entry.signs src.entry.bytes.now work.old sh items weights supplied area.old area.new }
{
    write_table(src, &work[..], sh, items, weights, supplied, area);
    let all = all_items(items, supplied);
    let mut buf = [0u32; 16384];
    list_items(area, sh.levels, all, work, &mut buf);
}
