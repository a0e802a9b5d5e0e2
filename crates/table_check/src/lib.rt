// The check of a table: straight passes over its parts, before any operation reads them. docs/TABLE.md has the layout.
#![tactic(auto)]

ghost use Rattle.std.specs.Prelude.{◌≡◌, ◌+◌, ◌-◌, ◌*◌, ◌/◌, ◌%◌, ◌<◌, ◌≤◌, not, ◌&&◌, ◌||◌, length, take, drop, ◌==◌};
ghost use Rattle.rules.specs.Text.{within, every};
ghost use Rattle.rules.specs.Names.{is_character};
ghost use Rattle.rules.specs.Table.{pad, mask, before, accepted};
ghost use Rattle.rules.specs.Calls.{check_call};
ghost use Rattle.table_layout.specs.Starts.{start_all};
ghost use Rattle.table_layout.specs.Parts.{rules_part};
ghost use Rattle.table_check.specs.Checks.{Headed, head_passes, ends_pass, chars_pass, all_chars, listing_in, items_pass, checks};
ghost use Rattle.table_check.specs.Walk.{told_with, told_next};
ghost use Rattle.table_check.specs.Answers.{checked_as};

use base_units::Refusal;
use table_layout::{bucket_at, ends_at, four_numbers, mask_for, start_of, weights_part};

// How large an accepted table is.
#[derive(Clone, Copy)]
pub struct Shape {
    pub levels: usize,
    pub items: usize,
    pub size: usize,
}

// Whether each number lies from low to high. All are looked at, so that the loop has no way out before its end and can be made 16 bytes wide.
fn all_within(numbers: &[u32], low: u32, high: u32) -> bool
    ensures { result ≡ every (within low high) numbers.now }
{
    let mut good = true;
    for x in numbers {
        good &= (low..=high).contains(x);
    }
    good
}

// Whether each end is the one before it or at most 8 more, the first after 0, and the last one is `weights`. All are looked at here too.
fn ends_pass(ends: &[u32], weights: u32) -> bool
    requires { length ends.now ≤ 262144 }
    ensures { result ≡ ends_pass weights 0 ends.now }
{
    let mut good = true;
    let mut last = 0;
    for end in ends {
        good &= end.wrapping_sub(last) <= 8; // a fall wraps
        last = *end;
    }
    good && last == weights
}

// Whether a number is a character or padding.
fn is_ordinary(c: u32) -> bool
    ensures { result ≡ (is_character c || c == pad) }
{
    c <= 0x110000 && !(0xD800..=0xDFFF).contains(&c)
}

// Whether numbers are characters, then padding.
fn characters_pass(numbers: &[u32]) -> bool
    ensures { result ≡ chars_pass numbers.now }
{
    for (i, c) in numbers.iter().enumerate() {
        if *c == 0x110000 {
            return all_within(&numbers[i..], 0x110000, 0x110000);
        }
        if !base_units::is_character(base_units::CodePoint(*c)) {
            return false;
        }
    }
    true
}

// Whether an item's four numbers are characters, then padding. Nearly every item has one character or none.
fn item_passes(four: &[u32]) -> bool
    requires { length four.now ≡ 4 }
    ensures { result ≡ chars_pass four.now }
{
    if four[1] == 0x110000 && four[2] == 0x110000 && four[3] == 0x110000 {
        is_ordinary(four[0])
    } else {
        characters_pass(four)
    }
}

// Whether each of so many items, of four numbers, has characters, then padding. All are looked at here too.
fn chars_pass(numbers: &[u32], items: usize) -> bool
    requires { length numbers.now ≡ 4 * items }
    ensures { result ≡ all_chars items numbers.now }
{
    let mut good = true;
    for four in numbers.chunks_exact(4) {
        good &= item_passes(four);
    }
    good
}

// Whether the buckets from b on, which is even, up to `end`, start at k: two at a time, and what is left.
fn pairs_are(t: &[u32], from: usize, b: usize, end: usize, k: u32) -> bool
    requires { (b % 2 ≡ 0) × (b ≤ end) × (from + (end + 1) / 2 ≤ length t.now) × (k < 65536) }
    ensures { result ≡ start_all (drop from t.now) k b (end - b) }
{
    let both = k + 65536 * k;
    let pairs = &t[from + b / 2..from + end / 2];
    all_within(pairs, both, both) && (end % 2 == 0 || start_of(t, from, end - 1) == k)
}

// Whether the buckets from b on, up to `end`, start at k.
fn starts_are(t: &[u32], from: usize, b: usize, end: usize, k: u32) -> bool
    requires { (b < end) × (from + (end + 1) / 2 ≤ length t.now) × (k < 65536) }
    ensures { result ≡ start_all (drop from t.now) k b (end - b) }
{
    if b % 2 == 0 {
        pairs_are(t, from, b, end, k)
    } else {
        start_of(t, from, b) == k && pairs_are(t, from, b + 1, end, k)
    }
}

// How many starts are told once the item at p is listed, as number k, after the one at `last`, with which `told` are told. None if it may not
// follow that one, or a start is wrong.
fn told_after(
    t: &[u32],
    items: u32,
    buckets: u32,
    chars: usize,
    k: u32,
    last: usize,
    told: usize,
    p: usize,
) -> Option<usize>
    requires le { (1 ≤ items) × (items ≤ 32768) × (buckets ≡ mask items) × (chars + 6 * items ≤ length t.now) × (1 ≤ p) × (p ≤ items) }
    requires k_bound { (k < 65536) × (last ≤ items) × (told ≡ told_with items (drop chars t.now) last) }
    ensures { result ≡ told_next items (drop chars t.now) (drop (chars + 5 * items) t.now) k last p }
{
    let q = bucket_at(t, chars, items, buckets, p as u32) as usize;
    let starts = chars + 5 * (items as usize);
    if told == q {
        (start_of(t, starts, q) == k).then_some(q + 1)
    } else if told < q {
        starts_are(t, starts, told, q + 1, k).then_some(q + 1)
    } else if q + 1 < told {
        None // of a bucket before the last one's
    } else {
        (four_numbers(t, chars, last) < four_numbers(t, chars, p)).then_some(told)
    }
}

// Whether the items are listed in the order of their buckets and characters, and each bucket starts where it does.
fn listing_passes(t: &[u32], items: u32, buckets: u32, chars: usize) -> bool
    requires { (1 ≤ items) × (items ≤ 32768) × (buckets ≡ mask items) × (chars + 6 * items ≤ length t.now) }
    ensures { result ≡ listing_in items (drop chars t.now) (take items (drop (chars + 4 * items) t.now)) (drop (chars + 5 * items) t.now) }
{
    let n = items as usize;
    let listed = chars + 4 * n;
    let mut last = 0;
    let mut told = 0;
    for (k, place) in t[listed..listed + n].iter().enumerate() {
        let p = *place as usize;
        if !(1..=n).contains(&p) {
            return false;
        }
        let Some(next) = told_after(t, items, buckets, chars, k as u32, last, told, p) else {
            return false;
        };
        last = p;
        told = next;
    }
    told == 2 * n
}

// Whether the ends, the characters and the listing with the starts pass.
fn items_pass(t: &[u32], levels: usize, items: u32, buckets: u32, weights: u32) -> bool
    requires { (levels ≤ 8) × (1 ≤ items) × (items ≤ 32768) × (buckets ≡ mask items) × (rules_part levels items ≤ length t.now) }
    ensures { result ≡ items_pass t.now levels items weights }
{
    let n = items as usize;
    let chars = ends_at(levels, n);
    ends_pass(&t[16..chars], weights)
        && chars_pass(&t[chars..chars + 4 * n], n)
        && listing_passes(t, items, buckets, chars)
}

// Whether the header's numbers are in their ranges, its mask that of the items, its spare numbers zero, and the area long enough for what it counts.
fn head_passes(t: &[u32]) -> bool
    ensures { result ≡ head_passes t.now }
{
    if t.len() < 16 {
        return false;
    }
    let levels = t[0] as usize;
    let items = t[1] as usize;
    let weights = t[2] as usize;
    if !(1..=8).contains(&levels) || !(1..=32768).contains(&items) || t[3] != mask_for(t[1]) {
        return false;
    }
    all_within(&t[4..16], 0, 0) && weights_part(levels, items) + weights <= t.len()
}

// Whether the items, the rules and the weights pass, where the header does.
fn parts_pass(t: &[u32]) -> bool
    requires { Headed t.now }
    ensures { result ≡ checks t.now }
{
    let levels = t[0] as usize;
    let from = weights_part(levels, t[1] as usize);
    items_pass(t, levels, t[1], t[3], t[2])
        && all_within(&t[from - levels..from], 0, 3)
        && all_within(&t[from..from + t[2] as usize], 1, 32768)
}

// Whether the area begins with an accepted table.
pub fn accepts(t: &[u32]) -> bool
    ensures { result ≡ accepted t.now }
{
    head_passes(t) && parts_pass(t)
}

// The check of a table area: how large the accepted table is, or that it is not accepted. It has no `requires`.
pub fn check(t: &[u32]) -> Result<Shape, Refusal>
    ensures { checked_as result ≡ check_call t.now }
{
    if !accepts(t) {
        return Err(Refusal::NotAccepted);
    }
    let levels = t[0] as usize;
    let items = t[1] as usize;
    let weights = t[2] as usize;
    let size = weights_part(levels, items) + weights;
    Ok(Shape {
        levels,
        items,
        size,
    })
}
