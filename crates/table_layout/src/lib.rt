// The layout of a table (docs/TABLE.md): where each part stands, and the readers of an accepted table. Offsets and strides are known here alone.
#![tactic(auto)]

ghost use Rattle.std.specs.Prelude.{◌≡◌, true, [], ◌∷◌, ◌+◌, ◌*◌, ◌/◌, ◌≤◌, ◌<◌, length, get_or, take, drop};
ghost use Rattle.rules.specs.Table.{mask, bucket, accepted, meaning_in};
ghost use Rattle.rules.specs.Order.{weights_at};
ghost use Rattle.table_layout.specs.Starts.{bucket_for, four_from, bucket_from, Place, start_at};
ghost use Rattle.table_layout.specs.Parts.{ends_at, rules_part, weights_part, Before, rule_as, rule_at, Within, Holds, Many, Shaped};
ghost use Rattle.table_layout.specs.Parts.{chars_part, start_for, Indexed, Lists};

use base_units::Rank;

// How the entries of a level are walked.
#[derive(Clone, Copy)]
pub struct Rule {
    pub backward: bool,
    pub position: bool,
}

// Numbers that stand in a table, from a place on.
#[derive(Clone, Copy)]
pub struct Run {
    pub from: usize,
    pub count: usize,
}

// What every walk over a string asks of a table: how many levels and items it has, and where their characters and their weights begin.
#[derive(Clone, Copy)]
pub struct Shape {
    pub levels: usize,
    pub items: usize,
    pub chars: usize,
    pub weights: usize,
}

// Where the ends of item k begin, from 0; for the number of items, where the characters begin.
pub fn ends_at(levels: usize, k: usize) -> usize
    requires { (levels ≤ 8) × (k ≤ 32768) }
    ensures { result ≡ ends_at levels k }
{
    16 + k * levels
}

// Where the rules begin.
pub fn rules_part(levels: usize, items: usize) -> usize
    requires { (levels ≤ 8) × (items ≤ 32768) }
    ensures { result ≡ rules_part levels items }
{
    ends_at(levels, items) + 6 * items
}

// Where the weights begin.
pub fn weights_part(levels: usize, items: usize) -> usize
    requires { (levels ≤ 8) × (items ≤ 32768) }
    ensures { result ≡ weights_part levels items }
{
    rules_part(levels, items) + levels
}

// One less than how many buckets characters have, where there are so many items.
pub fn mask_for(items: u32) -> u32
    requires { items ≤ 32768 }
    ensures { result ≡ mask items }
{
    let mut p = 1;
    for _ in 0..15u32 {
        if p < items {
            p *= 2;
        }
    }
    p - 1
}

// The bucket of an item whose characters begin with a number.
fn bucket_of(items: u32, buckets: u32, c: u32) -> u32
    requires { (1 ≤ items) × (items ≤ 32768) × (buckets ≡ mask items) }
    ensures { result ≡ bucket_for items c }
{
    if c == 0x110000 {
        2 * items - 1
    } else {
        c & buckets
    }
}

// The four numbers of the item at a place, from 1, where those of the first stand at `chars`.
pub fn four_numbers(t: &[u32], chars: usize, place: usize) -> &[u32]
    requires { (1 ≤ place) × (chars + 4 * place ≤ length t.now) }
    ensures { result.now ≡ take 4 (drop (four_from chars place) t.now) }
{
    let from = chars + 4 * (place - 1);
    &t[from..from + 4]
}

// The bucket of the item at a place, where the characters of the first stand at `chars`.
pub fn bucket_at(t: &[u32], chars: usize, items: u32, buckets: u32, p: u32) -> u32
    requires { Place t.now chars items buckets p }
    ensures { (result ≡ bucket_from t.now chars items p) × (result < 2 * items) }
{
    bucket_of(items, buckets, four_numbers(t, chars, p as usize)[0])
}

// The start of a bucket, where the starts stand from a place on; two stand in each number.
pub fn start_of(t: &[u32], from: usize, b: usize) -> u32
    requires { from + b / 2 < length t.now }
    ensures { result ≡ start_at (drop from t.now) b }
{
    let n = t[from + b / 2];
    if b % 2 == 0 { n % 65536 } else { n / 65536 }
}

// How many levels an accepted table has.
pub fn levels(t: &[u32]) -> usize
    requires { accepted t.now ≡ true }
    ensures { result ≡ length (meaning_in t.now).rules }
{
    t[0] as usize
}

// How many items an accepted table has.
pub fn items(t: &[u32]) -> usize
    requires { accepted t.now ≡ true }
    ensures { result ≡ length (meaning_in t.now).items }
{
    t[1] as usize
}

// The rule of a level, from 0.
pub fn rule_of(t: &[u32], level: usize) -> Rule
    requires t_value { accepted t.now ≡ true }
    requires level_in_bounds { level < length (meaning_in t.now).rules }
    ensures { rule_as result ≡ rule_at t.now level }
{
    let l = levels(t);
    let m = items(t);
    let at = rules_part(l, m);
    let n = t[at + level];
    Rule {
        backward: n % 2 == 1,
        position: 2 <= n,
    }
}

// The shape of an accepted table.
pub fn shape_of(t: &[u32]) -> Shape
    requires { accepted t.now ≡ true }
    ensures { Shaped t.now result }
{
    let l = levels(t);
    let n = items(t);
    Shape {
        levels: l,
        items: n,
        chars: ends_at(l, n),
        weights: weights_part(l, n),
    }
}

// How many weights stand before those of the item at a place, from 1, at a level, from 0, or at the number of levels, behind all of its own.
fn weights_before(t: &[u32], levels: usize, place: usize, level: usize) -> usize
    requires within { Within t.now place 0 }
    requires levels_value { (levels ≡ length (meaning_in t.now).rules) × (level ≤ length (meaning_in t.now).rules) }
    ensures { Before t.now place level result }
{
    let at = ends_at(levels, place - 1) + level;
    t[at - 1] as usize
}

// Where the weights stand of the item at a place, from 1, at a level, from 0, in a table of this shape.
pub fn weights_in(t: &[u32], shape: Shape, place: usize, level: usize) -> Run
    requires shaped { Shaped t.now shape }
    requires within { Within t.now place level }
    ensures { Holds t.now result (weights_at (meaning_in t.now).items level place) }
{
    let before = weights_before(t, shape.levels, place, level);
    let to = weights_before(t, shape.levels, place, level + 1);
    Run {
        from: shape.weights + before,
        count: to - before,
    }
}

// The same, where the caller does not have the table's shape.
pub fn weights(t: &[u32], place: usize, level: usize) -> Run
    requires { Within t.now place level }
    ensures { Holds t.now result (weights_at (meaning_in t.now).items level place) }
{
    let shape = shape_of(t);
    weights_in(t, shape, place, level)
}

// How many weights the item at a place, from 1, has at a level, from 0.
pub fn count_at(t: &[u32], place: usize, level: usize) -> usize
    requires { Within t.now place level }
    ensures { Many t.now place level result }
{
    let l = levels(t);
    let before = weights_before(t, l, place, level);
    let to = weights_before(t, l, place, level + 1);
    to - before
}

// The weight that stands at a place of the table.
pub fn weight(t: &[u32], at: usize) -> Rank
    requires { at < length t.now }
    ensures { result.0 ≡ get_or t.now at 0 }
{
    Rank(t[at])
}

// An item that the listing lists: its place in the table, from 1, and where its four numbers begin.
#[derive(Clone, Copy)]
pub struct Listed {
    pub place: usize,
    pub from: usize,
}

// Where the characters begin.
pub fn characters(t: &[u32]) -> usize
    requires { accepted t.now ≡ true }
    ensures { result ≡ chars_part (length (meaning_in t.now).rules) (length (meaning_in t.now).items) }
{
    let l = levels(t);
    let n = items(t);
    ends_at(l, n)
}

// The bucket of a character.
pub fn bucket_in(t: &[u32], c: u32) -> usize
    requires { accepted t.now ≡ true }
    ensures { result ≡ bucket (length (meaning_in t.now).items) (c ∷ []) }
{
    (c & t[3]) as usize
}

// Where the items of a bucket begin in the listing, from 0.
pub fn start_in(t: &[u32], chars: usize, items: usize, b: usize) -> usize
    requires indexed { Indexed t.now chars items }
    requires b_bound { b < 2 * items }
    ensures { result ≡ start_for (meaning_in t.now).items b }
{
    start_of(t, chars + 5 * items, b) as usize
}

// The item that is listed at k, from 0.
pub fn item_at(t: &[u32], chars: usize, items: usize, k: usize) -> Listed
    requires indexed { Indexed t.now chars items }
    requires k_lt { k < items }
    ensures { Lists t.now k result }
{
    let place = t[chars + 4 * items + k] as usize;
    Listed {
        place,
        from: chars + 4 * (place - 1),
    }
}
