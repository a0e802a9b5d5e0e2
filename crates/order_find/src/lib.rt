// The element that begins at a place of a string: the longest listed item that stands there, else one character as UNDEFINED.
//
// A table lists the items by their buckets, then by their four numbers, and padding is above every character: items that begin with the same
// character stand in one bucket, a longer item before its own beginnings, and UNDEFINED is last of all. So where the first item of a
// character's bucket is that character alone, it is the element whatever follows. Else halving finds the first listed item of the bucket that
// does not come before the next four characters. It is the element if the string begins with all of it; else no item that stands there is longer
// than what the two share, and the search goes on for that beginning. Most places need no search, none more than four.
#![tactic(auto)]

ghost use Rattle.std.specs.Prelude.{◌≡◌, true, [], ◌+◌, ◌≤◌, ◌<◌, length, get_or, take, drop};
ghost use Rattle.rules.specs.Text.{every};
ghost use Rattle.rules.specs.Names.{is_character};
ghost use Rattle.rules.specs.Table.{pad, padded, before, accepted, meaning_in};
ghost use Rattle.rules.specs.Order.{step_of};
ghost use Rattle.table_layout.specs.Parts.{Shaped, Indexed};
ghost use Rattle.order_find.specs.Answer.{found_as, Quick};
ghost use Rattle.order_find.specs.Search.{numbers_of, key_in, Least, Shares, Window, Ahead, Looked};

use table_layout::{Shape, bucket_in, characters, item_at, items, start_in};

// An element: its item's place in the table, from 1, and how many characters it takes.
#[derive(Clone, Copy)]
pub struct Found {
    pub place: usize,
    pub size: usize,
}

// Four numbers to look for: characters, then padding.
#[derive(Clone, Copy)]
struct Key {
    pub a: u32,
    pub b: u32,
    pub c: u32,
    pub d: u32,
}

// What one search comes to. The names say what is found; as `Result<Found, usize>` the bound, which only narrows the search, would be an error.
#[derive(Clone, Copy)]
enum Near {
    // the element
    Element(Found),
    // no item that stands there has more characters than this
    Within(usize),
}

// Whether the four numbers at a place come before a key.
fn before_key(t: &[u32], at: usize, key: Key) -> bool
    requires { at + 4 ≤ length t.now }
    ensures { result ≡ before (key_in t.now at) (numbers_of key) }
{
    let a = t[at];
    if a != key.a {
        return a < key.a;
    }
    let b = t[at + 1];
    if b != key.b {
        return b < key.b;
    }
    let c = t[at + 2];
    if c != key.c {
        return c < key.c;
    }
    t[at + 3] < key.d
}

// Where the first item is listed, from 0, that does not come before a key, by its bucket and then by its numbers. The items of the key's bucket
// stand together, and behind them one that does not come before it: UNDEFINED, if no other.
fn first_from(t: &[u32], chars: usize, items: usize, key: Key) -> usize
    requires { Indexed t.now chars items }
    ensures { Least (meaning_in t.now).items items (numbers_of key) result }
{
    let bucket = bucket_in(t, key.a);
    let next = bucket + 1;
    let mut lo = start_in(t, chars, items, bucket);
    let mut hi = start_in(t, chars, items, next);
    // an item is told by the table's index, and there is no slice of items: nothing for `partition_point` to go over
    while lo < hi {
        let mid = lo + (hi - lo) / 2;
        let item = item_at(t, chars, items, mid);
        if before_key(t, item.from, key) {
            lo = mid + 1;
        } else {
            hi = mid;
        }
    }
    lo
}

// Number i of the key of `size` characters from a place on: a character, or padding behind them.
fn number(s: &[u32], at: usize, size: usize, i: usize) -> u32
    requires { at + size ≤ length s.now }
    ensures { result ≡ get_or (take size (drop at s.now)) i pad }
{
    if i < size { s[at + i] } else { 0x110000 }
}

// The key of `size` characters from a place on.
fn key_at(s: &[u32], at: usize, size: usize) -> Key
    requires { at + size ≤ length s.now }
    ensures { numbers_of result ≡ padded (take size (drop at s.now)) [] }
{
    Key {
        a: number(s, at, size, 0),
        b: number(s, at, size, 1),
        c: number(s, at, size, 2),
        d: number(s, at, size, 3),
    }
}

// How many of `size` characters from a place on the item begins with whose four numbers begin at `from`.
fn shared(t: &[u32], from: usize, s: &[u32], at: usize, size: usize) -> usize
    requires { (from + 4 ≤ length t.now) × (at + size ≤ length s.now) × (size ≤ 4) }
    ensures { Shares t.now from s.now at size result }
{
    for n in 0..size {
        if t[from + n] != s[at + n] {
            return n;
        }
    }
    size
}

// One search, for `size` characters from a place on, where no item that stands there has more.
fn look(t: &[u32], chars: usize, items: usize, s: &[u32], at: usize, size: usize) -> Near
    requires indexed { Indexed t.now chars items }
    requires ahead { Ahead (meaning_in t.now).items s.now at size }
    ensures { Looked (meaning_in t.now).items (drop at s.now) size result }
{
    let key = key_at(s, at, size);
    let k = first_from(t, chars, items, key);
    let item = item_at(t, chars, items, k);
    let n = shared(t, item.from, s, at, size);
    if n == 0 {
        return Near::Within(0);
    }
    if n == size || t[item.from + n] == 0x110000 {
        return Near::Element(Found {
            place: item.place,
            size: n,
        });
    }
    Near::Within(n)
}

// How many characters from a place on can be an item's: all that are left, at most four.
fn ahead(s: &[u32], at: usize) -> usize
    requires { at < length s.now }
    ensures { Window s.now at result }
{
    (s.len() - at).min(4)
}

// The element that begins at a place of a string of characters, searched for.
pub fn search(t: &[u32], s: &[u32], at: usize) -> Found
    requires t_value { accepted t.now ≡ true }
    requires at_in_bounds { at < length s.now }
    requires s_value { every is_character s.now ≡ true }
    ensures { found_as result ≡ step_of (meaning_in t.now).items (drop at s.now) }
{
    let chars = characters(t);
    let n = items(t);
    let mut size = ahead(s, at);
    while 0 < size {
        match look(t, chars, n, s, at, size) {
            Near::Element(found) => return found,
            Near::Within(m) => size = m,
        }
    }
    let last = item_at(t, chars, n, n - 1);
    Found {
        place: last.place,
        size: 1,
    }
}

// The place of the item that a character is whatever follows it, where that is known, in a table of so many items whose characters begin at a place.
fn quick_in(t: &[u32], chars: usize, items: usize, c: u32) -> Option<usize>
    requires indexed { Indexed t.now chars items }
    requires c_value { is_character c ≡ true }
    ensures { Quick (meaning_in t.now).items c result }
{
    let k = start_in(t, chars, items, bucket_in(t, c));
    let item = item_at(t, chars, items, k);
    let from = item.from;
    if t[from] == c && t[from + 1] == 0x110000 {
        Some(item.place)
    } else {
        None
    }
}

// The same, where the caller does not have the table's shape.
pub fn quick(t: &[u32], c: u32) -> Option<usize>
    requires t_value { accepted t.now ≡ true }
    requires c_value { is_character c ≡ true }
    ensures { Quick (meaning_in t.now).items c result }
{
    quick_in(t, characters(t), items(t), c)
}

// The element that begins at a place of a string of characters, in a table of this shape.
pub fn longest_in(t: &[u32], shape: Shape, s: &[u32], at: usize) -> Found
    requires shaped { Shaped t.now shape }
    requires at_in_bounds { at < length s.now }
    requires s_value { every is_character s.now ≡ true }
    ensures { found_as result ≡ step_of (meaning_in t.now).items (drop at s.now) }
{
    match quick_in(t, shape.chars, shape.items, s[at]) {
        Some(place) => Found { place, size: 1 },
        None => search(t, s, at),
    }
}

// The same, where the caller does not have the table's shape.
pub fn longest(t: &[u32], s: &[u32], at: usize) -> Found
    requires t_value { accepted t.now ≡ true }
    requires at_in_bounds { at < length s.now }
    requires s_value { every is_character s.now ≡ true }
    ensures { found_as result ≡ step_of (meaning_in t.now).items (drop at s.now) }
{
    longest_in(t, table_layout::shape_of(t), s, at)
}
