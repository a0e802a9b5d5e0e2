// The elements of a string: cut all at once, or only as far as the first level takes it.
#![tactic(auto)]

ghost use Rattle.std.specs.Prelude.{◌≡◌, true, false, ◌+◌, ◌≤◌, ◌<◌, length, take, drop};
ghost use Rattle.rules.specs.Text.{every};
ghost use Rattle.rules.specs.Names.{is_character};
ghost use Rattle.rules.specs.Table.{accepted, meaning_in};
ghost use Rattle.rules.specs.Directory.{first_of};
ghost use Rattle.order_elements.specs.Cuts.{Ready, Cut, CutOne, Split};
ghost use Rattle.order_elements.specs.Firsts.{fresh, Sound, entries_on, entries_left, Gives, leading_as, first_entries, meeting, Meets, FirstCompared};
ghost use Rattle.order_elements.specs.Commons.{Shared, Certain, Level, Both, Together};

use base_units::Rank;
use order_entries::Entry;
use order_find::Found;
use std::cmp::Ordering;

// Where a walk over the first level stands: up to a place of the string so many elements are cut; where the weights begin of the last of
// them that are still to come, and how many; and the elements without a weight since the last that had one.
#[derive(Clone, Copy)]
struct Walk {
    pub at: usize,
    pub many: usize,
    pub from: usize,
    pub left: usize,
    pub skipped: usize,
}

// The next entry and where the walk stands after it; or how many elements the string has. The names say which: as `Result<(Entry, Walk), usize>`
// a string that is all cut would be an error.
#[derive(Clone, Copy)]
enum Ahead {
    One(Entry, Walk),
    End(usize),
}

// What the next entries of two walks decide.
#[derive(Clone, Copy)]
enum Meeting {
    // the first string comes first
    Before,
    // the second string comes first
    After,
    // both strings end, and have so many elements
    Over(usize, usize),
    // nothing: the two are alike, and the walks go on
    On(Walk, Walk),
}

// What two strings have in common from two places on: so many characters, cut into so many elements; behind them, how many entries have
// agreed, and the elements without a weight since the last that had one.
#[derive(Clone, Copy)]
struct Common {
    pub size: usize,
    pub many: usize,
    pub agreed: usize,
    pub skipped: usize,
}

// Two walks, and how many entries have agreed.
#[derive(Clone, Copy)]
struct Pair {
    pub x: Walk,
    pub y: Walk,
    pub agreed: usize,
}

// Two strings whose first levels are alike: how many entries agree, and how many elements each string has.
#[derive(Clone, Copy)]
pub struct Alike {
    pub agreed: usize,
    pub first: usize,
    pub second: usize,
}

// How the first level of two strings compares. Three cases: as `Result<Alike, (Ordering, usize)>` it could say that an `Equal` has decided.
#[derive(Clone, Copy)]
pub enum First {
    // the first string comes first, so many entries having agreed
    Before(usize),
    // the second string comes first, so many entries having agreed
    After(usize),
    // it does not decide
    Same(Alike),
}

// Cuts the element that begins at a place, so many having been cut before it, and keeps its item's place.
fn cut_one(t: &[u32], s: &[u32], places: &mut [u32], at: usize, many: usize) -> Found
    requires ready { Ready t.now s.now places.old }
    requires cut { Cut t.now s.now places.old at many }
    requires at_in_bounds { at < length s.now }
    ensures { CutOne t.now s.now places.new at many result }
{
    let found = order_find::longest(t, s, at);
    places[many] = found.place as u32;
    found
}

// Cuts a whole string: how many elements it has, and their items' places in front.
pub fn split(t: &[u32], s: &[u32], places: &mut [u32]) -> usize
    requires { Ready t.now s.now places.old }
    ensures { Split t.now s.now places.new result }
{
    let mut at: usize = 0;
    let mut many: usize = 0;
    while at < s.len() {
        let found = cut_one(t, s, places, at, many);
        at += found.size;
        many += 1;
    }
    many
}

// The start of a walk.
fn start() -> Walk
    ensures { result ≡ fresh }
{
    Walk {
        at: 0,
        many: 0,
        from: 0,
        left: 0,
        skipped: 0,
    }
}

// The entry that begins the next element with a weight, cut from where a walk stands on; the weights that this has still to come are not asked for.
fn next_element(t: &[u32], s: &[u32], places: &mut [u32], position: bool, c: Walk) -> Ahead
    requires ready { Ready t.now s.now places.old }
    requires cut { Cut t.now s.now places.old c.at c.many }
    requires skipped_le_many { c.skipped ≤ c.many }
    ensures { Gives t.now s.now places.new position (entries_on t.now s.now position c.at c.skipped) result }
{
    let mut i = c.at;
    let mut k = c.many;
    let mut n = c.skipped;
    while i < s.len() {
        let found = cut_one(t, s, places, i, k);
        let run = table_layout::weights(t, found.place, 0);
        let from = run.from;
        let left = run.count;
        i += found.size;
        k += 1;
        if 0 < left {
            let rank = table_layout::weight(t, from);
            let count = order_entries::counted(position, n);
            return Ahead::One(
                Entry { count, rank },
                Walk {
                    at: i,
                    many: k,
                    from: from + 1,
                    left: left - 1,
                    skipped: 0,
                },
            );
        }
        n += 1;
    }
    Ahead::End(k)
}

// The next of the first level's entries, walked forward; the string is cut as far as it takes.
fn next_first(t: &[u32], s: &[u32], places: &mut [u32], position: bool, c: Walk) -> Ahead
    requires ready { Ready t.now s.now places.old }
    requires sound { Sound t.now s.now places.old c }
    ensures { Gives t.now s.now places.new position (entries_left t.now s.now position c) result }
{
    let from = c.from;
    let left = c.left;
    if 0 < left {
        let rank = table_layout::weight(t, from);
        return Ahead::One(
            Entry { count: 0, rank },
            Walk {
                from: from + 1,
                left: left - 1,
                ..c
            },
        );
    }
    next_element(t, s, places, position, c)
}

// The first weight of the first level, walked forward without position; the string is cut no further than to the element that has it.
pub fn first_weight(t: &[u32], s: &[u32], places: &mut [u32]) -> Option<Rank>
    requires { Ready t.now s.now places.old }
    ensures { leading_as result ≡ first_of (first_entries t.now s.now false) }
{
    match next_element(t, s, places, false, start()) {
        Ahead::One(e, _) => Some(e.rank),
        Ahead::End(_) => None,
    }
}

// What two next entries decide: the smaller comes first, or the string that ends.
fn meet(p: Ahead, q: Ahead) -> Meeting
    ensures { result ≡ meeting p q }
{
    match (p, q) {
        (Ahead::End(n), Ahead::End(m)) => Meeting::Over(n, m),
        (Ahead::End(_), Ahead::One(_, _)) => Meeting::Before,
        (Ahead::One(_, _), Ahead::End(_)) => Meeting::After,
        (Ahead::One(e, after), Ahead::One(f, behind)) => match order_entries::order_of(e, f) {
            Ordering::Less => Meeting::Before,
            Ordering::Greater => Meeting::After,
            Ordering::Equal => Meeting::On(after, behind),
        },
    }
}

// What the next entries of two walks decide.
fn next_meeting(
    t: &[u32],
    a: &[u32],
    b: &[u32],
    first: &mut [u32],
    second: &mut [u32],
    position: bool,
    x: Walk,
    y: Walk,
) -> Meeting
    requires ready { Ready t.now a.now first.old }
    requires ready_2 { Ready t.now b.now second.old }
    requires sound { Sound t.now a.now first.old x }
    requires sound_2 { Sound t.now b.now second.old y }
    ensures { Meets t.now a.now b.now first.new second.new position (entries_left t.now a.now position x) (entries_left t.now b.now position y) result }
{
    let p = next_first(t, a, first, position, x);
    let q = next_first(t, b, second, position, y);
    meet(p, q)
}

// How many characters two strings have in common from two places on.
fn shared(a: &[u32], i: usize, b: &[u32], j: usize) -> usize
    requires { (i ≤ length a.now) × (j ≤ length b.now) }
    ensures { Shared a.now i b.now j result }
{
    let end = (a.len() - i).min(b.len() - j);
    for n in 0..end {
        if a[i + n] != b[j + n] {
            return n;
        }
    }
    end
}

// The element that begins each string that begins with `left` characters from a place on, where they tell. No item has more than four
// characters.
fn certain(t: &[u32], s: &[u32], at: usize, left: usize) -> Option<Found>
    requires t_value { (accepted t.now ≡ true) × (every is_character s.now ≡ true) }
    requires left_nonzero { (0 < left) × (at + left ≤ length s.now) }
    ensures { Certain (meaning_in t.now).items (take left (drop at s.now)) result }
{
    if let Some(place) = order_find::quick(t, s[at]) {
        return Some(Found { place, size: 1 });
    }
    if 4 <= left {
        return Some(order_find::search(t, s, at));
    }
    None
}

// Cuts what two strings have in common from where two walks stand level on, so many entries having agreed: each element is found once, and its
// entries agree.
fn both(
    t: &[u32],
    a: &[u32],
    b: &[u32],
    first: &mut [u32],
    second: &mut [u32],
    x: Walk,
    y: Walk,
    agreed: usize,
) -> Common
    requires { Level t.now a.now b.now first.old second.old x.at y.at x.many y.many x.skipped agreed }
    ensures { Both t.now a.now b.now first.new second.new x.at y.at x.many y.many x.skipped agreed result }
{
    let end = shared(a, x.at, b, y.at);
    let mut c = Common {
        size: 0,
        many: 0,
        agreed,
        skipped: x.skipped,
    };
    while c.size < end {
        let Some(found) = certain(t, a, x.at + c.size, end - c.size) else {
            return c;
        };
        let place = found.place;
        let count = table_layout::count_at(t, place, 0);
        first[x.many + c.many] = place as u32;
        second[y.many + c.many] = place as u32;
        c.agreed += count;
        c.skipped = order_entries::skipped_after(c.skipped, count);
        c.size += found.size;
        c.many += 1;
    }
    c
}

// Two walks that stand level go on over what both strings have in common; others stay where they are.
fn together(
    t: &[u32],
    a: &[u32],
    b: &[u32],
    first: &mut [u32],
    second: &mut [u32],
    x: Walk,
    y: Walk,
    agreed: usize,
) -> Pair
    requires ready { Ready t.now a.now first.old }
    requires ready_2 { Ready t.now b.now second.old }
    requires sound { Sound t.now a.now first.old x }
    requires sound_2 { Sound t.now b.now second.old y }
    requires agreed_bound { agreed ≤ 32768 }
    ensures { Together t.now a.now b.now first.new second.new x y agreed result }
{
    if order_entries::level_with(x.left, y.left, x.skipped, y.skipped) {
        let c = both(t, a, b, first, second, x, y, agreed);
        return Pair {
            x: Walk {
                at: x.at + c.size,
                many: x.many + c.many,
                from: 0,
                left: 0,
                skipped: c.skipped,
            },
            y: Walk {
                at: y.at + c.size,
                many: y.many + c.many,
                from: 0,
                left: 0,
                skipped: c.skipped,
            },
            agreed: c.agreed,
        };
    }
    Pair { x, y, agreed }
}

// How the entries of the first level compare, walked forward: the first difference decides, and no string is cut further than to it.
pub fn compare_first(
    t: &[u32],
    a: &[u32],
    b: &[u32],
    first: &mut [u32],
    second: &mut [u32],
    position: bool,
) -> First
    requires ready { Ready t.now a.now first.old }
    requires ready_2 { Ready t.now b.now second.old }
    ensures { FirstCompared t.now a.now b.now first.new second.new position result }
{
    let mut x = start();
    let mut y = start();
    let mut agreed: usize = 0;
    loop {
        let pair = together(t, a, b, first, second, x, y, agreed);
        let c = pair.x;
        let d = pair.y;
        let passed = pair.agreed;
        match next_meeting(t, a, b, first, second, position, c, d) {
            Meeting::Before => return First::Before(passed),
            Meeting::After => return First::After(passed),
            Meeting::Over(n, m) => {
                return First::Same(Alike {
                    agreed: passed,
                    first: n,
                    second: m,
                });
            }
            Meeting::On(after, behind) => {
                x = after;
                y = behind;
                agreed = passed + 1;
            }
        }
    }
}
