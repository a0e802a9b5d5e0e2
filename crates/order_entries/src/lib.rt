// The entries of a level, one after the other in the direction of its rule, and the comparison of two such lists.
#![tactic(auto)]

ghost use Rattle.std.specs.Prelude.{◌≡◌, cond, true, min, ◌≤◌, ◌<◌, length, get_or};
ghost use Rattle.rules.specs.Order.{sign_entry};
ghost use Rattle.base_units.specs.Numbers.{sign_of};
ghost use Rattle.table_layout.specs.Parts.{rule_as};
ghost use Rattle.order_entries.specs.Walk.{directed, Level, Sound, fresh, entry_as, entries_on, entries_left, Gives, level_with, at_elements, skipped_after, Walking, Onward, Compared};

use base_units::Rank;
use std::cmp::Ordering;
use table_layout::Rule;

// How many elements without a weight stood before it, 0 without position; and its weight.
#[derive(Clone, Copy, PartialEq, Eq, PartialOrd, Ord)]
pub struct Entry {
    pub count: usize,
    pub rank: Rank,
}

// Where a walk stands: so many elements passed; where the weights begin of the last of them that are still to come, and how
// many; and the elements without a weight since the last that had one.
#[derive(Clone, Copy)]
pub struct Cursor {
    pub passed: usize,
    pub from: usize,
    pub left: usize,
    pub skipped: usize,
}

// Two walks over a level, and how many entries both have passed as equal.
#[derive(Clone, Copy)]
struct Walks {
    pub x: Cursor,
    pub y: Cursor,
    pub agreed: usize,
}

// How two lists of entries compare, and how many entries they begin with alike.
#[derive(Clone, Copy)]
pub struct Seen {
    pub sign: Ordering,
    pub agreed: usize,
}

// The start of a walk.
fn start() -> Cursor
    ensures { result ≡ fresh }
{
    Cursor {
        passed: 0,
        from: 0,
        left: 0,
        skipped: 0,
    }
}

// The place of the element that is i-th in the direction walked, from 0.
fn place_at(places: &[u32], backward: bool, i: usize) -> usize
    requires { i < length places.now }
    ensures { result ≡ get_or (directed backward places.now) i 0 }
{
    if backward {
        places[places.len() - 1 - i] as usize
    } else {
        places[i] as usize
    }
}

// The count of an entry, n elements without a weight having stood before it.
pub fn counted(position: bool, n: usize) -> usize
    ensures { result ≡ cond position n 0 }
{
    if position { n } else { 0 }
}

// The entry that begins the next element with a weight, `passed` elements being passed, the last `skipped` of them without one.
fn next_element(
    t: &[u32],
    places: &[u32],
    level: usize,
    rule: Rule,
    passed: usize,
    skipped: usize,
) -> Option<(Entry, Cursor)>
    requires level { Level t.now places.now level }
    requires passed_in_bounds { (passed ≤ length places.now) × (skipped ≤ passed) }
    ensures { Gives t.now places.now level (rule_as rule) (entries_on t.now places.now level (rule_as rule) passed skipped) result }
{
    let mut n = skipped;
    for i in passed..places.len() {
        let place = place_at(places, rule.backward, i);
        let run = table_layout::weights(t, place, level);
        let from = run.from;
        let many = run.count;
        if 0 < many {
            let rank = table_layout::weight(t, from);
            let count = counted(rule.position, n);
            return Some((
                Entry { count, rank },
                Cursor {
                    passed: i + 1,
                    from: from + 1,
                    left: many - 1,
                    skipped: 0,
                },
            ));
        }
        n += 1;
    }
    None
}

// The next of a level's entries.
fn next(t: &[u32], places: &[u32], level: usize, rule: Rule, c: Cursor) -> Option<(Entry, Cursor)>
    requires level { Level t.now places.now level }
    requires sound { Sound t.now places.now c }
    ensures { Gives t.now places.now level (rule_as rule) (entries_left t.now places.now level (rule_as rule) c) result }
{
    let from = c.from;
    let left = c.left;
    if 0 < left {
        let rank = table_layout::weight(t, from);
        return Some((
            Entry { count: 0, rank },
            Cursor {
                from: from + 1,
                left: left - 1,
                ..c
            },
        ));
    }
    next_element(t, places, level, rule, c.passed, c.skipped)
}

// How two entries compare: by their counts first.
pub fn order_of(x: Entry, y: Entry) -> Ordering
    ensures { sign_of result ≡ sign_entry (entry_as x) (entry_as y) }
{
    x.cmp(&y)
}

// Whether two walks, with m and n weights of an element still to come, stand between elements with as many without a weight behind them.
pub fn level_with(m: usize, n: usize, skipped: usize, other: usize) -> bool
    ensures { result ≡ level_with m n skipped other }
{
    m == 0 && n == 0 && skipped == other
}

// Two walks that stand level, i and j elements passed, the last `skipped` of them without a weight.
fn between(i: usize, j: usize, skipped: usize, agreed: usize) -> Walks
    ensures { result ≡ at_elements i j skipped agreed }
{
    Walks {
        x: Cursor {
            passed: i,
            from: 0,
            left: 0,
            skipped,
        },
        y: Cursor {
            passed: j,
            from: 0,
            left: 0,
            skipped,
        },
        agreed,
    }
}

// How many elements without a weight stand behind one that has so many weights, n having stood before it.
pub fn skipped_after(n: usize, count: usize) -> usize
    requires { n ≤ 4096 }
    ensures { result ≡ skipped_after n count }
{
    if count == 0 { n + 1 } else { 0 }
}

// Two walks that stand level, behind the elements that both go on with: those give both the same entries, which need not be read.
fn both(t: &[u32], a: &[u32], b: &[u32], level: usize, rule: Rule, w: Walks) -> Walks
    requires level { Level t.now a.now level }
    requires level_2 { Level t.now b.now level }
    requires walking { Walking t.now a.now b.now level (rule_as rule) w }
    requires skipped_value { level_with w.x.left w.y.left w.x.skipped w.y.skipped ≡ true }
    ensures { Onward t.now a.now b.now level (rule_as rule) w result }
{
    let x = w.x;
    let y = w.y;
    let mut j = y.passed;
    let mut skipped = x.skipped;
    let mut agreed = w.agreed;
    let end = x.passed + (a.len() - x.passed).min(b.len() - y.passed);
    for i in x.passed..end {
        let place = place_at(a, rule.backward, i);
        let other = place_at(b, rule.backward, j);
        if place != other {
            return between(i, j, skipped, agreed);
        }
        let count = table_layout::count_at(t, place, level);
        agreed += count;
        skipped = skipped_after(skipped, count);
        j += 1;
    }
    between(end, j, skipped, agreed)
}

// Two walks, behind the elements that both go on with if they stand level.
fn onward(t: &[u32], a: &[u32], b: &[u32], level: usize, rule: Rule, w: Walks) -> Walks
    requires level { Level t.now a.now level }
    requires level_2 { Level t.now b.now level }
    requires walking { Walking t.now a.now b.now level (rule_as rule) w }
    ensures { Onward t.now a.now b.now level (rule_as rule) w result }
{
    if level_with(w.x.left, w.y.left, w.x.skipped, w.y.skipped) {
        both(t, a, b, level, rule, w)
    } else {
        w
    }
}

// How the entries of a level compare that two strings' elements have: the first difference decides.
pub fn compare_level(t: &[u32], a: &[u32], b: &[u32], level: usize, rule: Rule) -> Seen
    requires level { Level t.now a.now level }
    requires level_2 { Level t.now b.now level }
    ensures { Compared t.now a.now b.now level (rule_as rule) result }
{
    let mut x = start();
    let mut y = start();
    let mut agreed: usize = 0;
    loop {
        let w = onward(t, a, b, level, rule, Walks { x, y, agreed });
        agreed = w.agreed;
        match (next(t, a, level, rule, w.x), next(t, b, level, rule, w.y)) {
            (None, None) => {
                return Seen {
                    sign: Ordering::Equal,
                    agreed,
                };
            }
            (None, Some(_)) => {
                return Seen {
                    sign: Ordering::Less,
                    agreed,
                };
            }
            (Some(_), None) => {
                return Seen {
                    sign: Ordering::Greater,
                    agreed,
                };
            }
            (Some((e, after)), Some((f, behind))) => match order_of(e, f) {
                Ordering::Equal => {
                    x = after;
                    y = behind;
                    agreed += 1;
                }
                sign => return Seen { sign, agreed },
            },
        }
    }
}
