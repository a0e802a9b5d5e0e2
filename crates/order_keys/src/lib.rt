// The key builder: it counts the bytes of a string's key, and writes them where the room lent has place for them all. No list of the string's
// elements is kept: the string is cut again for each level. A level that is walked backward is written from its end towards its beginning, since the
// string is cut from its beginning on, where elements are matched.
#![tactic(auto)]

ghost use Rattle.std.specs.Prelude.{◌≡◌, true, [], ◌+◌, ◌*◌, ◌≤◌, ◌<◌, length};
ghost use Rattle.base_lists.proofs.Runs.{run};
ghost use Rattle.rules.specs.Meaning.{count_all};
ghost use Rattle.rules.specs.Table.{meaning_in};
ghost use Rattle.rules.specs.Order.{two, three, codes_key, good_string, key_of};
ghost use Rattle.rules.specs.Calls.{key_call};
ghost use Rattle.rules.proofs.KeyLaws.{entry_width};
ghost use Rattle.table_layout.specs.Parts.{rule_as, Within, Shaped};
ghost use Rattle.order_keys.specs.Answers.{keyed_as};
ghost use Rattle.order_keys.specs.Writing.{Keyable, AtLevel, weights_from, Cuts, Blank, Countable, Added, Counted, numbers_in, forward, backward, entry_bytes, later_bytes, element_bytes, level_bytes, levels_bytes, TwoFit, ThreeFit, EntryFits, LaterFit, ElementFits, BeforeFits, Puts, PutsBefore};

use base_units::{CodePoint, Rank, Refusal};
use table_layout::{Rule, Run, Shape};

// An element of the string: where its weights at a level stand in the table, and how many characters it takes.
#[derive(Clone, Copy)]
struct Piece {
    pub weights: Run,
    pub size: usize,
}

// A number as two bytes, high first; the place behind them.
fn put_two(room: &mut [u8], at: usize, n: u32) -> usize
    requires { TwoFit room.old at n }
    ensures { Puts room.old at (two n []) room.new result }
{
    room[at] = (n / 256) as u8;
    room[at + 1] = (n % 256) as u8;
    at + 2
}

// A character as three bytes, high first; the place behind them.
fn put_three(room: &mut [u8], at: usize, c: CodePoint) -> usize
    requires { ThreeFit room.old at c.0 }
    ensures { Puts room.old at (three c.0 []) room.new result }
{
    let n = c.0;
    room[at] = (n / 65536) as u8;
    room[at + 1] = (n / 256 % 256) as u8;
    room[at + 2] = (n % 256) as u8;
    at + 3
}

// An entry's bytes: with position its count + 1, then its weight; the place behind them.
fn put_entry(room: &mut [u8], at: usize, position: bool, count: u32, rank: Rank) -> usize
    requires { EntryFits room.old at position count rank.0 }
    ensures { Puts room.old at (entry_bytes position count rank.0) room.new result }
{
    let weight = rank.0;
    if position {
        let next = put_two(room, at, count + 1);
        put_two(room, next, weight)
    } else {
        put_two(room, at, weight)
    }
}

// The weights that stand in a table from one place up to another, as an element's second and later ones; the place behind them.
fn put_later(
    t: &[u32],
    from: usize,
    end: usize,
    position: bool,
    room: &mut [u8],
    at: usize,
) -> usize
    requires { LaterFit t.now from end room.old at position }
    ensures { Puts room.old at (later_bytes position (run t.now from end)) room.new result }
{
    let mut next = at;
    for i in from..end {
        let rank = table_layout::weight(t, i);
        next = put_entry(room, next, position, 0, rank);
    }
    next
}

// The weights of an element that has one, `skipped` elements without a weight having stood before it; the place behind them.
fn put_element(
    t: &[u32],
    run: Run,
    position: bool,
    skipped: u32,
    room: &mut [u8],
    at: usize,
) -> usize
    requires { ElementFits t.now run room.old at position skipped }
    ensures { Puts room.old at (element_bytes position skipped (numbers_in t.now run)) room.new result }
{
    let from = run.from;
    let many = run.count;
    let first = table_layout::weight(t, from);
    let next = put_entry(room, at, position, skipped, first);
    if many == 1 {
        next
    } else {
        put_later(t, from + 1, from + many, position, room, next)
    }
}

// How many bytes an entry takes.
fn entry_width(position: bool) -> usize
    ensures { result ≡ entry_width position }
{
    if position { 4 } else { 2 }
}

// How many bytes a level takes that has so many entries: with the 00 00 behind them.
fn level_width(position: bool, entries: usize) -> usize
    requires { entries ≤ 32768 }
    ensures { result ≡ entry_width position * entries + 2 }
{
    entry_width(position) * entries + 2
}

// The weights of an element, in front of a place; where they begin. One without a weight takes no byte.
fn put_before(
    t: &[u32],
    run: Run,
    position: bool,
    skipped: u32,
    room: &mut [u8],
    end: usize,
) -> usize
    requires { BeforeFits t.now run position skipped room.old end }
    ensures { PutsBefore room.old end (element_bytes position skipped (numbers_in t.now run)) room.new result }
{
    let many = run.count;
    if many == 0 {
        return end;
    }
    let at = end - entry_width(position) * many;
    put_element(t, run, position, skipped, room, at);
    at
}

// The element that begins at a place of the string, in a table of this shape.
fn next_piece(t: &[u32], shape: Shape, s: &[u32], level: usize, at: usize) -> Piece
    requires shaped { Shaped t.now shape }
    requires at_level { AtLevel t.now s.now level }
    requires at_in_bounds { at < length s.now }
    ensures { Cuts t.now s.now level at result }
{
    let found = order_find::longest_in(t, shape, s, at);
    Piece {
        weights: table_layout::weights_in(t, shape, found.place, level),
        size: found.size,
    }
}

// The entries of a level that is walked forward, and 00 00 behind them; the place behind those.
fn write_forward(
    t: &[u32],
    s: &[u32],
    level: usize,
    position: bool,
    room: &mut [u8],
    at: usize,
) -> usize
    requires at_level { AtLevel t.now s.now level }
    requires position_in_bounds { at + length (level_bytes t.now s.now level (forward position)) ≤ length room.old }
    ensures { Puts room.old at (level_bytes t.now s.now level (forward position)) room.new result }
{
    let shape = table_layout::shape_of(t);
    let mut i: usize = 0;
    let mut skipped: u32 = 0;
    let mut next = at;
    while i < s.len() {
        let piece = next_piece(t, shape, s, level, i);
        i += piece.size;
        let run = piece.weights;
        if run.count == 0 {
            skipped += 1;
        } else {
            next = put_element(t, run, position, skipped, room, next);
            skipped = 0;
        }
    }
    put_two(room, next, 0)
}

// The entries of a level that is walked backward, and 00 00 behind them, in front of a place; where they begin. An element's count is how many without a
// weight stand behind it, so it is known only when the next one with a weight is cut, or the string ends; until then the element is kept as `last`.
fn write_backward(
    t: &[u32],
    s: &[u32],
    level: usize,
    position: bool,
    room: &mut [u8],
    end: usize,
) -> usize
    requires at_level { AtLevel t.now s.now level }
    requires position_len_bound { (length (level_bytes t.now s.now level (backward position)) ≤ end) × (end ≤ length room.old) }
    ensures { PutsBefore room.old end (level_bytes t.now s.now level (backward position)) room.new result }
{
    let shape = table_layout::shape_of(t);
    let mut from = end - 2;
    put_two(room, from, 0);
    let mut last = Run { from: 0, count: 0 };
    let mut behind: u32 = 0;
    let mut i: usize = 0;
    while i < s.len() {
        let piece = next_piece(t, shape, s, level, i);
        i += piece.size;
        let run = piece.weights;
        if run.count == 0 {
            behind += 1;
        } else {
            from = put_before(t, last, position, behind, room, from);
            last = run;
            behind = 0;
        }
    }
    put_before(t, last, position, behind, room, from)
}

// A level; the place behind it. How many entries it has tells where it ends, from which a backward one is written.
fn write_level(
    t: &[u32],
    s: &[u32],
    level: usize,
    rule: Rule,
    entries: usize,
    room: &mut [u8],
    at: usize,
) -> usize
    requires at_level { AtLevel t.now s.now level }
    requires entries_value { entries ≡ count_all (weights_from t.now s.now level 0) }
    requires rule_in_bounds { at + length (level_bytes t.now s.now level (rule_as rule)) ≤ length room.old }
    ensures { Puts room.old at (level_bytes t.now s.now level (rule_as rule)) room.new result }
{
    let position = rule.position;
    if rule.backward {
        let end = at + level_width(position, entries);
        write_backward(t, s, level, position, room, end);
        end
    } else {
        write_forward(t, s, level, position, room, at)
    }
}

// The bytes of all levels, written to the front of the room; the place behind them.
fn write_levels(t: &[u32], s: &[u32], counts: &[usize], room: &mut [u8]) -> usize
    requires keyable { Keyable t.now s.now }
    requires counted { Counted t.now s.now counts.now }
    requires s_in_bounds { length (levels_bytes t.now s.now 0) ≤ length room.old }
    ensures { Puts room.old 0 (levels_bytes t.now s.now 0) room.new result }
{
    let mut next: usize = 0;
    for level in 0..table_layout::levels(t) {
        let rule = table_layout::rule_of(t, level);
        next = write_level(t, s, level, rule, counts[level], room, next);
    }
    next
}

// Each character of a string as three bytes; the place behind them.
fn write_codes(s: &[u32], room: &mut [u8], at: usize) -> usize
    requires s_value { good_string s.now ≡ true }
    requires s_in_bounds { at + length (codes_key s.now) ≤ length room.old }
    ensures { Puts room.old at (codes_key s.now) room.new result }
{
    let mut next = at;
    for c in s {
        next = put_three(room, next, CodePoint(*c));
    }
    next
}

// Adds how many weights the item at a place has, at each level, in a table of this shape.
fn add_counts(t: &[u32], shape: Shape, place: usize, counts: &mut [usize])
    requires shaped { Shaped t.now shape }
    requires within { Within t.now place 0 }
    requires countable { Countable t.now counts.old }
    ensures { Added t.now place counts.old counts.new }
{
    for level in 0..shape.levels {
        let run = table_layout::weights_in(t, shape, place, level);
        counts[level] += run.count;
    }
}

// Adds how many entries the string has at each level, to counts that are 0.
fn count_entries(t: &[u32], s: &[u32], counts: &mut [usize])
    requires keyable { Keyable t.now s.now }
    requires blank { Blank t.now counts.old }
    ensures { Counted t.now s.now counts.new }
{
    let shape = table_layout::shape_of(t);
    let mut at: usize = 0;
    while at < s.len() {
        let found = order_find::longest_in(t, shape, s, at);
        add_counts(t, shape, found.place, counts);
        at += found.size;
    }
}

// How many bytes the key takes.
fn key_width(t: &[u32], s: &[u32], counts: &[usize]) -> usize
    requires keyable { Keyable t.now s.now }
    requires counted { Counted t.now s.now counts.now }
    ensures { result ≡ length (key_of (meaning_in t.now) s.now) }
{
    let mut wide = 3 * s.len();
    for level in 0..table_layout::levels(t) {
        let rule = table_layout::rule_of(t, level);
        wide += level_width(rule.position, counts[level]);
    }
    wide
}

// The key of a string, written to the front of the room, which has place for it; how many bytes it takes.
fn write_key(t: &[u32], s: &[u32], counts: &[usize], room: &mut [u8]) -> usize
    requires keyable { Keyable t.now s.now }
    requires counted { Counted t.now s.now counts.now }
    requires s_in_bounds { length (key_of (meaning_in t.now) s.now) ≤ length room.old }
    ensures { Puts room.old 0 (key_of (meaning_in t.now) s.now) room.new result }
{
    let next = write_levels(t, s, counts, room);
    write_codes(s, room, next)
}

// The key of a good string under an accepted table: counted first, and written where the room has place for it.
fn key_checked(t: &[u32], s: &[u32], room: &mut [u8]) -> Result<usize, Refusal>
    requires { Keyable t.now s.now }
    ensures { keyed_as result room.new ≡ key_call t.now s.now room.old }
{
    let mut counts = [0usize; 8];
    count_entries(t, s, &mut counts);
    let width = key_width(t, s, &counts);
    if room.len() < width {
        return Err(Refusal::NoRoom);
    }
    Ok(write_key(t, s, &counts, room))
}

// The key of a string under a table, written to the front of the room lent: how many bytes it takes, or why there is none; then
// the room is as it was. It has no `requires`.
pub fn key(t: &[u32], s: &[u32], room: &mut [u8]) -> Result<usize, Refusal>
    ensures { keyed_as result room.new ≡ key_call t.now s.now room.old }
{
    if !table_check::accepts(t) {
        return Err(Refusal::NotAccepted);
    }
    if !base_units::good_string(s) {
        return Err(Refusal::BadString);
    }
    key_checked(t, s, room)
}
