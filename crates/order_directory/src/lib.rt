// The directory of an A to Z page: which heading each topic belongs to, by the first weights that their strings have at level 1.
#![tactic(auto)]

ghost use Rattle.std.specs.Prelude.{◌≡◌, true, ◌&&◌, map, ◌≤◌, ◌<◌, length};
ghost use Rattle.rules.specs.Text.{every};
ghost use Rattle.rules.specs.Table.{accepted, meaning_in};
ghost use Rattle.rules.specs.Directory.{parts_of, in_run, parts_fit, good_part, part_weight, plain_first, heading_of, part_at};
ghost use Rattle.order_elements.specs.Firsts.{leading_as};
ghost use Rattle.rules.specs.Calls.{over, directory_call};
ghost use Rattle.order_directory.specs.Answers.{directed_is};
ghost use Rattle.order_directory.specs.Asks.{part_as, PartReady, Ready, Rising, Weighed, Fitting, Page, RisingPage};

use base_units::{Rank, Refusal};

// A part of the run: where it begins, and how many characters it has.
#[derive(Clone, Copy)]
struct Part {
    pub start: usize,
    pub size: usize,
}

// How many parts numbers give: start, length, start, length, ..
fn count(parts: &[u64]) -> usize
    ensures { result ≡ length (parts_of parts.now) }
{
    parts.len() / 2
}

// The part at a place, from 0.
fn part_at(parts: &[u64], i: usize) -> Part
    requires { i < length (parts_of parts.now) }
    ensures { part_as result ≡ part_at parts.now i }
{
    let start = parts[2 * i] as usize;
    let size = parts[2 * i + 1] as usize;
    Part { start, size }
}

// Whether a part lies in the run.
fn inside(run: &[u32], p: Part) -> bool
    ensures { result ≡ in_run run.now (part_as p) }
{
    p.start <= run.len() && p.size <= run.len() - p.start
}

// Whether every part lies in the run.
fn all_inside(run: &[u32], parts: &[u64]) -> bool
    ensures { result ≡ every (in_run run.now) (parts_of parts.now) }
{
    for i in 0..count(parts) {
        if !inside(run, part_at(parts, i)) {
            return false;
        }
    }
    true
}

// Whether the parts are not too many, and lie in the run.
fn fit(run: &[u32], parts: &[u64]) -> bool
    ensures { result ≡ parts_fit run.now (parts_of parts.now) }
{
    count(parts) <= 1000 && all_inside(run, parts)
}

// Whether headings and topics are not too many, and lie in the run.
fn both_fit(run: &[u32], headings: &[u64], topics: &[u64]) -> bool
    ensures { result ≡ (parts_fit run.now (parts_of headings.now) && parts_fit run.now (parts_of topics.now)) }
{
    fit(run, headings) && fit(run, topics)
}

// Whether the string of a part is one that no operation refuses.
fn good(run: &[u32], p: Part) -> bool
    requires { in_run run.now (part_as p) ≡ true }
    ensures { result ≡ good_part run.now (part_as p) }
{
    let start = p.start;
    let end = start + p.size;
    base_units::good_string(&run[start..end])
}

// Whether the string of every part is one that no operation refuses. One function for this and `all_inside`, with a closure for the test, would have to
// say in its contract what `good` asks of a part and that the closure may be called there, which is longer than both.
fn all_good(run: &[u32], parts: &[u64]) -> bool
    requires { every (in_run run.now) (parts_of parts.now) ≡ true }
    ensures { result ≡ every (good_part run.now) (parts_of parts.now) }
{
    for i in 0..count(parts) {
        if !good(run, part_at(parts, i)) {
            return false;
        }
    }
    true
}

// Whether the strings of all headings and topics are such strings.
fn both_good(run: &[u32], headings: &[u64], topics: &[u64]) -> bool
    requires { Fitting run.now headings.now topics.now }
    ensures { result ≡ (every (good_part run.now) (parts_of headings.now) && every (good_part run.now) (parts_of topics.now)) }
{
    all_good(run, headings) && all_good(run, topics)
}

// A first weight as a number, as `part_weight` of the rules has it: 0 where there is none, since no weight is 0.
fn number(w: Option<Rank>) -> u32
    ensures { result ≡ leading_as w }
{
    match w {
        Some(rank) => rank.0,
        None => 0,
    }
}

// The first weight of a part's string.
fn part_weight(t: &[u32], run: &[u32], p: Part, places: &mut [u32]) -> u32
    requires { PartReady t.now run.now (part_as p) places.old }
    ensures { result ≡ part_weight (meaning_in t.now) run.now (part_as p) }
{
    let start = p.start;
    let end = start + p.size;
    number(order_elements::first_weight(t, &run[start..end], places))
}

// The first weight of the string of the part at a place, from 0.
fn weight(t: &[u32], run: &[u32], parts: &[u64], i: usize, places: &mut [u32]) -> u32
    requires ready { Ready t.now run.now parts.now places.old }
    requires i_in_bounds { i < length (parts_of parts.now) }
    ensures { result ≡ part_weight (meaning_in t.now) run.now (part_at parts.now i) }
{
    part_weight(t, run, part_at(parts, i), places)
}

// The first weights of the headings, kept in front of `weights`, as far as each has one that is above the one before it: whether all have.
fn weigh(t: &[u32], run: &[u32], headings: &[u64], places: &mut [u32], weights: &mut [u32]) -> bool
    requires ready { Ready t.now run.now headings.now places.old }
    requires headings_in_bounds { length (parts_of headings.now) ≤ length weights.old }
    ensures { Weighed t.now run.now headings.now weights.new result }
{
    let n = count(headings);
    let mut last = 0;
    for i in 0..n {
        let w = weight(t, run, headings, i, places);
        if w <= last {
            return false;
        }
        weights[i] = w;
        last = w;
    }
    true
}

// The number of the last heading whose weight is not above w, from 1; 0 where there is none.
fn heading(weights: &[u32], w: u32) -> usize
    requires { Rising weights.now }
    ensures { result ≡ heading_of weights.now w }
{
    weights.partition_point(|weight| *weight <= w)
}

// The heading of each topic, written to the front of the list.
fn write(
    t: &[u32],
    run: &[u32],
    topics: &[u64],
    places: &mut [u32],
    weights: &[u32],
    list: &mut [u32],
)
    requires ready { Ready t.now run.now topics.now places.old }
    requires rising { Rising weights.now }
    requires topics_in_bounds { length (parts_of topics.now) ≤ length list.old }
    ensures { list.new ≡ over (map (heading_of weights.now) (map (part_weight (meaning_in t.now) run.now) (parts_of topics.now))) list.old }
{
    let n = count(topics);
    for i in 0..n {
        let w = weight(t, run, topics, i, places);
        list[i] = heading(weights, w) as u32;
    }
}

// The list, where it is long enough, of a page whose headings' weights stand in front of `weights`.
fn list_rising(
    t: &[u32],
    run: &[u32],
    headings: &[u64],
    topics: &[u64],
    list: &mut [u32],
    places: &mut [u32],
    weights: &[u32],
) -> Result<(), Refusal>
    requires { RisingPage t.now run.now headings.now topics.now places.old weights.now }
    ensures { directed_is result list.new ≡ directory_call t.now run.now headings.now topics.now list.old }
{
    let n = count(topics);
    if list.len() < n {
        return Err(Refusal::NoRoom);
    }
    let m = count(headings);
    write(t, run, topics, places, &weights[..m], list);
    Ok(())
}

// The list of a page, where its headings rise, with room for the places of a string's elements and for the headings' weights.
fn list_within(
    t: &[u32],
    run: &[u32],
    headings: &[u64],
    topics: &[u64],
    list: &mut [u32],
    places: &mut [u32],
    weights: &mut [u32],
) -> Result<(), Refusal>
    requires page { Page t.now run.now headings.now topics.now }
    requires in_bounds { (4096 ≤ length places.old) × (1000 ≤ length weights.old) }
    ensures { directed_is result list.new ≡ directory_call t.now run.now headings.now topics.now list.old }
{
    if !weigh(t, run, headings, places, weights) {
        return Err(Refusal::NotRising);
    }
    list_rising(t, run, headings, topics, list, places, weights)
}

// The list of a page, where its headings rise.
fn list_page(
    t: &[u32],
    run: &[u32],
    headings: &[u64],
    topics: &[u64],
    list: &mut [u32],
) -> Result<(), Refusal>
    requires { Page t.now run.now headings.now topics.now }
    ensures { directed_is result list.new ≡ directory_call t.now run.now headings.now topics.now list.old }
{
    let mut places = [0u32; 4096];
    let mut weights = [0u32; 1000];
    list_within(t, run, headings, topics, list, &mut places, &mut weights)
}

// Whether the first level of a table is plain forward.
fn plain(t: &[u32]) -> bool
    requires { accepted t.now ≡ true }
    ensures { result ≡ plain_first (meaning_in t.now).rules }
{
    let rule = table_layout::rule_of(t, 0);
    !rule.backward && !rule.position
}

// The heading of each topic of a page, by its number from 1, or 0 for the top of the page, written to the front of the list, which stays as
// it was behind them and in a refusal. Headings and topics are parts of a run: start, length, start, length, .. It is refused by 11, 16,
// 17, 12, 15 or 13, in this order. It has no `requires`.
pub fn directory(
    t: &[u32],
    run: &[u32],
    headings: &[u64],
    topics: &[u64],
    list: &mut [u32],
) -> Result<(), Refusal>
    ensures { directed_is result list.new ≡ directory_call t.now run.now headings.now topics.now list.old }
{
    if !table_check::accepts(t) {
        return Err(Refusal::NotAccepted);
    }
    if !plain(t) {
        return Err(Refusal::NotPlain);
    }
    if !both_fit(run, headings, topics) {
        return Err(Refusal::BadPart);
    }
    if !both_good(run, headings, topics) {
        return Err(Refusal::BadString);
    }
    list_page(t, run, headings, topics, list)
}
