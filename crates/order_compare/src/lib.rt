// The public step and comparison. A comparison goes level after level, then by code points; it cuts the strings into elements as far as
// the first level takes it, where that is walked forward.
#![tactic(auto)]

ghost use Rattle.std.specs.Prelude.{◌≡◌, [], ◌∷◌, ◌*◌, ◌≤◌, length};
ghost use Rattle.rules.specs.Order.{sign_ℕ, codes, answer_from, compare_of};
ghost use Rattle.rules.specs.Table.{meaning_in};
ghost use Rattle.rules.specs.Calls.{step_call, compare_call};
ghost use Rattle.rules.proofs.PassedLaws.{with_passed};
ghost use Rattle.base_units.specs.Numbers.{sign_of};
ghost use Rattle.order_elements.specs.Cuts.{Ready};
ghost use Rattle.order_compare.specs.Answers.{answer_as, compared_as, stepped_as};
ghost use Rattle.order_compare.specs.Strings.{CodesCompared, Placed, answer_on, BothCut, Forward, Good};

use base_units::{CodePoint, Refusal};
use order_elements::{Alike, First};
use order_entries::Seen;
use std::cmp::Ordering;

// How two strings stand to each other, the level that decides, from 1, or 0 where they are equal, and how many entries agreed.
#[derive(Clone, Copy)]
pub struct Answer {
    pub sign: Ordering,
    pub level: usize,
    pub agreed: usize,
}

// How two characters compare.
fn order_of(x: CodePoint, y: CodePoint) -> Ordering
    ensures { sign_of result ≡ sign_ℕ x.0 y.0 }
{
    x.cmp(&y)
}

// How two strings compare by their code points: the first difference decides.
fn compare_codes(a: &[u32], b: &[u32]) -> Seen
    requires { length a.now ≤ 4096 }
    ensures { CodesCompared a.now b.now result }
{
    let end = a.len().min(b.len());
    for i in 0..end {
        match order_of(CodePoint(a[i]), CodePoint(b[i])) {
            Ordering::Equal => {}
            sign => return Seen { sign, agreed: i },
        }
    }
    Seen {
        sign: a.len().cmp(&b.len()),
        agreed: end,
    }
}

// The answer by code points, which stand after all levels, `agreed` entries having agreed before them.
fn compare_last(a: &[u32], b: &[u32], level: usize, agreed: usize) -> Answer
    requires { (length a.now ≤ 4096) × (agreed ≤ 262144) }
    ensures { answer_as result ≡ with_passed agreed (answer_from level (codes a.now ∷ []) (codes b.now ∷ [])) }
{
    let seen = compare_codes(a, b);
    let n = agreed + seen.agreed;
    match seen.sign {
        Ordering::Equal => Answer {
            sign: Ordering::Equal,
            level: 0,
            agreed: n,
        },
        sign => Answer {
            sign,
            level,
            agreed: n,
        },
    }
}

// The answer from a level on, from 0, of two strings whose elements stand at these places, `agreed` entries having agreed before it.
fn compare_from(
    t: &[u32],
    a: &[u32],
    b: &[u32],
    first: &[u32],
    second: &[u32],
    level: usize,
    agreed: usize,
) -> Answer
    requires placed { Placed t.now a.now first.now }
    requires placed_2 { Placed t.now b.now second.now }
    requires level_in_bounds { (level ≤ length (meaning_in t.now).rules) × (agreed ≤ 32768 * level) }
    ensures { answer_as result ≡ answer_on t.now a.now b.now level agreed }
{
    let levels = table_layout::levels(t);
    let mut n = agreed;
    for k in level..levels {
        let rule = table_layout::rule_of(t, k);
        let seen = order_entries::compare_level(t, first, second, k, rule);
        n += seen.agreed;
        match seen.sign {
            Ordering::Equal => {}
            sign => {
                return Answer {
                    sign,
                    level: k + 1,
                    agreed: n,
                };
            }
        }
    }
    compare_last(a, b, levels + 1, n)
}

// The answer from a level on, from 0, of two strings that are cut.
fn compare_cut(
    t: &[u32],
    a: &[u32],
    b: &[u32],
    first: &[u32],
    second: &[u32],
    cut: Alike,
    level: usize,
) -> Answer
    requires { BothCut t.now a.now b.now first.now second.now cut level }
    ensures { answer_as result ≡ answer_on t.now a.now b.now level cut.agreed }
{
    compare_from(
        t,
        a,
        b,
        &first[..cut.first],
        &second[..cut.second],
        level,
        cut.agreed,
    )
}

// The answer of two strings that are cut first.
fn compare_split(t: &[u32], a: &[u32], b: &[u32], first: &mut [u32], second: &mut [u32]) -> Answer
    requires ready { Ready t.now a.now first.old }
    requires ready_2 { Ready t.now b.now second.old }
    ensures { answer_as result ≡ compare_of (meaning_in t.now) a.now b.now }
{
    let n = order_elements::split(t, a, first);
    let m = order_elements::split(t, b, second);
    let cut = Alike {
        agreed: 0,
        first: n,
        second: m,
    };
    compare_cut(t, a, b, first, second, cut, 0)
}

// The answer of two strings that are cut no further than the first level takes, which is walked forward.
fn compare_forward(
    t: &[u32],
    a: &[u32],
    b: &[u32],
    first: &mut [u32],
    second: &mut [u32],
    position: bool,
) -> Answer
    requires ready { Ready t.now a.now first.old }
    requires ready_2 { Ready t.now b.now second.old }
    requires forward { Forward t.now position }
    ensures { answer_as result ≡ compare_of (meaning_in t.now) a.now b.now }
{
    match order_elements::compare_first(t, a, b, first, second, position) {
        First::Before(n) => Answer {
            sign: Ordering::Less,
            level: 1,
            agreed: n,
        },
        First::After(n) => Answer {
            sign: Ordering::Greater,
            level: 1,
            agreed: n,
        },
        First::Same(cut) => compare_cut(t, a, b, first, second, cut, 1),
    }
}

// The answer of two strings, with room for the places of their elements.
fn compare_within(t: &[u32], a: &[u32], b: &[u32], first: &mut [u32], second: &mut [u32]) -> Answer
    requires good { Good t.now a.now b.now }
    requires a_in_bounds { (length a.now ≤ length first.old) × (length b.now ≤ length second.old) }
    ensures { answer_as result ≡ compare_of (meaning_in t.now) a.now b.now }
{
    let rule = table_layout::rule_of(t, 0);
    if rule.backward {
        compare_split(t, a, b, first, second)
    } else {
        compare_forward(t, a, b, first, second, rule.position)
    }
}

// The answer of two strings of at most N characters, with room made for as many elements of each.
fn compare_sized<const N: usize>(t: &[u32], a: &[u32], b: &[u32]) -> Answer
    requires good { Good t.now a.now b.now }
    requires a_len_bound { (length a.now ≤ N) × (length b.now ≤ N) }
    requires n_bound { N ≤ 4096 }
    ensures { answer_as result ≡ compare_of (meaning_in t.now) a.now b.now }
{
    let mut first = [0u32; N];
    let mut second = [0u32; N];
    compare_within(t, a, b, &mut first, &mut second)
}

// The answer of two strings that are not refused.
fn compare_good(t: &[u32], a: &[u32], b: &[u32]) -> Answer
    requires { Good t.now a.now b.now }
    ensures { answer_as result ≡ compare_of (meaning_in t.now) a.now b.now }
{
    if a.len() <= 128 && b.len() <= 128 {
        compare_sized::<128>(t, a, b)
    } else {
        compare_sized::<4096>(t, a, b)
    }
}

// How two strings compare, by a table: checked here, as are the strings, the first before the second. It has no `requires`.
pub fn compare(t: &[u32], a: &[u32], b: &[u32]) -> Result<Answer, Refusal>
    ensures { compared_as result ≡ compare_call t.now a.now b.now }
{
    if !table_check::accepts(t) {
        return Err(Refusal::NotAccepted);
    }
    if !base_units::good_string(a) || !base_units::good_string(b) {
        return Err(Refusal::BadString);
    }
    let answer = compare_good(t, a, b);
    Ok(answer)
}

// The element that begins at a place of a string, from 0: its item's place in the table, from 1, and how many characters it takes; both 0
// at or past the end. The table and the whole string are checked here. It has no `requires`.
pub fn step(t: &[u32], s: &[u32], at: usize) -> Result<(usize, usize), Refusal>
    ensures { stepped_as result ≡ step_call t.now s.now at }
{
    if !table_check::accepts(t) {
        return Err(Refusal::NotAccepted);
    }
    if !base_units::good_string(s) {
        return Err(Refusal::BadString);
    }
    if at < s.len() {
        let found = order_find::longest(t, s, at);
        Ok((found.place, found.size))
    } else {
        Ok((0, 0))
    }
}
