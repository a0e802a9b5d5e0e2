// The used order lines in their order: a list linked through the rows of the work area, so that a line can be put between two others: each line
// is linked to the next one, and, until ranks are given, back to the one before.
#![tactic(auto)]

ghost use Rattle.std.specs.Prelude.{◌≡◌, ◌<◌, eqb, if◌then◌else◌};
ghost use Rattle.work_order.specs.Links.{Row, Reached, SomeLines, linked_to, numbered, longer, with_line, Among, unlinked, shorter, Between, linked_between, with_line_after, longer_after, Ranks};

use work_rows::{tell, told};

// Which of the five numbers of a row tells the mark of an element's characters, or a character's code.
pub const CHARS_NUMBER: usize = 0;

// The number of the order line's first physical line.
pub const LINE_NUMBER: usize = 1;

// The place after its subject.
pub const PLACE_NUMBER: usize = 2;

// The mark of the next order line.
pub const NEXT_NUMBER: usize = 3;

// Its rank, once it is given.
pub const RANK_NUMBER: usize = 4;

// Until then the mark of the order line before it.
const BACK_NUMBER: usize = 4;

// The marks of the first and the last line, 0 for none as in the links that the area keeps (`Links.Reached`, `linked_to`), and how many there are.
#[derive(Clone, Copy)]
pub struct Order {
    pub first: usize,
    pub last: usize,
    pub count: usize,
}

// A link from a line, if there is one, to the line at a mark: number j of its row.
fn link(work: &mut [u32], l: usize, j: usize, v: usize)
    requires { (j < 5) × (v < 4294967296) × Reached work.old l }
    ensures { work.new ≡ linked_to work.old l j v }
{
    if l != 0 {
        tell(work, l, j, v as u32);
    }
}

// The numbers of a line: that of its first physical line, and the place after its subject.
fn give_numbers(work: &mut [u32], v: usize, number: usize, place: usize)
    requires { Row work.old v × (number < 4294967296) × (place < 4294967296) }
    ensures { work.new ≡ numbered work.old v number place }
{
    tell(work, v, LINE_NUMBER, number as u32);
    tell(work, v, PLACE_NUMBER, place as u32);
}

// a where n is 0, else b.
fn where_none(n: usize, a: usize, b: usize) -> usize
    ensures { result ≡ (if eqb n 0 then a else b) }
{
    if n == 0 { a } else { b }
}

// A line more, of the thing at a mark: the number of its first physical line, and the place after its subject.
pub fn add_line(work: &mut [u32], o: Order, v: usize, number: usize, place: usize) -> Order
    requires row { Row work.old v × SomeLines work.old o }
    requires v_bound { (v < 4294967296) × (number < 4294967296) × (place < 4294967296) × (o.count < 4294967296) × (o.last < 4294967296) }
    ensures { (result ≡ longer o v) × (work.new ≡ with_line work.old o v number place) }
{
    link(work, o.last, NEXT_NUMBER, v);
    tell(work, v, BACK_NUMBER, o.last as u32);
    give_numbers(work, v, number, place);
    let first = where_none(o.first, v, o.first);
    let count = o.count + 1;
    Order {
        first,
        last: v,
        count,
    }
}

// The line of a mark leaves the list: the one before it and the one after it are linked.
pub fn take_out(work: &mut [u32], o: Order, v: usize) -> Order
    requires { Among work.old o v }
    ensures { (result ≡ shorter work.old o v) × (work.new ≡ unlinked work.old v) }
{
    let next = told(work, v, NEXT_NUMBER) as usize;
    let back = told(work, v, BACK_NUMBER) as usize;
    link(work, back, NEXT_NUMBER, next);
    link(work, next, BACK_NUMBER, back);
    let first = where_none(back, next, o.first);
    let last = where_none(next, back, o.last);
    let count = o.count - 1;
    Order { first, last, count }
}

// The links to and from a line that comes to stand between those of a and of next, if there is one.
fn link_between(work: &mut [u32], a: usize, v: usize, next: usize)
    requires between { Between work.old a v next }
    requires a_bound { (a < 4294967296) × (v < 4294967296) × (next < 4294967296) }
    ensures { work.new ≡ linked_between work.old a v next }
{
    link(work, next, BACK_NUMBER, v);
    tell(work, a, NEXT_NUMBER, v as u32);
    tell(work, v, NEXT_NUMBER, next as u32);
    tell(work, v, BACK_NUMBER, a as u32);
}

// A line, of the thing at the mark v, comes to stand directly after that of the mark a.
pub fn put_after(
    work: &mut [u32],
    o: Order,
    a: usize,
    v: usize,
    number: usize,
    place: usize,
) -> Order
    requires among { Among work.old o a × Row work.old v }
    requires a_bound { (a < 4294967296) × (v < 4294967296) × (number < 4294967296) × (place < 4294967296) × (o.count < 4294967296) }
    ensures { (result ≡ longer_after work.old o a v) × (work.new ≡ with_line_after work.old a v number place) }
{
    let next = told(work, a, NEXT_NUMBER) as usize;
    link_between(work, a, v, next);
    give_numbers(work, v, number, place);
    let last = where_none(next, v, o.last);
    let count = o.count + 1;
    Order {
        first: o.first,
        last,
        count,
    }
}

// Each line gets its rank, from 1 on.
pub fn give_ranks(work: &mut [u32], o: Order)
    requires { SomeLines work.old o × (o.count < 4294967295) }
    ensures { Ranks work.old o work.new }
{
    let mut v = o.first;
    for before in 0..o.count {
        tell(work, v, RANK_NUMBER, (before + 1) as u32);
        v = told(work, v, NEXT_NUMBER) as usize;
    }
}
