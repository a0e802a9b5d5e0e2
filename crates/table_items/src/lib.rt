// The items that the order lines give: which lines give one; how many there are, and their weights; and all of them written into a table's area.
#![tactic(auto)]

ghost use Rattle.std.specs.Prelude.{◌≡◌, length, ◌+◌, ◌*◌, ◌/◌, ◌≤◌, if◌then◌else◌};
ghost use Rattle.rules.specs.Text.{lower};
ghost use Rattle.work_rows.specs.Cells.{cell};
ghost use Rattle.work_order.specs.Links.{line_number};
ghost use Rattle.table_records.specs.Writing.{CharsReady};
ghost use Rattle.table_items.specs.Items.{is_item, LinesReady, SumsAre};
ghost use Rattle.table_items.specs.Filling.{Fillable, Filled};

use table_records::write_item;
use table_weights::measure_item;
use text_lines::Source;
use work_order::{CHARS_NUMBER, LINE_NUMBER, NEXT_NUMBER, Order};
use work_rows::told;
use work_store::undefined_mark;

// Whether the order line of a mark gives an item: a symbol's, whose row tells neither characters nor a code, gives none.
fn is_item(src: &[u8], work: &[u32], mark: usize) -> bool
    requires { CharsReady (length src.now) work.now mark }
    ensures { result ≡ is_item (length src.now) work.now mark }
{
    mark >= undefined_mark(src.len()) || told(work, mark, CHARS_NUMBER) != 0
}

// The lower of two line numbers. 0 is none here, and no Option: the definition of the paper, `lower`, counts so, and what is known of a row does not
// say that its number is not 0.
fn lower_line(a: usize, b: usize) -> usize
    ensures { result ≡ lower a b }
{
    if a == 0 {
        b
    } else if b == 0 {
        a
    } else if a < b {
        a
    } else {
        b
    }
}

// The least number of a line with a weight that has no rank, after one line more; 0 being none.
fn least_line(work: &[u32], mark: usize, ranked: bool, line: usize) -> usize
    requires { 8 * (mark / 16) + 8 ≤ length work.now }
    ensures { result ≡ (if ranked then line else lower line (cell work.now mark line_number)) }
{
    if ranked {
        line
    } else {
        lower_line(line, told(work, mark, LINE_NUMBER) as usize)
    }
}

// The items and weights of all order lines, once each has its rank. The lines stand in the order of their ranks, so all are passed to find the
// one that was written first.
pub fn measure_lines(
    src: Source,
    work: &[u32],
    o: Order,
    levels: usize,
) -> Result<(usize, usize), usize>
    requires { LinesReady src.signs src.bytes.now work.now o levels }
    ensures { SumsAre src.entry.signs src.entry.bytes.now work.now o levels result }
{
    let mut v = o.first;
    let mut items: usize = 0;
    let mut weights: usize = 0;
    let mut whole = true;
    let mut line: usize = 0;
    for _ in 0..o.count {
        let m = measure_item(src, work, v, levels);
        whole &= m.ranked;
        line = least_line(work, v, m.ranked, line);
        if is_item(src.bytes, work, v) {
            items += 1;
            weights += m.weights;
        }
        v = told(work, v, NEXT_NUMBER) as usize;
    }
    if whole {
        Ok((items, weights))
    } else {
        Err(line)
    }
}

// The items in the order of their lines, written: their ends, counted from base, from a place on, their characters from another, their weights from
// base on.
pub fn write_items(
    src: Source,
    work: &[u32],
    o: Order,
    levels: usize,
    area: &mut [u32],
    slots: usize,
    from: usize,
    base: usize,
)
    requires { Fillable src.signs src.bytes.now work.now o levels area.old slots from base }
    ensures { Filled src.entry.signs src.entry.bytes.now work.now o levels area.old slots from base area.new }
{
    let mut v = o.first;
    let mut slot = slots;
    let mut place = from;
    let mut next = base;
    for _ in 0..o.count {
        if is_item(src.bytes, work, v) {
            next = write_item(src, work, v, levels, area, slot, place, base, next);
            slot += levels;
            place += 4;
        }
        v = told(work, v, NEXT_NUMBER) as usize;
    }
}
