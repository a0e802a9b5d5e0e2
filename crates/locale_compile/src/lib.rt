// The compiler: the lines of a source, the ranks of its order lines, and its table. `compile` is public and has no `requires`.
#![tactic(auto)]

ghost use Rattle.std.specs.Prelude.{◌≡◌, ◌+◌, ◌≤◌, length, eqb};
ghost use Rattle.rules.specs.Calls.{compile_call};
ghost use Rattle.work_rows.specs.Cells.{cell};
ghost use Rattle.work_order.specs.Links.{place_number};
ghost use Rattle.work_store.specs.Store.{undefined_mark};
ghost use Rattle.table_items.specs.Items.{WholeSums};
ghost use Rattle.locale_source.specs.Whole.{Empty, WholeSource};
ghost use Rattle.locale_compile.specs.Answers.{told_as};
ghost use Rattle.locale_compile.specs.Finishing.{AnswerIs, RanksGiven, TableFits};

use base_units::Refusal;
use locale_sheet::Sheet;
use locale_source::source_lines;
use table_items::measure_lines;
use table_whole::{build_table, table_size};
use text_lines::Source;
use work_order::{PLACE_NUMBER, give_ranks};
use work_rows::told;
use work_store::{clear, undefined_mark};

// Whether UNDEFINED has no order line, so that it is supplied: its row is the one behind those of the source.
fn is_supplied(work: &[u32], len: usize) -> bool
    requires { (len ≤ 1048576) × (len + 64 ≤ length work.now) }
    ensures { result ≡ eqb (cell work.now (undefined_mark len) place_number) 0 }
{
    told(work, undefined_mark(len), PLACE_NUMBER) == 0
}

// The table, in an area that has room for it.
fn fill_table(
    src: Source,
    work: &mut [u32],
    sh: Sheet,
    items: usize,
    weights: usize,
    supplied: bool,
    size: usize,
    area: &mut [u32],
) -> Result<usize, (Refusal, usize)>
    requires ranks_given { RanksGiven src.bytes.now work.old src.signs sh × WholeSums src.signs src.bytes.now work.old sh.order sh.levels items weights }
    requires table_fits { TableFits src.bytes.now work.old sh items weights supplied size area.old }
    ensures { AnswerIs src.entry.bytes.now area.old area.new result }
{
    build_table(src, work, sh, items, weights, supplied, area);
    Ok(size)
}

// The table of so many items and weights, if the area has room for it.
fn put_table(
    src: Source,
    work: &mut [u32],
    sh: Sheet,
    items: usize,
    weights: usize,
    area: &mut [u32],
) -> Result<usize, (Refusal, usize)>
    requires { RanksGiven src.bytes.now work.old src.signs sh × WholeSums src.signs src.bytes.now work.old sh.order sh.levels items weights }
    ensures { AnswerIs src.entry.bytes.now area.old area.new result }
{
    let supplied = is_supplied(work, src.bytes.len());
    let size = table_size(sh.levels, items, weights, supplied);
    if area.len() < size {
        return Err((Refusal::ShortArea, 0));
    }
    fill_table(src, work, sh, items, weights, supplied, size, area)
}

// What follows the last line: ranks, then the table.
fn finish(
    src: Source,
    work: &mut [u32],
    sh: Sheet,
    area: &mut [u32],
) -> Result<usize, (Refusal, usize)>
    requires { WholeSource src.bytes.now work.old src.signs sh }
    ensures { AnswerIs src.entry.bytes.now area.old area.new result }
{
    give_ranks(work, sh.order);
    let s = measure_lines(src, work, sh.order, sh.levels);
    match s {
        Err(line) => Err((Refusal::Unranked, line)),
        Ok((items, weights)) => put_table(src, work, sh, items, weights, area),
    }
}

// A source that is not too long, with an empty work area.
fn compile_lines(src: &[u8], area: &mut [u32], work: &mut [u32]) -> Result<usize, (Refusal, usize)>
    requires { Empty src.now work.old }
    ensures { AnswerIs src.now area.old area.new result }
{
    let s = source_lines(src, work);
    match s {
        Err((r, line)) => Err((r, line)),
        Ok((signs, sh)) => finish(Source { bytes: src, signs }, work, sh, area),
    }
}

// A locale source to its table in front of the area, which stays as it was behind it and in a refusal: 1, then by line the lowest of 2 to 7,
// then 8 by line, then 9. The work area is all zeros afterwards.
pub fn compile(src: &[u8], area: &mut [u32], work: &mut [u32]) -> Result<usize, (Refusal, usize)>
    ensures { told_as result area.new work.new ≡ compile_call src.now area.old work.old }
{
    clear(work);
    if 1048576 < src.len() {
        return Err((Refusal::TooLong, 0));
    }
    if work.len() < src.len() + 64 {
        return Err((Refusal::TooLong, 0));
    }
    let r = compile_lines(src, area, work);
    clear(work); // in a refusal too
    r
}
