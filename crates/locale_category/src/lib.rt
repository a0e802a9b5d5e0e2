// All lines of LC_COLLATE: blocks and conditional chains, two readers that call each other.
#![tactic(auto)]

ghost use Rattle.locale_category.specs.Blocks.{Starts, SomeUsed, ReadIs, InBranch, EndedIs, ChainBegins, ChainedIs};
ghost use Rattle.std.specs.Prelude.{◌≡◌, ◌≤◌, length};
ghost use Rattle.base_units.specs.Numbers.{number_of};
ghost use Rattle.locale_category.specs.Category.{first_sheet, stray_refusal, Ready, CategoryIs};

use base_units::Refusal;
use locale_conditionals::{Turn, branch_line};
use locale_dispatch::line_step;
use locale_opening::malformed;
use locale_sheet::{BEFORE_ORDER, Block, Sheet, Step};
use locale_skips::skip_branch;
use text_lines::{IN_PLAIN, Source, Spot, line_end};
use work_order::Order;

// Where a block ends.
#[derive(Clone, Copy)]
pub enum Read {
    // at a line of the chain that it stands in: the sheet, the place and the number of that line
    Branch(Sheet, usize, usize),
    // after END LC_COLLATE: the sheet before it, and the place and the number of the line after it
    Closed(Sheet, usize, usize),
}

// The lines of a block, from a place on: to a line of the chain that it stands in, to END LC_COLLATE, or to a refusal.
#[cycle(block_branch_end_chain)]
fn block(
    src: Source,
    work: &mut [u32],
    sh: Sheet,
    at: usize,
    number: usize,
    depth: usize,
) -> Result<Read, (Refusal, usize)>
    requires { SomeUsed src.signs src.bytes.now work.old sh at depth × Starts src.bytes.now at number }
    ensures { ReadIs src.entry.signs src.entry.bytes.now work.old sh at number depth work.new result }
{
    let mut s = sh;
    let mut i = at;
    let mut n = number;
    while i < src.bytes.len() {
        match line_step(src, work, s, i, n, depth) {
            Err(r) => return Err((r, n)),
            Ok(Step::Branch) => return Ok(Read::Branch(s, i, n)),
            Ok(Step::Closes(next, k)) => return Ok(Read::Closed(s, next, n + k)),
            Ok(Step::Next(x, next, k)) => {
                s = x;
                i = next;
                n += k;
            }
            Ok(Step::Opens(holds, x, next, k)) => {
                let (y, j, m) = chain(src, work, x, next, n + k, depth, holds)?;
                s = y;
                i = j;
                n = m;
            }
        }
    }
    Err((Refusal::Malformed, n))
}

// The end of the present branch of a chain: a used one is read, another one passed over.
#[cycle(block_branch_end_chain)]
fn branch_end(
    src: Source,
    work: &mut [u32],
    sh: Sheet,
    at: usize,
    number: usize,
    depth: usize,
    used: bool,
) -> Result<(Sheet, usize, usize), (Refusal, usize)>
    requires { InBranch src.signs src.bytes.now work.old sh at number depth used }
    ensures { EndedIs src.entry.signs src.entry.bytes.now work.old sh at number depth used work.new result }
{
    if used {
        match block(src, work, sh, at, number, depth + 1)? {
            // LC_COLLATE ends in no chain
            Read::Closed(_, _, m) => Err((Refusal::Malformed, m)),
            Read::Branch(x, j, m) => Ok((x, j, m)),
        }
    } else {
        let (j, m) = skip_branch(src, at, number, depth + 1)?;
        Ok((sh, j, m))
    }
}

// One chain, from the line behind its ifdef or ifndef on: to the line behind its endif, or to a refusal.
#[cycle(block_branch_end_chain)]
fn chain(
    src: Source,
    work: &mut [u32],
    sh: Sheet,
    at: usize,
    number: usize,
    depth: usize,
    holds: bool,
) -> Result<(Sheet, usize, usize), (Refusal, usize)>
    requires { ChainBegins src.signs src.bytes.now work.old sh at number depth holds }
    ensures { ChainedIs src.entry.signs src.entry.bytes.now work.old sh at number depth holds work.new result }
{
    let mut s = sh;
    let mut i = at;
    let mut n = number;
    let mut taken = holds;
    let mut used = holds;
    let mut closed = false;
    loop {
        let (x, j, m) = branch_end(src, work, s, i, n, depth, used)?;
        match branch_line(src, work, x, j, m, taken, closed) {
            Err(r) => return Err((r, m)),
            Ok(Turn::Ends(y, next, k)) => return Ok((y, next, m + k)),
            Ok(Turn::Goes(a, b, c, y, next, k)) => {
                taken = a;
                used = b;
                closed = c;
                s = y;
                i = next;
                n = m + k;
            }
        }
    }
}

// The sheet before the first line.
fn first_sheet() -> Sheet
    ensures { result ≡ first_sheet }
{
    Sheet {
        phase: BEFORE_ORDER,
        toggles: 0,
        rules: 0,
        levels: 0,
        order: Order {
            first: 0,
            last: 0,
            count: 0,
        },
        block: Block {
            named: 0,
            last: 0,
            from: 0,
        },
    }
}

// The refusal of a line of elif, else or endif outside every chain.
fn stray_refusal(src: Source, at: usize) -> Refusal
    requires { at ≤ length src.bytes.now }
    ensures { number_of result ≡ stray_refusal src.entry.signs src.entry.bytes.now at }
{
    let p = Spot {
        at,
        mode: IN_PLAIN,
        fresh: true,
    };
    let e = line_end(src, p);
    malformed(e.text)
}

// The lines from a place on, with an empty work area.
pub fn category_lines(
    src: Source,
    work: &mut [u32],
    at: usize,
    number: usize,
) -> Result<(Sheet, usize, usize), (Refusal, usize)>
    requires { Ready src.bytes.now work.old at number }
    ensures { CategoryIs src.entry.signs src.entry.bytes.now at number work.new result }
{
    match block(src, work, first_sheet(), at, number, 0)? {
        Read::Closed(s, next, n) => Ok((s, next, n)),
        Read::Branch(_, i, n) => Err((stray_refusal(src, i), n)),
    }
}
