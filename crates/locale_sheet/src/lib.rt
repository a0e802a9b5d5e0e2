// What is known between two lines in LC_COLLATE, in the work area and beside it, and what a line may do to it: the contract of every line function.
#![tactic(auto)]

use base_units::Refusal;
use text_lines::LineEnd;
use work_order::Order;

// Where a line stands is the paper's number of it: `Open` (specs/Sheets.antt) and the contracts of the line functions compare it as a number (`eqb phase in_block`).
// LC_COLLATE before its order.
pub const BEFORE_ORDER: u8 = 3;

// In the order.
pub const IN_ORDER: u8 = 4;

// After the order.
pub const AFTER_ORDER: u8 = 5;

// In a block of moved lines.
pub const IN_BLOCK: u8 = 6;

// The open block: the mark of its named line, the mark of the line after which the next one comes to stand, and the place from which on its own lines are
// written. Outside a block the three say nothing.
#[derive(Clone, Copy)]
pub struct Block {
    pub named: usize,
    pub last: usize,
    pub from: usize,
}

// Where the next line stands (one of the phases above; 1 after END LC_COLLATE); how many toggles are named; the place after the
// word order_start, and how many levels there are; the order lines; the open block.
#[derive(Clone, Copy)]
pub struct Sheet {
    pub phase: u8,
    pub toggles: usize,
    pub rules: usize,
    pub levels: usize,
    pub order: Order,
    pub block: Block,
}

// A line that is read whole: where it begins, its number, how many chains are open before it, and its end.
#[derive(Clone, Copy)]
pub struct Line {
    pub at: usize,
    pub number: usize,
    pub depth: usize,
    pub end: LineEnd,
}

// What a line in a used branch does.
#[derive(Clone, Copy)]
pub enum Step {
    // the sheet after it, the place after it, and its LFs
    Next(Sheet, usize, usize),
    // ifdef or ifndef: whether its branch is used
    Opens(bool, Sheet, usize, usize),
    // END LC_COLLATE
    Closes(usize, usize),
    // elif, else or endif: the chain that is open reads it
    Branch,
}
