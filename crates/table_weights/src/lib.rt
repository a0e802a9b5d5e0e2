// The weights of an order line, read again from the source as ranks: how many there are, and whether each has one.
#![tactic(auto)]

ghost use Rattle.std.specs.Prelude.{◌≡◌, true, ◌≤◌, length};
ghost use Rattle.rules.specs.Lines.{quoted};
ghost use Rattle.text_tokens.specs.Left.{is_inside};
ghost use Rattle.work_subjects.specs.Keys.{subject_left, key_at};
ghost use Rattle.work_store.specs.Store.{Sound};
ghost use Rattle.table_weights.specs.Ranks.{RankIs};
ghost use Rattle.table_weights.specs.Reading.{NextIs, InQuotes, Measures, quote_ranks, part_of, part_ranks, PartFits, Ahead, TurnIs, Weighed, line_operands, Starts, Readable, MeasuresLine, RowReady, MeasuresItem};

use base_units::Rank;
use locale_weights::{Weight, next_weight};
use text_lines::{IN_PLAIN, Source, Spot};
use text_names::next_name;
use text_operands::{After, after_first};
use text_tokens::{NAME, QUOTE, Tok};
use work_order::{PLACE_NUMBER, RANK_NUMBER};
use work_rows::told;
use work_store::find;
use work_subjects::after_name;

// What an operand gives at its level: the line itself, where it is empty; nothing; the name inside which the spot is; the names in quotes from
// the spot on.
#[derive(Clone, Copy)]
pub enum Part {
    Own,
    None,
    One(Spot),
    Quotes(Spot),
}

// Where the reading of the operands stands: whether there are more, and from which spot on.
#[derive(Clone, Copy)]
pub struct Cursor {
    pub more: bool,
    pub at: Spot,
}

// What the operand of a level gives, and where the next one begins.
#[derive(Clone, Copy)]
pub struct Turn {
    pub part: Part,
    pub next: Cursor,
}

// How many weights there are, and whether each has a rank.
#[derive(Clone, Copy)]
pub struct Measured {
    pub weights: usize,
    pub ranked: bool,
}

// The rank of what the name at a spot inside it means: 0 for what has no order line.
pub fn rank_at(src: Source, work: &[u32], p: Spot) -> Rank
    requires at_in_bounds { (p.at ≤ length src.bytes.now) × (is_inside p.mode ≡ true) }
    requires sound { Sound (key_at src.signs src.bytes.now) (length src.bytes.now) work.now }
    ensures { RankIs (key_at src.entry.signs src.entry.bytes.now) (length src.entry.bytes.now) work.now (subject_left src.entry.signs src.entry.bytes.now p) result.0 }
{
    match find(src, work, 2 * p.at) {
        Some(v) => Rank(told(work, v, RANK_NUMBER)),
        None => Rank(0),
    }
}

// The rank of the next name in quotes, from a spot in them outside names.
pub fn next_rank(src: Source, work: &[u32], p: Spot) -> Option<(Rank, Spot)>
    requires at_in_bounds { (p.at ≤ length src.bytes.now) × (p.mode ≡ quoted) }
    requires sound { Sound (key_at src.signs src.bytes.now) (length src.bytes.now) work.now }
    ensures { NextIs src.entry.signs src.entry.bytes.now work.now p result }
{
    let Some(q) = next_name(src, p) else {
        return None;
    };
    let r = rank_at(src, work, q);
    let e = after_name(src, q);
    Some((r, e))
}

// The weights that the names in quotes are.
fn measure_quotes(src: Source, work: &[u32], p: Spot) -> Measured
    requires in_quotes { InQuotes src.signs src.bytes.now p }
    requires sound { Sound (key_at src.signs src.bytes.now) (length src.bytes.now) work.now }
    ensures { Measures (key_at src.entry.signs src.entry.bytes.now) (length src.entry.bytes.now) work.now (quote_ranks src.entry.signs src.entry.bytes.now p) result }
{
    let mut q = p;
    let mut weights: usize = 0;
    let mut ranked = true;
    while let Some((r, e)) = next_rank(src, work, q) {
        ranked &= r.0 >= 1;
        weights += 1;
        q = e;
    }
    Measured { weights, ranked }
}

// What an operand gives that is one token.
fn part_of(t: Tok) -> Part
    ensures { result ≡ part_of t }
{
    match t.kind {
        NAME => Part::One(t.inside),
        QUOTE => Part::Quotes(t.inside),
        _ => Part::None,
    }
}

// The operand of the next level; where there is none any more, the line itself.
pub fn next_part(src: Source, c: Cursor) -> Turn
    requires { Ahead src.signs src.bytes.now c }
    ensures { TurnIs src.entry.signs src.entry.bytes.now c result }
{
    if c.more {
        let w = next_weight(src, c.at);
        match w {
            Weight::Empty(more, at) => Turn {
                part: Part::Own, // an empty operand
                next: Cursor { more, at },
            },
            Weight::One(_, t, more, at) => Turn {
                part: part_of(t),
                next: Cursor { more, at },
            },
            // never: the operands of an accepted line are whole
            Weight::Bad => Turn {
                part: Part::None,
                next: c,
            },
        }
    } else {
        Turn {
            part: Part::Own,
            next: c,
        }
    }
}

// The first operand of an order line, from the place after its subject on.
pub fn first_part(src: Source, place: usize) -> Cursor
    requires place_in_bounds { place ≤ length src.bytes.now }
    requires weighed { Weighed (line_operands src.signs src.bytes.now place) }
    ensures { Starts src.entry.signs src.entry.bytes.now place result }
{
    let p = Spot {
        at: place,
        mode: IN_PLAIN,
        fresh: false,
    };
    let a = after_first(src, p);
    match a {
        After::Operands(at) => Cursor { more: true, at },
        After::None => Cursor { more: false, at: p },
        // never: the operands of an accepted line are whole
        After::Broken => Cursor { more: false, at: p },
    }
}

// The weights of one operand.
fn measure_part(src: Source, work: &[u32], part: Part, own: Rank) -> Measured
    requires part_fits { PartFits src.signs src.bytes.now part }
    requires sound { Sound (key_at src.signs src.bytes.now) (length src.bytes.now) work.now }
    ensures { Measures (key_at src.entry.signs src.entry.bytes.now) (length src.entry.bytes.now) work.now (part_ranks src.entry.signs src.entry.bytes.now own.0 part) result }
{
    match part {
        Part::Own => Measured {
            weights: 1,
            ranked: own.0 >= 1,
        },
        Part::None => Measured {
            weights: 0,
            ranked: true,
        },
        Part::One(p) => {
            let r = rank_at(src, work, p);
            Measured {
                weights: 1,
                ranked: r.0 >= 1,
            }
        }
        Part::Quotes(p) => measure_quotes(src, work, p),
    }
}

// The weights of an order line, from the place after its subject on: own is its own rank.
fn measure_line(src: Source, work: &[u32], place: usize, levels: usize, own: Rank) -> Measured
    requires readable { Readable src.signs src.bytes.now place levels }
    requires sound { Sound (key_at src.signs src.bytes.now) (length src.bytes.now) work.now }
    ensures { MeasuresLine src.entry.signs src.entry.bytes.now work.now place levels own.0 result }
{
    let mut c = first_part(src, place);
    let mut weights: usize = 0;
    let mut ranked = true;
    for _ in 0..levels {
        let t = next_part(src, c);
        let m = measure_part(src, work, t.part, own);
        weights += m.weights;
        ranked &= m.ranked;
        c = t.next;
    }
    Measured { weights, ranked }
}

// The weights of the order line of a mark, from the numbers of its row on.
pub fn measure_item(src: Source, work: &[u32], mark: usize, levels: usize) -> Measured
    requires row_ready { RowReady src.signs src.bytes.now work.now mark levels }
    requires sound { Sound (key_at src.signs src.bytes.now) (length src.bytes.now) work.now }
    ensures { MeasuresItem src.entry.signs src.entry.bytes.now work.now mark levels result }
{
    let place = told(work, mark, PLACE_NUMBER) as usize;
    let own = Rank(told(work, mark, RANK_NUMBER));
    measure_line(src, work, place, levels, own)
}
