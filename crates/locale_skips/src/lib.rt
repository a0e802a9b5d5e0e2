// The lines that are passed over: an unused branch, another category; the words of such a line.
#![tactic(auto)]

ghost use Rattle.std.specs.Prelude.{◌≡◌, ◌≤◌, ◌<◌, length};
ghost use Rattle.rules.specs.Text.{same};
ghost use Rattle.locale_skips.specs.Words.{plain_left, words_left, first_word, are_two, PlainIs, Skips, ComparedIs};
ghost use Rattle.text_tokens.specs.Left.{only_blanks};
ghost use Rattle.text_lines.specs.Stream.{line_start};
ghost use Rattle.text_reader.specs.Turns.{AtLine, Turns};
ghost use Rattle.locale_skips.specs.Passing.{opens, branches, KindIs, Begins, TurnIs, BranchIs, BranchStands, branch_reading, Named, name_at, is_end, Reaches, AfterIs, CategoryIs};

use base_units::Refusal;
use text_lines::{IN_PLAIN, Signs, Source, Spot, is_blank, next_mark};
use text_reader::{Reader, line, line_at, line_number, past, place, reader_at, used_up};
use text_tokens::copy_word;

// The next byte with no escape before it.
fn plain_byte(src: Source, p: Spot) -> Option<(u8, Spot)>
    requires { p.at ≤ length src.bytes.now }
    ensures { PlainIs src.entry.signs src.entry.bytes.now p result }
{
    let mut q = p;
    while let Some((m, r)) = next_mark(src, q) {
        if m < 256 {
            return Some((m as u8, r));
        }
        q = r;
    }
    None
}

// The spot after the blanks that come next.
fn skip_blanks(src: Source, p: Spot) -> Spot
    requires { p.at ≤ length src.bytes.now }
    ensures { Skips src.entry.signs src.entry.bytes.now p result }
{
    let mut q = p;
    while let Some((m, r)) = plain_byte(src, q) {
        if !is_blank(m) {
            return q;
        }
        q = r;
    }
    q
}

// The spot after the run at a spot, if that run is w.
fn run_is(src: Source, p: Spot, w: &[u8]) -> Option<Spot>
    requires { p.at ≤ length src.bytes.now }
    ensures { ComparedIs src.entry.signs src.entry.bytes.now w.now p result }
{
    let mut q = p;
    for b in w {
        let (m, r) = plain_byte(src, q)?;
        if is_blank(m) || m != *b {
            return None;
        }
        q = r;
    }
    match plain_byte(src, q) {
        Some((m, _)) if !is_blank(m) => None,
        _ => Some(q),
    }
}

// Whether the first word of the line is w.
fn first_word_is(src: Source, p: Spot, w: &[u8]) -> bool
    requires { p.at ≤ length src.bytes.now }
    ensures { result ≡ same (first_word src.entry.signs src.entry.bytes.now p) w.now }
{
    run_is(src, skip_blanks(src, p), w).is_some()
}

// Whether only blanks are left.
fn only_blanks(src: Source, p: Spot) -> bool
    requires { p.at ≤ length src.bytes.now }
    ensures { result ≡ only_blanks (plain_left src.entry.signs src.entry.bytes.now p) }
{
    plain_byte(src, skip_blanks(src, p)).is_none()
}

// Whether the words of the line are a and b alone, each of a byte or more.
fn words_are(src: Source, p: Spot, a: &[u8], b: &[u8]) -> bool
    requires { (p.at ≤ length src.bytes.now) × (0 < length a.now) × (0 < length b.now) }
    ensures { result ≡ are_two (words_left src.entry.signs src.entry.bytes.now p) a.now b.now }
{
    let q = skip_blanks(src, p);
    let Some(r) = run_is(src, q, a) else {
        return false;
    };
    let s = skip_blanks(src, r);
    let Some(t) = run_is(src, s, b) else {
        return false;
    };
    only_blanks(src, t)
}

// What a line is in an unused branch, by its first word.
#[derive(Clone, Copy)]
pub enum Kind {
    // it opens an inner chain
    Opens,
    // it closes a chain
    Closes,
    // it begins another branch
    Branches,
    Other,
}

// What a line of an unused branch does.
#[derive(Clone, Copy)]
pub enum Turn {
    // it is passed over, with so many chains open after it
    On(usize),
    // it is one of the branch's own chain
    Own,
    // it opens one chain more than may nest
    Deep,
}

// Whether the first word of the line opens an inner chain.
fn opens(src: Source, p: Spot) -> bool
    requires { p.at ≤ length src.bytes.now }
    ensures { result ≡ opens (first_word src.entry.signs src.entry.bytes.now p) }
{
    first_word_is(src, p, b"ifdef") || first_word_is(src, p, b"ifndef")
}

// Whether it begins another branch.
fn branches(src: Source, p: Spot) -> bool
    requires { p.at ≤ length src.bytes.now }
    ensures { result ≡ branches (first_word src.entry.signs src.entry.bytes.now p) }
{
    first_word_is(src, p, b"elif") || first_word_is(src, p, b"else")
}

// What the line at a place is in an unused branch.
fn line_kind(src: Source, at: usize) -> Kind
    requires { at ≤ length src.bytes.now }
    ensures { KindIs (first_word src.entry.signs src.entry.bytes.now (line_start at)) result }
{
    let p = Spot {
        at,
        mode: IN_PLAIN,
        fresh: true,
    };
    if opens(src, p) {
        Kind::Opens
    } else if first_word_is(src, p, b"endif") {
        Kind::Closes
    } else if branches(src, p) {
        Kind::Branches
    } else {
        Kind::Other
    }
}

// What the line at a place does in an unused branch, where `depth` chains are open with the branch's own and `total` with the inner ones.
fn branch_turn(src: Source, at: usize, depth: usize, total: usize) -> Turn
    requires { (at ≤ length src.bytes.now) × (depth ≤ total) }
    ensures { TurnIs src.entry.signs src.entry.bytes.now at depth total result }
{
    match line_kind(src, at) {
        Kind::Opens if total < 8 => Turn::On(total + 1),
        Kind::Opens => Turn::Deep,
        Kind::Closes if total == depth => Turn::Own,
        Kind::Closes => Turn::On(total - 1),
        Kind::Branches if total == depth => Turn::Own,
        Kind::Branches => Turn::On(total),
        Kind::Other => Turn::On(total),
    }
}

// How far an unused branch is read. As in every state of a loop that holds a reader (crates/text_reader), the first three fields are whether the
// loop is over, and the place and the number of the line that comes next.
#[derive(Clone, Copy)]
struct Branch {
    over: bool,
    next: usize,
    number: usize,
    // the chains that are open, with the inner ones
    total: usize,
    // what is answered if it is over, or no line comes next
    answer: Result<(usize, usize), (Refusal, usize)>,
    // the chains that are open, with the branch's own, and the two characters
    depth: usize,
    signs: Signs,
}

// The line at a place, which comes next.
fn branch_line(src: &[u8], s: Branch, at: usize, number: usize) -> Branch
    requires { AtLine branch_reading src.now s at number }
    ensures { Turns branch_reading src.now s at number result }
{
    let text = Source {
        bytes: src,
        signs: s.signs,
    };
    match branch_turn(text, at, s.depth, s.total) {
        Turn::Own => Branch {
            over: true,
            next: at,
            number,
            answer: Ok((at, number)),
            ..s
        },
        Turn::Deep => Branch {
            over: true,
            next: at,
            number,
            answer: Err((Refusal::TooMany, number)),
            ..s
        },
        Turn::On(total) => {
            let e = line_at(text, at);
            let n = number + e.feeds;
            Branch {
                over: false,
                next: e.next,
                number: n,
                total,
                answer: Err((Refusal::Malformed, n)),
                ..s
            }
        }
    }
}

// The lines that come next, up to the one that ends the branch or to the end of the source.
fn branch_lines(src: &[u8], s: Branch) -> Branch
    requires { BranchStands src.now s s s.next s.number }
    ensures { BranchIs s.signs src.now s.next s.number s.depth result.answer }
{
    let mut t = s;
    let mut q = reader_at(src, t.next, t.number);
    while !used_up(q) {
        t = branch_line(q.src, t, q.at, q.number);
        if t.over {
            return t;
        }
        q = reader_at(q.src, t.next, t.number);
    }
    t
}

// The rest of an unused branch, where `depth` chains are open: the next line of its own chain.
pub fn skip_branch(
    src: Source,
    at: usize,
    number: usize,
    depth: usize,
) -> Result<(usize, usize), (Refusal, usize)>
    requires { Begins src.bytes.now at number }
    ensures { BranchIs src.entry.signs src.entry.bytes.now at number depth result }
{
    let s = Branch {
        over: false,
        next: at,
        number,
        total: depth,
        answer: Err((Refusal::Malformed, number)),
        depth,
        signs: src.signs,
    };
    branch_lines(src.bytes, s).answer
}

// Whether the line at a place is the END line of the category of this name.
fn is_end(src: Source, at: usize, name: &[u8]) -> bool
    requires { (at ≤ length src.bytes.now) × (0 < length name.now) }
    ensures { result ≡ is_end src.entry.signs src.entry.bytes.now at name.now }
{
    let p = Spot {
        at,
        mode: IN_PLAIN,
        fresh: true,
    };
    words_are(src, p, b"END", name)
}

// The reader at the END line of the category of this name, or at the end of the source.
fn to_end<'a, 'b>(r: Reader<'a>, g: Signs, name: &'b [u8]) -> Reader<'a>
    requires { Begins r.src.now r.at r.number × (0 < length name.now) }
    ensures { (result.src ≡ r.entry.src) × Reaches g r.entry.src.now r.entry.at r.entry.number name.now result.at result.number }
{
    let mut q = r;
    while !used_up(q) {
        let text = Source {
            bytes: q.src,
            signs: g,
        };
        if is_end(text, q.at, name) {
            return q;
        }
        q = past(q, line(q, g));
    }
    q
}

// The line after the one at a place, if one stands there.
fn line_after(src: Source, at: usize, number: usize) -> Result<(usize, usize), (Refusal, usize)>
    requires { Begins src.bytes.now at number }
    ensures { AfterIs src.entry.signs src.entry.bytes.now at number result }
{
    if at < src.bytes.len() {
        let e = line_at(src, at);
        Ok((e.next, number + e.feeds))
    } else {
        Err((Refusal::Malformed, number))
    }
}

// The rest of another category of this name: the line after its END line.
fn skip_named(
    src: Source,
    at: usize,
    number: usize,
    name: &[u8],
) -> Result<(usize, usize), (Refusal, usize)>
    requires { Begins src.bytes.now at number × (0 < length name.now) }
    ensures { CategoryIs src.entry.signs src.entry.bytes.now at number name.now result }
{
    let q = to_end(reader_at(src.bytes, at, number), src.signs, name);
    line_after(src, place(q), line_number(q))
}

// The rest of another category, with room for its name: so that is read once, however many lines it is joined of.
fn skip_copied(
    src: Source,
    at: usize,
    number: usize,
    category: usize,
    room: &mut [u8],
) -> Result<(usize, usize), (Refusal, usize)>
    requires { Begins src.bytes.now at number × Named src.signs src.bytes.now category × (32 ≤ length room.old) }
    ensures { CategoryIs src.entry.signs src.entry.bytes.now at number (name_at src.entry.signs src.entry.bytes.now category) result }
{
    let p = Spot {
        at: category,
        mode: IN_PLAIN,
        fresh: true,
    };
    let n = copy_word(src, p, room);
    skip_named(src, at, number, &room[..n])
}

// The rest of another category, whose name stands at `category`: the line after its END line.
pub fn skip_category(
    src: Source,
    at: usize,
    number: usize,
    category: usize,
) -> Result<(usize, usize), (Refusal, usize)>
    requires { Begins src.bytes.now at number × Named src.signs src.bytes.now category }
    ensures { CategoryIs src.entry.signs src.entry.bytes.now at number (name_at src.entry.signs src.entry.bytes.now category) result }
{
    let mut room = [0u8; 32];
    skip_copied(src, at, number, category, &mut room)
}
