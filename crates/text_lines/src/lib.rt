// Lines of a source, read from a place on with nothing kept: their marks and their ends. For both readers of sources.
#![tactic(auto)]

ghost use Rattle.std.specs.Prelude.{◌≡◌, true, ◌&&◌, ◌+◌, ◌≤◌, ◌<◌, length, eqb};
ghost use Rattle.rules.specs.Names.{is_blank};
ghost use Rattle.rules.specs.Tokens.{is_text};
ghost use Rattle.rules.specs.Lines.{after};
ghost use Rattle.text_lines.specs.Stream.{ItemIs, EscapeAt, StepIs, LineIs};
ghost use Rattle.text_lines.specs.Stretches.{NoFeed, Ordinary, Stretch, Block, DullTo};

// Plain: outside names, quotes and comments.
pub const IN_PLAIN: u8 = 0;

// In a name.
pub const IN_NAME: u8 = 1;

// In quotes.
pub const QUOTED: u8 = 2;

// In a name in quotes.
pub const QUOTED_NAME: u8 = 3;

// In a comment.
pub const IN_COMMENT: u8 = 4;

// The comment and the escape character in force.
#[derive(Clone, Copy)]
pub struct Signs {
    pub comment: u8,
    pub escape: u8,
}

// A source, and the comment and the escape character in force in it.
#[derive(Clone, Copy)]
pub struct Source<'a> {
    pub bytes: &'a [u8],
    pub signs: Signs,
}

// A place in the middle of a line: between two marks, in one of the modes above, at the line's first byte or after a blank.
#[derive(Clone, Copy)]
pub struct Spot {
    pub at: usize,
    pub mode: u8,
    pub fresh: bool,
}

// What stands next in a line, with the spot after it.
#[derive(Clone, Copy)]
pub enum Item {
    Mark(u16, Spot),
    // an escape and LF
    Join(Spot),
    // a byte of a comment
    Hidden(Spot),
    // the line's end: the place after it, and how many LFs stand before that place
    End(usize, usize),
}

// Where a line ends, how many LFs it has, and whether it holds only text outside comments.
#[derive(Clone, Copy)]
pub struct LineEnd {
    pub next: usize,
    pub feeds: usize,
    pub text: bool,
}

pub fn is_blank(b: u8) -> bool
    ensures { result ≡ is_blank b }
{
    matches!(b, b' ' | b'\t')
}

// The mode after a byte that stands.
#[tactic(auto, unfolding(rules::specs::Lines::after))]
fn mode_after(mode: u8, b: u8) -> u8
    ensures { result ≡ after mode b }
{
    match (mode, b) {
        (IN_PLAIN, b'<') => IN_NAME,
        (IN_PLAIN, b'"') => QUOTED,
        (IN_NAME, b'>') => IN_PLAIN,
        (QUOTED, b'<') => QUOTED_NAME,
        (QUOTED, b'"') => IN_PLAIN,
        (QUOTED_NAME, b'>') => QUOTED,
        _ => mode,
    }
}

// Whether a byte opens a comment.
fn opens(mode: u8, fresh: bool, b: u8, comment: u8) -> bool
    ensures { result ≡ (eqb mode 0 && fresh && eqb b comment) }
{
    mode == IN_PLAIN && fresh && b == comment
}

// What a mark's byte is, outside comments: text, or a ground for refusal 2.
pub fn is_text(m: u16) -> bool
    ensures { result ≡ is_text m }
{
    let b = m % 256;
    (32..=126).contains(&b) || b == 9
}

// A byte as a mark: below 256, where a byte is known by its place alone.
fn mark_of(b: u8) -> u16
    ensures { (result ≡ b) × (result < 256) }
{
    u16::from(b)
}

// What an escape at a spot and the byte after it give.
fn escaped(src: Source, p: Spot) -> Item
    requires { EscapeAt src.signs src.bytes.now p }
    ensures { ItemIs src.entry.signs src.entry.bytes.now p result }
{
    let next = p.at + 1;
    if next >= src.bytes.len() {
        return Item::Mark(
            512 + mark_of(src.signs.escape),
            Spot {
                at: next,
                mode: p.mode,
                fresh: false,
            },
        );
    }
    let b = src.bytes[next];
    if b == b'\n' {
        return Item::Join(Spot {
            at: p.at + 2,
            mode: p.mode,
            fresh: p.fresh, // as before the join
        });
    }
    let offset = if p.mode == IN_PLAIN { 512 } else { 256 };
    Item::Mark(
        offset + mark_of(b),
        Spot {
            at: p.at + 2,
            mode: p.mode,
            fresh: false,
        },
    )
}

// What stands next in a line.
fn next_item(src: Source, p: Spot) -> Item
    requires { p.at ≤ length src.bytes.now }
    ensures { ItemIs src.entry.signs src.entry.bytes.now p result }
{
    if p.at >= src.bytes.len() {
        return Item::End(p.at, 0);
    }
    let b = src.bytes[p.at];
    let next = p.at + 1;
    if b == b'\n' {
        return Item::End(next, 1);
    }
    if p.mode == IN_COMMENT {
        return Item::Hidden(Spot {
            at: next,
            mode: IN_COMMENT,
            fresh: p.fresh,
        });
    }
    if b == src.signs.escape {
        return escaped(src, p);
    }
    if opens(p.mode, p.fresh, b, src.signs.comment) {
        return Item::Hidden(Spot {
            at: next,
            mode: IN_COMMENT,
            fresh: p.fresh,
        });
    }
    Item::Mark(
        mark_of(b),
        Spot {
            at: next,
            mode: mode_after(p.mode, b),
            fresh: is_blank(b),
        },
    )
}

// The next mark of a line: joins are passed, and a comment ends the marks.
pub fn next_mark(src: Source, p: Spot) -> Option<(u16, Spot)>
    requires { p.at ≤ length src.bytes.now }
    ensures { StepIs src.entry.signs src.entry.bytes.now p result }
{
    let mut q = p;
    loop {
        match next_item(src, q) {
            Item::Mark(m, r) => return Some((m, r)),
            Item::Join(r) => q = r,
            Item::Hidden(_) => return None,
            Item::End(..) => return None,
        }
    }
}

// How many LFs stand in the 32 bytes from a place on. The loop has no other way out than its end, so that it can be made 16 bytes wide.
fn feeds_in(src: &[u8], at: usize) -> u8
    requires { at + 32 ≤ length src.now }
    ensures { Block src.now at result }
{
    let mut n: u8 = 0;
    for k in at..at + 32 {
        if src[k] == b'\n' {
            n += 1;
        }
    }
    n
}

// How far blocks of 32 bytes with no LF go on from a place. A `while`: `step_by(32)` over the places says no more, and leaves the bound of each to be proved.
fn blocks_to(src: &[u8], at: usize) -> usize
    requires { at ≤ length src.now }
    ensures { Stretch NoFeed src.now at result }
{
    let mut i = at;
    while i + 32 <= src.len() {
        if feeds_in(src, i) > 0 {
            return i;
        }
        i += 32;
    }
    i
}

// The place of the next LF, or the source's end.
fn feed_from(src: &[u8], at: usize) -> usize
    requires { at ≤ length src.now }
    ensures { Stretch NoFeed src.now at result }
{
    for i in blocks_to(src, at)..src.len() {
        if src[i] == b'\n' {
            return i;
        }
    }
    src.len()
}

// Whether a byte leaves every mode as it is, where no comment can open: visible, and none of `"`, `<`, `>` and the escape.
fn is_ordinary(b: u8, escape: u8) -> bool
    ensures { result ≡ true → Ordinary escape b }
{
    (33..=126).contains(&b) && !matches!(b, b'"' | b'<' | b'>') && b != escape
}

// How far ordinary bytes go on from a place.
fn ordinary_to(src: &[u8], escape: u8, at: usize) -> usize
    requires { at ≤ length src.now }
    ensures { Stretch (Ordinary escape) src.now at result }
{
    for i in at..src.len() {
        if !is_ordinary(src[i], escape) {
            return i;
        }
    }
    src.len()
}

// How far a line goes on, from a place on in a mode, with nothing to be told of it.
fn dull_to(src: &[u8], escape: u8, at: usize, mode: u8, fresh: bool) -> usize
    requires { at ≤ length src.now }
    ensures { DullTo escape src.now at mode fresh result }
{
    if mode == IN_COMMENT {
        feed_from(src, at)
    } else if fresh {
        at
    } else {
        ordinary_to(src, escape, at)
    }
}

// The end of a line, from a spot on.
pub fn line_end(src: Source, p: Spot) -> LineEnd
    requires { p.at ≤ length src.bytes.now }
    ensures { LineIs src.entry.signs src.entry.bytes.now p result }
{
    let mut q = p;
    let mut feeds: usize = 0;
    let mut text = true;
    loop {
        let at = dull_to(src.bytes, src.signs.escape, q.at, q.mode, q.fresh);
        match next_item(
            src,
            Spot {
                at,
                mode: q.mode,
                fresh: q.fresh,
            },
        ) {
            Item::Mark(m, r) => {
                text = text && is_text(m);
                q = r;
            }
            Item::Join(r) => {
                feeds += 1;
                q = r;
            }
            Item::Hidden(r) => q = r,
            Item::End(next, n) => return LineEnd {
                next,
                feeds: feeds + n,
                text,
            },
        }
    }
}
