// A reader of lines: the source that it was lent and the place that it has reached, and thin functions over it. What there is to do is done by
// functions over a slice and a place.
#![tactic(auto)]

ghost use Rattle.std.specs.Prelude.{◌≡◌, ◌+◌, ◌^◌, ◌≤◌, ◌<◌, length, leb};
ghost use Rattle.text_lines.specs.Stream.{line_start, LineIs};

use text_lines::{IN_PLAIN, LineEnd, Signs, Source, Spot, line_end};

// The source, the place in it where the present line begins, and the number of that line.
#[derive(Clone, Copy)]
pub struct Reader<'a> {
    pub src: &'a [u8],
    pub at: usize,
    pub number: usize,
}

// Whether nothing of a source is left at a place.
fn is_end(src: &[u8], at: usize) -> bool
    ensures { result ≡ leb (length src.now) at }
{
    at >= src.len()
}

// The line that begins at a place: the place after it, its LFs, and whether it holds only text outside comments.
fn line_from(src: Source, at: usize) -> LineEnd
    requires { at ≤ length src.bytes.now }
    ensures { LineIs src.entry.signs src.entry.bytes.now (line_start at) result }
{
    let start = Spot {
        at,
        mode: IN_PLAIN,
        fresh: true,
    };
    line_end(src, start)
}

// A reader at a place of a source, where a line of this number begins.
pub fn reader_at<'a>(src: &'a [u8], at: usize, number: usize) -> Reader<'a>
    ensures { (result.src ≡ src.entry) × (result.at ≡ at) × (result.number ≡ number) }
{
    Reader { src, at, number }
}

// The place that it has reached.
pub fn place<'a>(r: Reader<'a>) -> usize
    ensures { result ≡ r.entry.at }
{
    r.at
}

// The number of the line there.
pub fn line_number<'a>(r: Reader<'a>) -> usize
    ensures { result ≡ r.entry.number }
{
    r.number
}

// Whether the source is used up.
pub fn used_up<'a>(r: Reader<'a>) -> bool
    ensures { result ≡ leb (length r.entry.src.now) r.entry.at }
{
    is_end(r.src, r.at)
}

// The present line.
pub fn line<'a>(r: Reader<'a>, g: Signs) -> LineEnd
    requires { r.at ≤ length r.src.now }
    ensures { LineIs g r.entry.src.now (line_start r.entry.at) result }
{
    line_from(
        Source {
            bytes: r.src,
            signs: g,
        },
        r.at,
    )
}

// The reader after the present line, which ends so.
pub fn past<'a>(r: Reader<'a>, e: LineEnd) -> Reader<'a>
    requires { r.number + e.feeds < 2 ^ 64 }
    ensures { (result.src ≡ r.entry.src) × (result.at ≡ e.next) × (result.number ≡ r.entry.number + e.feeds) }
{
    Reader {
        src: r.src,
        at: e.next,
        number: r.number + e.feeds,
    }
}

// The line that begins at a place, whatever its number is, for who holds no reader.
pub fn line_at(src: Source, at: usize) -> LineEnd
    requires { at ≤ length src.bytes.now }
    ensures { LineIs src.entry.signs src.entry.bytes.now (line_start at) result }
{
    line(reader_at(src.bytes, at, 0), src.signs)
}
