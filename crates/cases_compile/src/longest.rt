// The longest source, and the most order lines.
ghost use Rattle.std.specs.Prelude.{◌≤◌, ◌+◌, ◌*◌, length};

use crate::show::{compiled_in, compiled_with};
use cases_words::{put, put_lines};
use std::io;

// A source with the first n numbers of a work area. The area is long enough for a table with no order line.
fn longest_in(
    rt: &impl Print,
    name: &[u8],
    src: &[u8],
    work: &mut [u32],
    n: usize,
) -> io::Result<()> {
    let mut area = [0xEEEEu32; 32];
    compiled_with(rt, name, src, &mut area, work, n)
}

// The same, of a length that is known.
fn longest_with(
    rt: &impl Print,
    name: &[u8],
    src: &[u8],
    work: &mut [u32; 1048641],
    n: usize,
) -> io::Result<()> {
    longest_in(rt, name, src, work, n)
}

fn longest_by(rt: &impl Print, name: &[u8], src: &[u8], n: usize) -> io::Result<()> {
    let mut work = [0xEEEEu32; 1048641];
    longest_with(rt, name, src, &mut work, n)
}

// A source as long as it may be, which is accepted; then with a work area one number short; then one byte longer, with areas and with none.
fn longest_of(rt: &impl Print, src: &[u8]) -> io::Result<()> {
    if 1 <= src.len() {
        longest_by(rt, b"1,048,576 bytes:", &src[..src.len() - 1], 1048640)?;
        longest_by(
            rt,
            b"1,048,576 bytes, work one short:",
            &src[..src.len() - 1],
            1048639,
        )?;
    }
    longest_by(rt, b"1,048,577 bytes:", src, 1048641)?;
    compiled_in(rt, b"1,048,577 bytes, no area:", src, &mut [], &mut [])
}

// The same, of a length that is known.
fn longest_within(rt: &impl Print, src: &mut [u8; 1048577]) -> io::Result<()> {
    put(
        src,
        0,
        b"LC_COLLATE\norder_start\norder_end\nEND LC_COLLATE\n",
    );
    longest_of(rt, src)
}

fn longest(rt: &impl Print) -> io::Result<()> {
    let mut src = [10u8; 1048577];
    longest_within(rt, &mut src)
}

// The source of n order lines: 23 bytes, 12 for each line, and a text from a place on.
fn put_order(src: &mut [u8], n: u32, end: usize, text: &[u8])
    requires { (23 + 12 * n ≤ length src.old) × (end + length text.now ≤ length src.old) }
{
    put(src, 0, b"LC_COLLATE\norder_start\n");
    put_lines(src, 23, n);
    put(src, end, text);
}

// The first n bytes of a source, in the areas lent.
fn lines_in(
    rt: &impl Print,
    name: &[u8],
    src: &[u8],
    n: usize,
    area: &mut [u32],
    work: &mut [u32],
) -> io::Result<()> {
    if n <= src.len() {
        compiled_in(rt, name, &src[..n], area, work)?;
    }
    Ok(())
}

// The same, of lengths that are known.
fn lines_within(
    rt: &impl Print,
    name: &[u8],
    src: &[u8; 393302],
    n: usize,
    area: &mut [u32; 262200],
    work: &mut [u32; 393366],
) -> io::Result<()> {
    lines_in(rt, name, src, n, area, work)
}

// The first n bytes of a source, in areas that are long enough.
fn lines_of(rt: &impl Print, name: &[u8], src: &[u8; 393302], n: usize) -> io::Result<()> {
    let mut area = [0xEEEEu32; 262200];
    let mut work = [0xEEEEu32; 393366];
    lines_within(rt, name, src, n, &mut area, &mut work)
}

// As many order lines as there may be.
fn most_within(rt: &impl Print, src: &mut [u8; 393302]) -> io::Result<()> {
    put_order(src, 32767, 393227, b"order_end\nEND LC_COLLATE\n");
    lines_of(rt, b"32,767 order lines:", src, 393252)
}

// One more.
fn more_within(rt: &impl Print, src: &mut [u8; 393302]) -> io::Result<()> {
    put_order(src, 32768, 393239, b"order_end\nEND LC_COLLATE\n");
    lines_of(rt, b"32,768 order lines:", src, 393264)
}

// As many as there may be, and a block that moves the last one.
fn moved_within(rt: &impl Print, src: &mut [u8; 393302]) -> io::Result<()> {
    put_order(
        src,
        32767,
        393227,
        b"order_end\nreorder-after <U00010000>\n<U00017FFE>\nreorder-end\nEND LC_COLLATE\n",
    );
    lines_of(rt, b"32,767 order lines, the last moved:", src, 393302)
}

// One more, in a block.
fn added_within(rt: &impl Print, src: &mut [u8; 393302]) -> io::Result<()> {
    put_order(
        src,
        32767,
        393227,
        b"order_end\nreorder-after <U00010000>\n<U00017FFF>\nreorder-end\nEND LC_COLLATE\n",
    );
    lines_of(rt, b"32,767 order lines, one more in a block:", src, 393302)
}

fn most_lines(rt: &impl Print) -> io::Result<()> {
    let mut src = [10u8; 393302];
    most_within(rt, &mut src)?;
    more_within(rt, &mut src)?;
    moved_within(rt, &mut src)?;
    added_within(rt, &mut src)
}

pub fn cases(rt: &impl Print) -> io::Result<()> {
    longest(rt)?;
    most_lines(rt)
}
