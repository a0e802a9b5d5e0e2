// The reader of charmaps: its header's lines, its body's lines, then the 512 numbers. `read` is public and has no `requires`.
#![tactic(auto)]

ghost use Rattle.std.specs.Prelude.{◌≡◌, [], ◌≤◌, length, replicate};
ghost use Rattle.rules.specs.Charmap.{area_of};
ghost use Rattle.rules.specs.Calls.{charmap_call};
ghost use Rattle.charmap_read.specs.Answers.{read_as};
ghost use Rattle.charmap_read.specs.Read.{HeaderIs, Opens, EntriesAre, SourceIs};

use base_units::Refusal;
use charmap_body::body_line;
use charmap_header::header_line;
use charmap_numbers::copy_area;
use text_lines::{Signs, Source};
use text_reader::{reader_at, used_up};
use text_specials::{Chars, start};

// How many bytes a source may have.
const LONGEST_SOURCE: usize = 1048576;

// The lines up to CHARMAP: the two characters after it, the place behind it and the number of the line there.
fn header_lines(src: &[u8]) -> Result<(Chars, usize, usize), (Refusal, usize)>
    requires { length src.now ≤ 1048576 }
    ensures { HeaderIs src.now result }
{
    let mut h = start();
    let mut q = reader_at(src, 0, 1);
    while !used_up(q) {
        match header_line(q.src, h, q.at) {
            Err(r) => return Err((r, q.number)),
            Ok((c, opened, next, feeds)) => {
                let number = q.number + feeds;
                if opened {
                    return Ok((c, next, number));
                }
                h = c;
                q = reader_at(q.src, next, number);
            }
        }
    }
    Err((Refusal::Malformed, q.number)) // no CHARMAP
}

// The lines from CHARMAP to END CHARMAP, and what they give, in an area where nothing is given yet.
fn body_lines(
    src: &[u8],
    h: Chars,
    from: usize,
    first: usize,
    area: &mut [u32],
) -> Result<(), (Refusal, usize)>
    requires { Opens src.now from first area.old }
    ensures { EntriesAre src.now h from first area.new result }
{
    let signs = Signs {
        comment: h.comment,
        escape: h.escape,
    };
    let mut q = reader_at(src, from, first);
    while !used_up(q) {
        let text = Source {
            bytes: q.src,
            signs,
        };
        match body_line(text, q.at, area) {
            Err(refusal) => return Err((refusal, q.number)),
            Ok((closed, next, feeds)) => {
                let number = q.number + feeds;
                if closed {
                    return Ok(());
                }
                q = reader_at(q.src, next, number);
            }
        }
    }
    Err((Refusal::Malformed, q.number)) // no END CHARMAP
}

// All lines, and what they give.
fn all_lines(src: &[u8], area: &mut [u32]) -> Result<(), (Refusal, usize)>
    requires { (length src.now ≤ 1048576) × (area.old ≡ area_of []) }
    ensures { SourceIs src.now area.new result }
{
    let (h, at, number) = header_lines(src)?;
    body_lines(src, h, at, number, area)
}

// An area where nothing is given.
fn empty(area: &mut [u32])
    requires { area.old ≡ replicate 512 0 }
    ensures { area.new ≡ area_of [] }
{
    for i in 0..256 {
        area[i] = 0x110000;
    }
}

// What is given by a source that is not too long, by way of an area of its own, which is all zeros.
fn read_by(src: &[u8], own: &mut [u32], area: &mut [u32]) -> Result<(), (Refusal, usize)>
    requires { (length src.now ≤ 1048576) × (own.old ≡ replicate 512 0) }
    ensures { read_as result area.new ≡ charmap_call src.now area.old }
{
    empty(own);
    all_lines(src, own)?;
    if area.len() < 512 {
        return Err((Refusal::ShortArea, 0));
    }
    copy_area(own, area);
    Ok(())
}

// A charmap's source to 512 numbers in front of the area, which stays as it was behind them and in a refusal: 1, then by line 2, 3, 6, 7
// or 10, then 9.
pub fn read(src: &[u8], area: &mut [u32]) -> Result<(), (Refusal, usize)>
    ensures { read_as result area.new ≡ charmap_call src.now area.old }
{
    if LONGEST_SOURCE < src.len() {
        return Err((Refusal::TooLong, 0));
    }
    let mut own = [0u32; 512];
    read_by(src, &mut own, area)
}
