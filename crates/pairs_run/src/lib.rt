// A run of the pairs program: its two files, by name, then its input, from a reader. What is decided on slices is proved to be the paper's
// (`open_files`, and `feed` and `finish` of report); the others read and write.
#![tactic(auto)]

ghost use Rattle.std.specs.Prelude.{◌≡◌, true, ◌≤◌, length, IfOk, IfErr, MatchResult, IsUtf8};
ghost use Rattle.rules.specs.Table.{accepted};
ghost use Rattle.std.specs.Io.{ReadsAtMost};
ghost use Rattle.pairs_report.specs.Feeding.{Ready};
ghost use Rattle.pairs_run.specs.Opening.{LocaleIs, CharmapIs, CharmapOpens, FilesOpen};
ghost use Rattle.pairs_run.specs.Pieces.{Rooms, Consumed, Ended};

use base_reading::{read_full, read_some};
use base_units::Refusal;
use pairs_printing::{put_file, put_text};
use pairs_report::{Fed, feed, finish};
use std::io::{ErrorKind, Read};
use std::rt::Files;
use std::{fs, io};

// What was printed of the two files, and whether the input is read then.
#[derive(Clone, Copy)]
pub enum Opened {
    Closed(usize),
    Reading(usize),
}

// The locale's table, in an area of 8,192 numbers.
fn read_locale(src: &[u8], table: &mut [u32], work: &mut [u32]) -> Result<usize, (Refusal, usize)>
    requires { (length table.old ≡ 8192) × (length work.old ≡ 8256) }
    ensures { LocaleIs src.now table.new result }
{
    if 8192 < src.len() {
        return Err((Refusal::TooLong, 0));
    }
    let n = src.len() + 64;
    locale_compile::compile(src, table, &mut work[..n])
}

// The charmap's 512 numbers.
fn read_charmap(src: &[u8], area: &mut [u32]) -> Result<(), (Refusal, usize)>
    requires { length area.old ≡ 512 }
    ensures { CharmapIs src.now area.new result }
{
    if 8192 < src.len() {
        return Err((Refusal::TooLong, 0));
    }
    charmap_read::read(src, area)
}

// What is printed of the charmap, where the locale is not refused.
fn open_charmap(src: &[u8], area: &mut [u32], out: &mut [u8]) -> Opened
    requires { (length area.old ≡ 512) × (100 ≤ length out.old) }
    ensures { CharmapOpens src.now area.new out.new result }
{
    match read_charmap(src, area) {
        Err((r, line)) => {
            let n = put_file(out, 0, b"charmap", base_units::number_of(r), line);
            Opened::Closed(n)
        }
        Ok(()) => {
            let n = put_text(out, 0, b"pair sign level agreed\n");
            Opened::Reading(n)
        }
    }
}

// What is printed of the two files, the locale first.
fn open_files(
    locale: &[u8],
    charmap: &[u8],
    table: &mut [u32],
    work: &mut [u32],
    area: &mut [u32],
    out: &mut [u8],
) -> Opened
    requires table_len { (length table.old ≡ 8192) × (length work.old ≡ 8256) }
    requires area_len { (length area.old ≡ 512) × (100 ≤ length out.old) }
    ensures { FilesOpen locale.now charmap.now table.new area.new out.new result }
{
    match read_locale(locale, table, work) {
        Err((r, line)) => {
            let n = put_file(out, 0, b"locale", base_units::number_of(r), line);
            Opened::Closed(n)
        }
        Ok(_) => open_charmap(charmap, area, out),
    }
}

// A piece of the input: each time the output's room is full, and at the end, what was printed is written.
fn consume(
    rt: &impl Print,
    t: &[u32],
    area: &[u32],
    piece: &[u8],
    f: Fed,
    before: &mut [u8],
    current: &mut [u8],
    out: &mut [u8],
) -> io::Result<Fed>
    requires t_value { (accepted t.now ≡ true) × (80 ≤ length out.old) }
    requires ready { Ready piece.now f before.old current.old out.old × (f.used ≡ 0) }
    ensures { IfOk result (λ g. Consumed piece.now f g) }
{
    let mut g = f;
    while g.at < piece.len() {
        let h = feed(t, area, piece, g, before, current, out);
        let used = h.used;
        rt.write_all(&out[..used])?;
        g = Fed {
            at: h.at,
            used: 0,
            texts: h.texts,
            last: h.last,
            len: h.len,
        };
    }
    Ok(g)
}

// The input, piece by piece, to its end, or to a read that fails. The count of pieces is there because a loop has to end: no input has so many.
fn read_pieces(
    rt: &impl Print,
    t: &[u32],
    area: &[u32],
    input: &mut impl Read,
    piece: &mut [u8],
    before: &mut [u8],
    current: &mut [u8],
    out: &mut [u8],
) -> io::Result<Fed>
    requires { Rooms t.now piece.old before.old current.old out.old }
    ensures { IfOk result (λ g. Ended t.now g before.new current.new out.new) }
{
    let mut g = Fed {
        at: 0,
        used: 0,
        texts: 0,
        last: 0,
        len: 0,
    };
    let mut pieces: u64 = 0;
    while pieces < 0x400000000000 {
        let n = read_some(input, piece);
        if n == 0 {
            return Ok(g);
        }
        let f = Fed {
            at: 0,
            used: 0,
            texts: g.texts,
            last: g.last,
            len: g.len,
        };
        g = consume(rt, t, area, &piece[..n], f, before, current, out)?;
        pieces += 1;
    }
    Ok(g)
}

// A last text without LF.
fn write_last(
    rt: &impl Print,
    t: &[u32],
    area: &[u32],
    g: Fed,
    before: &[u8],
    current: &[u8],
    out: &mut [u8],
) -> io::Result<()>
    requires { Ended t.now g before.now current.now out.old }
{
    let n = finish(t, area, g, before, current, out);
    rt.write_all(&out[..n])
}

// The whole input.
fn read_input(
    rt: &impl Print,
    t: &[u32],
    area: &[u32],
    input: &mut impl Read,
    piece: &mut [u8],
    before: &mut [u8],
    current: &mut [u8],
    out: &mut [u8],
) -> io::Result<()>
    requires { Rooms t.now piece.old before.old current.old out.old }
{
    let g = read_pieces(rt, t, area, input, piece, before, current, out)?;
    write_last(rt, t, area, g, before, current, out)
}

// The input, with rooms for a piece and for two texts.
fn read_with(
    rt: &impl Print,
    t: &[u32],
    area: &[u32],
    input: &mut impl Read,
    out: &mut [u8],
) -> io::Result<()>
    requires { (accepted t.now ≡ true) × (80 ≤ length out.old) }
{
    let mut piece = [0u8; 65536];
    let mut before = [0u8; 4097];
    let mut current = [0u8; 4097];
    read_input(
        rt,
        t,
        area,
        input,
        &mut piece,
        &mut before,
        &mut current,
        out,
    )
}

// The two files, then the input.
fn run_within(
    rt: &impl Print,
    locale: &[u8],
    charmap: &[u8],
    input: &mut impl Read,
    table: &mut [u32],
    work: &mut [u32],
    area: &mut [u32],
    out: &mut [u8],
) -> io::Result<()>
    requires table_len { (length table.old ≡ 8192) × (length work.old ≡ 8256) }
    requires area_len { (length area.old ≡ 512) × (100 ≤ length out.old) }
{
    let s = open_files(locale, charmap, table, work, area, out);
    match s {
        Opened::Closed(n) => rt.write_all(&out[..n]),
        Opened::Reading(n) => {
            rt.write_all(&out[..n])?;
            read_with(rt, table, area, input, out)
        }
    }
}

// The same with rooms for the table, the compiler's work, the charmap and the output.
fn run_texts(
    rt: &impl Print,
    locale: &[u8],
    charmap: &[u8],
    input: &mut impl Read,
) -> io::Result<()> {
    let mut table = [0u32; 8192];
    let mut work = [0u32; 8256];
    let mut area = [0u32; 512];
    let mut out = [0u8; 65536];
    run_within(
        rt, locale, charmap, input, &mut table, &mut work, &mut area, &mut out,
    )
}

// A file's name as text, which a path is. Fails where it is not UTF-8.
pub fn path_of(name: &[u8]) -> io::Result<&str>
    ensures { MatchResult result (λ path. path.now ≡ name.now) (λ _. ¬ (IsUtf8 name.now)) }
{
    match str::from_utf8(name) {
        Ok(path) => Ok(path),
        Err(_) => Err(io::Error::new(ErrorKind::InvalidInput, "a file's name is not UTF-8")),
    }
}

// A file by name, as much of it as the room has place for; one that cannot be opened is empty. Fails where the name is not UTF-8, and only there.
fn load(rt: &impl Files, name: &[u8], room: &mut [u8]) -> io::Result<usize>
    ensures read { ReadsAtMost result room.new }
    ensures err { IfErr result (λ _. ¬ (IsUtf8 name.now) × (room.new ≡ room.old)) }
{
    match fs::open(rt, path_of(name)?) {
        Ok(mut file) => Ok(read_full(&mut file, room)),
        Err(_) => Ok(0),
    }
}

// The pairs program on these two files and this input. A file's room has one byte more than a file may have. Fails where a name is not UTF-8, before
// anything of the input is read and anything is written, and where a write fails, after which nothing is read or written.
pub fn run(
    rt: &(impl Files + Print),
    locale: &[u8],
    charmap: &[u8],
    input: &mut impl Read,
) -> io::Result<()> {
    let mut first = [0u8; 8193];
    let mut second = [0u8; 8193];
    let n = load(rt, locale, &mut first)?;
    let m = load(rt, charmap, &mut second)?;
    run_texts(rt, &first[..n], &second[..m], input)
}
