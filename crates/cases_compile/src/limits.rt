// The shortest areas, and which of the two is asked first.
use crate::show::compiled_in;
use std::io;

// Source S: 239 bytes, so a work area of 303 numbers; its table has 66.
fn source_s(rt: &impl Print, name: &[u8], area: &mut [u32], work: &mut [u32]) -> io::Result<()> {
    compiled_in(
        rt,
        name,
        b"comment_char %\nescape_char /\nLC_COLLATE\ncollating-symbol <LOW>\ncollating-symbol <CAP>\norder_start forward;forward\n<LOW>\n<CAP>\n<U0061> <U0061>;<LOW>\n<U0041> <U0061>;<CAP>\n<U0062> <U0062>;<LOW>\n<U002D> IGNORE;IGNORE\norder_end\nEND LC_COLLATE\n",
        area,
        work,
    )
}

// Both areas as short as they may be.
fn shortest(rt: &impl Print) -> io::Result<()> {
    let mut area = [0xEEEEu32; 66];
    let mut work = [0xEEEEu32; 303];
    source_s(rt, b"source S, areas of 66 and 303:", &mut area, &mut work)
}

// An area one number short: 9.
fn short_area(rt: &impl Print) -> io::Result<()> {
    let mut area = [0xEEEEu32; 65];
    let mut work = [0xEEEEu32; 303];
    source_s(rt, b"source S, areas of 65 and 303:", &mut area, &mut work)
}

// A work area one number short: 1, whatever the area.
fn short_work(rt: &impl Print) -> io::Result<()> {
    let mut area = [0xEEEEu32; 66];
    let mut work = [0xEEEEu32; 302];
    source_s(rt, b"source S, areas of 66 and 302:", &mut area, &mut work)
}

fn both_short(rt: &impl Print) -> io::Result<()> {
    let mut area = [0xEEEEu32; 65];
    let mut work = [0xEEEEu32; 302];
    source_s(rt, b"source S, areas of 65 and 302:", &mut area, &mut work)
}

// Longer ones: what lies behind the table stays, the whole work area is cleared.
fn longer(rt: &impl Print) -> io::Result<()> {
    let mut area = [0xEEEEu32; 67];
    let mut work = [0xEEEEu32; 400];
    source_s(rt, b"source S, areas of 67 and 400:", &mut area, &mut work)
}

// Nothing lent: 1.
fn nothing(rt: &impl Print) -> io::Result<()> {
    source_s(rt, b"source S, no areas:", &mut [], &mut [])
}

// A source whose first line has a byte that may not stand there, and a work area one number short: 1 comes first.
fn short_work_first(rt: &impl Print) -> io::Result<()> {
    let mut area = [0xEEEEu32; 66];
    let mut work = [0xEEEEu32; 64];
    compiled_in(
        rt,
        b"a byte, work one short:",
        b"\x80",
        &mut area,
        &mut work,
    )
}

// A source with no room for a table.
fn without_area(rt: &impl Print, name: &[u8], src: &[u8]) -> io::Result<()> {
    let mut work = [0xEEEEu32; 400];
    compiled_in(rt, name, src, &mut [], &mut work)
}

// 9 comes after the lines and after 8.
fn no_area_last(rt: &impl Print) -> io::Result<()> {
    without_area(
        rt,
        b"no area, no order_end:",
        b"LC_COLLATE\norder_start\n<U0061>\nEND LC_COLLATE\n",
    )?;
    without_area(
        rt,
        b"no area, a weight with no line:",
        b"LC_COLLATE\norder_start\n<U0061> <U0062>\norder_end\nEND LC_COLLATE\n",
    )?;
    without_area(
        rt,
        b"no area:",
        b"LC_COLLATE\norder_start\n<U0061>\norder_end\nEND LC_COLLATE\n",
    )?;
    without_area(
        rt,
        b"9, nested and joined:",
        b"# one\nLC_CTYPE\nx\\\nEND LC_CTYPE\nEND LC_CTYPE\nLC_COLLATE\nifndef A\nifdef A\nx\nelse # ten\ncollating-symbol \\\n<a>\nendif\norder_start forward;\\\nbackward\n# sixteen\nifdef A\nelif B\nelse\n<U0061> \\\n;\\\nIGNORE\nendif\norder_end\nendif\nEND LC_COLLATE\n",
    )
}

pub fn cases(rt: &impl Print) -> io::Result<()> {
    shortest(rt)?;
    short_area(rt)?;
    short_work(rt)?;
    both_short(rt)?;
    longer(rt)?;
    nothing(rt)?;
    short_work_first(rt)?;
    no_area_last(rt)
}
