// Sources with bytes that are no text: where they may stand, and elsewhere (2).
use crate::show::compiled;
use std::io;

fn passed_over(rt: &impl Print) -> io::Result<()> {
    compiled(
        rt,
        b"bytes in comments and passed-over lines:",
        b"# \x80\nLC_CTYPE\n\x00\x7F\xFF\nEND LC_CTYPE\nLC_COLLATE # \r\nifdef A\n<\x01\nendif\norder_start\norder_end\nEND LC_COLLATE\n#\xFF",
    )
}

fn in_lines(rt: &impl Print) -> io::Result<()> {
    compiled(
        rt,
        b"CR:",
        b"LC_COLLATE\r\norder_start\r\norder_end\r\nEND LC_COLLATE\r\n",
    )?;
    compiled(
        rt,
        b"a byte in a name:",
        b"LC_COLLATE\norder_start\n<U0061>\n<U006\x80>\norder_end\nEND LC_COLLATE\n",
    )?;
    compiled(
        rt,
        b"7F after an escape:",
        b"LC_COLLATE\ncollating-symbol <\\\x7F>\norder_start\norder_end\nEND LC_COLLATE\n",
    )?;
    compiled(rt, b"a byte as c:", b"\n\ncomment_char \xA7\n")?;
    compiled(
        rt,
        b"a malformed line with a byte:",
        b"LC_COLLATE\norder_start ; ; \" < \x00\norder_end\nEND LC_COLLATE\n",
    )?;
    compiled(
        rt,
        b"else with a byte, after an unused branch:",
        b"LC_COLLATE\nifdef A\n\x80\nelse \x80\nendif\norder_start\norder_end\nEND LC_COLLATE\n",
    )
}

fn after_signs(rt: &impl Print) -> io::Result<()> {
    compiled(
        rt,
        b"a byte behind an escaped comment character:",
        b"LC_COLLATE\norder_start \\#\x80\n",
    )?;
    compiled(
        rt,
        b"a byte behind an escaped blank and a comment character:",
        b"LC_COLLATE\norder_start \\ #\x80\n",
    )?;
    compiled(
        rt,
        b"a byte behind an escaped letter and a comment:",
        b"LC_COLLATE\norder_start \\a #\x80\n",
    )?;
    compiled(
        rt,
        b"a misplaced comment_char takes its c:",
        b"LC_CTYPE\nEND LC_CTYPE\ncomment_char #\x80\n",
    )?;
    compiled(
        rt,
        b"comment_char in LC_COLLATE takes none:",
        b"LC_COLLATE\ncomment_char #\x80\n",
    )
}

fn by_line(rt: &impl Print) -> io::Result<()> {
    compiled(
        rt,
        b"nine levels, then a byte:",
        b"LC_COLLATE\norder_start forward;forward;forward;forward;forward;forward;forward;forward;forward\n\x80\n",
    )?;
    compiled(
        rt,
        b"a byte on a later part of a joined line:",
        b"# one\nLC_COLLATE\n\norder_start \\\nforward;\\\n\x80\norder_end\n",
    )?;
    compiled(
        rt,
        b"2, nested and joined:",
        b"# one\nLC_CTYPE\nx\\\nEND LC_CTYPE\nEND LC_CTYPE\nLC_COLLATE\nifndef A\nifdef A\nx\nelse # ten\ncollating-symbol \\\n<a>\nendif\norder_start forward;\\\nbackward\n# sixteen\nifdef A\nelif B\nelse\n<U0061> \\\n;\\\n<\x80>\nendif\norder_end\nendif\nEND LC_COLLATE\n",
    )
}

pub fn cases(rt: &impl Print) -> io::Result<()> {
    passed_over(rt)?;
    in_lines(rt)?;
    after_signs(rt)?;
    by_line(rt)
}
