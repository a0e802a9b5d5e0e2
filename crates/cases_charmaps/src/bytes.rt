// Sources with bytes that are no text: in comments, and elsewhere (2).
use crate::show::mapped;
use std::io;

fn passed_over(rt: &impl Print) -> io::Result<()> {
    mapped(
        rt,
        b"bytes past 7E in comments:",
        b"# \x80\nCHARMAP # \xFF\n<U0041> \\x41 \x01\nEND CHARMAP\n",
    )?;
    mapped(
        rt,
        b"a control byte in a header:",
        b"<code_set_name> \"x\x07\nCHARMAP\nEND CHARMAP\n",
    )?;
    mapped(
        rt,
        b"bytes after the end:",
        b"CHARMAP\n<U0041> \\x41\nEND CHARMAP\n<U0042 \\x41 \x00\x80\xFF\"",
    )
}

fn refused(rt: &impl Print) -> io::Result<()> {
    mapped(
        rt,
        b"a byte past 7E:",
        b"CHARMAP\n<U0041>\x80 \\x41\nEND CHARMAP\n",
    )?;
    mapped(
        rt,
        b"a byte past 7E in a name:",
        b"CHARMAP\n<U004\x80> \\x41\nEND CHARMAP\n",
    )?;
    mapped(
        rt,
        b"a control byte behind CHARMAP:",
        b"CHARMAP \x07\nEND CHARMAP\n",
    )?;
    mapped(
        rt,
        b"a range backwards, then a byte past 7E:",
        b"CHARMAP\n<U0042>..<U0041> \\x00\n\x80\nEND CHARMAP\n",
    )
}

pub fn cases(rt: &impl Print) -> io::Result<()> {
    passed_over(rt)?;
    refused(rt)
}
