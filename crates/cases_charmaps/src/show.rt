// What the run cases write: a line for each, its name and the answer. Areas are filled with EEEE before each call.
use base_units::Refusal;
use cases_words::{all_are, others, refusal};
use std::io;

// How many bytes have a code, how many of them encode it, and whether what lies behind is as it was.
fn numbers(rt: &impl Print, area: &[u32]) -> io::Result<()> {
    if 512 <= area.len() {
        let coded = others(&area[0..256], 0x110000);
        let encoding = others(&area[256..512], 0);
        print!(rt; " {coded} codes, {encoding} encode")?;
        if all_are(&area[512..area.len()], 0xEEEE) {
            print!(rt; ", rest unchanged")?;
        }
    }
    println!(rt;)
}

// A refusal and its line, and whether the area is as it was.
fn stopped(rt: &impl Print, r: Refusal, line: usize, area: &[u32]) -> io::Result<()> {
    refusal(rt, r)?;
    print!(rt; " line {line}")?;
    if all_are(area, 0xEEEE) {
        print!(rt; ", area unchanged")?;
    }
    println!(rt;)
}

// A source read into an area.
pub fn mapped_in(rt: &impl Print, name: &[u8], src: &[u8], area: &mut [u32]) -> io::Result<()> {
    rt.write_all(name)?;
    match charmap_read::read(src, area) {
        Ok(()) => numbers(rt, area),
        Err((r, line)) => stopped(rt, r, line, area),
    }
}

// A source read into an area of two numbers more than it takes.
pub fn mapped(rt: &impl Print, name: &[u8], src: &[u8]) -> io::Result<()> {
    let mut area = [0xEEEEu32; 514];
    mapped_in(rt, name, src, &mut area)
}
