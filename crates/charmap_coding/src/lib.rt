// A charmap area given back: its check, decoding and encoding. Each public operation checks the area itself and has no `requires`.
#![tactic(auto)]

ghost use Rattle.std.specs.Prelude.{◌≡◌, true, map, ◌≤◌, length, take, drop, replicate, None};
ghost use Rattle.rules.specs.Text.{every, within};
ghost use Rattle.rules.specs.Names.{is_character};
ghost use Rattle.rules.specs.Order.{good_string};
ghost use Rattle.rules.specs.Coding.{is_code, good_ones, ones_of, one_each, area_accepted, code_at, byte_from, byte_at};
ghost use Rattle.rules.specs.Calls.{over, area_call, decode_call, encode_call};
ghost use Rattle.charmap_coding.specs.Answers.{number_is, written_is};
ghost use Rattle.charmap_coding.specs.Tables.{is_one, Counted, Indexed, byte_found};

use base_units::{CodePoint, Refusal, good_string, is_character};

// Whether a number is a code: a character, or none.
fn is_code(c: u32) -> bool
    ensures { result ≡ is_code c }
{
    c == 0x110000 || is_character(CodePoint(c))
}

// Whether each number is a code.
fn codes_pass(codes: &[u32]) -> bool
    ensures { result ≡ every is_code codes.now }
{
    codes.iter().all(|c| is_code(*c))
}

// Whether a number after the codes is 0, or 1 where its code is one.
fn is_one(c: u32, o: u32) -> bool
    ensures { result ≡ is_one c o }
{
    o == 0 || o == 1 && c != 0x110000
}

// Whether each number after the codes is 0, or 1 where there is a code.
fn ones_pass(codes: &[u32], ones: &[u32]) -> bool
    requires { length codes.now ≡ length ones.now }
    ensures { result ≡ good_ones codes.now ones.now }
{
    codes.iter().zip(ones).all(|(c, o)| is_one(*c, *o))
}

// How often a code has a 1.
fn ones_of(codes: &[u32], ones: &[u32], c: u32) -> u32
    requires codes_len { (length codes.now ≡ length ones.now) × (length codes.now ≤ 256) }
    requires ones_value { good_ones codes.now ones.now ≡ true }
    ensures { result ≡ ones_of c codes.now ones.now }
{
    let mut sum: u32 = 0;
    for (i, d) in codes.iter().enumerate() {
        if c == *d {
            sum += ones[i];
        }
    }
    sum
}

// How often each code below the table's length has a 1, into a table of zeros.
fn count_ones(codes: &[u32], ones: &[u32], counts: &mut [u16])
    requires codes_len { (length codes.now ≡ length ones.now) × (length codes.now ≤ 256) }
    requires ones_value { good_ones codes.now ones.now ≡ true }
    requires counts_value { counts.old ≡ replicate (length counts.old) 0 }
    ensures { Counted codes.now ones.now counts.new }
{
    for i in (0..codes.len()).rev() {
        let d = codes[i] as usize;
        if d < counts.len() {
            counts[d] += ones[i] as u16;
        }
    }
}

// How often a code has a 1: by the table, or where the code lies past it, by a scan.
fn ones_by(codes: &[u32], ones: &[u32], counts: &[u16], c: u32) -> u32
    requires codes_len { (length codes.now ≡ length ones.now) × (length codes.now ≤ 256) }
    requires ones_value { good_ones codes.now ones.now ≡ true }
    requires counted { Counted codes.now ones.now counts.now }
    ensures { result ≡ ones_of c codes.now ones.now }
{
    match counts.get(c as usize) {
        Some(n) => u32::from(*n),
        None => ones_of(codes, ones, c),
    }
}

// Whether each code has one 1, by a table of counts.
fn one_each_by(codes: &[u32], ones: &[u32], counts: &[u16]) -> bool
    requires codes_len { (length codes.now ≡ length ones.now) × (length codes.now ≤ 256) }
    requires ones_value { good_ones codes.now ones.now ≡ true }
    requires counted { Counted codes.now ones.now counts.now }
    ensures { result ≡ one_each codes.now codes.now ones.now }
{
    codes.iter().all(|c| *c == 0x110000 || ones_by(codes, ones, counts, *c) == 1)
}

// Whether each code has one 1. The table has room for the codes of the common 8-bit charmaps, box drawing too; others are scanned for.
fn one_each(codes: &[u32], ones: &[u32]) -> bool
    requires codes_len { (length codes.now ≡ length ones.now) × (length codes.now ≤ 256) }
    requires ones_value { good_ones codes.now ones.now ≡ true }
    ensures { result ≡ one_each codes.now codes.now ones.now }
{
    let mut counts = [0u16; 0x2600];
    count_ones(codes, ones, &mut counts);
    one_each_by(codes, ones, &counts)
}

// Whether the area begins with an accepted charmap.
fn accepts(area: &[u32]) -> bool
    ensures { result ≡ area_accepted area.now }
{
    if area.len() < 512 {
        return false;
    }
    let codes = &area[..256];
    let ones = &area[256..512];
    codes_pass(codes) && ones_pass(codes, ones) && one_each(codes, ones)
}

// The check of a charmap area.
pub fn check_area(area: &[u32]) -> Result<(), Refusal>
    ensures { number_is result ≡ area_call area.now }
{
    if accepts(area) {
        Ok(())
    } else {
        Err(Refusal::NotAccepted)
    }
}

// Whether each byte has a character.
fn all_mapped(area: &[u32], bytes: &[u8]) -> bool
    requires { area_accepted area.now ≡ true }
    ensures { result ≡ every is_character (map (code_at area.now) bytes.now) }
{
    for b in bytes {
        if area[*b as usize] == 0x110000 {
            return false;
        }
    }
    true
}

// The character of each byte, written to the front of the room.
fn write_codes(area: &[u32], bytes: &[u8], room: &mut [u32])
    requires area_value { area_accepted area.now ≡ true }
    requires bytes_in_bounds { length bytes.now ≤ length room.old }
    ensures { room.new ≡ over (map (code_at area.now) bytes.now) room.old }
{
    for (i, b) in bytes.iter().enumerate() {
        room[i] = area[*b as usize];
    }
}

// The characters of the bytes, written to the front of the room, which stays as it was behind them and in a refusal. It is refused by
// 11, 12, 14 or 13, in this order.
pub fn decode(area: &[u32], bytes: &[u8], room: &mut [u32]) -> Result<usize, Refusal>
    ensures { written_is result room.new ≡ decode_call area.now bytes.now room.old }
{
    check_area(area)?;
    if 4096 < bytes.len() {
        return Err(Refusal::BadString);
    }
    let mapped = all_mapped(area, bytes);
    if !mapped {
        return Err(Refusal::NotMapped);
    }
    if room.len() < bytes.len() {
        return Err(Refusal::NoRoom);
    }
    write_codes(area, bytes, room);
    Ok(bytes.len())
}

// The byte that encodes a code.
fn find_byte(codes: &[u32], ones: &[u32], c: u32) -> Option<u8>
    requires { (length codes.now ≡ length ones.now) × (length codes.now ≤ 256) }
    ensures { result ≡ byte_found (byte_from 0 c codes.now ones.now) }
{
    for (i, d) in codes.iter().enumerate() {
        if c == *d && ones[i] == 1 {
            return Some(i as u8);
        }
    }
    None
}

// The byte that encodes each code below the table's length, into a table of none.
fn index_bytes(codes: &[u32], ones: &[u32], index: &mut [Option<u8>])
    requires codes_len { (length codes.now ≡ length ones.now) × (length codes.now ≤ 256) }
    requires index_value { index.old ≡ replicate (length index.old) None }
    ensures { Indexed codes.now ones.now index.new }
{
    for i in (0..codes.len()).rev() {
        if ones[i] == 1 {
            let d = codes[i] as usize;
            if d < index.len() {
                index[d] = Some(i as u8);
            }
        }
    }
}

// The byte that encodes a code: by the table, or where the code lies past it, by a scan.
fn byte_of(area: &[u32], index: &[Option<u8>], c: u32) -> Option<u8>
    requires in_bounds { 512 ≤ length area.now }
    requires indexed { Indexed (take 256 area.now) (take 256 (drop 256 area.now)) index.now }
    ensures { result ≡ byte_found (byte_at area.now c) }
{
    match index.get(c as usize) {
        Some(b) => *b,
        None => find_byte(&area[..256], &area[256..512], c),
    }
}

// Whether each character has a byte.
fn all_coded(area: &[u32], index: &[Option<u8>], s: &[u32]) -> bool
    requires in_bounds { 512 ≤ length area.now }
    requires indexed { Indexed (take 256 area.now) (take 256 (drop 256 area.now)) index.now }
    ensures { result ≡ every (within 0 255) (map (byte_at area.now) s.now) }
{
    s.iter().all(|c| byte_of(area, index, *c).is_some())
}

// The byte of each character, written to the front of the room.
fn write_bytes(area: &[u32], index: &[Option<u8>], s: &[u32], room: &mut [u8])
    requires in_bounds { 512 ≤ length area.now }
    requires indexed { Indexed (take 256 area.now) (take 256 (drop 256 area.now)) index.now }
    requires s_value { every (within 0 255) (map (byte_at area.now) s.now) ≡ true }
    requires s_in_bounds { length s.now ≤ length room.old }
    ensures { room.new ≡ over (map (byte_at area.now) s.now) room.old }
{
    for (i, c) in s.iter().enumerate() {
        if let Some(b) = byte_of(area, index, *c) {
            room[i] = b;
        }
    }
}

// The bytes of a good string by an accepted area and its table, written to the front of the room.
fn encode_by(
    area: &[u32],
    index: &[Option<u8>],
    s: &[u32],
    room: &mut [u8],
) -> Result<usize, Refusal>
    requires area_value { area_accepted area.now ≡ true }
    requires s_value { good_string s.now ≡ true }
    requires indexed { Indexed (take 256 area.now) (take 256 (drop 256 area.now)) index.now }
    ensures { written_is result room.new ≡ encode_call area.now s.now room.old }
{
    let coded = all_coded(area, index, s);
    if !coded {
        return Err(Refusal::NotMapped);
    }
    if room.len() < s.len() {
        return Err(Refusal::NoRoom);
    }
    write_bytes(area, index, s, room);
    Ok(s.len())
}

// The bytes of a string, written to the front of the room, with the same order of refusals.
pub fn encode(area: &[u32], s: &[u32], room: &mut [u8]) -> Result<usize, Refusal>
    ensures { written_is result room.new ≡ encode_call area.now s.now room.old }
{
    check_area(area)?;
    let good = good_string(s);
    if !good {
        return Err(Refusal::BadString);
    }
    let mut index = [None; 0x2600];
    index_bytes(&area[..256], &area[256..512], &mut index);
    encode_by(area, &index, s, room)
}
