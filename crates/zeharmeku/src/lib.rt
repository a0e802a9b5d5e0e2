// The C interface: every public operation, over slices and numbers. include/zeharmeku.h says what each means to a caller in C, for whom
// zeharmeku_c exports each under its name. No function has a `requires`: what the paper says of an operation holds of every call, and an
// answer array that is too short gets what it has room for.
#![tactic(auto)]

ghost use Rattle.std.specs.Prelude.{◌≡◌};
ghost use Rattle.rules.specs.Calls.{compile_call, check_call, step_call, compare_call, key_call, charmap_call, area_call, decode_call, encode_call, directory_call};
ghost use Rattle.base_units.specs.Numbers.{number_of, sign_of};
ghost use Rattle.zeharmeku.specs.Told.{told, sign_number, checked_numbers, stepped_numbers, compared_numbers, WrittenIs, MappedIs, CompiledIs, DirectedIs};

use base_units::{Refusal, number_of};
use std::cmp::Ordering;

// The numbers of an answer, as many of them as the array has room for.
fn tell(answer: &mut [u64], numbers: &[u64])
    ensures { answer.new ≡ told numbers.now answer.old }
{
    let most = answer.len().min(numbers.len());
    answer[..most].copy_from_slice(&numbers[..most]);
}

// A sign as a number: -1, 0 or 1, in two's complement.
fn sign_number(s: Ordering) -> u64
    ensures { result ≡ sign_number (sign_of s) }
{
    match s {
        Ordering::Less => 0xFFFF_FFFF_FFFF_FFFF,
        Ordering::Equal => 0,
        Ordering::Greater => 1,
    }
}

// A locale source to its table in front of the area: refusal, line, size. The work area is all zero afterwards.
pub fn zeharmeku_compile(source: &[u8], area: &mut [u32], work: &mut [u32], answer: &mut [u64])
    ensures { CompiledIs (compile_call source.now area.old work.old) answer.old answer.new area.new work.new }
{
    match locale_compile::compile(source, area, work) {
        Ok(size) => tell(answer, &[0, 0, size as u64]),
        Err((r, line)) => tell(answer, &[number_of(r) as u64, line as u64, 0]),
    }
}

// Whether an area begins with an accepted table: refusal, levels, items, size.
pub fn zeharmeku_check(table: &[u32], answer: &mut [u64])
    ensures { answer.new ≡ told (checked_numbers (check_call table.now)) answer.old }
{
    match table_check::check(table) {
        Ok(s) => tell(answer, &[0, s.levels as u64, s.items as u64, s.size as u64]),
        Err(r) => tell(answer, &[number_of(r) as u64, 0, 0, 0]),
    }
}

// The element that begins at a place of a string: refusal, its item's place, its length.
pub fn zeharmeku_step(table: &[u32], string: &[u32], at: usize, answer: &mut [u64])
    ensures { answer.new ≡ told (stepped_numbers (step_call table.now string.now at)) answer.old }
{
    match order_compare::step(table, string, at) {
        Ok((place, size)) => tell(answer, &[0, place as u64, size as u64]),
        Err(r) => tell(answer, &[number_of(r) as u64, 0, 0]),
    }
}

// How two strings compare: refusal, sign, deciding level, agreed entries.
pub fn zeharmeku_compare(table: &[u32], a: &[u32], b: &[u32], answer: &mut [u64])
    ensures { answer.new ≡ told (compared_numbers (compare_call table.now a.now b.now)) answer.old }
{
    match order_compare::compare(table, a, b) {
        Ok(d) => tell(
            answer,
            &[0, sign_number(d.sign), d.level as u64, d.agreed as u64],
        ),
        Err(r) => tell(answer, &[number_of(r) as u64, 0, 0, 0]),
    }
}

// The key of a string, in front of the room: refusal, size.
pub fn zeharmeku_key(table: &[u32], string: &[u32], room: &mut [u8], answer: &mut [u64])
    ensures { WrittenIs (key_call table.now string.now room.old) answer.old answer.new room.new }
{
    match order_keys::key(table, string, room) {
        Ok(size) => tell(answer, &[0, size as u64]),
        Err(r) => tell(answer, &[number_of(r) as u64, 0]),
    }
}

// A charmap's source to 512 numbers in front of the area: refusal, line.
pub fn zeharmeku_charmap(source: &[u8], area: &mut [u32], answer: &mut [u64])
    ensures { MappedIs (charmap_call source.now area.old) answer.old answer.new area.new }
{
    match charmap_read::read(source, area) {
        Ok(()) => tell(answer, &[0, 0]),
        Err((r, line)) => tell(answer, &[number_of(r) as u64, line as u64]),
    }
}

// Whether an area begins with an accepted charmap: the refusal, 0 for none.
pub fn zeharmeku_area(area: &[u32]) -> u32
    ensures { result ≡ area_call area.now }
{
    match charmap_coding::check_area(area) {
        Ok(()) => 0,
        Err(r) => number_of(r),
    }
}

// The characters of bytes, in front of the room: refusal, size.
pub fn zeharmeku_decode(area: &[u32], bytes: &[u8], room: &mut [u32], answer: &mut [u64])
    ensures { WrittenIs (decode_call area.now bytes.now room.old) answer.old answer.new room.new }
{
    match charmap_coding::decode(area, bytes, room) {
        Ok(size) => tell(answer, &[0, size as u64]),
        Err(r) => tell(answer, &[number_of(r) as u64, 0]),
    }
}

// The bytes of a string, in front of the room: refusal, size.
pub fn zeharmeku_encode(area: &[u32], string: &[u32], room: &mut [u8], answer: &mut [u64])
    ensures { WrittenIs (encode_call area.now string.now room.old) answer.old answer.new room.new }
{
    match charmap_coding::encode(area, string, room) {
        Ok(size) => tell(answer, &[0, size as u64]),
        Err(r) => tell(answer, &[number_of(r) as u64, 0]),
    }
}

// The heading of each topic of a page, in front of the list: the refusal, 0 for none.
pub fn zeharmeku_directory(
    table: &[u32],
    run: &[u32],
    headings: &[u64],
    topics: &[u64],
    list: &mut [u32],
) -> u32
    ensures { DirectedIs (directory_call table.now run.now headings.now topics.now list.old) result list.new }
{
    match order_directory::directory(table, run, headings, topics, list) {
        Ok(()) => 0,
        Err(r) => number_of(r),
    }
}
