// The exports of the archive that C callers link: each function of zeharmeku under its own name, with its clauses.
#![tactic(auto)]

ghost use Rattle.std.specs.Prelude.{◌≡◌};
ghost use Rattle.rules.specs.Calls.{compile_call, check_call, step_call, compare_call, key_call, charmap_call, area_call, decode_call, encode_call, directory_call};
ghost use Rattle.zeharmeku.specs.Told.{told, checked_numbers, stepped_numbers, compared_numbers, WrittenIs, MappedIs, CompiledIs, DirectedIs};

// A locale source to its table in front of the area: refusal, line, size. The work area is all zero afterwards.
#[unsafe(no_mangle)]
pub extern "C" fn zeharmeku_compile(
    source: &[u8],
    area: &mut [u32],
    work: &mut [u32],
    answer: &mut [u64],
)
    ensures { CompiledIs (compile_call source.now area.old work.old) answer.old answer.new area.new work.new }
{
    zeharmeku::zeharmeku_compile(source, area, work, answer);
}

// Whether an area begins with an accepted table: refusal, levels, items, size.
#[unsafe(no_mangle)]
pub extern "C" fn zeharmeku_check(table: &[u32], answer: &mut [u64])
    ensures { answer.new ≡ told (checked_numbers (check_call table.now)) answer.old }
{
    zeharmeku::zeharmeku_check(table, answer);
}

// The element that begins at a place of a string: refusal, its item's place, its length.
#[unsafe(no_mangle)]
pub extern "C" fn zeharmeku_step(table: &[u32], string: &[u32], at: usize, answer: &mut [u64])
    ensures { answer.new ≡ told (stepped_numbers (step_call table.now string.now at)) answer.old }
{
    zeharmeku::zeharmeku_step(table, string, at, answer);
}

// How two strings compare: refusal, sign, deciding level, agreed entries.
#[unsafe(no_mangle)]
pub extern "C" fn zeharmeku_compare(table: &[u32], a: &[u32], b: &[u32], answer: &mut [u64])
    ensures { answer.new ≡ told (compared_numbers (compare_call table.now a.now b.now)) answer.old }
{
    zeharmeku::zeharmeku_compare(table, a, b, answer);
}

// The key of a string, in front of the room: refusal, size.
#[unsafe(no_mangle)]
pub extern "C" fn zeharmeku_key(table: &[u32], string: &[u32], room: &mut [u8], answer: &mut [u64])
    ensures { WrittenIs (key_call table.now string.now room.old) answer.old answer.new room.new }
{
    zeharmeku::zeharmeku_key(table, string, room, answer);
}

// A charmap's source to 512 numbers in front of the area: refusal, line.
#[unsafe(no_mangle)]
pub extern "C" fn zeharmeku_charmap(source: &[u8], area: &mut [u32], answer: &mut [u64])
    ensures { MappedIs (charmap_call source.now area.old) answer.old answer.new area.new }
{
    zeharmeku::zeharmeku_charmap(source, area, answer);
}

// Whether an area begins with an accepted charmap: the refusal, 0 for none.
#[unsafe(no_mangle)]
pub extern "C" fn zeharmeku_area(area: &[u32]) -> u32
    ensures { result ≡ area_call area.now }
{
    zeharmeku::zeharmeku_area(area)
}

// The characters of bytes, in front of the room: refusal, size.
#[unsafe(no_mangle)]
pub extern "C" fn zeharmeku_decode(area: &[u32], bytes: &[u8], room: &mut [u32], answer: &mut [u64])
    ensures { WrittenIs (decode_call area.now bytes.now room.old) answer.old answer.new room.new }
{
    zeharmeku::zeharmeku_decode(area, bytes, room, answer);
}

// The bytes of a string, in front of the room: refusal, size.
#[unsafe(no_mangle)]
pub extern "C" fn zeharmeku_encode(
    area: &[u32],
    string: &[u32],
    room: &mut [u8],
    answer: &mut [u64],
)
    ensures { WrittenIs (encode_call area.now string.now room.old) answer.old answer.new room.new }
{
    zeharmeku::zeharmeku_encode(area, string, room, answer);
}

// The heading of each topic of a page, in front of the list: the refusal, 0 for none.
#[unsafe(no_mangle)]
pub extern "C" fn zeharmeku_directory(
    table: &[u32],
    run: &[u32],
    headings: &[u64],
    topics: &[u64],
    list: &mut [u32],
) -> u32
    ensures { DirectedIs (directory_call table.now run.now headings.now topics.now list.old) result list.new }
{
    zeharmeku::zeharmeku_directory(table, run, headings, topics, list)
}
