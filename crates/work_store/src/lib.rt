// What is declared in a source, in the work area: rows of eight numbers, one row for each eight bytes of the source. The chains are trees, whose branches go
// by the bits of what is declared. Of a row, number 0 is its link to the left, number 1 the head of the chain with the row's number, number 2 its link to the
// right, times 64, with its tag: the kind of what is declared in those bytes, and the last four bits of its mark (Rattle.work_subjects); 3 to 7 are the five numbers of
// crate work_rows. A head or a link is 0, or one more than a row. The numbers of what is declared are kept in its row, or in the row before. Behind the rows nothing is touched.
#![tactic(auto)]

ghost use Rattle.std.specs.Prelude.{◌≡◌, ◌+◌, ◌-◌, ◌*◌, ◌/◌, ◌%◌, ◌^◌, ◌≤◌, ◌<◌, ◌&&◌, length, get_or, set, replicate, eqb};
ghost use Rattle.work_subjects.specs.Keys.{key_at};
ghost use Rattle.work_subjects.specs.Numbers.{kind_number, width_of};
ghost use Rattle.work_store.specs.Store.{heads_of, undefined_mark, side_of, pointed, pointing, tag_in, tag_of, keeps, RunIs, Roomy, Sound, Finds, SomeSought, FindsAny, WayEnds, Written, Kept, Declares};

use text_lines::Source;
use work_subjects::{Kind, key_numbers};

// The mark of UNDEFINED, whose row is the one behind those of a source of this length.
pub fn undefined_mark(len: usize) -> usize
    requires { len ≤ 1048576 }
    ensures { result ≡ undefined_mark len }
{
    16 * (len / 8 + 1)
}

// Nothing is declared, and nothing else is left in the area.
pub fn clear(work: &mut [u32])
    ensures { work.new ≡ replicate (length work.old) 0 }
{
    work.fill(0);
}

// The chain of a hash.
fn chain(hash: usize, len: usize) -> usize
    ensures { (result ≡ hash % heads_of len) × (8 * result ≤ len) }
{
    hash % (len / 8 + 1)
}

// What a slot leads to, as the lent area keeps it: 0 for nowhere, else one more than a row. A number and no Option, since `point` stores the same number.
fn linked(work: &[u32], slot: usize) -> usize
    requires { slot < length work.now }
    ensures { result ≡ pointed work.now slot }
{
    let x = work[slot] as usize;
    if slot % 8 == 2 { x / 64 } else { x }
}

// The tag of a row.
fn tag_in(work: &[u32], row: usize) -> u32
    requires { 8 * row + 2 < length work.now }
    ensures { (result ≡ tag_in work.now row) × (result < 64) }
{
    work[8 * row + 2] % 64
}

// The tag of a mark whose key is of a kind.
fn tag_of(kind: Kind, v: usize) -> u32
    ensures { result ≡ tag_of (kind_number kind) v }
{
    16 * kind.number() + (v % 16) as u32
}

// The mark in a row with a tag.
fn mark_of(row: usize, tag: u32) -> usize
    requires { row ≤ 1048576 }
    ensures { result ≡ 16 * row + tag % 16 }
{
    16 * row + (tag % 16) as usize
}

// The side on which the way of a key of these numbers goes on at a depth.
fn side_at(key: &[u32], depth: usize) -> usize
    requires { length key.now ≡ 8 }
    ensures { (result ≡ side_of (get_or key.now (depth / 32) 0 / 2 ^ (depth % 32) % 2)) × (result ≤ 2) }
{
    let i = depth / 32;
    if i < 8 {
        let x = key[i] >> (depth % 32);
        if x % 2 == 0 { 0 } else { 2 }
    } else {
        0
    }
}

// Whether the numbers of a key from one on up to another stand at a place of the area, number i at place at + i.
fn same_run(work: &[u32], at: usize, key: &[u32], from: usize, to: usize) -> bool
    requires { (from ≤ to) × (to ≤ 7) × (at + 7 ≤ length work.now) × (length key.now ≡ 8) }
    ensures { RunIs work.now at key.now from to result }
{
    for i in from..to {
        if work[at + i] != key[i] {
            return false;
        }
    }
    true
}

// Whether the numbers that are kept for a row of this kind are those of a key.
fn same_kept(work: &[u32], kind: Kind, row: usize, key: &[u32]) -> bool
    requires { (row ≤ 1048576) × (8 * row + 10 ≤ length work.now) × (length key.now ≡ 8) }
    ensures { result ≡ keeps work.now (kind_number kind) row key.now (width_of (kind_number kind)) }
{
    match kind {
        Kind::Name => {
            let before = 8 * row.saturating_sub(1);
            work[before] == key[0] && same_run(work, before + 1, key, 1, 7)
        }
        Kind::Character => same_run(work, 8 * row + 3, key, 0, 1),
        Kind::Chars => same_run(work, 8 * row + 3, key, 0, 4),
    }
}

// Whether what is declared in the row with this tag is the key of that kind and those numbers.
fn same_key(work: &[u32], tag: u32, kind: Kind, row: usize, key: &[u32]) -> bool
    requires { (row ≤ 1048576) × (8 * row + 10 ≤ length work.now) × (length key.now ≡ 8) }
    ensures { result ≡ (eqb (tag / 16) (kind_number kind) && keeps work.now (kind_number kind) row key.now (width_of (kind_number kind))) }
{
    tag / 16 == kind.number() && same_kept(work, kind, row, key)
}

// The mark of what was declared with the key of this kind and these numbers, on the way that begins at the head h. At most 259 rows are read, whatever the source
// declares (DepthLaws), and nothing of the source.
fn find_from(work: &[u32], kind: Kind, key: &[u32], h: usize) -> Option<usize>
    requires some_sought { SomeSought work.now key.now (kind_number kind) h }
    requires h_in_bounds { 8 * h + 1 < length work.now }
    ensures { FindsAny work.now key.now (kind_number kind) h result }
{
    let mut l = linked(work, 8 * h + 1);
    let mut depth: usize = 0;
    while 0 < l {
        let row = l - 1;
        let tag = tag_in(work, row);
        if same_key(work, tag, kind, row, key) {
            return Some(mark_of(row, tag));
        }
        l = linked(work, 8 * row + side_at(key, depth));
        depth += 1;
    }
    None
}

// The mark of what was declared with the same key as stands at a mark.
pub fn find(src: Source, work: &[u32], v: usize) -> Option<usize>
    requires v_in_bounds { v / 2 ≤ length src.bytes.now }
    requires sound { Sound (key_at src.signs src.bytes.now) (length src.bytes.now) work.now }
    ensures { Finds (key_at src.entry.signs src.entry.bytes.now) (length src.entry.bytes.now) work.now (key_at src.entry.signs src.entry.bytes.now v) result }
{
    let mut key: [u32; 8] = [0; 8];
    let k = key_numbers(src, v, &mut key);
    if k.plain {
        find_from(work, k.kind, &key, chain(k.hash, src.bytes.len()))
    } else {
        None
    }
}

// The slot where the way that begins at the head h ends, for a key of these numbers. There are as many heads as rows; in an area that holds no list the way is
// not followed out of the rows.
fn way_end(heads: usize, work: &[u32], h: usize, key: &[u32]) -> usize
    requires { (8 * heads + 8 ≤ length work.now) × (h < heads) × (heads ≤ 1048576) × (length key.now ≡ 8) }
    ensures { WayEnds heads work.now h key.now result }
{
    let mut slot = 8 * h + 1;
    let mut depth: usize = 0;
    while depth < heads {
        let l = linked(work, slot);
        if l == 0 || heads < l {
            return slot;
        }
        slot = 8 * (l - 1) + side_at(key, depth);
        depth += 1;
    }
    slot
}

// A slot leads to x from now on.
fn point(work: &mut [u32], slot: usize, x: usize)
    requires { (slot < length work.old) × (x ≤ 1048576) }
    ensures { work.new ≡ pointing work.old slot x }
{
    if slot % 8 == 2 {
        work[slot] = 64 * (x as u32) + work[slot] % 64;
    } else {
        work[slot] = x as u32;
    }
}

// A new row: its links lead nowhere, and it has its tag.
fn new_row(work: &mut [u32], row: usize, tag: u32)
    requires { 8 * row + 3 ≤ length work.old }
    ensures { work.new ≡ set (set work.old (8 * row) 0) (8 * row + 2) tag }
{
    work[8 * row] = 0;
    work[8 * row + 2] = tag;
}

// The numbers of a key from one on up to another are written, number i at place at + i.
fn put_run(work: &mut [u32], at: usize, key: &[u32], from: usize, to: usize)
    requires { (from ≤ to) × (to ≤ 7) × (at + 7 ≤ length work.old) × (length key.now ≡ 8) }
    ensures { Written work.old at key.now from to work.new }
{
    for i in from..to {
        work[at + i] = key[i];
    }
}

// The numbers of a key of a kind are kept for a row.
fn keep_key(work: &mut [u32], kind: Kind, row: usize, key: &[u32])
    requires { (row ≤ 1048576) × (8 * row + 10 ≤ length work.old) × (length key.now ≡ 8) }
    ensures { Kept work.old (kind_number kind) row key.now work.new }
{
    match kind {
        Kind::Name => {
            let before = 8 * row.saturating_sub(1);
            put_run(work, before + 1, key, 1, 7);
            work[before] = key[0];
        }
        Kind::Character => put_run(work, 8 * row + 3, key, 0, 1),
        Kind::Chars => put_run(work, 8 * row + 3, key, 0, 4),
    }
}

// Declares what stands at a mark, in a later row than all that is declared so far; the row before that of a name is later too.
pub fn declare(src: Source, work: &mut [u32], v: usize)
    requires v_in_bounds { v / 2 ≤ length src.bytes.now }
    requires roomy { Roomy (length src.bytes.now) work.old }
    ensures { Declares (key_at src.entry.signs src.entry.bytes.now) (length src.entry.bytes.now) work.old v work.new }
{
    let mut key: [u32; 8] = [0; 8];
    let k = key_numbers(src, v, &mut key);
    let h = chain(k.hash, src.bytes.len());
    let slot = way_end(src.bytes.len() / 8 + 1, work, h, &key);
    let row = v / 16;
    keep_key(work, k.kind, row, &key);
    new_row(work, row, tag_of(k.kind, v));
    point(work, slot, row + 1);
}
