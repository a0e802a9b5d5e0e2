// What the entries of a charmap give, kept as the 512 numbers of its area.
#![tactic(auto)]

ghost use Rattle.std.specs.Prelude.{◌≡◌, ◌+◌, ◌≤◌, ◌<◌, length};
ghost use Rattle.rules.specs.Calls.{over};
ghost use Rattle.charmap_numbers.specs.Giving.{has_code, one_for, with, with_range, any_taken};

use base_units::CodePoint;

// Whether a byte has the code already.
fn has_code(area: &[u32], code: CodePoint) -> bool
    requires { length area.now ≡ 512 }
    ensures { result ≡ has_code area.now code.0 }
{
    area[..256].contains(&code.0)
}

// 1 where no byte has the code yet, else 0.
fn one_for(area: &[u32], code: CodePoint) -> u32
    requires { length area.now ≡ 512 }
    ensures { result ≡ one_for area.now code.0 }
{
    if has_code(area, code) { 0 } else { 1 }
}

// One byte more has a code: the first of a code encodes it.
fn give(area: &mut [u32], byte: usize, code: CodePoint)
    requires { (length area.old ≡ 512) × (byte < 256) }
    ensures { area.new ≡ with area.old byte code.0 }
{
    let one = one_for(area, code);
    area[byte] = code.0;
    area[256 + byte] = one;
}

// n bytes more, and their codes, in a row.
pub fn give_range(area: &mut [u32], byte: usize, code: CodePoint, n: usize)
    requires { (length area.old ≡ 512) × (byte + n ≤ 256) × (code.0 + n ≤ 0x110000) }
    ensures { area.new ≡ with_range n area.old byte code.0 }
{
    let first = code.0;
    for i in 0..n {
        give(area, byte + i, CodePoint(first + i as u32));
    }
}

// Whether one of n bytes has a code already.
pub fn any_given(area: &[u32], byte: usize, n: usize) -> bool
    requires { (length area.now ≡ 512) × (byte + n ≤ 256) }
    ensures { result ≡ any_taken area.now byte n }
{
    area[byte..byte + n].iter().any(|c| *c != 0x110000)
}

// The 512 numbers written to the front of an area.
pub fn copy_area(from: &[u32], area: &mut [u32])
    requires { (length from.now ≡ 512) × (512 ≤ length area.old) }
    ensures { area.new ≡ over from.now area.old }
{
    area[..512].copy_from_slice(from);
}
