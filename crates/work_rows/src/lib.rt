// The work area as rows of eight numbers: the last five of a row, which tell what is known of the thing declared there, or keep the numbers of a key.
#![tactic(auto)]

ghost use Rattle.std.specs.Prelude.{◌≡◌, ◌+◌, ◌*◌, ◌/◌, ◌≤◌, ◌<◌, length, set};
ghost use Rattle.work_rows.specs.Cells.{cell_at, cell};

// Number k of the row of a mark.
pub fn told(work: &[u32], v: usize, k: usize) -> u32
    requires { (k < 5) × (8 * (v / 16) + 8 ≤ length work.now) }
    ensures { result ≡ cell work.now v k }
{
    work[8 * (v / 16) + 3 + k]
}

// Number k of the row of a mark becomes x.
pub fn tell(work: &mut [u32], v: usize, k: usize, x: u32)
    requires { (k < 5) × (8 * (v / 16) + 8 ≤ length work.old) }
    ensures { work.new ≡ set work.old (cell_at v k) x }
{
    work[8 * (v / 16) + 3 + k] = x;
}
