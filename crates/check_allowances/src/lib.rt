// How large a residual may be: the slack of its tolerance (02, Paper 5: "a slack S·d_m") and the sum of |A_kj| along its row (Paper 9: "the sum of |a| along
// that row").
#![tactic(auto)]

ghost use Rattle.std.specs.Prelude.{◌≡◌, ◌+◌, ◌*◌, ◌≤◌, ◌<◌, ◌^◌, ℕ, min, sum_by, nat_abs, pos, length, get_or};
ghost use Rattle.linear.specs.Slice.{at};
ghost use Rattle.linear.specs.Place.{Carried};
ghost use Rattle.linear.specs.Reach.{MatrixList, ColumnList};
ghost use Rattle.check_arrays.specs.Arrays.{PrefixIs};
ghost use Rattle.check_allowances.specs.Sum.{row_sum_of};
ghost use Rattle.check_allowances.specs.Allowed.{slack_at, allowed_beside};

use integer::{magnitude, power};

// The sum of the absolute values of a row.
fn sum_of_magnitudes(row: &[i64]) -> u64
    requires { sum_by nat_abs row.now < 2 ^ 64 }
    ensures { result ≡ sum_by nat_abs row.now }
{
    row.iter().map(|a| a.unsigned_abs()).sum()
}

// The sum of the absolute values along row k, which starts at place row.
pub fn row_sum(matrix: &[i64], k: usize, row: usize, n: usize) -> u64
    requires n_bound { (n ≤ 32) × (k < n) }
    requires carried { Carried 0 n k row }
    requires column_list { ColumnList matrix.now (n * n) (2 ^ 46) }
    ensures { result ≡ row_sum_of n matrix.now k }
{
    sum_of_magnitudes(&matrix[row..row + n])
}

// The sums along all rows.
pub fn row_sums_of(out: &mut [u64; 32], matrix: &[i64], n: usize)
    requires n_bound { (n ≤ 32) × (length out.old ≡ 32) }
    requires matrix_list { MatrixList matrix.now n }
    ensures { (length out.new ≡ 32) × PrefixIs 0 out.new n (row_sum_of n matrix.now) }
{
    let mut row = 0;
    for (k, slot) in out[..n].iter_mut().enumerate() {
        *slot = row_sum(matrix, k, row, n);
        row += n;
    }
}

// How large a residual and its slack may be together (02: "6 is now given where size of residual plus slack is above 2^25").
pub const ALLOWED_RESIDUAL: u64 = 33554432;

// 2^s·d
fn slack_at(s: u32, d: i64) -> u64
    requires { (s ≤ 20) × (nat_abs d ≤ 2 ^ 20) }
    ensures { result ≡ slack_at s d }
{
    power(s) * magnitude(d)
}

// 2^s·d for the tolerances d.
pub fn slacks_of(out: &mut [u64; 32], s: u32, tolerance: &[i64], n: usize)
    requires s_bound { (s ≤ 20) × ((n ≤ 32) × (length out.old ≡ 32)) }
    requires column_list { ColumnList tolerance.now n (2 ^ 20) }
    ensures { (length out.new ≡ 32) × PrefixIs 0 out.new n (λ (k : ℕ). slack_at s (at tolerance.now k)) }
{
    // A zip with `tolerance`, tried: what iter_mut().zip() writes is not known after it, and the proof did not close.
    for (k, slot) in out[..n].iter_mut().enumerate() {
        *slot = slack_at(s, tolerance[k]);
    }
}

// How large a residual may be, with this slack and this sum along its row; below 0 where the slack alone is too large. Not an Option: `allowed_beside`, which the
// clause of `allowed_of` names, is one signed number.
fn allowed_at(slack: u64, sum: u64) -> i64
    ensures { result ≡ allowed_beside slack sum }
{
    if ALLOWED_RESIDUAL < slack {
        return -1;
    }
    sum.min(ALLOWED_RESIDUAL - slack) as i64
}

// How large each residual may be, row by row.
pub fn allowed_of(out: &mut [i64; 32], slacks: &[u64; 32], sums: &[u64; 32], n: usize)
    requires { (n ≤ 32) × (length out.old ≡ 32) }
    ensures { (length out.new ≡ 32)
        × PrefixIs (pos 0) out.new n (λ (k : ℕ). allowed_beside (get_or slacks.now k 0) (get_or sums.now k 0)) }
{
    for (k, slot) in out[..n].iter_mut().enumerate() {
        *slot = allowed_at(slacks[k], sums[k]);
    }
}
