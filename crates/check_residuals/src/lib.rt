// The residuals of the guess, and the first of these, or of the residuals of all columns of the inverse, that is above what is allowed.
#![tactic(auto)]

ghost use Rattle.std.specs.Prelude.{◌≡◌, true, false, ℕ, ◌+◌, ◌*◌, ◌%◌, ◌≤◌, ◌<◌, ◌^◌, pos, nat_abs, ◌-ℤ◌, ◌*ℤ◌, length};
ghost use Rattle.integer.specs.Finite.{first};
ghost use Rattle.linear.specs.Matrix.{apply};
ghost use Rattle.linear.specs.Slice.{at, vector_of, matrix_of};
ghost use Rattle.linear.specs.Place.{Carried};
ghost use Rattle.linear.specs.Reach.{Within, ColumnList, MatrixList};
ghost use Rattle.enclosure.specs.Reckoning.{allowed_residual};
ghost use Rattle.check_arrays.specs.Arrays.{PrefixIs};
ghost use Rattle.check_arrays.specs.Parts.{residual_from, above_allowed};
ghost use Rattle.check_residuals.specs.Place.{FirstFound};

use integer::{magnitude, power};
use linear::dot;

// 2^s·b
fn scaled(s: u32, b: i64) -> i64
    requires { (s ≤ 20) × (nat_abs b ≤ 2 ^ 30) }
    ensures { result ≡ pos (2 ^ s) *ℤ b }
{
    (power(s) as i64) * b
}

// 2^s·b for the right side b.
pub fn scaled_right(out: &mut [i64; 32], s: u32, right: &[i64], n: usize)
    requires s_bound { (s ≤ 20) × ((n ≤ 32) × (length out.old ≡ 32)) }
    requires column_list { ColumnList right.now n (2 ^ 30) }
    ensures { (length out.new ≡ 32) × PrefixIs (pos 0) out.new n (λ (k : ℕ). pos (2 ^ s) *ℤ at right.now k) }
{
    for (k, &b) in right[..n].iter().enumerate() {
        out[k] = scaled(s, b);
    }
}

// base less row k of a, which starts at index p, times x.
fn difference(base: i64, a: &[i64], k: usize, p: usize, x: &[i64], n: usize) -> i64
    requires n_bound { (n ≤ 32) × ((k < n) × (nat_abs base ≤ 2 ^ 62)) }
    requires carried { Carried 0 n k p }
    requires matrix_list { MatrixList a.now n }
    requires column_list { ColumnList x.now n (2 ^ 36) }
    ensures { result ≡ base -ℤ apply n (matrix_of a.now n) (vector_of x.now) k }
{
    base - dot(a, p, 1, x, 0, 1, n)
}

// The residuals of a guess: a base less A·X. Arrays are filled by index, here and in `scaled_right`: after a loop over `iter_mut().zip(..)` the proof knows
// no number that was written (tried in check_ratios).
pub fn residuals_of(out: &mut [i64; 32], base: &[i64; 32], matrix: &[i64], guess: &[i64], n: usize)
    requires n_bound { (n ≤ 32) × (length out.old ≡ 32) }
    requires column_list { ColumnList base.now n (2 ^ 62) }
    requires matrix_list { MatrixList matrix.now n }
    requires column_list_2 { ColumnList guess.now n (2 ^ 36) }
    ensures { (length out.new ≡ 32)
        × PrefixIs (pos 0) out.new n (residual_from n base.now matrix.now guess.now) }
{
    let mut row = 0;
    for (k, &b) in base[..n].iter().enumerate() {
        out[k] = difference(b, matrix, k, row, guess, n);
        row += n;
    }
}

// Whether a residual is above what is allowed, in absolute value; compared on both sides, so that no residual is too large for it.
fn is_above(allowed: i64, z: i64) -> bool
    requires { nat_abs allowed ≤ allowed_residual }
    ensures { result ≡ above_allowed allowed z }
{
    if z < -allowed {
        return true;
    }
    allowed < z
}

// The first of a column's residuals that is above what its row allows.
fn position_above(column: &[i64], allowed: &[i64; 32]) -> Option<usize>
    requires { ColumnList allowed.now (length column.now) allowed_residual }
    ensures { FirstFound result (length column.now) (λ (k : ℕ). above_allowed (at allowed.now k) (at column.now k)) }
{
    for (k, &z) in column.iter().enumerate() {
        if is_above(allowed[k], z) {
            return Some(k);
        }
    }
    None
}

// The first of n residuals from an index on that is above what its row allows; n where there is none: the number that `judge` of check_ranges takes, as
// it takes n·n from `first_above_in_columns`.
pub fn first_above(residuals: &[i64], start: usize, allowed: &[i64; 32], n: usize) -> usize
    requires n_bound { (n ≤ 32) × ((start + n ≤ length residuals.now) × (start ≤ 1024)) }
    requires column_list { ColumnList allowed.now n allowed_residual }
    ensures { result ≡ first n (λ (k : ℕ). above_allowed (at allowed.now k) (at residuals.now (start + k))) }
{
    position_above(&residuals[start..start + n], allowed).unwrap_or(n)
}

// One step of a quick test: the bits of all, and of a number that is 2^62 or more where a residual is above what is allowed, in one number.
fn add_far(all: u64, allowed: i64, z: i64) -> u64
    requires { (nat_abs allowed ≤ allowed_residual) × (nat_abs z ≤ 2 ^ 46) }
    ensures { (all ≤ result) × (result < 2 ^ 62 → above_allowed allowed z ≡ false) }
{
    all | ((4611686018427387903 + magnitude(z)) as i64 - allowed) as u64
}

// The quick test: true only where none of a column's residuals is above what its row allows. One comparison is made, of the bits of all.
fn is_near(column: &[i64], allowed: &[i64; 32]) -> bool
    requires within { Within column.now (length column.now) (2 ^ 46) }
    requires column_list { ColumnList allowed.now (length column.now) allowed_residual }
    ensures { result ≡ true → (k : ℕ) → k < length column.now → above_allowed (at allowed.now k) (at column.now k) ≡ false }
{
    let mut all: u64 = 0;
    for (&z, &a) in column.iter().zip(allowed) {
        all = add_far(all, a, z);
    }
    all < 4611686018427387904
}

// The first of a column's residuals that is above what its row allows, searched for only where the quick test fails.
fn first_in_column(column: &[i64], allowed: &[i64; 32]) -> Option<usize>
    requires within { Within column.now (length column.now) (2 ^ 46) }
    requires column_list { ColumnList allowed.now (length column.now) allowed_residual }
    ensures { FirstFound result (length column.now) (λ (k : ℕ). above_allowed (at allowed.now k) (at column.now k)) }
{
    if is_near(column, allowed) {
        return None;
    }
    position_above(column, allowed)
}

// The first residual, column after column, that is above what its row allows; n·n where there is none.
pub fn first_above_in_columns(columns: &[i64], allowed: &[i64; 32], n: usize) -> usize
    requires n_bound { n ≤ 32 }
    requires column_list { ColumnList columns.now (n * n) (2 ^ 46) }
    requires column_list_2 { ColumnList allowed.now n allowed_residual }
    ensures { result ≡ first (n * n) (λ (i : ℕ). above_allowed (at allowed.now (i % n)) (at columns.now i)) }
{
    let mut start = 0;
    for _ in 0..n {
        let column = &columns[start..start + n];
        if let Some(k) = first_in_column(column, allowed) {
            return start + k;
        }
        start += n;
    }
    start
}
