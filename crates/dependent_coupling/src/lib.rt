// What a dependent net takes over from the main net: C·X1, |C|·E1, and the main net's limits once both are accepted (document 02, Paper 8). C stands row after
// row, with as many numbers in a row as the main net has marks.
#![tactic(auto)]

ghost use Rattle.std.specs.Prelude.{◌≡◌, ℕ, ◌+◌, ◌*◌, ◌≤◌, ◌<◌, ◌^◌, min, ℤ, pos, nat_abs, ◌-ℤ◌, get_or, length, sum_by, All};
ghost use Rattle.std.specs.List.{zip};
ghost use Rattle.linear.specs.Matrix.{apply};
ghost use Rattle.linear.specs.Slice.{at, vector_of, matrix_of};
ghost use Rattle.linear.specs.Place.{Carried};
ghost use Rattle.linear.specs.Reach.{ColumnList, Reach};
ghost use Rattle.linear.specs.Written.{written};
ghost use Rattle.check_arrays.specs.Arrays.{PrefixIs};
ghost use Rattle.check_arrays.specs.Parts.{residual_from};
ghost use Rattle.dependent_coupling.specs.Carried.{limit_cap, capped_term, capped_sum};

use linear::dot;

// For how much a limit counts at most in a slack: one more than a residual and its slack may be together.
const LIMIT_CAP: u64 = 33554433;

// base less row k of C, which starts at index row, times the main net's guess.
fn base_at(base: i64, coupling: &[i64], k: usize, row: usize, guess: &[i64], marks: usize) -> i64
    requires marks_bound { (marks ≤ 32) × ((k < 32) × (nat_abs base ≤ 2 ^ 50)) }
    requires carried { Carried 0 marks k row }
    requires reach { Reach coupling.now (k * marks) 1 marks (2 ^ 20) }
    requires column_list { ColumnList guess.now marks (2 ^ 36) }
    ensures { result ≡ base -ℤ apply marks (matrix_of coupling.now marks) (vector_of guess.now) k }
{
    base - dot(coupling, row, 1, guess, 0, 1, marks)
}

// The base of the residuals: S·b2 less C·X1. Here and in `slacks_with` the start of a row is carried: `chunks` takes no rows of 0 numbers.
pub fn base_of(
    base: [i64; 32],
    coupling: &[i64],
    guess: &[i64],
    marks: usize,
    n: usize,
) -> [i64; 32]
    requires marks_bound { (marks ≤ 32) × (n ≤ 32) }
    requires column_list { ColumnList base n (2 ^ 50) }
    requires column_list_2 { ColumnList coupling.now (n * marks) (2 ^ 20) }
    requires column_list_3 { ColumnList guess.now marks (2 ^ 36) }
    ensures { PrefixIs (pos 0) result n (residual_from marks base coupling.now guess.now) }
{
    let mut out = [0i64; 32];
    let mut row = 0;
    for (k, &b) in base[..n].iter().enumerate() {
        out[k] = base_at(b, coupling, k, row, guess, marks);
        row += marks;
    }
    out
}

// A limit, at most 2^25 + 1.
fn capped(limit: u64) -> u64
    ensures { result ≡ min limit limit_cap }
{
    limit.min(LIMIT_CAP)
}

// The sum of |c|·E along a row of C, each limit at most LIMIT_CAP.
fn carried_along(row: &[i64], limits: &[u64]) -> u64
    requires small { All (λ (c : ℤ). nat_abs c ≤ 2 ^ 20) row.now }
    requires fits { sum_by capped_term (zip row.now limits.now) < 2 ^ 64 }
    ensures { result ≡ sum_by capped_term (zip row.now limits.now) }
{
    row.iter()
        .zip(limits)
        .map(|(c, limit)| c.unsigned_abs() * capped(*limit))
        .sum()
}

// The sum of |C_kj|·E_j along row k, which starts at index row.
fn carried_at(coupling: &[i64], k: usize, row: usize, limits: &[u64; 32], marks: usize) -> u64
    requires marks_bound { (marks ≤ 32) × (k < 32) }
    requires carried { Carried 0 marks k row }
    requires reach { Reach coupling.now (k * marks) 1 marks (2 ^ 20) }
    ensures { result ≡ capped_sum marks coupling.now limits.now k }
{
    carried_along(&coupling[row..row + marks], limits)
}

// The slacks: |C|·E1 and S·d2.
pub fn slacks_with(
    slacks: [u64; 32],
    coupling: &[i64],
    limits: [u64; 32],
    marks: usize,
    n: usize,
) -> [u64; 32]
    requires marks_bound { (marks ≤ 32) × (n ≤ 32) }
    requires by_index { (k : ℕ) → k < n → get_or slacks k 0 ≤ 2 ^ 40 }
    requires column_list { ColumnList coupling.now (n * marks) (2 ^ 20) }
    ensures { PrefixIs 0 result n (λ (k : ℕ). capped_sum marks coupling.now limits k + get_or slacks k 0) }
{
    let mut out = [0u64; 32];
    let mut row = 0;
    for (k, &slack) in slacks[..n].iter().enumerate() {
        out[k] = carried_at(coupling, k, row, &limits, marks) + slack;
        row += marks;
    }
    out
}

// Copies the first n limits.
pub fn copy_limits(dst: &mut [u64], src: &[u64], n: usize)
    requires { (n ≤ length src.now) × (n ≤ length dst.old) }
    ensures { dst.new ≡ written dst.old 0 1 (λ (i : ℕ). get_or src.now i 0) n }
{
    dst[..n].copy_from_slice(&src[..n]);
}
