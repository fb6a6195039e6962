// The margins of all rows (01: g_m = T·w_m − the sum over j of |D_mj|·w_j), and the first that is 0 or less.
#![tactic(auto)]

ghost use Rattle.std.specs.Prelude.{◌≡◌, true, [], ℕ, ◌+◌, ◌*◌, ◌-◌, ◌/◌, ◌%◌, ◌≤◌, ◌<◌, ◌^◌, eqb, pos, nat_abs, get_or, length};
ghost use Rattle.integer.specs.Finite.{first};
ghost use Rattle.linear.specs.Slice.{at};
ghost use Rattle.linear.specs.Place.{Carried};
ghost use Rattle.linear.specs.Reach.{ColumnList, MatrixList};
ghost use Rattle.check_arrays.specs.Arrays.{PrefixIs};
ghost use Rattle.enclosure.specs.Problem.{problem_of};
ghost use Rattle.check_arrays.specs.Parts.{column_residual, cut_margin};
ghost use Rattle.check_symmetry.specs.Symmetric.{Symmetric};
ghost use Rattle.check_margins.specs.Load.{load_from};

use check_allowances::row_sum;
use check_defects::defects_of;
use integer::{magnitude, power};

// One term of a load: sum + |d|·|w|.
fn weigh(sum: u64, d: i64, w: i64) -> u64
    requires { (sum ≤ 2 ^ 62) × ((nat_abs d ≤ 2 ^ 46) × (nat_abs w ≤ 1024)) }
    ensures { result ≡ sum + nat_abs d * nat_abs w }
{
    sum + magnitude(d) * magnitude(w)
}

// The sum over j of |D_mj|·w_j; D stands row after row, row m from place row on.
fn weighted_load(defects: &[i64], weights: &[i64], n: usize, m: usize, row: usize) -> u64
    requires n_bound { (n ≤ 32) × ((m < n) × Carried 0 n m row) }
    requires column_list { ColumnList defects.now (n * n) (2 ^ 46) }
    requires column_list_2 { ColumnList weights.now n 1024 }
    ensures { result ≡ load_from n defects.now weights.now m }
{
    let mut sum = 0;
    let along = &defects[row..row + n];
    for (&d, &w) in along.iter().zip(weights) {
        sum = weigh(sum, d, w);
    }
    sum
}

// Whether all weights are 1, which saves a product a number.
fn all_ones(weights: &[i64], n: usize) -> bool
    requires { (n ≤ 32) × (n ≤ length weights.now) }
    ensures { result ≡ true → (j : ℕ) → j < n → nat_abs (at weights.now j) ≡ 1 }
{
    weights[..n].iter().all(|&w| w == 1)
}

// The load of row m, where `ones` is whether all weights are 1.
fn load_of(defects: &[i64], weights: &[i64], ones: bool, n: usize, m: usize, row: usize) -> u64
    requires n_bound { (n ≤ 32) × ((m < n) × Carried 0 n m row) }
    requires column_list { ColumnList defects.now (n * n) (2 ^ 46) }
    requires column_list_2 { ColumnList weights.now n 1024 }
    requires j_value { ones ≡ true → (j : ℕ) → j < n → nat_abs (at weights.now j) ≡ 1 }
    ensures { result ≡ load_from n defects.now weights.now m }
{
    if ones {
        return row_sum(defects, m, row, n);
    }
    weighted_load(defects, weights, n, m, row)
}

// The margin of row m, 0 where it is 0 or less.
fn margin_of(
    t: u32,
    defects: &[i64],
    weights: &[i64],
    ones: bool,
    n: usize,
    m: usize,
    row: usize,
) -> u64
    requires t_bound { (t ≤ 20) × ((n ≤ 32) × ((m < n) × Carried 0 n m row)) }
    requires column_list { ColumnList defects.now (n * n) (2 ^ 46) }
    requires column_list_2 { ColumnList weights.now n 1024 }
    requires j_value { ones ≡ true → (j : ℕ) → j < n → nat_abs (at weights.now j) ≡ 1 }
    ensures { result ≡ 2 ^ t * nat_abs (at weights.now m) - load_from n defects.now weights.now m }
{
    let full = power(t) * magnitude(weights[m]);
    let sum = load_of(defects, weights, ones, n, m, row);
    full.saturating_sub(sum)
}

// The margins of all rows, from D, row after row. The start of a row is carried beside its number (docs/PROMISES.md: "the start of a row is carried from
// row to row"), so the loop goes by number; `chunks_exact` has no chunks for n = 0.
fn margins_from(out: &mut [u64; 32], t: u32, defects: &[i64], weights: &[i64], n: usize)
    requires t_bound { (t ≤ 20) × ((n ≤ 32) × (length out.old ≡ 32)) }
    requires column_list { ColumnList defects.now (n * n) (2 ^ 46) }
    requires column_list_2 { ColumnList weights.now n 1024 }
    ensures { (length out.new ≡ 32) × PrefixIs 0 out.new n
        (λ (m : ℕ). 2 ^ t * nat_abs (at weights.now m) - load_from n defects.now weights.now m) }
{
    let ones = all_ones(weights, n);
    let mut row = 0;
    for m in 0..n {
        out[m] = margin_of(t, defects, weights, ones, n, m, row);
        row += n;
    }
}

// The margins of all rows. Where A and G are symmetric, row m of D is column m of T·I − A·G, which stands in the list of the inverse's residuals.
pub fn margins_of(
    out: &mut [u64; 32],
    t: u32,
    matrix: &[i64],
    inverse: &[i64],
    columns: &[i64],
    symmetric: bool,
    weights: &[i64],
    n: usize,
)
    requires t_bound { (t ≤ 20) × ((n ≤ 32) × ((length out.old ≡ 32) × (n * n ≤ length columns.now))) }
    requires matrix_list { MatrixList matrix.now n }
    requires matrix_list_2 { MatrixList inverse.now n }
    requires prefix_is { PrefixIs (pos 0) columns.now (n * n) (λ (i : ℕ). column_residual n t matrix.now inverse.now (i / n) (i % n)) }
    requires symmetric { symmetric ≡ true → Symmetric matrix.now n × Symmetric inverse.now n }
    requires column_list { ColumnList weights.now n 1024 }
    ensures { (length out.new ≡ 32) × PrefixIs 0 out.new n
        (cut_margin (problem_of n 0 t matrix.now [] [] [] inverse.now weights.now)) }
{
    if symmetric {
        margins_from(out, t, columns, weights, n);
        return;
    }
    margins_from(out, t, &defects_of(t, matrix, inverse, n), weights, n);
}

// The first margin that is 0; n where there is none: the number that `judge` of check_ranges takes.
pub fn first_zero(margins: &[u64; 32], n: usize) -> usize
    requires { n ≤ 32 }
    ensures { result ≡ first n (λ (m : ℕ). eqb (get_or margins.now m 0) 0) }
{
    margins[..n].iter().position(|&g| g == 0).unwrap_or(n)
}
