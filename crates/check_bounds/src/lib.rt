// The limits of a column from the biased rows of the inverse, and the writer of a column (01: "The limits of one column are worked out
// whole before any of them is written").
#![tactic(auto)]

ghost use Rattle.std.specs.Prelude.{◌≡◌, ℕ, ◌+◌, ◌*◌, ◌≤◌, ◌<◌, ◌^◌, nat_abs, get_or, length};
ghost use Rattle.integer.specs.Finite.{sumℕ};
ghost use Rattle.linear.specs.Slice.{at};
ghost use Rattle.linear.specs.Place.{Carried};
ghost use Rattle.linear.specs.Reach.{ColumnList};
ghost use Rattle.linear.specs.Written.{written};
ghost use Rattle.check_biased_rows.specs.Biased.{bias, unbiased, BiasedRow, BiasedRows, unbiased_rows};
ghost use Rattle.enclosure.specs.Reckoning.{allowed_residual, bound_from};
ghost use Rattle.check_arrays.specs.Arrays.{PrefixIs};
ghost use Rattle.check_arrays.specs.Rows.{InverseRows};
ghost use Rattle.check_ratios.specs.Ratio.{Positive, Bounded, Caps};
ghost use Rattle.check_bounds.specs.Limits.{column_magnitude, Near, limits_of};

use check_biased_rows::{add_low, bias_row, row_dot, unbiased_magnitude};
use check_ratios::{all_zero, is_within_caps, ratio_bounds, sum_of};
use integer::magnitude;

// The absolute values of p = G·r, from the biased rows of G and the biased row that stands for r. `row_dot` takes a row by its number and its start, which
// is carried beside it (docs/PROMISES.md: "the start of a row is carried from row to row"), so the loop goes by number, as in `add_slacks`.
fn magnitudes_of(out: &mut [u64; 32], rows: &[u64], residuals: &[u64], n: usize)
    requires n_bound { (n ≤ 32) × (length out.old ≡ 32) }
    requires biased_rows { BiasedRows rows.now n × BiasedRow residuals.now (0 * (n + 1)) n }
    ensures { (length out.new ≡ 32)
        × PrefixIs 0 out.new n (λ (m : ℕ). column_magnitude rows.now residuals.now n m 0) }
{
    let mut row = 0;
    for m in 0..n {
        out[m] = magnitude(row_dot(rows, m, row, residuals, 0, 0, n));
        row += n + 1;
    }
}

// The sum over j of |G_mj|·σ_j, for the biased row m of G that starts at index row.
fn slack_of(rows: &[u64], m: usize, row: usize, slacks: &[u64; 32], n: usize) -> u64
    requires n_bound { n ≤ 32 }
    requires carried { Carried 0 (n + 1) m row }
    requires biased_row { BiasedRow rows.now (m * (n + 1)) n }
    requires by_index { (k : ℕ) → k < n → get_or slacks.now k 0 ≤ allowed_residual }
    ensures { result ≡ sumℕ n (λ (j : ℕ). nat_abs (unbiased_rows rows.now n m j) * get_or slacks.now j 0) }
{
    let mut sum: u64 = 0;
    for (&x, &slack) in rows[row..row + n].iter().zip(slacks) {
        sum = add_low(sum, unbiased_magnitude(x), slack);
    }
    sum
}

// Adds to each magnitude its slack; where no row has one, n·n products are saved.
fn add_slacks(magnitudes: &mut [u64; 32], rows: &[u64], slacks: &[u64; 32], n: usize)
    requires n_bound { (n ≤ 32) × (length magnitudes.old ≡ 32) }
    requires biased_rows { BiasedRows rows.now n }
    requires by_index { (k : ℕ) → k < n → get_or slacks.now k 0 ≤ allowed_residual }
    requires by_index_2 { (m : ℕ) → m < n → get_or magnitudes.old m 0 ≤ 2 ^ 55 }
    ensures { PrefixIs 0 magnitudes.new n (λ (m : ℕ). get_or magnitudes.old m 0
        + sumℕ n (λ (j : ℕ). nat_abs (unbiased_rows rows.now n m j) * get_or slacks.now j 0)) }
{
    if sum_of(slacks, n) == 0 {
        return;
    }
    let mut row = 0;
    for m in 0..n {
        magnitudes[m] += slack_of(rows, m, row, slacks, n);
        row += n + 1;
    }
}

// The limits of the column with these residuals and slacks, from the biased rows of G.
pub fn column_bounds(
    rows: &[u64],
    residuals: &[i64; 32],
    slacks: &[u64; 32],
    margins: &[u64; 32],
    caps: &[u64; 32],
    weights: &[i64],
    n: usize,
) -> [u64; 32]
    requires n_nonzero { (0 < n) × (n ≤ 32) }
    requires inverse_rows { InverseRows rows.now n }
    requires near { Near (at residuals.now) (λ (k : ℕ). get_or slacks.now k 0) n }
    requires positive { Positive margins.now n }
    requires column_list { ColumnList weights.now n 1024 }
    requires caps { Caps caps.now margins.now weights.now n }
    ensures { PrefixIs 0 result n
        (limits_of n rows.now (at residuals.now) (λ (k : ℕ). get_or slacks.now k 0) margins.now
        weights.now) }
{
    let mut biased = [0u64; 33];
    bias_row(&mut biased, 0, residuals, 0, 1, n);
    let mut magnitudes = [0u64; 32];
    magnitudes_of(&mut magnitudes, rows, &biased, n);
    add_slacks(&mut magnitudes, rows, slacks, n);
    let mut column = [0u64; 32];
    store_limits(&mut column, 0, 1, &magnitudes, margins, caps, weights, n);
    column
}

// Writes n limits from an index on, a stride apart. The loop goes by number: tests/columns.py reads that each number written is an element of an array that was
// handed over.
pub fn store(dst: &mut [u64], start: usize, stride: usize, column: [u64; 32], n: usize)
    requires n_bound { (n ≤ 32) × (start + n * stride < 2 ^ 60) }
    requires by_index { (k : ℕ) → k < n → start + k * stride < length dst.old }
    ensures { dst.new ≡ written dst.old start stride (λ (i : ℕ). get_or column i 0) n }
{
    let mut place = start;
    for i in 0..n {
        dst[place] = column[i];
        place += stride;
    }
}

// Writes the limits of a column, from an index on, a stride apart, by its magnitudes. Where each of these is at most its cap the limits are all 1, or all 0 where
// every magnitude is 0: nothing is divided.
pub fn store_limits(
    dst: &mut [u64],
    start: usize,
    stride: usize,
    magnitudes: &[u64; 32],
    margins: &[u64; 32],
    caps: &[u64; 32],
    weights: &[i64],
    n: usize,
)
    requires n_nonzero { (0 < n) × ((n ≤ 32) × (start + n * stride < 2 ^ 60)) }
    requires by_index { (k : ℕ) → k < n → start + k * stride < length dst.old }
    requires bounded { Bounded magnitudes.now n }
    requires positive { Positive margins.now n }
    requires column_list { ColumnList weights.now n 1024 }
    requires caps { Caps caps.now margins.now weights.now n }
    ensures { dst.new ≡ written dst.old start stride (bound_from n (λ (m : ℕ). get_or magnitudes.now m 0)
        (λ (m : ℕ). get_or margins.now m 0) (λ (i : ℕ). nat_abs (at weights.now i))) n }
{
    if is_within_caps(magnitudes, caps, n) {
        if all_zero(magnitudes, n) {
            store(dst, start, stride, [0u64; 32], n);
            return;
        }
        store(dst, start, stride, [1u64; 32], n);
        return;
    }
    let column = ratio_bounds(magnitudes, margins, weights, n);
    store(dst, start, stride, column, n);
}
