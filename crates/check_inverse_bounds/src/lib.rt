// The limits of all columns of the inverse, by half of p where it is symmetric.
#![tactic(auto)]

ghost use Rattle.std.specs.Prelude.{◌≡◌, true, ℕ, ◌+◌, ◌*◌, ◌-◌, ◌≤◌, ◌<◌, get_or, length};
ghost use Rattle.linear.specs.Slice.{at};
ghost use Rattle.linear.specs.Place.{Carried, place_of};
ghost use Rattle.linear.specs.Reach.{ColumnList};
ghost use Rattle.linear.specs.Written.{written};
ghost use Rattle.check_biased_rows.specs.Biased.{BiasedRow, BiasedRows};
ghost use Rattle.enclosure.specs.Reckoning.{allowed_residual};
ghost use Rattle.check_arrays.specs.Arrays.{PrefixIs, columns_written};
ghost use Rattle.check_arrays.specs.Rows.{InverseRows};
ghost use Rattle.check_ratios.specs.Ratio.{Positive, Caps};
ghost use Rattle.check_bounds.specs.Limits.{column_magnitude, limits_of};
ghost use Rattle.check_inverse_bounds.specs.SymmetricRows.{magnitude_in, KnownHalf, SymmetricProduct};

use check_biased_rows::{bias_row, row_dot};
use check_bounds::store_limits;
use integer::magnitude;

// The first j absolute values of p = G·r for column j where p is symmetric, read across the j columns that the list begins with. The place is carried
// across: `list[j..].iter().step_by(n).take(j).enumerate()` is no plainer.
fn read_across(out: &mut [u64; 32], list: &[u64], j: usize, n: usize)
    requires { (n ≤ 32) × ((j < n) × ((length out.old ≡ 32) × (n * n ≤ length list.now))) }
    ensures { (length out.new ≡ 32) × PrefixIs 0 out.new j (λ (m : ℕ). get_or list.now (place_of n m j) 0) }
{
    let mut across = j;
    for m in 0..j {
        out[m] = list[across];
        across += n;
    }
}

// The absolute values of p = G·r from the biased row that stands for r, from number `known` on, which is that of the biased row of G at place first.
// They are put in the list too, from place to on. The loops here and in `store_columns` go by number: `row_dot` and `store_limits` take it beside the places
// that are carried, and after a loop over `iter_mut().zip(..)` the proof knows no number that was written.
fn work_out(
    out: &mut [u64; 32],
    list: &mut [u64],
    to: usize,
    known: usize,
    first: usize,
    rows: &[u64],
    residuals: &[u64],
    n: usize,
)
    requires n_bound { (n ≤ 32) × ((known ≤ n) × ((length out.old ≡ 32) × ((to + n ≤ 1024 + known) × (to + n ≤ length list.old + known)))) }
    requires carried { Carried 0 (n + 1) known first }
    requires biased_rows { BiasedRows rows.now n × BiasedRow residuals.now (0 * (n + 1)) n }
    requires prefix_is { PrefixIs 0 out.old known (λ (m : ℕ). column_magnitude rows.now residuals.now n m 0) }
    ensures { (length out.new ≡ 32)
        × (PrefixIs 0 out.new n (λ (m : ℕ). column_magnitude rows.now residuals.now n m 0)
        × (list.new ≡ written list.old to 1
        (λ (i : ℕ). column_magnitude rows.now residuals.now n (known + i) 0) (n - known))) }
{
    let mut along = to;
    let mut row = first;
    for m in known..n {
        let x = magnitude(row_dot(rows, m, row, residuals, 0, 0, n));
        out[m] = x;
        list[along] = x;
        along += 1;
        row += n + 1;
    }
}

// The absolute values of p = G·r for column j, whose residuals start at place start. Where p is symmetric, those before the diagonal are read from the
// list, and the others are put there; place is that of biased row j, and of the diagonal.
fn column_magnitudes(
    out: &mut [u64; 32],
    list: &mut [u64],
    biased: &mut [u64; 33],
    rows: &[u64],
    residuals: &[i64],
    symmetric: bool,
    j: usize,
    place: usize,
    start: usize,
    n: usize,
)
    requires n_bound { (n ≤ 32) × ((j < n) × ((length out.old ≡ 32) × ((length biased.old ≡ 33) × (n * n ≤ length list.old)))) }
    requires carried { Carried 0 (n + 1) j place × Carried 0 n j start }
    requires biased_rows { BiasedRows rows.now n }
    requires column_list { ColumnList residuals.now (n * n) allowed_residual }
    requires symmetric_product { symmetric ≡ true → SymmetricProduct rows.now residuals.now n × KnownHalf list.old n j rows.now residuals.now }
    ensures { ((length out.new ≡ 32) × (length biased.new ≡ 33))
        × (PrefixIs 0 out.new n (magnitude_in rows.now residuals.now n j)
        × (symmetric ≡ true → KnownHalf list.new n (j + 1) rows.now residuals.now)) }
{
    bias_row(biased, 0, residuals, start, 1, n);
    if symmetric {
        read_across(out, list, j, n);
        work_out(out, list, place, j, place, rows, biased, n);
        return;
    }
    work_out(out, list, start, 0, 0, rows, biased, n);
}

// Writes the limits of all columns of the inverse, row after row, from their residuals, column after column, and the biased rows of G.
// Where p of the columns is symmetric, half of it is worked out; its absolute values are put in a list for that.
pub fn store_columns(
    dst: &mut [u64],
    rows: &[u64],
    residuals: &[i64],
    list: &mut [u64],
    symmetric: bool,
    margins: &[u64; 32],
    caps: &[u64; 32],
    weights: &[i64],
    n: usize,
)
    requires n_nonzero { (0 < n) × ((n ≤ 32) × ((n * n ≤ length dst.old) × (n * n ≤ length list.old))) }
    requires inverse_rows { InverseRows rows.now n }
    requires column_list { ColumnList residuals.now (n * n) allowed_residual }
    requires symmetric_product { symmetric ≡ true → SymmetricProduct rows.now residuals.now n }
    requires positive { Positive margins.now n }
    requires column_list_2 { ColumnList weights.now n 1024 }
    requires caps { Caps caps.now margins.now weights.now n }
    ensures { dst.new ≡ columns_written dst.old n
        (λ (i j : ℕ). limits_of n rows.now (λ (k : ℕ). at residuals.now (j * n + k)) (λ (k : ℕ). 0)
        margins.now weights.now i) n }
{
    let mut magnitudes = [0u64; 32];
    let mut biased = [0u64; 33];
    let mut place = 0;
    let mut start = 0;
    for j in 0..n {
        column_magnitudes(
            &mut magnitudes,
            list,
            &mut biased,
            rows,
            residuals,
            symmetric,
            j,
            place,
            start,
            n,
        );
        store_limits(dst, j, n, &magnitudes, margins, caps, weights, n);
        place += n + 1;
        start += n;
    }
}
