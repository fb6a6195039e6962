// T·I less a product of two matrices, of which the first has few numbers other than 0 in a levelling net: each of these takes a multiple of a whole biased
// row of the second, and a 0 takes nothing.
#![tactic(auto)]

ghost use Rattle.std.specs.Prelude.{◌≡◌, ℕ, ◌+◌, ◌*◌, ◌/◌, ◌%◌, ◌≤◌, ◌<◌, ◌^◌, [], pos, nat_abs, ◌+ℤ◌, ◌-ℤ◌, get_or, length, set, EachIndex, slice_index};
ghost use Rattle.integer.specs.Finite.{sum};
ghost use Rattle.linear.specs.Slice.{at};
ghost use Rattle.linear.specs.Place.{Carried};
ghost use Rattle.linear.specs.Reach.{Reach, MatrixList};
ghost use Rattle.linear.specs.Written.{written};
ghost use Rattle.check_biased_rows.specs.Biased.{bias, BiasedRow, BiasedRows};
ghost use Rattle.check_biased_rows.specs.Place.{biased_place};
ghost use Rattle.enclosure.specs.Problem.{column_of, problem_of};
ghost use Rattle.enclosure.specs.Reckoning.{defect, residual};
ghost use Rattle.check_arrays.specs.Arrays.{PrefixIs};
ghost use Rattle.check_arrays.specs.Parts.{rows_part};
ghost use Rattle.check_defects.specs.Sums.{half_of, NoSums, SmallSums, Added, SumsOf};
ghost use Rattle.check_defects.specs.Difference.{number_less, difference};

use check_biased_rows::{BIAS, ROWS_LENGTH, add_low, bias_columns};
use integer::{magnitude, power};

// Adds magnitude times a biased row to sums.
fn add_row(sums: &mut [u64], magnitude: u64, row: &[u64])
    requires short { (length row.now ≡ length sums.old) × (magnitude ≤ 2 ^ 20) }
    requires small_sums { EachIndex sums.old (λ j. slice_index sums.old j ≤ 2 ^ 62) }
    requires small_row { EachIndex row.now (λ j. slice_index row.now j ≤ 2 * bias) }
    ensures { EachIndex sums.new (λ j. slice_index sums.new j ≡ slice_index sums.old j + magnitude * slice_index row.now j) }
{
    for (j, sum) in sums.iter_mut().enumerate() {
        *sum = add_low(*sum, magnitude, row[j]);
    }
}

// Numbers below 0 have the upper half of the sums.
fn half_of(x: i64) -> usize
    ensures value { result ≡ half_of x }
    ensures within { result ≤ 32 }
{
    if x < 0 { 32 } else { 0 }
}

// Adds x times the biased row k, which starts at place row, to the sums that x belongs to.
fn add_multiple(sums: &mut [u64; 64], x: i64, rows: &[u64], k: usize, row: usize, n: usize)
    requires n_bound { (n ≤ 32) × (nat_abs x ≤ 2 ^ 20) }
    requires carried { Carried 0 (n + 1) k row }
    requires biased_row { BiasedRow rows.now (k * (n + 1)) n }
    requires sums_len { (length sums.old ≡ 64) × (SmallSums sums.old 0 n × SmallSums sums.old 32 n) }
    ensures { Added sums.old sums.new n x
        (λ (j : ℕ). get_or rows.now (biased_place n k j) 0) }
{
    if x != 0 {
        let half = half_of(x);
        add_row(&mut sums[half..half + n], magnitude(x), &rows[row..row + n]);
    }
}

// Clears the sums of the first n numbers of a row.
fn clear(sums: &mut [u64; 64], n: usize)
    requires { (n ≤ 32) × (length sums.old ≡ 64) }
    ensures { NoSums sums.new n }
{
    sums[..n].fill(0);
    sums[32..32 + n].fill(0);
}

// Adds the multiples of all rows by the numbers of a list, some places apart; gives the sum of these numbers.
fn add_rows(
    sums: &mut [u64; 64],
    xs: &[i64],
    start: usize,
    stride: usize,
    rows: &[u64],
    n: usize,
) -> i64
    requires n_bound { (n ≤ 32) × (start + n * stride < 2 ^ 60) }
    requires reach { Reach xs.now start stride n (2 ^ 20) }
    requires biased_rows { BiasedRows rows.now n }
    requires no_sums { NoSums sums.old n }
    ensures { (result ≡ sum n (λ (k : ℕ). at xs.now (start + k * stride)))
        × ((length sums.new ≡ 64)
        × SumsOf sums.new n n (λ (k : ℕ). at xs.now (start + k * stride))
        (λ (k j : ℕ). get_or rows.now (biased_place n k j) 0)) }
{
    // Places are carried, here and in `differences_of`: `xs[start..].iter().step_by(stride).zip(rows.chunks_exact(n + 1)).take(n)` is no plainer.
    let mut total: i64 = 0;
    let mut from = start;
    let mut row = 0;
    for k in 0..n {
        let x = xs[from];
        add_multiple(sums, x, rows, k, row, n);
        total += x;
        from += stride;
        row += n + 1;
    }
    total
}

// Adds number m, m of T·I to the sum that is taken with its sign.
fn add_unit(sums: &mut [u64; 64], t: u32, m: usize)
    requires { (t ≤ 20) × ((m < 32) × (get_or sums.old (32 + m) 0 ≤ 2 ^ 51)) }
    ensures { sums.new ≡ set sums.old (32 + m) (get_or sums.old (32 + m) 0 + 2 ^ t) }
{
    sums[32 + m] += power(t);
}

// A number of T·I less the product, from the two sums that stand for it and from what all biased numbers have too much of.
fn number_less(biased: i64, up: u64, down: u64) -> i64
    requires biased_bound { nat_abs biased ≤ 2 ^ 50 }
    requires up_bound { (up ≤ 2 ^ 51) × (down ≤ 2 ^ 52) }
    ensures { result ≡ biased +ℤ pos down -ℤ pos up }
{
    biased + down as i64 - up as i64
}

// Number m of every column of the differences, from the numbers of the list from place start on. The sums are lent to work in.
fn store_row(
    out: &mut [i64],
    sums: &mut [u64; 64],
    t: u32,
    m: usize,
    xs: &[i64],
    start: usize,
    stride: usize,
    rows: &[u64],
    n: usize,
)
    requires t_bound { (t ≤ 20) × ((n ≤ 32) × ((m < n) × ((start + n * stride < 2 ^ 60) × ((length sums.old ≡ 64) × (n * n ≤ length out.old))))) }
    requires reach { Reach xs.now start stride n (2 ^ 20) }
    requires biased_rows { BiasedRows rows.now n }
    ensures { (length sums.new ≡ 64) × (out.new ≡ written out.old m n
        (λ (j : ℕ). number_less t xs.now start stride rows.now n m j) n) }
{
    clear(sums, n);
    let biased = BIAS as i64 * add_rows(sums, xs, start, stride, rows, n);
    add_unit(sums, t, m);
    // As `out[m..].iter_mut().step_by(n).enumerate()`, tried, the proof did not close.
    let mut place = m;
    for j in 0..n {
        out[place] = number_less(biased, sums[j], sums[32 + j]);
        place += n;
    }
}

// Puts T·I less the product in a list, column after column.
fn differences_of(
    out: &mut [i64],
    t: u32,
    xs: &[i64],
    step: usize,
    stride: usize,
    rows: &[u64],
    n: usize,
)
    requires t_bound { (t ≤ 20) × ((n ≤ 32) × ((step ≤ 32) × ((stride ≤ 32) × (n * n ≤ length out.old)))) }
    requires by_index { (m : ℕ) → m < n → Reach xs.now (m * step) stride n (2 ^ 20) }
    requires biased_rows { BiasedRows rows.now n }
    ensures { PrefixIs (pos 0) out.new (n * n)
        (λ (i : ℕ). difference n t xs.now step stride rows.now (i / n) (i % n)) }
{
    let mut sums = [0u64; 64];
    let mut start = 0;
    for m in 0..n {
        store_row(out, &mut sums, t, m, xs, start, stride, rows, n);
        start += step;
    }
}

// Puts the residuals T·I − A·G of the inverse in a list, column after column, from the biased rows of G.
pub fn inverse_residuals_of(out: &mut [i64], t: u32, matrix: &[i64], rows: &[u64], n: usize)
    requires t_bound { (t ≤ 20) × ((n ≤ 32) × (n * n ≤ length out.old)) }
    requires matrix_list { MatrixList matrix.now n }
    requires biased_rows { BiasedRows rows.now n }
    ensures { PrefixIs (pos 0) out.new (n * n)
        (λ (i : ℕ). residual (column_of (rows_part n t matrix.now rows.now) (i / n)) (i % n)) }
{
    differences_of(out, t, matrix, n, 1, rows, n);
}

// D = T·I − G·A, row after row: its row m is column m of T·I less the product of A and G, each read by columns.
pub fn defects_of(t: u32, matrix: &[i64], inverse: &[i64], n: usize) -> [i64; 1024]
    requires t_bound { (t ≤ 20) × (n ≤ 32) }
    requires matrix_list { MatrixList matrix.now n }
    requires matrix_list_2 { MatrixList inverse.now n }
    ensures { PrefixIs (pos 0) result (n * n)
        (λ (i : ℕ). defect (problem_of n 0 t matrix.now [] [] [] inverse.now []) (i / n) (i % n)) }
{
    let mut columns = [0u64; ROWS_LENGTH];
    bias_columns(&mut columns, inverse, n);
    let mut out = [0i64; 1024];
    differences_of(&mut out, t, matrix, 1, n, &columns, n);
    out
}
