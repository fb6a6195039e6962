// Sums of products by way of numbers biased above 0. x86-64 multiplies two pairs of unsigned 32-bit numbers at once, and signed 64-bit
// numbers one pair at a time: so a matrix is biased row after row, and a sum of products is put right by the sums of its two rows.
#![tactic(auto)]

ghost use Rattle.std.specs.Prelude.{◌≡◌, ℕ, ◌+◌, ◌*◌, ◌<◌, ◌≤◌, ◌^◌, pos, nat_abs, ◌-ℤ◌, length, EachIndex, slice_index};
ghost use Rattle.integer.specs.Finite.{sumℕ};
ghost use Rattle.linear.specs.Slice.{at};
ghost use Rattle.linear.specs.Place.{Carried};
ghost use Rattle.linear.specs.Reach.{Reach, ColumnList};
ghost use Rattle.check_biased_rows.specs.Biased.{bias, unbiased, BiasedRow, row_dot, RowOf, RowsOf, Kept};
ghost use Rattle.check_biased_rows.specs.Place.{RowsOfMatrix, ColumnsOfMatrix};

// What is added to a number to bias it, 2^25, and its square.
pub const BIAS: u64 = 33554432;

const BIAS_SQUARED: u64 = 1125899906842624;

// The lowest 32 bits.
const LOW: u64 = 0xffffffff;

// How long a list for 32 biased rows of 32 numbers is.
pub const ROWS_LENGTH: usize = 1056;

fn biased_of(x: i64) -> u64
    requires { nat_abs x ≤ bias }
    ensures { (unbiased result ≡ x) × (result ≤ 2 * bias) }
{
    (x + BIAS as i64) as u64
}

// The absolute value of the number that x stands for.
pub fn unbiased_magnitude(x: u64) -> u64
    ensures { result ≡ nat_abs (unbiased x) }
{
    if x < BIAS { BIAS - x } else { x - BIAS }
}

// sum + a * b, for numbers of 32 bits.
pub fn add_low(sum: u64, a: u64, b: u64) -> u64
    requires { (sum ≤ 2 ^ 62) × ((a ≤ 2 * bias) × (b ≤ 2 * bias)) }
    ensures { result ≡ sum + a * b }
{
    sum + (a & LOW) * (b & LOW)
}

// The sum of the products of two rows as they stand.
fn low_dot(a: &[u64], b: &[u64]) -> u64
    requires short { (length a.now ≤ 32) × (length b.now ≡ length a.now) }
    requires small { EachIndex a.now (λ k. slice_index a.now k ≤ 2 * bias) }
    requires small_2 { EachIndex b.now (λ k. slice_index b.now k ≤ 2 * bias) }
    ensures { result ≡ sumℕ (length a.now) (λ (k : ℕ). slice_index a.now k * slice_index b.now k) }
{
    let mut sum: u64 = 0;
    for (&x, &y) in a.iter().zip(b) {
        sum = add_low(sum, x, y);
    }
    sum
}

fn less(up: u64, down: u64) -> i64
    requires { (up ≤ 2 ^ 60) × (down ≤ 2 ^ 60) }
    ensures { result ≡ pos up -ℤ pos down }
{
    up as i64 - down as i64
}

// The sum of the products of the numbers that biased row i of a, from place p on, and biased row j of b, from place q on, stand for.
pub fn row_dot(a: &[u64], i: usize, p: usize, b: &[u64], j: usize, q: usize, n: usize) -> i64
    requires n_bound { n ≤ 32 }
    requires carried { Carried 0 (n + 1) i p × Carried 0 (n + 1) j q }
    requires biased_row { BiasedRow a.now (i * (n + 1)) n × BiasedRow b.now (j * (n + 1)) n }
    ensures { result ≡ row_dot a.now (i * (n + 1)) b.now (j * (n + 1)) n }
{
    let up = low_dot(&a[p..p + n], &b[q..q + n]) + n as u64 * BIAS_SQUARED;
    let down = BIAS * (a[p + n] + b[q + n]);
    less(up, down)
}

// Biases n numbers of a list, some places apart, and puts their sum after them.
pub fn bias_row(out: &mut [u64], place: usize, xs: &[i64], start: usize, stride: usize, n: usize)
    requires n_bound { (n ≤ 32) × ((start + n * stride < 2 ^ 60) × (place + n < length out.old)) }
    requires reach { Reach xs.now start stride n bias }
    ensures { RowOf out.new place n (λ (k : ℕ). at xs.now (start + k * stride))
        × Kept out.old out.new place }
{
    // The source's place is carried: `step_by` refuses a stride of 0, which the clauses of `bias_row` allow.
    let mut sum: u64 = 0;
    let mut from = start;
    for slot in &mut out[place..place + n] {
        let x = biased_of(xs[from]);
        *slot = x;
        sum += x;
        from += stride;
    }
    out[place + n] = sum;
}

// Biases n rows of n numbers one after another, each a step after the one before.
fn bias_all(out: &mut [u64], xs: &[i64], step: usize, stride: usize, n: usize)
    requires n_bound { (n ≤ 32) × ((step ≤ 32) × ((stride ≤ 32) × (n * (n + 1) ≤ length out.old))) }
    requires by_index { (i : ℕ) → i < n → Reach xs.now (i * step) stride n bias }
    ensures { RowsOf out.new n n (λ (i k : ℕ). at xs.now (i * step + k * stride)) }
{
    // As `for row in out.chunks_exact_mut(n + 1)`, tried, the proof did not close: what that loop writes is not known after it.
    let mut place = 0;
    let mut start = 0;
    for i in 0..n {
        bias_row(out, place, xs, start, stride, n);
        place += n + 1;
        start += step;
    }
}

// Biases the rows of a matrix: row i starts at i·n and has stride 1.
pub fn bias_rows(out: &mut [u64], xs: &[i64], n: usize)
    requires n_bound { (n ≤ 32) × (n * (n + 1) ≤ length out.old) }
    requires column_list { ColumnList xs.now (n * n) bias }
    ensures { RowsOfMatrix out.new n xs.now }
{
    bias_all(out, xs, n, 1, n);
}

// Biases the columns of a matrix: column j starts at j and has stride n.
pub fn bias_columns(out: &mut [u64], xs: &[i64], n: usize)
    requires n_bound { (n ≤ 32) × (n * (n + 1) ≤ length out.old) }
    requires column_list { ColumnList xs.now (n * n) bias }
    ensures { ColumnsOfMatrix out.new n xs.now }
{
    bias_all(out, xs, 1, n, n);
}
