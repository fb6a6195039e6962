// The limits of a column from the absolute values of its p, the margins and the weights: each is that of the row where |p| / margin is largest.
#![tactic(auto)]

ghost use Rattle.std.specs.Prelude.{◌≡◌, true, false, ℕ, ◌*◌, ◌≤◌, ◌<◌, ◌^◌, ltb, nat_abs, get_or, length};
ghost use Rattle.integer.specs.Finite.{sumℕ, largest};
ghost use Rattle.integer.specs.LargestRatio.{LargestRatio};
ghost use Rattle.integer.specs.Quotient.{ceil_div};
ghost use Rattle.linear.specs.Slice.{at};
ghost use Rattle.linear.specs.Reach.{ColumnList};
ghost use Rattle.enclosure.specs.Largest.{largest_magnitude};
ghost use Rattle.enclosure.specs.Reckoning.{bound_from};
ghost use Rattle.check_arrays.specs.Arrays.{PrefixIs};
ghost use Rattle.check_ratios.specs.Ratio.{ratio_of, larger_ratio_of, SmallTerms, Positive, Bounded, WithinCaps, Caps};

use integer::{ceil_div, magnitude};

// Magnitudes whose sum is below this have products with a margin below 2^63.
const SMALL_SUM: u64 = 8589934592;

// A row with the quotient and the remainder of |p_m| by its margin g_m.
#[derive(Clone, Copy)]
pub struct Ratio {
    pub row: usize,
    pub quotient: u64,
    pub remainder: u64,
    pub margin: u64,
}

fn ratio_of(row: usize, p: u64, g: u64) -> Ratio
    requires { 0 < g }
    ensures { result ≡ ratio_of row p g }
{
    Ratio {
        row,
        quotient: p / g,
        remainder: p % g,
        margin: g,
    }
}

// The row with the larger ratio; a where they are equal.
#[tactic(auto, unfolding(crate::specs::Ratio::larger_ratio_of))]
fn larger_ratio(a: Ratio, b: Ratio) -> Ratio
    requires { SmallTerms a × SmallTerms b }
    ensures { result ≡ larger_ratio_of a b }
{
    if a.quotient < b.quotient {
        return b;
    }
    if b.quotient < a.quotient {
        return a;
    }
    if a.remainder * b.margin < b.remainder * a.margin {
        return b;
    }
    a
}

// A row where magnitudes / margins is largest, found by quotients and remainders. The row number is part of a ratio, so the loops here and by products
// go by it: `zip`, `enumerate` and `skip` over two arrays are no plainer.
fn largest_ratio_by_quotients(magnitudes: &[u64; 32], margins: &[u64; 32], n: usize) -> usize
    requires n_nonzero { (0 < n) × (n ≤ 32) }
    requires positive { Positive margins.now n }
    ensures { LargestRatio n (λ (m : ℕ). get_or magnitudes.now m 0) (λ (m : ℕ). get_or margins.now m 0) result }
{
    let mut best = ratio_of(0, magnitudes[0], margins[0]);
    for m in 1..n {
        best = larger_ratio(best, ratio_of(m, magnitudes[m], margins[m]));
    }
    best.row
}

// Whether p / g is larger than magnitude / margin, by products.
fn is_larger_ratio(magnitude: u64, margin: u64, p: u64, g: u64) -> bool
    requires magnitude_bound { (magnitude ≤ 2 ^ 33) × (g ≤ 2 ^ 30) }
    requires p_bound { (p ≤ 2 ^ 33) × (margin ≤ 2 ^ 30) }
    ensures { result ≡ ltb (magnitude * g) (p * margin) }
{
    magnitude * g < p * margin
}

// A row where magnitudes / margins is largest, found by products, for small magnitudes.
fn largest_ratio_by_products(magnitudes: &[u64; 32], margins: &[u64; 32], n: usize) -> usize
    requires n_nonzero { (0 < n) × (n ≤ 32) }
    requires by_index { (m : ℕ) → m < n → get_or magnitudes.now m 0 ≤ 2 ^ 33 }
    requires positive { Positive margins.now n }
    ensures { LargestRatio n (λ (m : ℕ). get_or magnitudes.now m 0) (λ (m : ℕ). get_or margins.now m 0) result }
{
    let mut k = 0;
    for m in 1..n {
        if is_larger_ratio(magnitudes[k], margins[k], magnitudes[m], margins[m]) {
            k = m;
        }
    }
    k
}

// The sum of n numbers.
pub fn sum_of(xs: &[u64; 32], n: usize) -> u64
    requires n_bound { n ≤ 32 }
    requires bounded { Bounded xs.now n }
    ensures { result ≡ sumℕ n (λ (k : ℕ). get_or xs.now k 0) }
{
    xs[..n].iter().sum()
}

// A row where magnitudes / margins is largest.
fn largest_ratio_of(magnitudes: &[u64; 32], margins: &[u64; 32], n: usize) -> usize
    requires n_nonzero { (0 < n) × (n ≤ 32) }
    requires bounded { Bounded magnitudes.now n }
    requires positive { Positive margins.now n }
    ensures { LargestRatio n (λ (m : ℕ). get_or magnitudes.now m 0) (λ (m : ℕ). get_or margins.now m 0) result }
{
    if sum_of(magnitudes, n) < SMALL_SUM {
        return largest_ratio_by_products(magnitudes, margins, n);
    }
    largest_ratio_by_quotients(magnitudes, margins, n)
}

// w·p / g rounded up, for the weight w.
fn bound_of(w: i64, p: u64, g: u64) -> u64
    requires { (nat_abs w ≤ 1024) × ((p ≤ largest_magnitude) × ((0 < g) × (g ≤ 2 ^ 30))) }
    ensures { result ≡ ceil_div (nat_abs w * p) g }
{
    ceil_div(magnitude(w) * p, g)
}

// The limits of a column by the row with the largest ratio. Arrays are filled by index, here and in `caps_of`: after a loop over `iter_mut().zip(..)` the
// proof knows no number that was written (tried).
pub fn ratio_bounds(
    magnitudes: &[u64; 32],
    margins: &[u64; 32],
    weights: &[i64],
    n: usize,
) -> [u64; 32]
    requires n_nonzero { (0 < n) × (n ≤ 32) }
    requires bounded { Bounded magnitudes.now n }
    requires positive { Positive margins.now n }
    requires column_list { ColumnList weights.now n 1024 }
    ensures { PrefixIs 0 result n (bound_from n (λ (m : ℕ). get_or magnitudes.now m 0) (λ (m : ℕ). get_or margins.now m 0)
        (λ (i : ℕ). nat_abs (at weights.now i))) }
{
    let k = largest_ratio_of(magnitudes, margins, n);
    let p = magnitudes[k];
    let g = margins[k];
    let mut out = [0u64; 32];
    for (i, &w) in weights[..n].iter().enumerate() {
        out[i] = bound_of(w, p, g);
    }
    out
}

// Whether every magnitude is at most its cap.
pub fn is_within_caps(magnitudes: &[u64; 32], caps: &[u64; 32], n: usize) -> bool
    requires { n ≤ 32 }
    ensures { result ≡ true → WithinCaps magnitudes.now caps.now n }
{
    magnitudes[..n].iter().zip(caps).all(|(p, cap)| p <= cap)
}

// Whether n numbers are all 0.
pub fn all_zero(xs: &[u64; 32], n: usize) -> bool
    requires { n ≤ 32 }
    ensures { (result ≡ true → sumℕ n (λ (k : ℕ). get_or xs.now k 0) ≡ 0)
        × (result ≡ false → 0 < sumℕ n (λ (k : ℕ). get_or xs.now k 0)) }
{
    xs[..n].iter().all(|&x| x == 0)
}

// The largest weight.
fn largest_weight(weights: &[i64], n: usize) -> u64
    requires n_bound { n ≤ 32 }
    requires column_list { ColumnList weights.now n 1024 }
    ensures { result ≡ largest n (λ (i : ℕ). nat_abs (at weights.now i)) }
{
    weights[..n]
        .iter()
        .fold(0u64, |most, w| most.max(w.unsigned_abs()))
}

// The caps of all rows: each margin divided by the largest weight.
pub fn caps_of(out: &mut [u64; 32], margins: &[u64; 32], weights: &[i64], n: usize)
    requires n_nonzero { (0 < n) × ((n ≤ 32) × (length out.old ≡ 32)) }
    requires column_list { ColumnList weights.now n 1024 }
    requires by_index { (i : ℕ) → i < n → 0 < nat_abs (at weights.now i) }
    ensures { (length out.new ≡ 32) × Caps out.new margins.now weights.now n }
{
    let most = largest_weight(weights, n);
    for (m, &g) in margins[..n].iter().enumerate() {
        out[m] = g / most;
    }
}
