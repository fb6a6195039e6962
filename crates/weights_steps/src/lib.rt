// One step of the sequence of document 02, Paper 7: the sums |D|·w of a list, whether it is good, and the list after it; and 8 of a search.
#![tactic(auto)]

ghost use Rattle.std.specs.Prelude.{◌≡◌, ℕ, ◌*◌, ◌-◌, ◌/◌, ◌%◌, ◌≤◌, ◌<◌, ◌+◌, ◌^◌, leb, eqb, nat_abs, get_or};
ghost use Rattle.integer.specs.Finite.{first, largest};
ghost use Rattle.linear.specs.Place.{Carried};
ghost use Rattle.linear.specs.Reach.{MatrixList};
ghost use Rattle.check_arrays.specs.Arrays.{PrefixIs};
ghost use Rattle.check_arrays.specs.Parts.{column_residual};
ghost use Rattle.check_spec.specs.Squares.{any_square_short};
ghost use Rattle.weights_spec.specs.Sequence.{bits};
ghost use Rattle.weights_steps.specs.Steps.{Below, stored_load, stored_margin, shifted_next};

use check_biased_rows::{ROWS_LENGTH, bias_rows};
use check_defects::inverse_residuals_of;
use check_margins::first_zero;
use integer::{magnitude, power};
use rules::{COLUMN_LENGTH, MATRIX_LENGTH};

// 8: whether a matrix list, an inverse or a weight list of these lengths is too short.
pub fn is_short(a: usize, g: usize, w: usize) -> bool
    ensures { result ≡ any_square_short a g w }
{
    (a < MATRIX_LENGTH) | ((g < MATRIX_LENGTH) | (w < COLUMN_LENGTH))
}

// |D|, column after column: T·I − G·A is what the residuals of an inverse are with the two matrices exchanged.
// The loop goes by number: n·n may be the end of a range, and no part of an index (tests/places.py).
pub fn defect_magnitudes(t: u32, matrix: &[i64], inverse: &[i64], n: usize) -> [u64; 1024]
    requires t_bound { (t ≤ 20) × (n ≤ 32) }
    requires matrix_list { MatrixList matrix.now n × MatrixList inverse.now n }
    ensures { PrefixIs 0 result (n * n) (λ (i : ℕ). nat_abs (column_residual n t inverse.now matrix.now (i / n) (i % n))) }
{
    let mut rows = [0u64; ROWS_LENGTH];
    bias_rows(&mut rows, matrix, n);
    let mut columns = [0i64; 1024];
    inverse_residuals_of(&mut columns, t, inverse, &rows, n);
    let mut out = [0u64; 1024];
    for i in 0..n * n {
        out[i] = magnitude(columns[i]);
    }
    out
}

// The sum over j of |D_mj|·w_j; the place is carried from column to column (02, Paper 4: "no term multiplies it out from row and column").
fn load_of(magnitudes: &[u64; 1024], weights: &[u64; 32], n: usize, m: usize) -> u64
    requires n_bound { (n ≤ 32) × (m < n) }
    requires below { Below magnitudes.now (n * n) (2 ^ 46) × Below weights.now n 1024 }
    ensures { result ≡ stored_load n magnitudes.now weights.now m }
{
    let mut sum: u64 = 0;
    let mut place = m;
    for &w in &weights[..n] {
        sum += magnitudes[place] * w;
        place += n;
    }
    sum
}

// The sums of all rows. The loops here and in `margins_from` go by row: `load_of` takes its number, and two lists are read at it, where `zip` and `enumerate`
// are no plainer.
pub fn loads_of(magnitudes: &[u64; 1024], weights: &[u64; 32], n: usize) -> [u64; 32]
    requires n_bound { n ≤ 32 }
    requires below { Below magnitudes.now (n * n) (2 ^ 46) × Below weights.now n 1024 }
    ensures { PrefixIs 0 result n (stored_load n magnitudes.now weights.now) }
{
    let mut out = [0u64; 32];
    for m in 0..n {
        out[m] = load_of(magnitudes, weights, n, m);
    }
    out
}

// T·w less the sum, 0 where it is 0 or less.
fn cut(t: u32, w: u64, load: u64) -> u64
    requires { (t ≤ 20) × (w ≤ 1024) }
    ensures { result ≡ 2 ^ t * w - load }
{
    (power(t) * w).saturating_sub(load)
}

// The margins of all rows.
pub fn margins_from(t: u32, loads: &[u64; 32], weights: &[u64; 32], n: usize) -> [u64; 32]
    requires t_bound { (t ≤ 20) × (n ≤ 32) }
    requires below { Below weights.now n 1024 }
    ensures { PrefixIs 0 result n (stored_margin t loads.now weights.now) }
{
    let mut out = [0u64; 32];
    for m in 0..n {
        out[m] = cut(t, weights[m], loads[m]);
    }
    out
}

// Whether every margin is above 0.
pub fn is_good(t: u32, loads: &[u64; 32], weights: &[u64; 32], n: usize) -> bool
    requires t_bound { (t ≤ 20) × (n ≤ 32) }
    requires below { Below weights.now n 1024 }
    ensures { result ≡ leb n (first n (λ (m : ℕ). eqb (stored_margin t loads.now weights.now m) 0)) }
{
    n <= first_zero(&margins_from(t, loads, weights, n), n)
}

fn largest_of(loads: &[u64; 32], n: usize) -> u64
    requires { n ≤ 32 }
    ensures { result ≡ largest n (λ (m : ℕ). get_or loads.now m 0) }
{
    let mut best: u64 = 0;
    for &load in &loads[..n] {
        best = best.max(load);
    }
    best
}

// The fewest bits that bring u to 1,023 or below.
fn bits_of(u: u64) -> u32
    ensures { result ≡ bits u }
{
    u64::BITS - (u >> 10).leading_zeros()
}

// The list after one with these sums: each shifted right by one count of bits for all rows, plus 1.
pub fn next_weights(loads: &[u64; 32], n: usize) -> [u64; 32]
    requires { n ≤ 32 }
    ensures { PrefixIs 0 result n (shifted_next n loads.now) }
{
    let count = bits_of(largest_of(loads, n));
    let mut out = [0u64; 32];
    for (i, &load) in loads[..n].iter().enumerate() {
        out[i] = (load >> count) + 1;
    }
    out
}
