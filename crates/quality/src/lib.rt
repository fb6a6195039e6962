// The factor of a proposal's limits: how far a limit can lie above a true error.
#![tactic(auto)]

ghost use Rattle.std.specs.Prelude.{◌≡◌, true, false, [], ℕ, ◌*◌, ◌-◌, ◌≤◌, ◌<◌, ◌^◌, ltb, nat_abs, get_or};
ghost use Rattle.linear.specs.Slice.{at};
ghost use Rattle.linear.specs.Reach.{ColumnList, MatrixList};
ghost use Rattle.enclosure.specs.Problem.{problem_of};
ghost use Rattle.check_arrays.specs.Arrays.{PrefixIs};
ghost use Rattle.check_arrays.specs.Parts.{cut_margin};
ghost use Rattle.quality_spec.specs.Peak.{peak};
ghost use Rattle.quality_spec.specs.Inquiry.{inquiry, inquiry_short, inquiry_in_ranges};
ghost use Rattle.quality_spec.specs.Answer.{QualityAs};

use check_margins::first_zero;
use integer::power;
use quality_spec::Fraction;
use ranges::{are_lists_in_range, are_sizes_in_range};
use rules::Refusal;
use weights_steps::{defect_magnitudes, is_short, loads_of, margins_from};

mod ranges;

// The first n weights.
fn weights_of(weights: &[i64], n: usize) -> [u64; 32]
    requires n_bound { n ≤ 32 }
    requires column_list { ColumnList weights.now n 1024 }
    ensures { PrefixIs 0 result n (λ (m : ℕ). nat_abs (at weights.now m)) }
{
    let mut out = [0u64; 32];
    for (m, weight) in weights[..n].iter().enumerate() {
        out[m] = weight.unsigned_abs();
    }
    out
}

// The margins of all rows, 0 where one is 0 or less.
fn margins_for(t: u32, matrix: &[i64], inverse: &[i64], weights: &[i64], n: usize) -> [u64; 32]
    requires t_bound { (t ≤ 20) × (n ≤ 32) }
    requires matrix_list { MatrixList matrix.now n }
    requires matrix_list_2 { MatrixList inverse.now n }
    requires column_list { ColumnList weights.now n 1024 }
    ensures { PrefixIs 0 result n
        (cut_margin (problem_of n 0 t matrix.now [] [] [] inverse.now weights.now)) }
{
    let magnitudes = defect_magnitudes(t, matrix, inverse, n);
    let list = weights_of(weights, n);
    let loads = loads_of(&magnitudes, &list, n);
    margins_from(t, &loads, &list, n)
}

// T·w and the load of a row from its margin g, which is T·w less the load.
fn spread_of(t: u32, w: i64, g: u64) -> u64
    requires { (t ≤ 20) × ((nat_abs w ≤ 1024) × (g ≤ 2 ^ t * nat_abs w)) }
    ensures { result ≡ 2 * (2 ^ t * nat_abs w) - g }
{
    2 * (power(t) * w.unsigned_abs()) - g
}

// The same of all rows.
fn spreads_of(t: u32, weights: &[i64], margins: &[u64; 32], n: usize) -> [u64; 32]
    requires t_bound { (t ≤ 20) × (n ≤ 32) }
    requires column_list { ColumnList weights.now n 1024 }
    requires by_index { (m : ℕ) → m < n → get_or margins.now m 0 ≤ 2 ^ t * nat_abs (at weights.now m) }
    ensures { PrefixIs 0 result n (λ (m : ℕ). 2 * (2 ^ t * nat_abs (at weights.now m)) - get_or margins.now m 0) }
{
    let mut out = [0u64; 32];
    for (m, &weight) in weights[..n].iter().enumerate() {
        out[m] = spread_of(t, weight, margins[m]);
    }
    out
}

// The lowest row where spreads / margins is largest. What is sought is an index of both lists, so the loop counts one: a fold over the indices is no plainer.
fn peak_of(spreads: &[u64; 32], margins: &[u64; 32], n: usize) -> usize
    requires n_nonzero { (0 < n) × (n ≤ 32) }
    requires by_index { (m : ℕ) → m < n → get_or spreads.now m 0 ≤ 2 ^ 31 }
    requires by_index_2 { (m : ℕ) → m < n → (0 < get_or margins.now m 0) × (get_or margins.now m 0 ≤ 2 ^ 31) }
    ensures { (result < n) × (result ≡ peak n (λ (m : ℕ). get_or spreads.now m 0) (λ (m : ℕ). get_or margins.now m 0)) }
{
    let mut k = 0;
    for m in 1..n {
        if spreads[k] * margins[m] < spreads[m] * margins[k] {
            k = m;
        }
    }
    k
}

// The factor of an inquiry that passes 8 and 3.
fn rate(
    n: usize,
    t: u32,
    matrix: &[i64],
    inverse: &[i64],
    weights: &[i64],
) -> Result<Fraction, Refusal>
    requires weights_value { inquiry_short (inquiry n t matrix.now inverse.now weights.now) ≡ false }
    requires weights_value_2 { inquiry_in_ranges (inquiry n t matrix.now inverse.now weights.now) ≡ true }
    ensures { QualityAs (inquiry n t matrix.now inverse.now weights.now) result }
{
    let margins = margins_for(t, matrix, inverse, weights, n);
    let low = first_zero(&margins, n);
    if low < n {
        return Err(Refusal::Margin(low as u32 + 1));
    }
    let spreads = spreads_of(t, weights, &margins, n);
    let k = peak_of(&spreads, &margins, n);
    Ok(Fraction {
        numerator: spreads[k],
        denominator: margins[k],
    })
}

// The largest (T·w_m + load_m) / margin_m over all rows. Order 8, 3, 5; no list is written.
pub fn quality(
    n: u32,
    t: u32,
    matrix: &[i64],
    inverse: &[i64],
    weights: &[i64],
) -> Result<Fraction, Refusal>
    ensures { QualityAs (inquiry n t matrix.now inverse.now weights.now) result }
{
    if is_short(matrix.len(), inverse.len(), weights.len()) {
        return Err(Refusal::TooShort);
    }
    if !are_sizes_in_range(n, t) {
        return Err(Refusal::OutOfRange);
    }
    let size = n as usize;
    if !are_lists_in_range(size, matrix, inverse, weights) {
        return Err(Refusal::OutOfRange);
    }
    rate(size, t, matrix, inverse, weights)
}
