// Weights found by the program (document 02, Paper 7).
#![tactic(auto)]

ghost use Rattle.std.specs.Prelude.{◌≡◌, true, false, [], ℕ, ◌≤◌, pos, get_or, length};
ghost use Rattle.linear.specs.Reach.{MatrixList};
ghost use Rattle.linear.specs.Written.{written};
ghost use Rattle.enclosure.specs.Problem.{problem_of};
ghost use Rattle.weights_spec.specs.Request.{request, search_short, search_in_ranges};
ghost use Rattle.weights_spec.specs.Search.{FoundAs};
ghost use Rattle.weights_steps.specs.Steps.{Below};
ghost use Rattle.weights_search.specs.Reached.{SearchedTo};

use ranges::{are_lists_in_range, are_sizes_in_range};
use rules::Refusal;
use weights_spec::SearchRefusal;
use weights_steps::{defect_magnitudes, is_good, is_short, loads_of, next_weights};

mod ranges;

// The first good list, and how many lists were passed over before it.
#[derive(Clone, Copy)]
pub struct FirstGood {
    pub passed: u32,
    pub weights: [u64; 32],
}

// Tries one list after another, up to the first good one or to the allowance; |D| is worked out once.
fn search(t: u32, matrix: &[i64], inverse: &[i64], n: usize, allowance: u32) -> Option<FirstGood>
    requires t_bound { (t ≤ 20) × (n ≤ 32) }
    requires matrix_list { MatrixList matrix.now n × MatrixList inverse.now n }
    ensures { SearchedTo (problem_of n 0 t matrix.now [] [] [] inverse.now []) allowance result }
{
    let magnitudes = defect_magnitudes(t, matrix, inverse, n);
    let mut weights = [1u64; 32];
    for passed in 0..allowance {
        let loads = loads_of(&magnitudes, &weights, n);
        if is_good(t, &loads, &weights, n) {
            return Some(FirstGood { passed, weights });
        }
        weights = next_weights(&loads, n);
    }
    None
}

// Writes the first n weights.
fn write_weights(dst: &mut [i64], list: &[u64; 32], n: usize)
    requires n_bound { (n ≤ 32) × (n ≤ length dst.old) }
    requires below { Below list.now n 1024 }
    ensures { dst.new ≡ written dst.old 0 1 (λ (i : ℕ). pos (get_or list.now i 0)) n }
{
    for (i, &weight) in list[..n].iter().enumerate() {
        dst[i] = weight as i64;
    }
}

// A request that passes 8 and 3: the list is written after the search alone.
fn find_ready(
    n: usize,
    t: u32,
    matrix: &[i64],
    inverse: &[i64],
    allowance: u32,
    weights: &mut [i64],
) -> Result<u32, SearchRefusal>
    requires weights_value { search_short (request n t matrix.now inverse.now allowance weights.old) ≡ false }
    requires weights_value_2 { search_in_ranges (request n t matrix.now inverse.now allowance weights.old) ≡ true }
    ensures { FoundAs (request n t matrix.now inverse.now allowance weights.old) result weights.new }
{
    let found = search(t, matrix, inverse, n, allowance).ok_or(SearchRefusal::NoneGood)?;
    write_weights(weights, &found.weights, n);
    Ok(found.passed + 1)
}

// Weights found by the program. Order 8, 3, 18; a refusal leaves the weight list as it was.
pub fn find_weights(
    n: u32,
    t: u32,
    matrix: &[i64],
    inverse: &[i64],
    allowance: u32,
    weights: &mut [i64],
) -> Result<u32, SearchRefusal>
    ensures { FoundAs (request n t matrix.now inverse.now allowance weights.old) result weights.new }
{
    if is_short(matrix.len(), inverse.len(), weights.len()) {
        return Err(Refusal::TooShort.into());
    }
    if !are_sizes_in_range(n, t, allowance) {
        return Err(Refusal::OutOfRange.into());
    }
    let size = n as usize;
    if !are_lists_in_range(size, matrix, inverse) {
        return Err(Refusal::OutOfRange.into());
    }
    find_ready(size, t, matrix, inverse, allowance, weights)
}
