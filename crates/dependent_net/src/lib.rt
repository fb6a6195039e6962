// The check of a dependent net whose main net is accepted (document 02, Paper 8).
#![tactic(auto)]

ghost use Rattle.std.specs.Prelude.{ℕ, ◌≤◌, ◌^◌, get_or};
ghost use Rattle.linear.specs.Slice.{vector_of};
ghost use Rattle.linear.specs.Reach.{ColumnList};
ghost use Rattle.check_spec.specs.Input.{input};
ghost use Rattle.dependent_spec.specs.Nets.{dependent_by};
ghost use Rattle.dependent_spec.specs.Checked.{DependentAs};

use check_allowances::{ALLOWED_RESIDUAL, allowed_of, row_sums_of, slacks_of};
use check_lists::compute_bounds;
use check_ranges::{are_lists_in_range, are_sizes_in_range, is_short};
use check_residuals::scaled_right;
use dependent_coupling::{base_of, slacks_with};
use rules::{Kind, MATRIX_LENGTH, Refusal, all_in_range};

// The check of a dependent net, from n, s, the guess and the limits of the main net. Order 8, 3, 5, 6, 7; a refusal leaves both limit lists as they were. The sums
// along the rows are not asked of its heights.
// The lists stand one by one and in the order of the C call (docs/API.md).
pub fn check_dependent_net(
    marks: usize,
    main_scale: u32,
    main_guess: &[i64],
    main_limits: [u64; 32],
    n: u32,
    s: u32,
    t: u32,
    matrix: &[i64],
    coupling: &[i64],
    right: &[i64],
    tolerance: &[i64],
    guess: &[i64],
    inverse: &[i64],
    weights: &[i64],
    solution_bounds: &mut [u64],
    inverse_bounds: &mut [u64],
) -> Result<(), Refusal>
    requires marks_bound { marks ≤ 32 }
    requires column_list { ColumnList main_guess.now marks (2 ^ 36) }
    ensures { DependentAs (dependent_by marks main_scale (vector_of main_guess.now) (λ (j : ℕ). get_or main_limits j 0)
        coupling.now (input n s t matrix.now right.now tolerance.now guess.now
        inverse.now weights.now solution_bounds.old inverse_bounds.old))
        result solution_bounds.new inverse_bounds.new }
{
    if coupling.len() < MATRIX_LENGTH
        || is_short(
            matrix.len(),
            right.len(),
            tolerance.len(),
            guess.len(),
            inverse.len(),
            weights.len(),
            solution_bounds.len(),
            inverse_bounds.len(),
        )
    {
        return Err(Refusal::TooShort);
    }
    let size = n as usize;
    if !are_sizes_in_range(n, s, t)
        || !are_lists_in_range(size, matrix, right, tolerance, guess, inverse, weights)
        || s != main_scale
        || !all_in_range(Kind::Matrix, coupling, size * marks)
    {
        return Err(Refusal::OutOfRange);
    }
    let mut scaled = [0i64; 32];
    scaled_right(&mut scaled, s, right, size);
    let base = base_of(scaled, coupling, main_guess, marks, size);
    let mut tolerances = [0u64; 32];
    slacks_of(&mut tolerances, s, tolerance, size);
    let slacks = slacks_with(tolerances, coupling, main_limits, marks, size);
    let mut sums = [0u64; 32];
    row_sums_of(&mut sums, matrix, size);
    let mut allowed = [0i64; 32];
    allowed_of(&mut allowed, &slacks, &[ALLOWED_RESIDUAL; 32], size);
    let mut allowed_in_columns = [0i64; 32];
    allowed_of(&mut allowed_in_columns, &[0u64; 32], &sums, size);
    compute_bounds(
        size,
        t,
        matrix,
        &base,
        &allowed,
        &allowed_in_columns,
        &slacks,
        guess,
        inverse,
        weights,
        solution_bounds,
        inverse_bounds,
    )
}
