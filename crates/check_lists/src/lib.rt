// The check on lists (document 01, "The checker's task").
#![tactic(auto)]

ghost use Rattle.std.specs.Prelude.{◌+◌, ◌*◌, ◌≤◌, length};
ghost use Rattle.check_spec.specs.Checked.{Checked};
ghost use Rattle.check_spec.specs.Input.{input};
ghost use Rattle.check_lists.specs.Work.{work, Workable, ComputedAs};

use check_allowances::{allowed_of, row_sums_of, slacks_of};
use check_biased_rows::bias_rows;
use check_bounds::{column_bounds, store};
use check_defects::inverse_residuals_of;
use check_inverse_bounds::store_columns;
use check_margins::{first_zero, margins_of};
use check_ranges::{are_lists_in_range, are_sizes_in_range, is_short, judge};
use check_ratios::caps_of;
use check_residuals::{first_above, first_above_in_columns, residuals_of, scaled_right};
use check_symmetry::are_symmetric;
use rules::Refusal;

// The reckoning of what passes 8 and 3, from a base of the residuals, what is allowed of them and of the inverse's columns, and their slacks: all refusals are
// decided before the first limit is written. Three lists to work in are lent: the biased rows of the inverse, its residuals, and the absolute values of p.
fn compute_bounds_in(
    rows: &mut [u64],
    columns: &mut [i64],
    magnitudes: &mut [u64],
    n: usize,
    t: u32,
    matrix: &[i64],
    base: &[i64; 32],
    allowed: &[i64; 32],
    allowed_in_columns: &[i64; 32],
    slacks: &[u64; 32],
    guess: &[i64],
    inverse: &[i64],
    weights: &[i64],
    solution_bounds: &mut [u64],
    inverse_bounds: &mut [u64],
) -> Result<(), Refusal>
    requires n_in_bounds { (n * (n + 1) ≤ length rows.old) × ((n * n ≤ length columns.old) × (n * n ≤ length magnitudes.old)) }
    requires workable { Workable (work n t matrix.now base.now allowed.now allowed_in_columns.now slacks.now guess.now inverse.now
        weights.now solution_bounds.old inverse_bounds.old) }
    ensures { ComputedAs (work n t matrix.now base.now allowed.now allowed_in_columns.now
        slacks.now guess.now inverse.now weights.now solution_bounds.old inverse_bounds.old)
        result solution_bounds.new inverse_bounds.new }
{
    bias_rows(rows, inverse, n);
    inverse_residuals_of(columns, t, matrix, rows, n);
    let symmetric = are_symmetric(matrix, inverse, n);
    let mut margins = [0u64; 32];
    margins_of(
        &mut margins,
        t,
        matrix,
        inverse,
        columns,
        symmetric,
        weights,
        n,
    );
    let mut residuals = [0i64; 32];
    residuals_of(&mut residuals, base, matrix, guess, n);
    let m = first_zero(&margins, n);
    let k = first_above(&residuals, 0, allowed, n);
    let i = first_above_in_columns(columns, allowed_in_columns, n);
    judge(n, m, k, i)?;
    let mut caps = [0u64; 32];
    caps_of(&mut caps, &margins, weights, n);
    let column = column_bounds(rows, &residuals, slacks, &margins, &caps, weights, n);
    store(solution_bounds, 0, 1, column, n);
    store_columns(
        inverse_bounds,
        rows,
        columns,
        magnitudes,
        symmetric,
        &margins,
        &caps,
        weights,
        n,
    );
    Ok(())
}

// The same in lists of its own. Filling long ones takes longer than the rest where n is small, so there are three lengths of them.
pub fn compute_bounds(
    n: usize,
    t: u32,
    matrix: &[i64],
    base: &[i64; 32],
    allowed: &[i64; 32],
    allowed_in_columns: &[i64; 32],
    slacks: &[u64; 32],
    guess: &[i64],
    inverse: &[i64],
    weights: &[i64],
    solution_bounds: &mut [u64],
    inverse_bounds: &mut [u64],
) -> Result<(), Refusal>
    requires { Workable (work n t matrix.now base.now allowed.now allowed_in_columns.now slacks.now guess.now inverse.now
        weights.now solution_bounds.old inverse_bounds.old) }
    ensures { ComputedAs (work n t matrix.now base.now allowed.now allowed_in_columns.now
        slacks.now guess.now inverse.now weights.now solution_bounds.old inverse_bounds.old)
        result solution_bounds.new inverse_bounds.new }
{
    if n <= 8 {
        let mut rows = [0u64; 72];
        let mut columns = [0i64; 64];
        let mut magnitudes = [0u64; 64];
        return compute_bounds_in(
            &mut rows,
            &mut columns,
            &mut magnitudes,
            n,
            t,
            matrix,
            base,
            allowed,
            allowed_in_columns,
            slacks,
            guess,
            inverse,
            weights,
            solution_bounds,
            inverse_bounds,
        );
    }
    if n <= 16 {
        let mut rows = [0u64; 272];
        let mut columns = [0i64; 256];
        let mut magnitudes = [0u64; 256];
        return compute_bounds_in(
            &mut rows,
            &mut columns,
            &mut magnitudes,
            n,
            t,
            matrix,
            base,
            allowed,
            allowed_in_columns,
            slacks,
            guess,
            inverse,
            weights,
            solution_bounds,
            inverse_bounds,
        );
    }
    let mut rows = [0u64; 1056];
    let mut columns = [0i64; 1024];
    let mut magnitudes = [0u64; 1024];
    compute_bounds_in(
        &mut rows,
        &mut columns,
        &mut magnitudes,
        n,
        t,
        matrix,
        base,
        allowed,
        allowed_in_columns,
        slacks,
        guess,
        inverse,
        weights,
        solution_bounds,
        inverse_bounds,
    )
}

// The check on lists. Order 8, 3, 5, 6, 7; a refusal leaves both limit lists as they were.
pub fn check(
    n: u32,
    s: u32,
    t: u32,
    matrix: &[i64],
    right: &[i64],
    tolerance: &[i64],
    guess: &[i64],
    inverse: &[i64],
    weights: &[i64],
    solution_bounds: &mut [u64],
    inverse_bounds: &mut [u64],
) -> Result<(), Refusal>
    ensures { Checked (input n s t matrix.now right.now tolerance.now guess.now
        inverse.now weights.now solution_bounds.old inverse_bounds.old)
        result solution_bounds.new inverse_bounds.new }
{
    if is_short(
        matrix.len(),
        right.len(),
        tolerance.len(),
        guess.len(),
        inverse.len(),
        weights.len(),
        solution_bounds.len(),
        inverse_bounds.len(),
    ) {
        return Err(Refusal::TooShort);
    }
    if are_sizes_in_range(n, s, t) {
        let size = n as usize;
        if are_lists_in_range(size, matrix, right, tolerance, guess, inverse, weights) {
            let mut slacks = [0u64; 32];
            slacks_of(&mut slacks, s, tolerance, size);
            let mut sums = [0u64; 32];
            row_sums_of(&mut sums, matrix, size);
            let mut base = [0i64; 32];
            scaled_right(&mut base, s, right, size);
            let mut allowed = [0i64; 32];
            allowed_of(&mut allowed, &slacks, &sums, size);
            let mut allowed_in_columns = [0i64; 32];
            allowed_of(&mut allowed_in_columns, &[0u64; 32], &sums, size);
            return compute_bounds(
                size,
                t,
                matrix,
                &base,
                &allowed,
                &allowed_in_columns,
                &slacks,
                guess,
                inverse,
                weights,
                solution_bounds,
                inverse_bounds,
            );
        }
    }
    Err(Refusal::OutOfRange)
}
