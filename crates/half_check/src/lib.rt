// The check of a symmetric matrix that is handed in by its lower half (document 02, Paper 10).
#![tactic(auto)]

ghost use Rattle.check_spec.specs.Input.{input};
ghost use Rattle.half_check.specs.Checked.{CheckedHalf};

use check_lists::check;
use half_fill::{HALF_LENGTH, fill_out};
use rules::Refusal;

// The check of the filled-out matrix. Order 8, 3, 5, 6, 7; where n is out of range the half is not read.
pub fn check_half(
    n: u32,
    s: u32,
    t: u32,
    half: &[i64],
    right: &[i64],
    tolerance: &[i64],
    guess: &[i64],
    inverse: &[i64],
    weights: &[i64],
    solution_bounds: &mut [u64],
    inverse_bounds: &mut [u64],
) -> Result<(), Refusal>
    ensures { CheckedHalf (input n s t half.now right.now tolerance.now guess.now
        inverse.now weights.now solution_bounds.old inverse_bounds.old)
        result solution_bounds.new inverse_bounds.new }
{
    if half.len() < HALF_LENGTH {
        return Err(Refusal::TooShort);
    }
    let matrix = fill_out(n, half);
    check(
        n,
        s,
        t,
        &matrix,
        right,
        tolerance,
        guess,
        inverse,
        weights,
        solution_bounds,
        inverse_bounds,
    )
}
