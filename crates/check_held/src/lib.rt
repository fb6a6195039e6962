// The check on lists whose limits are held by value: nothing is written until the caller writes it.
#![tactic(auto)]

ghost use Rattle.std.specs.Prelude.{replicate};
ghost use Rattle.check_spec.specs.Input.{input};
ghost use Rattle.check_held.specs.Held.{HeldAs};

use check_lists::check;
use rules::Refusal;

// What the check says, and the limits that it found.
#[derive(Clone, Copy)]
pub struct Held {
    pub outcome: Result<(), Refusal>,
    pub solution: [u64; 32],
    pub inverse: [u64; 1024],
}

// The check on lists into arrays of its own: `check_lists::check`.
pub fn check_held(
    n: u32,
    s: u32,
    t: u32,
    matrix: &[i64],
    right: &[i64],
    tolerance: &[i64],
    guess: &[i64],
    inverse: &[i64],
    weights: &[i64],
) -> Held
    ensures { HeldAs (input n s t matrix.now right.now tolerance.now guess.now
        inverse.now weights.now (replicate 32 0) (replicate 1024 0)) result }
{
    let mut solution_bounds = [0u64; 32];
    let mut inverse_bounds = [0u64; 1024];
    let outcome = check(
        n,
        s,
        t,
        matrix,
        right,
        tolerance,
        guess,
        inverse,
        weights,
        &mut solution_bounds,
        &mut inverse_bounds,
    );
    Held {
        outcome,
        solution: solution_bounds,
        inverse: inverse_bounds,
    }
}
