// The calls on a matrix by its lower half (document 02, Paper 10).
ghost use Rattle.check_spec.specs.Input.{input};
ghost use Rattle.build_equations.specs.declared.Layout.TheVariants.{Lower};
ghost use Rattle.calls_spec.specs.Build.{BuildExported};
ghost use Rattle.calls_spec.specs.Half.{HalfExported};

use build::build;
use build_equations::Layout;
use build_lines::Observation;
use half_check::check_half;
use reply::{built_number, outcome_reply, write_reply};

// The check of a matrix by its lower half: `half_check::check_half`.
#[unsafe(no_mangle)]
pub extern "C" fn kodarfi_check_half(
    n: u32,
    s: u32,
    t: u32,
    half: &[i64],
    right: &[i64],
    tolerance: &[i64],
    guess: &[i64],
    inverse: &[i64],
    weights: &[i64],
    solution_bounds: &mut [u64],
    inverse_bounds: &mut [u64],
    places: &mut [u64; 2],
) -> u32
    ensures { HalfExported
        (input n s t half.now right.now tolerance.now guess.now inverse.now
        weights.now solution_bounds.old inverse_bounds.old)
        result places.new solution_bounds.new inverse_bounds.new }
{
    let outcome = check_half(
        n,
        s,
        t,
        half,
        right,
        tolerance,
        guess,
        inverse,
        weights,
        solution_bounds,
        inverse_bounds,
    );
    write_reply(outcome_reply(outcome), places)
}

// Equations from the field lines: `build::build`, the matrix by its lower half.
#[unsafe(no_mangle)]
pub extern "C" fn kodarfi_build_half(
    n: u32,
    observations: &[Observation],
    half: &mut [i64],
    right: &mut [i64],
) -> u32
    ensures { BuildExported n observations.now Lower half.old right.old result half.new right.new }
{
    built_number(build(n, observations, Layout::Lower, half, right))
}
