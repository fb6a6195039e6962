// A loader in nine numbers that a caller lends (01: desk), for callers that cannot hold the struct.
#![tactic(auto)]

ghost use Rattle.std.specs.Prelude.{◌≡◌};
ghost use Rattle.check_spec.specs.Input.{input};
ghost use Rattle.loader_lists.specs.Lists.{lists};
ghost use Rattle.loader_order.specs.Through.{CheckedThrough};
ghost use Rattle.loader.specs.Taken.{fresh, loader_of, numbers_of_loader};
ghost use Rattle.loader_numbers.specs.Taken.{LoaderTaken};

use loader::Loader;
use rules::Refusal;

// A loader that was given nothing.
pub fn renew(loader: &mut [u32; 9])
    ensures { loader.new ≡ numbers_of_loader fresh }
{
    *loader = Loader::new().numbers();
}

// One line without its line feed, taken by the loader that the numbers stand for (`Loader::take`). A refused line leaves the numbers.
pub fn take(
    loader: &mut [u32; 9],
    line: &[u8],
    matrix: &mut [i64],
    right: &mut [i64],
    tolerance: &mut [i64],
    guess: &mut [i64],
    inverse: &mut [i64],
    weights: &mut [i64],
) -> Result<(), Refusal>
    ensures { LoaderTaken loader.old line.now
        (lists matrix.old right.old tolerance.old guess.old inverse.old
        weights.old)
        result loader.new
        (lists matrix.new right.new tolerance.new guess.new inverse.new
        weights.new) }
{
    let taken = Loader::from_numbers(*loader).take(
        line, matrix, right, tolerance, guess, inverse, weights,
    );
    taken.outcome?;
    *loader = taken.loader.numbers();
    Ok(())
}

// The check of what was collected (`Loader::check`).
pub fn check(
    loader: &[u32; 9],
    matrix: &[i64],
    right: &[i64],
    tolerance: &[i64],
    guess: &[i64],
    inverse: &[i64],
    weights: &[i64],
    solution_bounds: &mut [u64],
    inverse_bounds: &mut [u64],
) -> Result<(), Refusal>
    ensures { CheckedThrough (loader_of loader.now).stage
        (input (loader_of loader.now).n (loader_of loader.now).s (loader_of loader.now).t
        matrix.now right.now tolerance.now guess.now
        inverse.now weights.now solution_bounds.old inverse_bounds.old)
        result solution_bounds.new inverse_bounds.new }
{
    Loader::from_numbers(*loader).check(
        matrix,
        right,
        tolerance,
        guess,
        inverse,
        weights,
        solution_bounds,
        inverse_bounds,
    )
}
