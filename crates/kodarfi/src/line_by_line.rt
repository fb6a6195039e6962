// The loader (01: desk), for callers that hand over a file's lines one at a time. Its state stands in nine numbers that the caller lends.
ghost use Rattle.std.specs.Prelude.{◌≡◌};
ghost use Rattle.check_spec.specs.Input.{input};
ghost use Rattle.loader_lists.specs.Lists.{lists};
ghost use Rattle.loader.specs.Taken.{fresh, numbers_of_loader, loader_of};
ghost use Rattle.calls_spec.specs.Exported.{LoaderTakeExported, LoaderCheckExported};

use loader_numbers::{check, renew, take};
use reply::{outcome_reply, write_reply};

// A loader that was given nothing: `loader_numbers::renew`.
#[unsafe(no_mangle)]
pub extern "C" fn kodarfi_loader_new(loader: &mut [u32; 9])
    ensures { loader.new ≡ numbers_of_loader fresh }
{
    renew(loader);
}

// One line without its line feed: `loader_numbers::take`.
#[unsafe(no_mangle)]
pub extern "C" fn kodarfi_loader_take(
    loader: &mut [u32; 9],
    line: &[u8],
    matrix: &mut [i64],
    right: &mut [i64],
    tolerance: &mut [i64],
    guess: &mut [i64],
    inverse: &mut [i64],
    weights: &mut [i64],
    places: &mut [u64; 2],
) -> u32
    ensures { LoaderTakeExported loader.old line.now
        (lists matrix.old right.old tolerance.old guess.old inverse.old weights.old)
        result places.new loader.new
        (lists matrix.new right.new tolerance.new guess.new inverse.new weights.new) }
{
    let outcome = take(
        loader, line, matrix, right, tolerance, guess, inverse, weights,
    );
    write_reply(outcome_reply(outcome), places)
}

// The check of what was collected: `loader_numbers::check`.
#[unsafe(no_mangle)]
pub extern "C" fn kodarfi_loader_check(
    loader: &[u32; 9],
    matrix: &[i64],
    right: &[i64],
    tolerance: &[i64],
    guess: &[i64],
    inverse: &[i64],
    weights: &[i64],
    solution_bounds: &mut [u64],
    inverse_bounds: &mut [u64],
    places: &mut [u64; 2],
) -> u32
    ensures { LoaderCheckExported (loader_of loader.now).stage
        (input (loader_of loader.now).n (loader_of loader.now).s (loader_of loader.now).t
        matrix.now right.now tolerance.now guess.now inverse.now
        weights.now solution_bounds.old inverse_bounds.old)
        result places.new solution_bounds.new inverse_bounds.new }
{
    let outcome = check(
        loader,
        matrix,
        right,
        tolerance,
        guess,
        inverse,
        weights,
        solution_bounds,
        inverse_bounds,
    );
    write_reply(outcome_reply(outcome), places)
}
