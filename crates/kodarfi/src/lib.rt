// The functions that other languages link: total, over numbers and slices, with document 01's number as their result (include/kodarfi.h).
#![tactic(auto)]

ghost use Rattle.check_spec.specs.Input.{input};
ghost use Rattle.weights_spec.specs.Request.{request};
ghost use Rattle.build_equations.specs.declared.Layout.TheVariants.{Square};
ghost use Rattle.calls_spec.specs.Exported.{CheckExported, ListingExported, EntryExported};
ghost use Rattle.calls_spec.specs.Weights.{SearchExported};
ghost use Rattle.calls_spec.specs.Build.{BuildExported};

use build::build;
use build_equations::Layout;
use build_lines::Observation;
use check_lists::check;
use entry::register_entry;
use listing::answer_file;
use listing_refusal::{no_refusal, reply_of};
use reply::searches::{found_reply, tried_or};
use reply::{built_number, outcome_reply, write_reply};
use weights_search::find_weights;

mod half_matrix;
mod how_good;
mod line_by_line;
mod old_files;
mod two_nets;
mod two_proposals;
mod which_line;
mod with_doubles;

// The check on lists: `check_lists::check`.
#[unsafe(no_mangle)]
pub extern "C" fn kodarfi_check(
    n: u32,
    s: u32,
    t: u32,
    matrix: &[i64],
    right: &[i64],
    tolerance: &[i64],
    guess: &[i64],
    inverse: &[i64],
    weights: &[i64],
    solution_bounds: &mut [u64],
    inverse_bounds: &mut [u64],
    places: &mut [u64; 2],
) -> u32
    ensures { CheckExported
        (input n s t matrix.now right.now tolerance.now guess.now inverse.now
        weights.now solution_bounds.old inverse_bounds.old)
        result places.new solution_bounds.new inverse_bounds.new }
{
    let outcome = check(
        n,
        s,
        t,
        matrix,
        right,
        tolerance,
        guess,
        inverse,
        weights,
        solution_bounds,
        inverse_bounds,
    );
    write_reply(outcome_reply(outcome), places)
}

// The listing of a file, and its answer in numbers: `listing::answer_file`.
#[unsafe(no_mangle)]
pub extern "C" fn kodarfi_listing(
    file: &[u8],
    listing: &mut [u8; 32768],
    written: &mut usize,
    places: &mut [u64; 2],
) -> u32
    ensures { ListingExported file.now listing.old result places.new listing.new written.new }
{
    let answer = answer_file(file, listing);
    *written = answer.length;
    write_reply(answer.reply, places)
}

// The register entry of a guess and its limit: `entry::register_entry`.
#[unsafe(no_mangle)]
pub extern "C" fn kodarfi_entry(
    guess: i64,
    bound: u64,
    s: u32,
    value: &mut i64,
    value_bound: &mut u64,
    places: &mut [u64; 2],
) -> u32
    ensures { EntryExported guess bound s value.old value_bound.old
        result places.new value.new value_bound.new }
{
    match register_entry(guess, bound, s) {
        Ok(entry) => {
            *value = entry.value;
            *value_bound = entry.limit;
            write_reply(no_refusal(), places)
        }
        Err(refusal) => write_reply(reply_of(refusal, 0), places),
    }
}

// Weights found by the program: `weights_search::find_weights`.
#[unsafe(no_mangle)]
pub extern "C" fn kodarfi_find_weights(
    n: u32,
    t: u32,
    matrix: &[i64],
    inverse: &[i64],
    allowance: u32,
    weights: &mut [i64],
    tried: &mut u32,
    places: &mut [u64; 2],
) -> u32
    ensures { SearchExported (request n t matrix.now inverse.now allowance weights.old) tried.old result places.new tried.new weights.new }
{
    let found = find_weights(n, t, matrix, inverse, allowance, weights);
    *tried = tried_or(found, *tried);
    write_reply(found_reply(found), places)
}

// Equations from the field lines: `build::build`, the matrix square.
#[unsafe(no_mangle)]
pub extern "C" fn kodarfi_build(
    n: u32,
    observations: &[Observation],
    matrix: &mut [i64],
    right: &mut [i64],
) -> u32
    ensures { BuildExported n observations.now Square matrix.old right.old result matrix.new right.new }
{
    built_number(build(n, observations, Layout::Square, matrix, right))
}
