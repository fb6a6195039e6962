// The check of a file whose lines are all accepted: what it says, as a line, or the report.
#![tactic(auto)]

ghost use Rattle.std.specs.Prelude.{◌≤◌, length};
ghost use Rattle.loader_lists.specs.Lists.{lists};
ghost use Rattle.listing_refusal.specs.Answered.{Answered};
ghost use Rattle.loader_runs.specs.Run.{state_with};
ghost use Rattle.file_check.specs.Shown.{code_of, shown_of};

use listing_refusal::{FileAnswer, no_refusal, put_refusal};
use listing_report::put_report;
use loader::Loader;

// What the check of a loader and its lists says, or the report; 15 where the file stopped before an end.
pub fn put_checked(
    out: &mut [u8],
    loader: Loader,
    matrix: &[i64],
    right: &[i64],
    tolerance: &[i64],
    guess: &[i64],
    inverse: &[i64],
    weights: &[i64],
) -> FileAnswer
    requires { 32768 ≤ length out.old }
    ensures { Answered
        (code_of (state_with loader (lists matrix.now right.now tolerance.now guess.now inverse.now weights.now)))
        (shown_of (state_with loader (lists matrix.now right.now tolerance.now guess.now inverse.now weights.now)))
        out.old out.new result }
{
    let mut solution_bounds = [0u64; 32];
    let mut inverse_bounds = [0u64; 1024];
    match loader.check(
        matrix,
        right,
        tolerance,
        guess,
        inverse,
        weights,
        &mut solution_bounds,
        &mut inverse_bounds,
    ) {
        Err(refusal) => put_refusal(out, refusal, 0),
        Ok(()) => {
            let n = loader.size() as usize;
            let s = loader.solution_scale();
            let length = put_report(out, n, s, guess, &solution_bounds, &inverse_bounds);
            FileAnswer {
                reply: no_refusal(),
                length,
            }
        }
    }
}
