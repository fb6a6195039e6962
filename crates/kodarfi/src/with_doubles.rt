// Doubles in, doubles out (document 02, Paper 11).
ghost use Rattle.doubles_lists.specs.Inward.{incoming};
ghost use Rattle.doubles_lists.specs.Outward.{outgoing};
ghost use Rattle.calls_spec.specs.Doubles.{GuessesExported, IntervalsExported};

use doubles_lists::{guesses_of, intervals_of};
use reply::guesses::guessed_reply;
use reply::{outcome_reply, write_reply};

// Doubles in: `doubles_lists::guesses_of`.
#[unsafe(no_mangle)]
pub extern "C" fn kodarfi_guesses(
    n: u32,
    s: u32,
    values: &[f64],
    guess: &mut [i64],
    places: &mut [u64; 2],
) -> u32
    ensures { GuessesExported (incoming n s values.now guess.old) result places.new guess.new }
{
    let guessed = guesses_of(n, s, values, guess);
    write_reply(guessed_reply(guessed), places)
}

// Doubles out: `doubles_lists::intervals_of`.
#[unsafe(no_mangle)]
pub extern "C" fn kodarfi_intervals(
    n: u32,
    s: u32,
    guess: &[i64],
    bounds: &[u64],
    low: &mut [f64],
    high: &mut [f64],
    places: &mut [u64; 2],
) -> u32
    ensures { IntervalsExported (outgoing n s guess.now bounds.now low.old high.old) result places.new low.new high.new }
{
    let outcome = intervals_of(n, s, guess, bounds, low, high);
    write_reply(outcome_reply(outcome), places)
}
