// Doubles in, doubles out (02, Paper 11): the two calls on lists. Each tests everything before it writes anything.
#![tactic(auto)]

ghost use Rattle.std.specs.Prelude.{true, ◌≡◌, ℕ, ◌≤◌, ◌^◌, leb, get_or, length};
ghost use Rattle.integer.specs.Finite.{every};
ghost use Rattle.linear.specs.Slice.{at};
ghost use Rattle.linear.specs.Written.{written};
ghost use Rattle.doubles_guess.specs.Guess.{has_guess, guess_for};
ghost use Rattle.doubles_interval.specs.Interval.{interval_of};
ghost use Rattle.doubles_lists.specs.Lists.{double_at, exchange_sizes};
ghost use Rattle.doubles_lists.specs.Inward.{GuessesOf, incoming};
ghost use Rattle.doubles_lists.specs.Outward.{IntervalsOf, outgoing, SmallIntervals, any_outgoing_short};

use doubles_guess::guess_of;
use doubles_interval::interval_of;
use rules::{COLUMN_LENGTH, Kind, Refusal, all_in_range, is_natural_in_range};

// Why doubles do not become guesses.
#[derive(Clone, Copy)]
pub enum GuessRefusal {
    // 8 or 3
    Refused(Refusal),
    // 19: a double that is not finite, or whose guess leaves its range
    NoGuess,
}

// The greatest limit of a height that goes out.
const MOST_LIMIT: u64 = 1 << 60;

// 3 for n and s.
fn are_sizes_in_range(n: u32, s: u32) -> bool
    ensures { result ≡ exchange_sizes n s }
{
    is_natural_in_range(Kind::Size, n) & is_natural_in_range(Kind::SolutionScale, s)
}

// 19: whether each of the first n doubles gives a guess.
fn all_have_guess(n: usize, s: u32, values: &[f64]) -> bool
    requires { (n ≤ length values.now) × (s ≤ 20) }
    ensures { result ≡ every n (λ (i : ℕ). has_guess s (double_at values.now i)) }
{
    values[..n].iter().all(|&x| guess_of(x, s).is_some())
}

fn write_guesses(n: usize, s: u32, values: &[f64], guess: &mut [i64])
    requires n_in_bounds { (n ≤ length values.now) × ((n ≤ length guess.old) × (s ≤ 20)) }
    requires i_value { every n (λ (i : ℕ). has_guess s (double_at values.now i)) ≡ true }
    ensures { guess.new ≡ written guess.old 0 1 (λ (i : ℕ). guess_for s (double_at values.now i)) n }
{
    for (i, &x) in values[..n].iter().enumerate() {
        guess[i] = guess_of(x, s).unwrap();
    }
}

// Inward: the first n doubles as guesses. Order 8, 3, 19; a refusal leaves the guess list as it was.
pub fn guesses_of(n: u32, s: u32, values: &[f64], guess: &mut [i64]) -> Result<(), GuessRefusal>
    ensures { GuessesOf (incoming n s values.now guess.old) result guess.new }
{
    if values.len() < COLUMN_LENGTH {
        return Err(GuessRefusal::Refused(Refusal::TooShort));
    }
    if guess.len() < COLUMN_LENGTH {
        return Err(GuessRefusal::Refused(Refusal::TooShort));
    }
    if are_sizes_in_range(n, s) {
        let size = n as usize;
        if all_have_guess(size, s, values) {
            write_guesses(size, s, values, guess);
            return Ok(());
        }
        return Err(GuessRefusal::NoGuess);
    }
    Err(GuessRefusal::Refused(Refusal::OutOfRange))
}

// 3 for the limits: whether each of the first n is at most 2^60.
fn all_bounds_in_range(n: usize, bounds: &[u64]) -> bool
    requires { n ≤ length bounds.now }
    ensures { result ≡ every n (λ (i : ℕ). leb (get_or bounds.now i 0) (2 ^ 60)) }
{
    bounds[..n].iter().all(|&e| e <= MOST_LIMIT)
}

fn write_intervals(
    n: usize,
    s: u32,
    guess: &[i64],
    bounds: &[u64],
    low: &mut [f64],
    high: &mut [f64],
)
    requires n_in_bounds { (n ≤ length guess.now) × ((n ≤ length bounds.now) × ((n ≤ length low.old) × (n ≤ length high.old))) }
    requires small_intervals { SmallIntervals n s guess.now bounds.now }
    ensures low_after { low.new ≡ written low.old 0 1 (λ (i : ℕ). (interval_of s (at guess.now i) (get_or bounds.now i 0)).low) n }
    ensures high_after { high.new ≡ written high.old 0 1 (λ (i : ℕ). (interval_of s (at guess.now i) (get_or bounds.now i 0)).high) n }
{
    for (i, &x) in guess[..n].iter().enumerate() {
        let v = interval_of(x, bounds[i], s);
        low[i] = v.low;
        high[i] = v.high;
    }
}

fn is_short(x: usize, e: usize, l: usize, h: usize) -> bool
    ensures { result ≡ any_outgoing_short x e l h }
{
    (x < COLUMN_LENGTH) | ((e < COLUMN_LENGTH) | ((l < COLUMN_LENGTH) | (h < COLUMN_LENGTH)))
}

// Outward: the ends of the first n heights. Order 8, 3; a refusal leaves both lists of ends as they were.
pub fn intervals_of(
    n: u32,
    s: u32,
    guess: &[i64],
    bounds: &[u64],
    low: &mut [f64],
    high: &mut [f64],
) -> Result<(), Refusal>
    ensures { IntervalsOf (outgoing n s guess.now bounds.now low.old high.old) result low.new high.new }
{
    if is_short(guess.len(), bounds.len(), low.len(), high.len()) {
        return Err(Refusal::TooShort);
    }
    if are_sizes_in_range(n, s) {
        let size = n as usize;
        if all_in_range(Kind::Guess, guess, size) {
            if all_bounds_in_range(size, bounds) {
                write_intervals(size, s, guess, bounds, low, high);
                return Ok(());
            }
        }
    }
    Err(Refusal::OutOfRange)
}
