// A loader with its lists, by value; lines it takes, and checks of what it holds. Nothing is printed here.
ghost use Rattle.std.specs.Prelude.{◌≡◌, ◌≤◌, length};

use loader::Loader;
use rules::Refusal;

// What stands in the limit lists before a check: no limit is as large.
pub const UNWRITTEN: u64 = 1152921504606846977;

// The outcome is that of the line taken last.
#[derive(Clone, Copy)]
pub struct Loaded {
    pub loader: Loader,
    pub matrix: [i64; 1024],
    pub right: [i64; 32],
    pub tolerance: [i64; 32],
    pub guess: [i64; 32],
    pub inverse: [i64; 1024],
    pub weights: [i64; 32],
    pub outcome: Result<(), Refusal>,
}

// What a check answered, and the limit lists after it.
#[derive(Clone, Copy)]
pub struct Limits {
    pub outcome: Result<(), Refusal>,
    pub solution: [u64; 32],
    pub inverse: [u64; 1024],
}

pub fn marked() -> [i64; 32]
    ensures { 32 ≡ length result }
{
    [-7; 32]
}

pub fn marked_matrix() -> [i64; 1024]
    ensures { 1024 ≡ length result }
{
    [-7; 1024]
}

pub fn fresh() -> Loaded {
    let matrix = marked_matrix();
    let list = marked();
    Loaded {
        loader: Loader::new(),
        matrix,
        right: list,
        tolerance: list,
        guess: list,
        inverse: matrix,
        weights: list,
        outcome: Ok(()),
    }
}

// A length, one less where the list is to be too short.
pub fn less_where(n: usize, short: bool) -> usize
    requires { 1 ≤ n }
    ensures { result ≤ n }
{
    if short { n - 1 } else { n }
}

// Takes a line; of the lists 0 to 5 the one named is too short.
pub fn take(held: &mut Loaded, line: &[u8], short: u8) {
    let mut next = *held;
    let taken = next.loader.take(
        line,
        &mut next.matrix[..less_where(1024, short == b'0')],
        &mut next.right[..less_where(32, short == b'1')],
        &mut next.tolerance[..less_where(32, short == b'2')],
        &mut next.guess[..less_where(32, short == b'3')],
        &mut next.inverse[..less_where(1024, short == b'4')],
        &mut next.weights[..less_where(32, short == b'5')],
    );
    next.loader = taken.loader;
    next.outcome = taken.outcome;
    *held = next;
}

// A check through the loader, with a solution limit list that is long enough or too short.
pub fn checked_through(held: &Loaded, short: bool) -> Limits {
    let mut solution = [UNWRITTEN; 32];
    let mut inverse = [UNWRITTEN; 1024];
    let outcome = held.loader.check(
        &held.matrix,
        &held.right,
        &held.tolerance,
        &held.guess,
        &held.inverse,
        &held.weights,
        &mut solution[..less_where(32, short)],
        &mut inverse,
    );
    Limits {
        outcome,
        solution,
        inverse,
    }
}

// A check on the lists.
pub fn checked_on_lists(held: &Loaded, n: u32, s: u32, t: u32) -> Limits {
    let mut solution = [UNWRITTEN; 32];
    let mut inverse = [UNWRITTEN; 1024];
    let outcome = check_lists::check(
        n,
        s,
        t,
        &held.matrix,
        &held.right,
        &held.tolerance,
        &held.guess,
        &held.inverse,
        &held.weights,
        &mut solution,
        &mut inverse,
    );
    Limits {
        outcome,
        solution,
        inverse,
    }
}
