// The tests of 20 and 21 and the ends of common intervals (document 02, Paper 13).
#![tactic(auto)]

ghost use Rattle.std.specs.Prelude.{◌≡◌, [], ◌*◌, ◌≤◌, ◌<◌, ◌^◌, pos, nat_abs, ◌+ℤ◌, ◌-ℤ◌, ◌*ℤ◌, length};
ghost use Rattle.linear.specs.Reach.{ColumnList};
ghost use Rattle.linear.specs.Slice.{at};
ghost use Rattle.linear.specs.Written.{written};
ghost use Rattle.common_spec.specs.Ends.{maxℤ, minℤ};
ghost use Rattle.common_spec.specs.Proposals.{proposal, all_same, same_equations, most_steps};
ghost use Rattle.common_ends.specs.Met.{wide_limits, lows_of, highs_of, Fitting, Met};

use common_spec::CommonRefusal;
use integer::power;

// 2^36: a solution limit above it is 21.
const MOST_STEPS: u64 = 68719476736;

// The heights of an accepted proposal: s of its step, its guess and its solution limits.
#[derive(Clone, Copy)]
pub struct Heights<'a> {
    pub s: u32,
    pub guess: &'a [i64],
    pub limits: &'a [u64; 32],
}

// The two ends of an interval.
#[derive(Clone, Copy)]
pub struct Ends {
    pub low: i64,
    pub high: i64,
}

// Whether the first n numbers of two lists are the same.
fn are_same(xs: &[i64], ys: &[i64], n: usize) -> bool
    requires { (n ≤ length xs.now) × (n ≤ length ys.now) }
    ensures { result ≡ all_same n (at xs.now) (at ys.now) }
{
    xs[..n] == ys[..n]
}

// 20: whether two proposals are of the same equations; only what is used of the lists is compared.
pub fn are_equations_same(
    n1: usize,
    matrix1: &[i64],
    right1: &[i64],
    tolerance1: &[i64],
    n2: usize,
    matrix2: &[i64],
    right2: &[i64],
    tolerance2: &[i64],
) -> bool
    requires n1_bound { (n1 ≤ 32) × ((1024 ≤ length matrix1.now) × (1024 ≤ length matrix2.now)) }
    requires in_bounds { (32 ≤ length right1.now) × (32 ≤ length right2.now) }
    requires in_bounds_2 { (32 ≤ length tolerance1.now) × (32 ≤ length tolerance2.now) }
    ensures { result ≡ same_equations
        (proposal n1 0 0 matrix1.now right1.now tolerance1.now [] [] [])
        (proposal n2 0 0 matrix2.now right2.now tolerance2.now [] [] []) }
{
    n1 == n2
        && are_same(matrix1, matrix2, n1 * n1)
        && are_same(right1, right2, n1)
        && are_same(tolerance1, tolerance2, n1)
}

// 21: whether one of the first n limits is above 2^36.
fn is_wide(limits: &[u64; 32], n: usize) -> bool
    requires { n ≤ 32 }
    ensures { result ≡ wide_limits n limits.now }
{
    limits[..n].iter().any(|&limit| MOST_STEPS < limit)
}

// X − E and X + E of a height, in steps that are 2^k times as fine.
fn ends_of(k: u32, x: i64, e: u64) -> Ends
    requires { (k ≤ 20) × ((nat_abs x ≤ 2 ^ 36) × (e ≤ most_steps)) }
    ensures { (result.low ≡ pos (2 ^ k) *ℤ (x -ℤ pos e)) × (result.high ≡ pos (2 ^ k) *ℤ (x +ℤ pos e)) }
{
    let factor = power(k) as i64;
    let half = e as i64;
    Ends {
        low: factor * (x - half),
        high: factor * (x + half),
    }
}

// What two intervals have in common: the larger lower end and the smaller upper end.
fn common_of(a: Ends, b: Ends) -> Ends
    ensures { (result.low ≡ maxℤ a.low b.low) × (result.high ≡ minℤ a.high b.high) }
{
    Ends {
        low: a.low.max(b.low),
        high: a.high.min(b.high),
    }
}

// Writes the ends of the first n intervals, in steps that are 2^k1 and 2^k2 times as fine as their own.
fn write_ends(
    low: &mut [i64],
    high: &mut [i64],
    n: usize,
    k1: u32,
    first: Heights,
    k2: u32,
    second: Heights,
)
    requires n_bound { (n ≤ 32) × ((n ≤ length low.old) × (n ≤ length high.old)) }
    requires fitting { Fitting n k1 first.guess.now first.limits.now
        × Fitting n k2 second.guess.now second.limits.now }
    ensures low_after { low.new ≡ written low.old 0 1
        (lows_of k1 first.entry.guess.now first.entry.limits.now k2 second.entry.guess.now second.entry.limits.now) n }
    ensures high_after { high.new ≡ written high.old 0 1
        (highs_of k1 first.entry.guess.now first.entry.limits.now k2 second.entry.guess.now second.entry.limits.now) n }
{
    // Six lists go in step, two of them written: a zip of six is no plainer.
    for i in 0..n {
        let both = common_of(
            ends_of(k1, first.guess[i], first.limits[i]),
            ends_of(k2, second.guess[i], second.limits[i]),
        );
        low[i] = both.low;
        high[i] = both.high;
    }
}

// 21, or the ends of the common intervals, in the finer of both steps.
pub fn meet(
    n: usize,
    first: Heights,
    second: Heights,
    low: &mut [i64],
    high: &mut [i64],
) -> Result<(), CommonRefusal>
    requires n_bound { (n ≤ 32) × ((n ≤ length low.old) × (n ≤ length high.old)) }
    requires s1_bound { ((first.s ≤ 20) × (second.s ≤ 20))
        × (ColumnList first.guess.now n (2 ^ 36) × ColumnList second.guess.now n (2 ^ 36)) }
    ensures { Met n first.entry.s first.entry.guess.now first.entry.limits.now
        second.entry.s second.entry.guess.now second.entry.limits.now
        low.old high.old result low.new high.new }
{
    if is_wide(first.limits, n) || is_wide(second.limits, n) {
        return Err(CommonRefusal::TooWide);
    }
    let s = first.s.max(second.s);
    write_ends(low, high, n, s - first.s, first, s - second.s, second);
    Ok(())
}
