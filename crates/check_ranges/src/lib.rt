// The tests of a check on lists: 8, 3, and the order of 5, 6 and 7.
#![tactic(auto)]

ghost use Rattle.std.specs.Prelude.{◌≡◌, true, ◌≤◌, ◌<◌, length};
ghost use Rattle.std.specs.Int.Signed.{mag};
ghost use Rattle.rules.specs.Range.{all_in_range};
ghost use Rattle.rules.specs.declared.Kind.TheVariants as kind;
ghost use Rattle.linear.specs.Slice.{at};
ghost use Rattle.rules.specs.Order.{verdict};
ghost use Rattle.rules.specs.Refusal.{code};
ghost use Rattle.check_spec.specs.Input.{any_short, sizes_in_range, lists_in_range};
ghost use Rattle.check_spec.specs.Order.{computed};

use rules::{COLUMN_LENGTH, Kind, MATRIX_LENGTH, Refusal, all_in_range, is_natural_in_range};

// 8: whether a list of one of these lengths is too short.
pub fn is_short(
    a: usize,
    b: usize,
    d: usize,
    x: usize,
    g: usize,
    w: usize,
    e: usize,
    l: usize,
) -> bool
    ensures { result ≡ any_short a b d x g w e l }
{
    (a < MATRIX_LENGTH)
        | ((b < COLUMN_LENGTH)
            | ((d < COLUMN_LENGTH)
                | ((x < COLUMN_LENGTH)
                    | ((g < MATRIX_LENGTH)
                        | ((w < COLUMN_LENGTH) | ((e < COLUMN_LENGTH) | (l < MATRIX_LENGTH)))))))
}

// 3 for n, s and t.
pub fn are_sizes_in_range(n: u32, s: u32, t: u32) -> bool
    ensures { result ≡ sizes_in_range n s t }
{
    is_natural_in_range(Kind::Size, n)
        & (is_natural_in_range(Kind::SolutionScale, s) & is_natural_in_range(Kind::InverseScale, t))
}

// x where it is 0 or more, otherwise −1 − x: no i64 is too large for it.
fn folded(x: i64) -> u64
    ensures { result ≡ mag x }
{
    if x < 0 { (-1 - x) as u64 } else { x as u64 }
}

// One step of the quick test: the bits of all, x and y in one number, which is at least each of the three.
fn add_pair(all: u64, x: i64, y: i64) -> u64
    ensures { (all ≤ result) × ((mag x ≤ result) × (mag y ≤ result)) }
{
    all | (folded(x) | folded(y))
}

// A quick test: true only where the first n numbers of a matrix and of an inverse are in range. One comparison is made, of the bits of all numbers.
fn are_small(xs: &[i64], ys: &[i64], n: usize) -> bool
    requires { (n ≤ length xs.now) × (n ≤ length ys.now) }
    ensures { result ≡ true → (all_in_range kind.Matrix n (at xs.now) ≡ true) × (all_in_range kind.Inverse n (at ys.now) ≡ true) }
{
    let mut all: u64 = 0;
    for i in 0..n {
        all = add_pair(all, xs[i], ys[i]);
    }
    all < 1048576
}

// Whether the first n numbers are in the range of their kind, which may be known already.
fn are_in_range(known: bool, kind: Kind, xs: &[i64], n: usize) -> bool
    requires n_in_bounds { n ≤ length xs.now }
    requires xs_value { known ≡ true → all_in_range kind n (at xs.now) ≡ true }
    ensures { result ≡ all_in_range kind n (at xs.now) }
{
    if known {
        return true;
    }
    all_in_range(kind, xs, n)
}

// 3 for the numbers of the lists that are used.
pub fn are_lists_in_range(
    n: usize,
    matrix: &[i64],
    right: &[i64],
    tolerance: &[i64],
    guess: &[i64],
    inverse: &[i64],
    weights: &[i64],
) -> bool
    requires n_bound { n ≤ 32 }
    requires in_bounds { (1024 ≤ length matrix.now) × ((32 ≤ length right.now) × ((32 ≤ length tolerance.now) × ((32 ≤ length guess.now)
        × ((1024 ≤ length inverse.now) × (32 ≤ length weights.now))))) }
    ensures { result ≡ lists_in_range n matrix.now right.now tolerance.now guess.now
        inverse.now weights.now }
{
    let size = n * n;
    let small = are_small(matrix, inverse, size);
    if are_in_range(small, Kind::Matrix, matrix, size) {
        if all_in_range(Kind::Right, right, n) {
            if all_in_range(Kind::Tolerance, tolerance, n) {
                if all_in_range(Kind::Guess, guess, n) {
                    if are_in_range(small, Kind::Inverse, inverse, size) {
                        return all_in_range(Kind::Weight, weights, n);
                    }
                }
            }
        }
    }
    false
}

// 5, 6 and 7 in their order, from the first row of each; n, or n·n, where there is none.
pub fn judge(n: usize, m: usize, k: usize, i: usize) -> Result<(), Refusal>
    requires { (0 < n) × (n ≤ 32) }
    ensures { code result ≡ verdict (computed n m k i) }
{
    if m < n {
        return Err(Refusal::Margin(m as u32 + 1));
    }
    if k < n {
        return Err(Refusal::Residual(k as u32 + 1));
    }
    if i < n * n {
        return Err(Refusal::InverseResidual((i / n) as u32 + 1, (i % n) as u32 + 1));
    }
    Ok(())
}
